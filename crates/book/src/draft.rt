ghost use Rattle.std.specs.Prelude.{◌≡◌, ℕ, List};
ghost use Rattle.model.specs.Answers.{opened, edited, tossed};
ghost use Rattle.model.specs.Book.{book_step};
ghost use Rattle.model.specs.Calls.{open_version, edit, put_piece, put_version};
ghost use Rattle.model.specs.Calls as calls;
ghost use Rattle.model.specs.Histories.{BookGoesOn};
ghost use Rattle.book.specs.Faults.{answer};
ghost use Rattle.book.specs.Receipts.{edit_answer, receipt, keep_answer, HandedBack, Opened};
ghost use Rattle.book.specs.Whole.{view};

use crate::book::Book;
use crate::book::drafts::Kept;
use crate::fault::BookFault;

// The receipt of an open draft, which can be neither copied nor let go: each edit takes it and gives the next one,
// and keep or toss ends it. It holds the number of the version that was opened; no call decides by it.
pub struct Draft {
    version: usize,
}

impl Draft {
    // What an edit came to, with the receipt. A match, since each arm moves the receipt.
    fn with(self, edit: Result<usize, BookFault>) -> Result<(Draft, usize), (Draft, BookFault)>
        ensures told { edit_answer result ≡ answer edited edit }
        ensures same { receipt result ≡ self }
    {
        match edit {
            Ok(made) => Ok((self, made)),
            Err(fault) => Err((self, fault)),
        }
    }

    // Opens a draft of a kept version.
    pub fn open(book: &mut Book, version: usize) -> Result<Draft, BookFault>
        ensures steps { (texts : List (List ℕ)) → book_step texts (view book.old) (open_version version) ≡ (answer (λ _. opened) result, view book.new) }
        ensures history { (texts : List (List ℕ)) → BookGoesOn texts (view book.old) (open_version version) (answer (λ _. opened) result) (view book.new) }
        ensures holds { Opened version result }
    {
        book.open(version)?;
        Ok(Draft { version })
    }

    // Puts `len` bytes of a text, at `from` in it, into the draft at `place`.
    pub fn put_piece(
        self,
        book: &mut Book,
        place: usize,
        text: usize,
        from: usize,
        len: usize,
    ) -> Result<(Draft, usize), (Draft, BookFault)>
        ensures steps { (texts : List (List ℕ)) → book_step texts (view book.old) (edit (put_piece place text from len)) ≡ (edit_answer result, view book.new) }
        ensures history { (texts : List (List ℕ)) → BookGoesOn texts (view book.old) (edit (put_piece place text from len)) (edit_answer result) (view book.new) }
        ensures same { receipt result ≡ self }
    {
        self.with(book.put_piece(place, text, from, len))
    }

    // Puts a kept version into the draft at `place`.
    pub fn put_version(
        self,
        book: &mut Book,
        place: usize,
        version: usize,
    ) -> Result<(Draft, usize), (Draft, BookFault)>
        ensures steps { (texts : List (List ℕ)) → book_step texts (view book.old) (edit (put_version place version)) ≡ (edit_answer result, view book.new) }
        ensures history { (texts : List (List ℕ)) → BookGoesOn texts (view book.old) (edit (put_version place version)) (edit_answer result) (view book.new) }
        ensures same { receipt result ≡ self }
    {
        self.with(book.put_version(place, version))
    }

    // Drops `len` bytes of the draft at `from`.
    pub fn cut(
        self,
        book: &mut Book,
        from: usize,
        len: usize,
    ) -> Result<(Draft, usize), (Draft, BookFault)>
        ensures steps { (texts : List (List ℕ)) → book_step texts (view book.old) (edit (calls.cut from len)) ≡ (edit_answer result, view book.new) }
        ensures history { (texts : List (List ℕ)) → BookGoesOn texts (view book.old) (edit (calls.cut from len)) (edit_answer result) (view book.new) }
        ensures same { receipt result ≡ self }
    {
        self.with(book.cut(from, len))
    }

    // Drops all of the draft but `len` bytes at `from`.
    pub fn crop(
        self,
        book: &mut Book,
        from: usize,
        len: usize,
    ) -> Result<(Draft, usize), (Draft, BookFault)>
        ensures steps { (texts : List (List ℕ)) → book_step texts (view book.old) (edit (calls.crop from len)) ≡ (edit_answer result, view book.new) }
        ensures history { (texts : List (List ℕ)) → BookGoesOn texts (view book.old) (edit (calls.crop from len)) (edit_answer result) (view book.new) }
        ensures same { receipt result ≡ self }
    {
        self.with(book.crop(from, len))
    }

    // Makes the draft the next version, which ends the receipt. A refusal hands it back.
    pub fn keep(self, book: &mut Book) -> Result<Kept, (Draft, BookFault)>
        ensures steps { (texts : List (List ℕ)) → book_step texts (view book.old) calls.keep ≡ (keep_answer result, view book.new) }
        ensures history { (texts : List (List ℕ)) → BookGoesOn texts (view book.old) calls.keep (keep_answer result) (view book.new) }
        ensures handed { HandedBack self result }
    {
        // A match, since each arm moves the receipt.
        match book.keep() {
            Ok(kept) => {
                let Draft { version: _ } = self;
                Ok(kept)
            }
            Err(fault) => Err((self, fault)),
        }
    }

    // Ends the draft and frees the slots that it made. The receipt ends even where no draft is open.
    pub fn toss(self, book: &mut Book) -> Result<(), BookFault>
        ensures steps { (texts : List (List ℕ)) → book_step texts (view book.old) calls.toss ≡ (answer (λ _. tossed) result, view book.new) }
        ensures history { (texts : List (List ℕ)) → BookGoesOn texts (view book.old) calls.toss (answer (λ _. tossed) result) (view book.new) }
    {
        let Draft { version: _ } = self;
        book.toss()
    }
}
