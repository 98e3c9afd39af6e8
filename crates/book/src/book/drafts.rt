ghost use Rattle.std.specs.Prelude.{◌≡◌, ℕ, List};
ghost use Rattle.model.specs.Answers.{opened, kept, tossed};
ghost use Rattle.model.specs.Book.{book_step};
ghost use Rattle.model.specs.Calls.{open_version};
ghost use Rattle.model.specs.Calls as calls;
ghost use Rattle.model.specs.Histories.{BookGoesOn};
ghost use Rattle.book.specs.Faults.{answer};
ghost use Rattle.book.specs.Whole.{view};

use super::Book;
use crate::contents::OpenDraft;
use crate::fault::BookFault;

// A draft that was kept: its number as a version, and how many slots were made since it was opened.
#[derive(Clone, Copy, PartialEq, Eq, Debug)]
pub struct Kept {
    pub version: usize,
    pub made: usize,
}

impl<'a> Book<'a> {
    // Opens a draft of a kept version.
    pub fn open(&mut self, version: usize) -> Result<(), BookFault>
        ensures steps { (texts : List (List ℕ)) → book_step texts (view self.old) (open_version version) ≡ (answer (λ _. opened) result, view self.new) }
        ensures history { (texts : List (List ℕ)) → BookGoesOn texts (view self.old) (open_version version) (answer (λ _. opened) result) (view self.new) }
    {
        let Book {
            nodes: _,
            places,
            contents,
        } = self;
        let root = contents.root(version)?;
        if contents.draft.is_some() {
            return Err(BookFault::DraftOpen);
        }
        contents.draft = Some(OpenDraft {
            root,
            base: places.used,
        });
        Ok(())
    }

    // Makes the draft the next version.
    pub fn keep(&mut self) -> Result<Kept, BookFault>
        ensures steps { (texts : List (List ℕ)) → book_step texts (view self.old) calls.keep ≡ (answer (λ k. kept k.version k.made) result, view self.new) }
        ensures history { (texts : List (List ℕ)) → BookGoesOn texts (view self.old) calls.keep (answer (λ k. kept k.version k.made) result) (view self.new) }
    {
        let Book {
            nodes: _,
            places,
            contents,
        } = self;
        let Some(draft) = contents.draft else {
            return Err(BookFault::NoDraft);
        };
        let version = contents.roots.len();
        if contents.roots.is_full() {
            return Err(BookFault::AllKept);
        }
        contents.roots.push(draft.root);
        contents.draft = None;
        Ok(Kept {
            version,
            made: places.used - draft.base,
        })
    }

    // Ends the draft, and frees the slots that it made.
    pub fn toss(&mut self) -> Result<(), BookFault>
        ensures steps { (texts : List (List ℕ)) → book_step texts (view self.old) calls.toss ≡ (answer (λ _. tossed) result, view self.new) }
        ensures history { (texts : List (List ℕ)) → BookGoesOn texts (view self.old) calls.toss (answer (λ _. tossed) result) (view self.new) }
    {
        let Book {
            nodes: _,
            places,
            contents,
        } = self;
        let Some(draft) = contents.draft else {
            return Err(BookFault::NoDraft);
        };
        places.used = draft.base;
        contents.draft = None;
        Ok(())
    }
}
