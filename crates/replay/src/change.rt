ghost use Rattle.std.specs.Prelude.{◌≡◌, ℕ, List};
ghost use Rattle.model.specs.Book.{book_step};
ghost use Rattle.book.specs.Whole.{view};
ghost use Rattle.replay.specs.Calls.{change_call, book_answer};

use crate::call::{BookTold, Change};
use book::{Book, BookFault};

// Makes a call that may change the book.
pub fn change(book: &mut Book, call: Change) -> Result<BookTold, BookFault>
    ensures { (texts : List (List ℕ)) → book_step texts (view book.old) (change_call call) ≡ (book_answer result, view book.new) }
{
    match call {
        Change::Open { version } => book.open(version).and(Ok(BookTold::Opened)),
        Change::PutPiece {
            place,
            text,
            from,
            len,
        } => book.put_piece(place, text, from, len).map(BookTold::Edited),
        Change::PutVersion { place, version } => {
            book.put_version(place, version).map(BookTold::Edited)
        }
        Change::Cut { from, len } => book.cut(from, len).map(BookTold::Edited),
        Change::Crop { from, len } => book.crop(from, len).map(BookTold::Edited),
        Change::Keep => book.keep().map(BookTold::Kept),
        Change::Toss => book.toss().and(Ok(BookTold::Tossed)),
    }
}
