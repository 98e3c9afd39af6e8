ghost use Rattle.std.specs.Prelude.{◌≡◌, map, length};
ghost use Rattle.model.specs.Sheet.{sheet_step};
ghost use Rattle.book.specs.Whole.{view};
ghost use Rattle.sheet.specs.Reading.{rule_of};
ghost use Rattle.sheet.specs.View.{sheet_view};
ghost use Rattle.replay.specs.Calls.{sheet_call, sheet_answer};

use crate::call::{SheetCall, SheetTold};
use book::Book;
use rule::Rule;
use sheet::{Sheet, SheetFault};
use shelf::Shelf;

// Makes a call on a sheet.
pub fn ask_sheet<R: Rule, S: Shelf>(
    sheet: &mut Sheet<R>,
    book: &Book,
    shelf: &S,
    call: SheetCall,
) -> Result<SheetTold<R::Value>, SheetFault>
    ensures { sheet_step (S.texts shelf.now) (rule_of R.value R.joined) (view book.now)
        (sheet_view sheet.old) (sheet_call (map length (S.texts shelf.now)) call)
        ≡ (sheet_answer result, sheet_view sheet.new) }
{
    Ok(match call {
        SheetCall::BringUp => SheetTold::Added(sheet.bring_up(book, shelf)?),
        SheetCall::Summary { version, from, len } => {
            SheetTold::Value(sheet.summary(book, shelf, version, from, len)?)
        }
    })
}
