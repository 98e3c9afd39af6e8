ghost use Rattle.std.specs.Prelude.{IfOk};
ghost use Rattle.book.specs.Whole.{view};
ghost use Rattle.sheet.specs.Reading.{rule_of};
ghost use Rattle.sheet.specs.View.{sheet_view};
ghost use Rattle.replay.specs.Replays.{pick, Performs};

use crate::call::{Answer, Call, Which};
use crate::change::change as make_change;
use crate::inputs::Inputs;
use crate::question::ask;
use crate::sheets::ask_sheet;
use book::Book;
use rule::Rule;
use sheet::Sheet;
use shelf::Shelf;
use std::alloc::{AllocError, Global};

// Makes one call on the book or on one of its two sheets, with one of two shelves.
// The sheets stay two parameters: a struct would take them from the caller, or need clauses that it keeps two references.
pub fn perform<P: Rule, Q: Rule, S: Shelf, T: Shelf>(
    heap: Global,
    book: &mut Book,
    first_sheet: &mut Sheet<P>,
    second_sheet: &mut Sheet<Q>,
    inputs: &Inputs<S, T>,
    call: Call,
) -> Result<Answer<P::Value, Q::Value>, AllocError>
    ensures { IfOk result (λ a. Performs inputs.now.patterns.now (pick (S.texts inputs.now.first.now) (T.texts inputs.now.second.now))
        (rule_of P.value P.joined) (rule_of Q.value Q.joined)
        (view book.old) (view book.new) (sheet_view first_sheet.old) (sheet_view first_sheet.new)
        (sheet_view second_sheet.old) (sheet_view second_sheet.new) call a) }
{
    match call {
        Call::Book(change) => Ok(Answer::Book(make_change(book, change))),
        Call::Ask { shelf, question } => {
            let answer = ask(heap, book, &inputs.shelf(shelf), inputs.patterns, question)?;
            Ok(Answer::Book(answer))
        }
        Call::Sheet { sheet, shelf, call } => {
            let shelf = inputs.shelf(shelf);
            match sheet {
                Which::First => Ok(Answer::First(ask_sheet(first_sheet, book, &shelf, call))),
                Which::Second => Ok(Answer::Second(ask_sheet(second_sheet, book, &shelf, call))),
            }
        }
    }
}
