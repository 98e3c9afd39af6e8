ghost use Rattle.std.specs.Prelude.{length, IfOk};
ghost use Rattle.book.specs.Whole.{view};
ghost use Rattle.sheet.specs.Reading.{rule_of};
ghost use Rattle.sheet.specs.View.{sheet_view};
ghost use Rattle.replay.specs.Replays.{pick, Runs, Replayed};

use crate::call::{Answer, Call};
use crate::inputs::Inputs;
use crate::performing::perform;
use book::{Book, Node, open_book};
use rule::Rule;
use sheet::Sheet;
use shelf::Shelf;
use std::alloc::{AllocError, Global};

// Makes calls, one after the other, on a book and its two sheets, and gives the answers. The sheets are two parameters as in `perform`.
pub fn replay_on<P: Rule, Q: Rule, S: Shelf, T: Shelf>(
    heap: Global,
    book: &mut Book,
    first_sheet: &mut Sheet<P>,
    second_sheet: &mut Sheet<Q>,
    inputs: &Inputs<S, T>,
    calls: &[Call],
) -> Result<Vec<Answer<P::Value, Q::Value>>, AllocError>
    ensures { IfOk result (λ answers. Runs inputs.now.patterns.now (pick (S.texts inputs.now.first.now) (T.texts inputs.now.second.now))
        (rule_of P.value P.joined) (rule_of Q.value Q.joined)
        (view book.old) (view book.new) (sheet_view first_sheet.old) (sheet_view first_sheet.new)
        (sheet_view second_sheet.old) (sheet_view second_sheet.new) calls.now answers.items) }
{
    let mut answers = Vec::new(heap);
    for call in calls {
        let answer = perform::<P, Q, S, T>(heap, book, first_sheet, second_sheet, inputs, *call)?;
        answers.push(answer)?;
    }
    Ok(answers)
}

// Makes calls on a new book and two new sheets of two rules. The book is opened on the first shelf.
pub fn replay<P: Rule, Q: Rule, S: Shelf, T: Shelf>(
    heap: Global,
    nodes: &mut [Node],
    first_values: &mut [P::Value],
    second_values: &mut [Q::Value],
    inputs: &Inputs<S, T>,
    calls: &[Call],
) -> Result<Vec<Answer<P::Value, Q::Value>>, AllocError>
    ensures { IfOk result (λ answers. Replayed inputs.now.patterns.now (pick (S.texts inputs.now.first.now) (T.texts inputs.now.second.now))
        (rule_of P.value P.joined) (rule_of Q.value Q.joined)
        (length nodes.old) first_values.old second_values.old calls.now answers.items) }
{
    let mut book = open_book(nodes, inputs.first);
    let mut first_sheet = Sheet::<P>::new(first_values);
    let mut second_sheet = Sheet::<Q>::new(second_values);
    replay_on::<P, Q, S, T>(
        heap,
        &mut book,
        &mut first_sheet,
        &mut second_sheet,
        inputs,
        calls,
    )
}
