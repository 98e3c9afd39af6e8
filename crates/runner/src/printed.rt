ghost use Rattle.std.specs.Prelude.{◌≡◌};
ghost use Rattle.script.specs.declared.answer.Answer.{Answer};
ghost use Rattle.runner.specs.Said.{lines_answer, pairs_answer};

use rule::Rule;
use rule::brackets::{Brackets, Unmatched};
use rule::lines::Lines;
use script::Answer;

// A summary rule whose values are printed.
pub(crate) trait Printed: Rule {
    // The answer that is printed for a value.
    ghost answer_of: { Self.Value → Answer };

    fn answer(value: Self::Value) -> Answer
        ensures { result ≡ answer_of value };
}

impl Printed for Lines {
    ghost answer_of = { lines_answer };

    fn answer(count: u32) -> Answer {
        Answer::Lines {
            count: count as usize,
        }
    }
}

impl Printed for Brackets {
    ghost answer_of = { pairs_answer };

    fn answer(unmatched: Unmatched) -> Answer {
        Answer::Pairs {
            closings: unmatched.closings as usize,
            openings: unmatched.openings as usize,
        }
    }
}
