ghost use Rattle.rule.specs.Brackets.{unmatched, joined_unmatched, Cancelling};
ghost use Rattle.rule.specs.Matching.{unmatched_joins};

use crate::Rule;

// The brackets of a string that have no partner in it: all closings among them stand before all openings.
#[derive(Clone, Copy, PartialEq, Eq, Debug, Default)]
pub struct Unmatched {
    // How many ")" have no "(" before them to close.
    pub closings: u32,
    // How many "(" have no ")" behind them that closes them.
    pub openings: u32,
}

// The rule that finds the unmatched brackets.
pub enum Brackets {}

impl Rule for Brackets {
    type Value = Unmatched;

    ghost value = { unmatched };

    ghost joined = { joined_unmatched };

    ghost joins = { unmatched_joins };

    fn empty() -> Unmatched {
        Unmatched::default()
    }

    fn byte(b: u8) -> Unmatched {
        let (closings, openings) = match b {
            b'(' => (0, 1),
            b')' => (1, 0),
            _ => (0, 0),
        };
        Unmatched { closings, openings }
    }

    fn join(a: Unmatched, b: Unmatched) -> Unmatched {
        let closings = b.closings.saturating_sub(a.openings);
        let openings = a.openings.saturating_sub(b.closings);
        Unmatched {
            closings: a.closings.saturating_add(closings),
            openings: b.openings.saturating_add(openings),
        }
    }
}

// A theorem, with nothing to run: the rule's value is what deleting matched brackets leaves.
pub fn brackets_cancel()
    ensures { Cancelling }
{}
