ghost use Rattle.rule.specs.Rule.{saturating_sum};
ghost use Rattle.rule.specs.Lines.{line_ends};
ghost use Rattle.rule.specs.Counting.{line_ends_joins};

use crate::Rule;

// The rule that counts line ends.
pub enum Lines {}

impl Rule for Lines {
    type Value = u32;

    ghost value = { line_ends };

    ghost joined = { saturating_sum };

    ghost joins = { line_ends_joins };

    fn empty() -> u32 {
        0
    }

    fn byte(b: u8) -> u32 {
        u32::from(b == b'\n')
    }

    fn join(a: u32, b: u32) -> u32 {
        a.saturating_add(b)
    }
}
