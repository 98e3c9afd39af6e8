ghost use Rattle.std.specs.Prelude.{◌≤◌, length};

use rule::Rule;

mod calls;

// A value for each slot of a book, in a lent list, by one summary rule. The slots below `covered` have theirs.
// The list keeps its length, with the number beside it, since it is lent and no call allocates.
#[derive(Drop)]
pub struct Sheet<'a, R: Rule> {
    values: &'a mut [R::Value],
    covered: usize,
    ghost fits: { covered ≤ length values.now },
}
