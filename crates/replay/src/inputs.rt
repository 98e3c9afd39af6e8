ghost use Rattle.std.specs.Prelude.{◌≡◌};
ghost use Rattle.replay.specs.Replays.{pick};
ghost use Rattle.replay.specs.OneOf.{one_texts};

use crate::call::Which;
use crate::one_of::OneOf;
use shelf::Shelf;

// What calls read besides the book and its sheets: two shelves, and the bytes that finds take their patterns from.
#[derive_where(Clone, Copy)]
pub struct Inputs<'a, S, T> {
    pub first: &'a S,
    pub second: &'a T,
    pub patterns: &'a [u8],
}

impl<'a, S: Shelf, T: Shelf> Inputs<'a, S, T> {
    // The shelf that a call is handed.
    pub(crate) fn shelf(&self, which: Which) -> OneOf<'a, S, T>
        ensures { one_texts S.texts T.texts result ≡ pick (S.texts self.now.first.now) (T.texts self.now.second.now) which }
    {
        match which {
            Which::First => OneOf::First(self.first),
            Which::Second => OneOf::Second(self.second),
        }
    }
}
