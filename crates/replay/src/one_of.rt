ghost use Rattle.replay.specs.OneOf.{one_texts, one_fit};

use shelf::{CopyFault, Shelf};

// One of two shelves.
#[derive_where(Clone, Copy)]
pub(crate) enum OneOf<'a, S, T> {
    First(&'a S),
    Second(&'a T),
}

// As `Trace` has it, but over borrowed shelves of any two types.
impl<'a, S: Shelf, T: Shelf> Shelf for OneOf<'a, S, T> {
    ghost texts = { one_texts S.texts T.texts };

    ghost fit = { one_fit S.texts T.texts S.fit T.fit };

    fn count(&self) -> usize {
        match self {
            OneOf::First(shelf) => shelf.count(),
            OneOf::Second(shelf) => shelf.count(),
        }
    }

    fn length(&self, k: usize) -> Option<usize> {
        match self {
            OneOf::First(shelf) => shelf.length(k),
            OneOf::Second(shelf) => shelf.length(k),
        }
    }

    fn copy(&self, k: usize, from: usize, out: &mut [u8]) -> Result<(), CopyFault> {
        match self {
            OneOf::First(shelf) => shelf.copy(k, from, out),
            OneOf::Second(shelf) => shelf.copy(k, from, out),
        }
    }
}
