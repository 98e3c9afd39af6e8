ghost use Rattle.std.specs.Prelude.{◌≡◌};
ghost use Rattle.shelf.specs.Fits.{pair_fit};
ghost use Rattle.shelf.specs.Kinds.{pair_texts};

use super::texts::{CopyFault, MOST_TEXTS, Shelf};

// The texts of the first shelf, then those of the second, cut off after the eighth.
#[derive(Drop)]
pub struct Pair<A, B> {
    first: A,
    second: B,
}

impl<A, B> Pair<A, B> {
    pub fn new(first: A, second: B) -> Pair<A, B>
        ensures { (result.first ≡ first) × (result.second ≡ second) }
    {
        Pair { first, second }
    }
}

impl<A: Shelf, B: Shelf> Shelf for Pair<A, B> {
    ghost texts = { λ p. pair_texts (A.texts p.first) (B.texts p.second) };

    ghost fit = { λ p. pair_fit (A.fit p.first) (B.fit p.second) };

    fn count(&self) -> usize {
        (self.first.count() + self.second.count()).min(MOST_TEXTS)
    }

    fn length(&self, k: usize) -> Option<usize> {
        if k >= MOST_TEXTS {
            return None;
        }
        let count = self.first.count();
        if k < count {
            self.first.length(k)
        } else {
            self.second.length(k - count)
        }
    }

    fn copy(&self, k: usize, from: usize, out: &mut [u8]) -> Result<(), CopyFault> {
        if k >= MOST_TEXTS {
            return Err(CopyFault::NoText);
        }
        let count = self.first.count();
        if k < count {
            self.first.copy(k, from, out)
        } else {
            self.second.copy(k - count, from, out)
        }
    }
}
