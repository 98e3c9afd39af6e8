ghost use Rattle.std.specs.Prelude.{◌≡◌};
ghost use Rattle.shelf.specs.Fits.{held_fit};
ghost use Rattle.shelf.specs.Kinds.{held_texts};

use super::one::{check_copy_of_one, length_of_one};
use super::texts::{CopyFault, LIMIT, Shelf};

// One text: the handed bytes, at most the first LIMIT of them.
#[derive(Drop)]
pub struct Held<'a> {
    bytes: &'a [u8],
}

impl<'a> Held<'a> {
    pub fn new(bytes: &'a [u8]) -> Held<'a>
        ensures { result.bytes.now ≡ bytes.now }
    {
        Held { bytes }
    }
}

impl<'a> Shelf for Held<'a> {
    ghost texts = { λ h. held_texts h.bytes.now };

    ghost fit = { λ h. held_fit h.bytes.now };

    fn count(&self) -> usize {
        1
    }

    fn length(&self, k: usize) -> Option<usize> {
        length_of_one(k, self.bytes.len().min(LIMIT))
    }

    fn copy(&self, k: usize, from: usize, out: &mut [u8]) -> Result<(), CopyFault> {
        let n = out.len();
        check_copy_of_one(k, from, n, self.bytes.len().min(LIMIT))?;
        out.copy_from_slice(&self.bytes[from..from + n]);
        Ok(())
    }
}
