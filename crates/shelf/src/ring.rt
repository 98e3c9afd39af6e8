ghost use Rattle.std.specs.Prelude.{◌≡◌, ◌+◌, ◌≤◌, length};
ghost use Rattle.shelf.specs.Fits.{ring_fit};
ghost use Rattle.shelf.specs.Kinds.{ring_text, ring_texts};
ghost use Rattle.shelf.specs.Texts.{limit, stretch};

use super::one::{check_copy_of_one, length_of_one};
use super::texts::{CopyFault, LIMIT, Shelf};

// One text, read round a memory: byte i is memory byte (start + i) mod m.
// The memory is at most the first LIMIT handed bytes, m of them.
#[derive(Drop)]
pub struct Ring<'a> {
    bytes: &'a [u8],
    start: usize,
}

impl<'a> Ring<'a> {
    pub fn new(bytes: &'a [u8], start: usize) -> Ring<'a>
        ensures { (result.bytes.now ≡ bytes.now) × (result.start ≡ start) }
    {
        Ring { bytes, start }
    }
}

// Fills `out` from place `from` of the ring's text: by one stretch of the memory, or by two where the text goes round.
fn copy_around(memory: &[u8], start: usize, from: usize, out: &mut [u8])
    requires { (from + length out.old ≤ length memory.now) × (length memory.now ≤ limit) }
    ensures { out.new ≡ stretch from (length out.old) (ring_text memory.now start) }
{
    let m = memory.len();
    let n = out.len();
    if n == 0 {
        return;
    }
    let at = (start % m + from) % m;
    let front = n.min(m - at);
    out[0..front].copy_from_slice(&memory[at..at + front]);
    out[front..n].copy_from_slice(&memory[0..n - front]);
}

impl<'a> Shelf for Ring<'a> {
    ghost texts = { λ h. ring_texts h.bytes.now h.start };

    ghost fit = { λ h. ring_fit h.bytes.now h.start };

    fn count(&self) -> usize {
        1
    }

    fn length(&self, k: usize) -> Option<usize> {
        length_of_one(k, self.bytes.len().min(LIMIT))
    }

    fn copy(&self, k: usize, from: usize, out: &mut [u8]) -> Result<(), CopyFault> {
        let m = self.bytes.len().min(LIMIT);
        check_copy_of_one(k, from, out.len(), m)?;
        copy_around(&self.bytes[0..m], self.start, from, out);
        Ok(())
    }
}
