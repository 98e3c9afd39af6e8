ghost use Rattle.shelf.specs.Fits.{trace_fit};
ghost use Rattle.shelf.specs.Frames.{trace_texts};

use super::held::Held;
use super::ring::Ring;
use super::texts::{CopyFault, Shelf};

// The text of a checked frame: one text, straight or read round a ring.
#[derive(Drop)]
pub enum Trace<'a> {
    Straight(Held<'a>),
    Ring(Ring<'a>),
}

// Not a shelf of any two types: the cases name the two kinds of frame, and are public.
impl<'a> Shelf for Trace<'a> {
    ghost texts = { trace_texts };

    ghost fit = { trace_fit };

    fn count(&self) -> usize {
        match self {
            Trace::Straight(held) => held.count(),
            Trace::Ring(ring) => ring.count(),
        }
    }

    fn length(&self, k: usize) -> Option<usize> {
        match self {
            Trace::Straight(held) => held.length(k),
            Trace::Ring(ring) => ring.length(k),
        }
    }

    fn copy(&self, k: usize, from: usize, out: &mut [u8]) -> Result<(), CopyFault> {
        match self {
            Trace::Straight(held) => held.copy(k, from, out),
            Trace::Ring(ring) => ring.copy(k, from, out),
        }
    }
}
