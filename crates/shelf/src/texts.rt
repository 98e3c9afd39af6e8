ghost use Rattle.std.specs.Prelude.{◌≡◌, ℕ, List, length};
ghost use Rattle.shelf.specs.Texts.{Fit};
ghost use Rattle.shelf.specs.Answers.{text_length, copy_answer, copy_fills, copy_row};

use super::rows::{Layer, Row};

// The greatest length of a text, a version or a draft, in bytes.
pub const LIMIT: usize = 1_073_741_824;

// The greatest number of texts on a shelf.
pub const MOST_TEXTS: usize = 8;

// Why a copy was refused.
#[derive(Clone, Copy, PartialEq, Eq, Debug)]
pub enum CopyFault {
    // Row 8: there is no such text.
    NoText,
    // Row 9: the text ends before the stretch does.
    PastEnd,
}

impl CopyFault {
    // The numbers are this enum's own: a trait of all faults, or a `From`, would leave the same match.
    pub fn row(&self) -> Row
        ensures { result ≡ copy_row self.now }
    {
        let number = match self {
            CopyFault::NoText => 8,
            CopyFault::PastEnd => 9,
        };
        Row {
            number,
            layer: Layer::Book,
        }
    }
}

// A shelf holds at most eight texts, numbered from 0, which no call changes.
pub trait Shelf {
    // What the shelf means: its texts, in the order of their numbers.
    ghost texts: { Self → List (List ℕ) };

    // Every shelf owes the bounds: at most eight texts, none longer than LIMIT.
    ghost fit: { (s : Self) → Fit (texts s) };

    // How many texts there are.
    fn count(&self) -> usize
        ensures { result ≡ length (texts self.now) };

    // The length of text k, or none where k is not a text.
    fn length(&self, k: usize) -> Option<usize>
        ensures { result ≡ text_length (texts self.now) k };

    // Fills `out` from place `from` of text k; on a refusal `out` is as it was.
    fn copy(&self, k: usize, from: usize, out: &mut [u8]) -> Result<(), CopyFault>
        ensures answers { result ≡ copy_answer (texts self.now) k from (length out.old) }
        ensures fills { out.new ≡ copy_fills (texts self.now) k from out.old };
}
