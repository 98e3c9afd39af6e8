ghost use Rattle.std.specs.Prelude.{◌≡◌, Some};
ghost use Rattle.shelf.specs.Frames.{frame_row, kind_or_fault, kind_words};

use super::rows::{Layer, Row};
use std::fmt;

// The two kinds of trace frame.
#[derive(Clone, Copy, PartialEq, Eq, Debug)]
pub enum Kind {
    // Kind 1, a straight trace: the body is the text.
    Straight,
    // Kind 2, a ring dump: the body is the start in 4 bytes, then the memory.
    Ring,
}

impl TryFrom<u16> for Kind {
    type Error = FrameFault;

    ghost try_from_gives = { λ number result. result ≡ kind_or_fault number };

    fn try_from(number: u16) -> Result<Kind, FrameFault> {
        match number {
            1 => Ok(Kind::Straight),
            2 => Ok(Kind::Ring),
            _ => Err(FrameFault::UnknownKind),
        }
    }
}

impl fmt::Display for Kind {
    ghost output = { λ kind. Some (kind_words kind) };

    fn fmt<W: fmt::Write>(&self, f: &mut fmt::Formatter<W>) -> fmt::Result {
        f.write_str(match self {
            Kind::Straight => "straight trace",
            Kind::Ring => "ring dump",
        })
    }
}

// Why the check refused a frame.
#[derive(Clone, Copy, PartialEq, Eq, Debug)]
pub enum FrameFault {
    // Row 1: the frame has fewer than 6 bytes.
    ShortFrame,
    // Row 2: its kind is neither 1 nor 2.
    UnknownKind,
    // Row 3: its length is above LIMIT, or is not the number of bytes behind the kind.
    WrongLength,
    // Row 4: a ring's body has fewer than 4 bytes, or its start is not below the memory's length; 0 in an empty memory passes.
    BadRing,
}

impl FrameFault {
    // The numbers are this enum's own: a trait of all faults, or a `From`, would leave the same match.
    pub fn row(&self) -> Row
        ensures { result ≡ frame_row self.now }
    {
        let number = match self {
            FrameFault::ShortFrame => 1,
            FrameFault::UnknownKind => 2,
            FrameFault::WrongLength => 3,
            FrameFault::BadRing => 4,
        };
        Row {
            number,
            layer: Layer::Shelf,
        }
    }
}
