ghost use Rattle.std.specs.Prelude.{◌≡◌};
ghost use Rattle.book.specs.Faults.{book_row, of_copy, of_room};

use crate::node::NoRoom;
use shelf::{CopyFault, Layer, Row};

// Why a call on a book was refused.
#[derive(Clone, Copy, PartialEq, Eq, Debug)]
pub enum BookFault {
    // Row 5: the version is not kept.
    NotKept,
    // Row 6: a draft is open already.
    DraftOpen,
    // Row 7: no draft is open in this book.
    NoDraft,
    // Row 8: there is no such text.
    NoText,
    // Row 9: a place or stretch reaches past the draft, version or text.
    PastEnd,
    // Row 10: a piece has length 0.
    EmptyPiece,
    // Row 11: the result would be longer than LIMIT.
    TooLong,
    // Row 12: the tree rules take more slots than are free.
    NoRoom,
    // Row 13: as many versions are kept as can be.
    AllKept,
    // Row 14: a pattern is empty or too long.
    BadPattern,
    // Row 17: the shelf's count or lengths are not those that the book noted.
    OtherTexts,
}

impl BookFault {
    // The numbers are this enum's own: a trait of all faults, or a `From`, would leave the same match.
    pub fn row(&self) -> Row
        ensures { result ≡ book_row self.now }
    {
        let number = match self {
            BookFault::NotKept => 5,
            BookFault::DraftOpen => 6,
            BookFault::NoDraft => 7,
            BookFault::NoText => 8,
            BookFault::PastEnd => 9,
            BookFault::EmptyPiece => 10,
            BookFault::TooLong => 11,
            BookFault::NoRoom => 12,
            BookFault::AllKept => 13,
            BookFault::BadPattern => 14,
            BookFault::OtherTexts => 17,
        };
        Row {
            number,
            layer: Layer::Book,
        }
    }
}

impl From<CopyFault> for BookFault {
    ghost from_gives = { λ x y. y ≡ of_copy x };

    fn from(fault: CopyFault) -> BookFault {
        match fault {
            CopyFault::NoText => BookFault::NoText,
            CopyFault::PastEnd => BookFault::PastEnd,
        }
    }
}

impl From<NoRoom> for BookFault {
    ghost from_gives = { λ x y. y ≡ of_room x };

    fn from(_fault: NoRoom) -> BookFault {
        BookFault::NoRoom
    }
}
