ghost use Rattle.std.specs.Prelude.{◌≡◌};
ghost use Rattle.sheet.specs.Faults.{sheet_row, of_book, of_copy};

use book::BookFault;
use shelf::{CopyFault, Layer, Row};

// Why a call on a sheet was refused.
#[derive(Clone, Copy, PartialEq, Eq, Debug)]
pub enum SheetFault {
    // A row of the book. Of these a sheet answers 5, the version is not kept; 9, the stretch reaches past the version;
    // and 17, the shelf's count or lengths are not those that the book noted.
    Book(BookFault),
    // Row 15: the sheet leaves a slot of the version uncovered.
    Uncovered,
    // Row 16: the sheet's list is shorter than the slots to cover.
    TooShort,
}

impl SheetFault {
    // The numbers are this enum's own: a trait of all faults, or a `From`, would leave the same match.
    pub fn row(&self) -> Row
        ensures { result ≡ sheet_row self.now }
    {
        match self {
            SheetFault::Book(fault) => fault.row(),
            SheetFault::Uncovered => Row {
                number: 15,
                layer: Layer::Sheet,
            },
            SheetFault::TooShort => Row {
                number: 16,
                layer: Layer::Sheet,
            },
        }
    }
}

impl From<BookFault> for SheetFault {
    ghost from_gives = { λ x y. y ≡ of_book x };

    fn from(source: BookFault) -> SheetFault {
        SheetFault::Book(source)
    }
}

impl From<CopyFault> for SheetFault {
    ghost from_gives = { λ x y. y ≡ of_copy x };

    fn from(source: CopyFault) -> SheetFault {
        SheetFault::Book(BookFault::from(source))
    }
}
