// The rows of the refusals, as the table of refusals numbers them.
use book::BookFault;
use sheet::SheetFault;
use shelf::{Layer, Row};

#[test]
fn rows_of_the_book(rt: HostRuntime) {
    // Rows of a fault and its number: as a struct each would take four lines.
    let table = [
        (BookFault::NotKept, 5),
        (BookFault::DraftOpen, 6),
        (BookFault::NoDraft, 7),
        (BookFault::NoText, 8),
        (BookFault::PastEnd, 9),
        (BookFault::EmptyPiece, 10),
        (BookFault::TooLong, 11),
        (BookFault::NoRoom, 12),
        (BookFault::AllKept, 13),
        (BookFault::BadPattern, 14),
        (BookFault::OtherTexts, 17),
    ];
    let layer = Layer::Book;
    for (fault, number) in table {
        assert_eq!(rt; fault.row(), Row { number, layer });
        assert_eq!(rt; SheetFault::Book(fault).row(), Row { number, layer });
    }
}

#[test]
fn rows_of_a_sheet(rt: HostRuntime) {
    let layer = Layer::Sheet;
    // Pairs, as above.
    for (fault, number) in [(SheetFault::Uncovered, 15), (SheetFault::TooShort, 16)] {
        assert_eq!(rt; fault.row(), Row { number, layer });
    }
}
