// Sheets that are short, that are brought up while a draft is open, and stretches of a version.
use super::steps::{Letter, draft_three, keep_doubled, keeps, put_letters};
use book::{Book, BookFault, Node, open_book};
use rule::brackets::{Brackets, Unmatched};
use rule::lines::Lines;
use sheet::{Sheet, SheetFault};
use shelf::Held;
use std::process::Abort;
use std::test::Fail;

// A value that a new list is filled with: no answer depends on it.
const OLD: u32 = 77;

const OLD_PAIR: Unmatched = Unmatched {
    closings: 77,
    openings: 77,
};

#[test]
fn no_value(rt: HostRuntime) -> Result<(), Fail> {
    let shelf = Held::new(b"\n");
    let mut nodes = [Node::FREE; 1];
    let mut book = open_book(&mut nodes, &shelf);
    let mut values = [OLD; 0];
    let mut sheet = Sheet::<Lines>::new(&mut values);
    assert_eq!(rt; sheet.bring_up(&book, &shelf), Ok(0));
    assert_eq!(rt; sheet.summary(&book, &shelf, 0, 0, 0), Ok(0));
    book.open(0)?;
    put_letters(&rt, &mut book, &[Letter::new(0, 0, 1)]);
    // the draft's slot is not to be covered
    assert_eq!(rt; sheet.bring_up(&book, &shelf), Ok(0));
    keeps(&rt, &mut book, 1, 1);
    assert_eq!(rt; sheet.bring_up(&book, &shelf), Err(SheetFault::TooShort));
    assert_eq!(rt;
        sheet.summary(&book, &shelf, 1, 0, 1),
        Err(SheetFault::Uncovered)
    );
    assert_eq!(rt;
        sheet.summary(&book, &shelf, 1, 0, 0),
        Err(SheetFault::Uncovered)
    );
    assert_eq!(rt; sheet.summary(&book, &shelf, 0, 0, 0), Ok(0));
    Ok(())
}

// Version 1 is a tree of three line ends, which takes 5 slots.
#[test]
fn one_value_too_few(rt: HostRuntime) -> Result<(), Fail> {
    let shelf = Held::new(b"\n");
    let mut nodes = [Node::FREE; 8];
    let mut book = open_book(&mut nodes, &shelf);
    draft_three(&rt, &mut book, [0, 0, 0])?;
    keeps(&rt, &mut book, 1, 5);
    let mut four = [OLD; 4];
    let mut sheet = Sheet::<Lines>::new(&mut four);
    assert_eq!(rt; sheet.bring_up(&book, &shelf), Err(SheetFault::TooShort));
    assert_eq!(rt;
        sheet.summary(&book, &shelf, 1, 0, 3),
        Err(SheetFault::Uncovered)
    );
    let mut five = [OLD; 5];
    let mut sheet = Sheet::<Lines>::new(&mut five);
    assert_eq!(rt;
        sheet.summary(&book, &shelf, 1, 0, 3),
        Err(SheetFault::Uncovered)
    );
    assert_eq!(rt; sheet.bring_up(&book, &shelf), Ok(5));
    assert_eq!(rt; sheet.bring_up(&book, &shelf), Ok(0));
    assert_eq!(rt; sheet.summary(&book, &shelf, 1, 0, 3), Ok(3));
    assert_eq!(rt; sheet.summary(&book, &shelf, 1, 1, 2), Ok(2));
    Ok(())
}

// The slots of the tossed draft, which held two line ends, are filled by "((" later: the sheet has not covered them.
#[test]
fn tossed_draft(rt: HostRuntime) -> Result<(), Fail> {
    let shelf = Held::new(b"\n\n\n((");
    let mut nodes = [Node::FREE; 3];
    let mut book = open_book(&mut nodes, &shelf);
    let mut values = [OLD; 3];
    let mut sheet = Sheet::<Lines>::new(&mut values);
    book.open(0)?;
    put_letters(&rt, &mut book, &[Letter::new(0, 0, 1)]);
    keeps(&rt, &mut book, 1, 1);
    book.open(1)?;
    assert_eq!(rt; book.put_piece(1, 0, 1, 2), Ok(2));
    assert_eq!(rt; sheet.bring_up(&book, &shelf), Ok(1));
    assert_eq!(rt; book.toss(), Ok(()));
    assert_eq!(rt; sheet.bring_up(&book, &shelf), Ok(0));
    book.open(1)?;
    assert_eq!(rt; book.put_piece(1, 0, 3, 2), Ok(2));
    keeps(&rt, &mut book, 2, 2);
    assert_eq!(rt;
        sheet.summary(&book, &shelf, 2, 0, 3),
        Err(SheetFault::Uncovered)
    );
    assert_eq!(rt; sheet.bring_up(&book, &shelf), Ok(2));
    assert_eq!(rt; sheet.summary(&book, &shelf, 2, 0, 3), Ok(1));
    assert_eq!(rt; sheet.summary(&book, &shelf, 2, 1, 2), Ok(0));
    assert_eq!(rt; sheet.summary(&book, &shelf, 1, 0, 1), Ok(1));
    Ok(())
}

fn unmatched(closings: u32, openings: u32) -> Unmatched {
    Unmatched { closings, openings }
}

// Version 4 is ")(\n" eight times, a tree of eight pieces.
// The stretches: the whole, all but the first and the last byte, "\n" to ")", two ends of pieces, and no bytes.
#[test]
fn stretches(rt: HostRuntime) -> Result<(), Fail> {
    let shelf = Held::new(b")(\n");
    let mut nodes = [Node::FREE; 4];
    let mut book = open_book(&mut nodes, &shelf);
    keep_doubled(&rt, &mut book, 3, 4)?;
    let mut counts = [OLD; 4];
    let mut lines = Sheet::<Lines>::new(&mut counts);
    assert_eq!(rt; lines.bring_up(&book, &shelf), Ok(4));
    let mut pairs = [OLD_PAIR; 4];
    let mut brackets = Sheet::<Brackets>::new(&mut pairs);
    assert_eq!(rt; brackets.bring_up(&book, &shelf), Ok(4));
    // Rows of a place, a length, the line ends and the brackets: as a struct each would take six lines.
    let table = [
        (0, 24, 8, unmatched(1, 1)),
        (1, 22, 7, unmatched(0, 1)),
        (2, 20, 7, unmatched(1, 0)),
        (11, 2, 1, unmatched(1, 0)),
        (10, 3, 1, unmatched(0, 0)),
        (24, 0, 0, unmatched(0, 0)),
    ];
    for (from, len, ends, left) in table {
        assert_eq!(rt; lines.summary(&book, &shelf, 4, from, len), Ok(ends));
        assert_eq!(rt; brackets.summary(&book, &shelf, 4, from, len), Ok(left));
    }
    past_the_end(&rt, &mut lines, &book, &shelf);
    Ok(())
}

fn past_the_end(rt: &impl Abort, sheet: &mut Sheet<Lines>, book: &Book, shelf: &Held) {
    let past_end = SheetFault::Book(BookFault::PastEnd);
    // Pairs of a place and a length: as a struct each would take four lines.
    for (from, len) in [(24, 1), (25, 0), (0, 25), (1, usize::MAX), (usize::MAX, 2)] {
        assert_eq!(rt; sheet.summary(book, shelf, 4, from, len), Err(past_end));
    }
    let not_kept = SheetFault::Book(BookFault::NotKept);
    assert_eq!(rt; sheet.summary(book, shelf, 5, 99, 0), Err(not_kept));
}
