// Short lists of node records.
use super::steps::{Letter, draft_three, keeps, put_letters, shaped, spells};
use book::{BookFault, Node, open_book};
use shelf::Held;
use std::test::Fail;

const LETTERS: &[u8] = b"abcd";

// What makes nothing passes without a record.
#[test]
fn no_record(rt: HostRuntime) -> Result<(), Fail> {
    let shelf = Held::new(LETTERS);
    let mut nodes = [Node::FREE; 0];
    let mut book = open_book(&mut nodes, &shelf);
    book.open(0)?;
    assert_eq!(rt; book.put_piece(0, 0, 0, 1), Err(BookFault::NoRoom));
    assert_eq!(rt; book.put_version(0, 0), Ok(0));
    assert_eq!(rt; book.cut(0, 0), Ok(0));
    assert_eq!(rt; book.crop(0, 0), Ok(0));
    keeps(&rt, &mut book, 1, 0);
    shaped(&rt, &book, 1, 0, 0, 0);
    Ok(())
}

#[test]
fn one_record(rt: HostRuntime) -> Result<(), Fail> {
    let shelf = Held::new(LETTERS);
    let mut nodes = [Node::FREE; 1];
    let mut book = open_book(&mut nodes, &shelf);
    book.open(0)?;
    put_letters(&rt, &mut book, &[Letter::new(0, 3, 1)]);
    assert_eq!(rt; book.put_piece(1, 0, 0, 1), Err(BookFault::NoRoom));
    assert_eq!(rt; book.toss(), Ok(()));
    // the slot is free again
    book.open(0)?;
    put_letters(&rt, &mut book, &[Letter::new(0, 1, 1)]);
    keeps(&rt, &mut book, 1, 1);
    spells(&rt, &book, &shelf, 1, b"b")?;
    // a kept version keeps its slot
    book.open(0)?;
    assert_eq!(rt; book.put_piece(0, 0, 0, 1), Err(BookFault::NoRoom));
    assert_eq!(rt; book.put_version(0, 1), Ok(0));
    keeps(&rt, &mut book, 2, 0);
    spells(&rt, &book, &shelf, 2, b"b")
}

// d takes 3 slots more: its piece, (c d) and the root.
#[test]
fn just_enough(rt: HostRuntime) -> Result<(), Fail> {
    let shelf = Held::new(LETTERS);
    let mut nodes = [Node::FREE; 8];
    let mut book = open_book(&mut nodes, &shelf);
    draft_three(&rt, &mut book, [0, 1, 2])?;
    put_letters(&rt, &mut book, &[Letter::new(3, 3, 3)]);
    assert_eq!(rt; book.put_piece(0, 0, 0, 1), Err(BookFault::NoRoom));
    keeps(&rt, &mut book, 1, 8);
    spells(&rt, &book, &shelf, 1, b"abcd")
}

// With one record too few, d is refused midway. It gives back what it took, so that an edit that takes 2 slots passes:
// a is split from (b c), and joined with c.
#[test]
fn one_too_few(rt: HostRuntime) -> Result<(), Fail> {
    let shelf = Held::new(LETTERS);
    let mut nodes = [Node::FREE; 7];
    let mut book = open_book(&mut nodes, &shelf);
    draft_three(&rt, &mut book, [0, 1, 2])?;
    assert_eq!(rt; book.put_piece(3, 0, 3, 1), Err(BookFault::NoRoom));
    assert_eq!(rt; book.cut(1, 1), Ok(2));
    assert_eq!(rt; book.toss(), Ok(()));
    // once more from the start, and the draft is as it was before the refusal
    draft_three(&rt, &mut book, [0, 1, 2])?;
    assert_eq!(rt; book.put_piece(3, 0, 3, 1), Err(BookFault::NoRoom));
    keeps(&rt, &mut book, 1, 5);
    shaped(&rt, &book, 1, 3, 2, 3);
    spells(&rt, &book, &shelf, 1, b"abc")?;
    book.open(1)?;
    assert_eq!(rt; book.cut(1, 1), Ok(2));
    keeps(&rt, &mut book, 2, 2);
    spells(&rt, &book, &shelf, 2, b"ac")
}
