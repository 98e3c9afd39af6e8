// Edits at the borders of the draft and of the texts. Where several rows fit, the smallest answers.
use super::steps::{draft_piece, keeps, shaped, spells};
use book::{BookFault, Node, open_book};
use shelf::Held;
use std::test::Fail;

const TEXT: &[u8] = b"abcde";

// Inside the piece the crop of no bytes splits it and keeps nothing; at its ends it makes nothing.
#[test]
fn crops_of_no_bytes(rt: HostRuntime) -> Result<(), Fail> {
    let shelf = Held::new(TEXT);
    let mut nodes = [Node::FREE; 8];
    let mut book = open_book(&mut nodes, &shelf);
    // Pairs of a place and the slots made: as a struct each would take four lines.
    for (from, made) in [(2, 2), (0, 0), (5, 0)] {
        draft_piece(&rt, &mut book, 5)?;
        assert_eq!(rt; book.crop(6, 0), Err(BookFault::PastEnd));
        assert_eq!(rt; book.crop(from, 0), Ok(made));
        // nothing is left
        assert_eq!(rt; book.crop(1, 0), Err(BookFault::PastEnd));
        assert_eq!(rt; book.crop(0, 0), Ok(0));
        assert_eq!(rt; book.toss(), Ok(()));
    }
    draft_piece(&rt, &mut book, 5)?;
    assert_eq!(rt; book.crop(2, 0), Ok(2));
    keeps(&rt, &mut book, 1, 3);
    shaped(&rt, &book, 1, 0, 0, 0);
    spells(&rt, &book, &shelf, 1, b"")
}

// A cut of no bytes and an empty version leave the draft as it is, but not past its end.
#[test]
fn nothing_put_or_cut(rt: HostRuntime) -> Result<(), Fail> {
    let shelf = Held::new(TEXT);
    let mut nodes = [Node::FREE; 8];
    let mut book = open_book(&mut nodes, &shelf);
    draft_piece(&rt, &mut book, 5)?;
    for place in [0, 2, 5] {
        assert_eq!(rt; book.cut(place, 0), Ok(0));
        assert_eq!(rt; book.put_version(place, 0), Ok(0));
    }
    for place in [6, LONG, usize::MAX] {
        assert_eq!(rt; book.cut(place, 0), Err(BookFault::PastEnd));
        assert_eq!(rt; book.put_version(place, 0), Err(BookFault::PastEnd));
    }
    keeps(&rt, &mut book, 1, 1);
    spells(&rt, &book, &shelf, 1, b"abcde")
}

// A place that 32 bits do not hold; its low 32 bits are those of place 2.
const LONG: usize = 4_294_967_298;

#[test]
fn stretches_past_the_end(rt: HostRuntime) -> Result<(), Fail> {
    let shelf = Held::new(TEXT);
    let mut nodes = [Node::FREE; 8];
    let mut book = open_book(&mut nodes, &shelf);
    draft_piece(&rt, &mut book, 5)?;
    // Pairs of a place and a length: as a struct each would take four lines.
    let stretches = [
        (0, 6),
        (5, 1),
        (3, 3),
        (6, 0),
        (LONG, 1),
        (1, LONG),
        (usize::MAX, 2),
        (2, usize::MAX),
        (usize::MAX, usize::MAX),
    ];
    for (from, len) in stretches {
        assert_eq!(rt; book.cut(from, len), Err(BookFault::PastEnd));
        assert_eq!(rt; book.crop(from, len), Err(BookFault::PastEnd));
        assert_eq!(rt; book.put_piece(0, 0, from, len), Err(BookFault::PastEnd));
    }
    assert_eq!(rt; book.put_piece(6, 0, 0, 1), Err(BookFault::PastEnd));
    keeps(&rt, &mut book, 1, 1);
    Ok(())
}

// Without a draft, and with one.
#[test]
fn smallest_row_first(rt: HostRuntime) -> Result<(), Fail> {
    let shelf = Held::new(TEXT);
    let mut nodes = [Node::FREE; 0];
    let mut book = open_book(&mut nodes, &shelf);
    assert_eq!(rt; book.open(1), Err(BookFault::NotKept));
    assert_eq!(rt; book.put_version(9, 1), Err(BookFault::NotKept));
    assert_eq!(rt; book.put_version(9, 0), Err(BookFault::NoDraft));
    assert_eq!(rt; book.put_piece(9, 9, 9, 0), Err(BookFault::NoDraft));
    assert_eq!(rt; book.cut(9, 9), Err(BookFault::NoDraft));
    assert_eq!(rt; book.crop(9, 9), Err(BookFault::NoDraft));
    assert_eq!(rt; book.keep(), Err(BookFault::NoDraft));
    assert_eq!(rt; book.toss(), Err(BookFault::NoDraft));
    book.open(0)?;
    assert_eq!(rt; book.open(1), Err(BookFault::NotKept));
    assert_eq!(rt; book.open(0), Err(BookFault::DraftOpen));
    assert_eq!(rt; book.put_version(9, 1), Err(BookFault::NotKept));
    assert_eq!(rt; book.put_piece(9, 1, 9, 0), Err(BookFault::NoText));
    assert_eq!(rt; book.put_piece(9, 0, 0, 0), Err(BookFault::PastEnd));
    assert_eq!(rt; book.put_piece(0, 0, 6, 0), Err(BookFault::PastEnd));
    assert_eq!(rt; book.put_piece(0, 0, 5, 0), Err(BookFault::EmptyPiece));
    assert_eq!(rt; book.put_piece(0, 0, 0, 1), Err(BookFault::NoRoom));
    Ok(())
}
