// The greatest number of versions, of bytes and of slots.
use super::steps::{keep_doubled, keeps, shaped};
use ask::read;
use book::{Book, BookFault, MOST_SLOTS, Node, open_book};
use shelf::{Held, LIMIT};
use std::process::Abort;
use std::test::Fail;

// Version 0 is kept from the start, and 63 more can be.
#[test]
fn versions(rt: HostRuntime) -> Result<(), Fail> {
    let shelf = Held::new(b"a");
    let mut nodes = [Node::FREE; 0];
    let mut book = open_book(&mut nodes, &shelf);
    for version in 1..64 {
        book.open(0)?;
        keeps(&rt, &mut book, version, 0);
    }
    book.open(63)?;
    assert_eq!(rt; book.keep(), Err(BookFault::AllKept));
    // the draft is still open
    assert_eq!(rt; book.open(63), Err(BookFault::DraftOpen));
    assert_eq!(rt; book.toss(), Ok(()));
    assert_eq!(rt; book.keep(), Err(BookFault::NoDraft));
    Ok(())
}

// A draft of LIMIT bytes takes no byte more, in front, inside or behind.
fn takes_no_more(rt: &impl Abort, book: &mut Book) {
    for place in [0, 1, LIMIT] {
        assert_eq!(rt; book.put_piece(place, 0, 0, 1), Err(BookFault::TooLong));
        assert_eq!(rt; book.put_version(place, 1), Err(BookFault::TooLong));
        assert_eq!(rt; book.put_version(place, 31), Err(BookFault::TooLong));
        assert_eq!(rt; book.put_version(place, 0), Ok(0));
    }
}

// Version 31 is one byte doubled 30 times, which is LIMIT bytes.
#[test]
fn bytes(rt: HostRuntime) -> Result<(), Fail> {
    let shelf = Held::new(b"a");
    let mut nodes = [Node::FREE; 91];
    let mut book = open_book(&mut nodes, &shelf);
    keep_doubled(&rt, &mut book, 1, 31)?;
    shaped(&rt, &book, 31, LIMIT, 30, LIMIT);
    book.open(31)?;
    takes_no_more(&rt, &mut book);
    // the split at 1 goes down the 30 levels; but at the lowest, the rest is joined with the right side
    assert_eq!(rt; book.cut(0, 1), Ok(29));
    assert_eq!(rt; book.put_version(0, 2), Err(BookFault::TooLong));
    // a piece; (a a) and ((a a)(a a)) at the lowest two levels, and a node at each of the 28 above
    assert_eq!(rt; book.put_piece(0, 0, 0, 1), Ok(31));
    takes_no_more(&rt, &mut book);
    keeps(&rt, &mut book, 32, 60);
    shaped(&rt, &book, 32, LIMIT, 30, LIMIT);
    last_byte(&rt, &book, &shelf);
    Ok(())
}

// A version of LIMIT bytes is read up to its end, and not past it.
fn last_byte(rt: &impl Abort, book: &Book, shelf: &Held) {
    let mut out = *b"??";
    assert_eq!(rt;
        read(book, shelf, 32, LIMIT - 1, &mut out),
        Err(BookFault::PastEnd)
    );
    assert_eq!(rt; out, *b"??");
    assert_eq!(rt; read(book, shelf, 32, LIMIT - 2, &mut out), Ok(()));
    assert_eq!(rt; out, *b"aa");
}

// A piece that is put into an empty draft takes a slot, and cutting it away takes none.
#[test]
fn slots(rt: HostRuntime) -> Result<(), Fail> {
    let shelf = Held::new(b"a");
    let mut nodes = vec![in rt.alloc(); Node::FREE; MOST_SLOTS + 4]?;
    let mut book = open_book(nodes.as_mut_slice(), &shelf);
    book.open(0)?;
    for _ in 0..MOST_SLOTS {
        assert_eq!(rt; book.put_piece(0, 0, 0, 1), Ok(1));
        assert_eq!(rt; book.cut(0, 1), Ok(0));
    }
    // the list has four records more, but all the numbers of slots are in use
    assert_eq!(rt; book.put_piece(0, 0, 0, 1), Err(BookFault::NoRoom));
    assert_eq!(rt; book.toss(), Ok(()));
    book.open(0)?;
    assert_eq!(rt; book.put_piece(0, 0, 0, 1), Ok(1));
    Ok(())
}
