// Other shelves than the one that the book was opened on: with the same texts, and with other lengths or counts.
use super::steps::{keeps, spells};
use ask::{find, read};
use book::{Book, BookFault, Node, open_book};
use rule::lines::Lines;
use sheet::{Sheet, SheetFault};
use shelf::{Held, Pair, Ring, Shelf};
use std::process::Abort;
use std::test::Fail;

const FIRST: &[u8] = b"a\n";

const SECOND: &[u8] = b"cd";

const THIRD: &[u8] = b"e";

// A shelf of two texts.
fn two_texts<'a>(first: &'a [u8], second: &'a [u8]) -> Pair<Held<'a>, Held<'a>> {
    Pair::new(Held::new(first), Held::new(second))
}

// Version 1 has a piece of each text: "cd", "a\n" and "e".
fn keep_all(rt: &impl Abort, book: &mut Book) -> Result<(), Fail> {
    book.open(0)?;
    assert_eq!(rt; book.put_piece(0, 1, 0, 2), Ok(1));
    assert_eq!(rt; book.put_piece(2, 0, 0, 2), Ok(2));
    assert_eq!(rt; book.put_piece(4, 2, 0, 1), Ok(2));
    keeps(rt, book, 1, 5);
    Ok(())
}

// Every question is answered with this shelf.
fn answers<S: Shelf>(rt: &impl Abort, book: &Book, shelf: &S) -> Result<(), Fail> {
    spells(rt, book, shelf, 1, b"cda\ne")?;
    assert_eq!(rt; find(book, shelf, 1, 0, b"da"), Ok(Some(1)));
    assert_eq!(rt; find(book, shelf, 0, 0, b"da"), Ok(None));
    let mut values = [0u32; 5];
    let mut sheet = Sheet::<Lines>::new(&mut values);
    assert_eq!(rt; sheet.bring_up(book, shelf), Ok(5));
    assert_eq!(rt; sheet.summary(book, shelf, 1, 0, 5), Ok(1));
    Ok(())
}

#[test]
fn same_texts(rt: HostRuntime) -> Result<(), Fail> {
    let shelf = Pair::new(two_texts(FIRST, SECOND), Held::new(THIRD));
    let mut nodes = [Node::FREE; 8];
    let mut book = open_book(&mut nodes, &shelf);
    keep_all(&rt, &mut book)?;
    answers(&rt, &book, &shelf)?;
    let nested = Pair::new(Held::new(FIRST), two_texts(SECOND, THIRD));
    answers(&rt, &book, &nested)?;
    let rings = Pair::new(Ring::new(b"\na", 1), Ring::new(b"cd", 2));
    answers(&rt, &book, &Pair::new(rings, Ring::new(b"e", 7)))
}

// Every question is refused with this shelf, an empty stretch of the empty version too. The sheet covers version 1.
fn refuses<S: Shelf>(rt: &impl Abort, book: &Book, shelf: &S, sheet: &mut Sheet<Lines>) {
    let mut out = *b"?????";
    assert_eq!(rt;
        read(book, shelf, 1, 0, &mut out),
        Err(BookFault::OtherTexts)
    );
    assert_eq!(rt; out, *b"?????");
    assert_eq!(rt;
        read(book, shelf, 0, 0, &mut out[0..0]),
        Err(BookFault::OtherTexts)
    );
    assert_eq!(rt; find(book, shelf, 1, 0, b"da"), Err(BookFault::OtherTexts));
    assert_eq!(rt; find(book, shelf, 0, 0, b"da"), Err(BookFault::OtherTexts));
    let other_texts = SheetFault::Book(BookFault::OtherTexts);
    assert_eq!(rt; sheet.bring_up(book, shelf), Err(other_texts));
    assert_eq!(rt; sheet.summary(book, shelf, 1, 0, 5), Err(other_texts));
    assert_eq!(rt; sheet.summary(book, shelf, 0, 0, 0), Err(other_texts));
}

// A shelf of other texts is the last of the tests: the other rows come before it.
fn smaller_rows<S: Shelf>(rt: &impl Abort, book: &Book, shelf: &S) {
    let mut out = *b"??????";
    assert_eq!(rt; read(book, shelf, 2, 0, &mut out), Err(BookFault::NotKept));
    assert_eq!(rt; read(book, shelf, 1, 0, &mut out), Err(BookFault::PastEnd));
    assert_eq!(rt; find(book, shelf, 2, 0, b""), Err(BookFault::NotKept));
    assert_eq!(rt; find(book, shelf, 1, 6, b""), Err(BookFault::PastEnd));
    assert_eq!(rt; find(book, shelf, 1, 0, b""), Err(BookFault::BadPattern));
    let mut values = [0u32; 4];
    let mut sheet = Sheet::<Lines>::new(&mut values);
    assert_eq!(rt; sheet.bring_up(book, shelf), Err(SheetFault::TooShort));
    assert_eq!(rt;
        sheet.summary(book, shelf, 1, 0, 5),
        Err(SheetFault::Uncovered)
    );
}

#[test]
fn other_texts(rt: HostRuntime) -> Result<(), Fail> {
    let shelf = Pair::new(two_texts(FIRST, SECOND), Held::new(THIRD));
    let mut nodes = [Node::FREE; 8];
    let mut book = open_book(&mut nodes, &shelf);
    keep_all(&rt, &mut book)?;
    let mut values = [0u32; 5];
    let mut sheet = Sheet::<Lines>::new(&mut values);
    assert_eq!(rt; sheet.bring_up(&book, &shelf), Ok(5));
    // fewer texts
    let two = two_texts(FIRST, SECOND);
    refuses(&rt, &book, &two, &mut sheet);
    smaller_rows(&rt, &book, &two);
    // one text more, an empty one
    let four = Pair::new(two_texts(FIRST, SECOND), two_texts(THIRD, b""));
    refuses(&rt, &book, &four, &mut sheet);
    // the last text one byte longer, and the first one byte shorter
    let longer = Pair::new(two_texts(FIRST, SECOND), Held::new(b"ef"));
    refuses(&rt, &book, &longer, &mut sheet);
    let shorter = Pair::new(Held::new(b"a"), two_texts(SECOND, THIRD));
    refuses(&rt, &book, &shorter, &mut sheet);
    // nothing was changed by the refusals
    assert_eq!(rt; sheet.summary(&book, &shelf, 1, 0, 5), Ok(1));
    answers(&rt, &book, &shelf)
}
