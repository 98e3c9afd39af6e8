// Steps that the tests share.
use ask::{Dimensions, read, shape};
use book::{Book, Kept};
use shelf::Shelf;
use std::process::Abort;
use std::test::Fail;

// A letter put into a draft as a piece of one byte of text 0.
#[derive(Clone, Copy)]
pub struct Letter {
    // Its place in the draft, and its place in the text.
    pub place: usize,
    pub from: usize,
    // How many slots the rules take for it.
    pub made: usize,
}

impl Letter {
    pub fn new(place: usize, from: usize, made: usize) -> Letter {
        Letter { place, from, made }
    }
}

// Puts letters into the draft, one after the other.
pub fn put_letters(rt: &impl Abort, book: &mut Book, letters: &[Letter]) {
    for letter in letters {
        let made = book.put_piece(letter.place, 0, letter.from, 1);
        assert_eq!(rt; made, Ok(letter.made));
    }
}

// Keeps the draft, as a version of this number with these slots made.
pub fn keeps(rt: &impl Abort, book: &mut Book, version: usize, made: usize) {
    assert_eq!(rt; book.keep(), Ok(Kept { version, made }));
}

// Opens a draft and makes it ((a b) c), which takes 5 slots. The letters are given by their places in the text.
pub fn draft_three(rt: &impl Abort, book: &mut Book, letters: [usize; 3]) -> Result<(), Fail> {
    let [a, b, c] = letters;
    book.open(0)?;
    put_letters(
        rt,
        book,
        &[
            Letter::new(0, a, 1),
            Letter::new(1, b, 2),
            Letter::new(2, c, 2),
        ],
    );
    Ok(())
}

// Opens a draft and makes it one piece, the first `len` bytes of text 0.
pub fn draft_piece(rt: &impl Abort, book: &mut Book, len: usize) -> Result<(), Fail> {
    book.open(0)?;
    assert_eq!(rt; book.put_piece(0, 0, 0, len), Ok(1));
    Ok(())
}

// Keeps versions up to `last`. Version 1 is one piece, the first `len` bytes of text 0, and each later version is the one
// before it, twice, which takes one node. Version n has the height n - 1.
pub fn keep_doubled(rt: &impl Abort, book: &mut Book, len: usize, last: usize) -> Result<(), Fail> {
    draft_piece(rt, book, len)?;
    keeps(rt, book, 1, 1);
    for version in 1..last {
        book.open(version)?;
        assert_eq!(rt; book.put_version(0, version), Ok(1));
        keeps(rt, book, version + 1, 1);
    }
    Ok(())
}

// A version has these dimensions. They are three numbers: as a `Dimensions` each call would take nine lines more.
pub fn shaped(
    rt: &impl Abort,
    book: &Book,
    version: usize,
    len: usize,
    height: usize,
    pieces: usize,
) {
    let dimensions = Dimensions {
        len,
        height,
        pieces,
    };
    assert_eq!(rt; shape(book, version), Ok(dimensions));
}

// A version spells these bytes, and has no more.
// Beside `shows` of shelf_tests, which reads a text of a shelf: the two make other calls, and share only `==`.
pub fn spells<S: Shelf, const N: usize>(
    rt: &impl Abort,
    book: &Book,
    shelf: &S,
    version: usize,
    bytes: &[u8; N],
) -> Result<(), Fail> {
    assert_eq!(rt; shape(book, version)?.len, N);
    let mut out = [0u8; N];
    read(book, shelf, version, 0, &mut out)?;
    assert_eq!(rt; out, *bytes);
    Ok(())
}
