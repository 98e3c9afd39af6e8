// Joins and splits by the rules of trees, seen through the slots made and the shapes.
use super::steps::{Letter, keeps, put_letters, shaped, spells};
use book::{Book, Node, open_book};
use shelf::Held;
use std::process::Abort;
use std::test::Fail;

const LETTERS: &[u8] = b"abcdefgh";

// What a letter that is put at an end of the draft comes to: the slots made, and the height then.
struct Growth {
    made: usize,
    height: usize,
}

// What each of the eight letters comes to. A piece takes one slot, and then
// a joins nothing;
// b gives (a b);
// c gives ((a b) c);
// d goes down to c: (c d), and the root;
// e goes down to (c d): ((c d) e), and the root;
// f goes down to e: (e f), ((c d)(e f)), and the root;
// g goes down to (e f): ((e f) g) and ((c d)((e f) g)), which is too high, so that two more give (((a b)(c d))((e f) g));
// h goes down to g: (g h), ((e f)(g h)), and the root.
// At the other end the rules are the same with left and right exchanged.
const GROWTH: [Growth; 8] = [
    Growth { made: 1, height: 0 },
    Growth { made: 2, height: 1 },
    Growth { made: 2, height: 2 },
    Growth { made: 3, height: 2 },
    Growth { made: 3, height: 3 },
    Growth { made: 4, height: 3 },
    Growth { made: 5, height: 3 },
    Growth { made: 4, height: 3 },
];

// The end of the draft that the letters are put at.
#[derive(Clone, Copy)]
enum End {
    Front,
    Back,
}

// Puts the eight letters, each into the version before it, and keeps each as a version.
fn grow(rt: &impl Abort, book: &mut Book, end: End) -> Result<(), Fail> {
    for (n, growth) in GROWTH.iter().enumerate() {
        book.open(n)?;
        let letter = match end {
            End::Front => Letter::new(0, 7 - n, growth.made),
            End::Back => Letter::new(n, n, growth.made),
        };
        put_letters(rt, book, &[letter]);
        keeps(rt, book, n + 1, growth.made);
        shaped(rt, book, n + 1, n + 1, growth.height, n + 1);
    }
    Ok(())
}

#[test]
fn letters_at_the_end(rt: HostRuntime) -> Result<(), Fail> {
    let shelf = Held::new(LETTERS);
    let mut nodes = [Node::FREE; 24];
    let mut book = open_book(&mut nodes, &shelf);
    grow(&rt, &mut book, End::Back)?;
    spells(&rt, &book, &shelf, 3, b"abc")?;
    spells(&rt, &book, &shelf, 8, b"abcdefgh")
}

#[test]
fn letters_at_the_front(rt: HostRuntime) -> Result<(), Fail> {
    let shelf = Held::new(LETTERS);
    let mut nodes = [Node::FREE; 24];
    let mut book = open_book(&mut nodes, &shelf);
    grow(&rt, &mut book, End::Front)?;
    spells(&rt, &book, &shelf, 3, b"fgh")?;
    spells(&rt, &book, &shelf, 8, b"abcdefgh")
}

// Keeps the version that four letters give, in 10 slots.
fn keeps_four(rt: &impl Abort, letters: &[Letter]) -> Result<(), Fail> {
    let shelf = Held::new(LETTERS);
    let mut nodes = [Node::FREE; 10];
    let mut book = open_book(&mut nodes, &shelf);
    book.open(0)?;
    put_letters(rt, &mut book, letters);
    keeps(rt, &mut book, 1, 10);
    shaped(rt, &book, 1, 4, 2, 4);
    spells(rt, &book, &shelf, 1, b"abcd")
}

// The letter is joined with the node next to it, which gives a tree of height 2 beside a piece. That is too uneven, and
// the inner side of that tree is its higher one, so that a double turn makes three nodes more: ((a b)(c d)).
#[test]
fn double_turns(rt: HostRuntime) -> Result<(), Fail> {
    // ((b c) d), and a in front
    keeps_four(
        &rt,
        &[
            Letter::new(0, 1, 1),
            Letter::new(1, 2, 2),
            Letter::new(2, 3, 2),
            Letter::new(0, 0, 5),
        ],
    )?;
    // (a (b c)), and d behind
    keeps_four(
        &rt,
        &[
            Letter::new(0, 2, 1),
            Letter::new(0, 1, 2),
            Letter::new(0, 0, 2),
            Letter::new(3, 3, 5),
        ],
    )
}
