// Splits by the rules of trees, seen through the edits that make them.
use super::steps::{draft_piece, draft_three, keeps, shaped, spells};
use book::{Node, open_book};
use shelf::Held;
use std::test::Fail;

const TEXT: &[u8] = b"abcde";

// ((a b) c) split at 1 gives a and (b c), which takes one slot; (b c) split at 1 or at its ends takes none.
#[test]
fn nodes(rt: HostRuntime) -> Result<(), Fail> {
    let shelf = Held::new(TEXT);
    let mut nodes = [Node::FREE; 16];
    let mut book = open_book(&mut nodes, &shelf);
    draft_three(&rt, &mut book, [0, 1, 2])?;
    keeps(&rt, &mut book, 1, 5);
    book.open(1)?;
    assert_eq!(rt; book.crop(1, 2), Ok(1));
    keeps(&rt, &mut book, 2, 1);
    shaped(&rt, &book, 2, 2, 1, 2);
    spells(&rt, &book, &shelf, 2, b"bc")?;
    book.open(1)?;
    assert_eq!(rt; book.cut(0, 1), Ok(1));
    keeps(&rt, &mut book, 3, 1);
    shaped(&rt, &book, 3, 2, 1, 2);
    spells(&rt, &book, &shelf, 3, b"bc")?;
    // the outer parts a and c are joined
    book.open(1)?;
    assert_eq!(rt; book.cut(1, 1), Ok(2));
    keeps(&rt, &mut book, 4, 2);
    shaped(&rt, &book, 4, 2, 1, 2);
    spells(&rt, &book, &shelf, 4, b"ac")?;
    // between (a b) and c nothing is made
    book.open(1)?;
    assert_eq!(rt; book.cut(2, 1), Ok(0));
    keeps(&rt, &mut book, 5, 0);
    spells(&rt, &book, &shelf, 5, b"ab")?;
    spells(&rt, &book, &shelf, 1, b"abc")
}

// A split inside a piece makes two pieces.
#[test]
fn pieces(rt: HostRuntime) -> Result<(), Fail> {
    let shelf = Held::new(TEXT);
    let mut nodes = [Node::FREE; 32];
    let mut book = open_book(&mut nodes, &shelf);
    draft_piece(&rt, &mut book, 5)?;
    keeps(&rt, &mut book, 1, 1);
    book.open(1)?;
    assert_eq!(rt; book.crop(0, 2), Ok(2));
    keeps(&rt, &mut book, 2, 2);
    shaped(&rt, &book, 2, 2, 0, 1);
    spells(&rt, &book, &shelf, 2, b"ab")?;
    // two splits, and the outer pieces joined
    book.open(1)?;
    assert_eq!(rt; book.cut(2, 1), Ok(5));
    keeps(&rt, &mut book, 3, 5);
    shaped(&rt, &book, 3, 4, 1, 2);
    spells(&rt, &book, &shelf, 3, b"abde")?;
    // a new piece, a split, and two joins: ((ab a) cde)
    book.open(1)?;
    assert_eq!(rt; book.put_piece(2, 0, 0, 1), Ok(5));
    keeps(&rt, &mut book, 4, 5);
    shaped(&rt, &book, 4, 6, 2, 3);
    spells(&rt, &book, &shelf, 4, b"abacde")?;
    // the same with a version that is one piece, which is shared and not made again
    book.open(1)?;
    assert_eq!(rt; book.put_version(2, 1), Ok(4));
    keeps(&rt, &mut book, 5, 4);
    shaped(&rt, &book, 5, 10, 2, 3);
    spells(&rt, &book, &shelf, 5, b"ababcdecde")
}
