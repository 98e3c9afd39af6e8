// Read and find at the borders of a version, and in one of many pieces.
use super::steps::{keep_doubled, keeps, shaped};
use ask::{LONGEST_PATTERN, find, read};
use book::{Book, BookFault, Node, open_book};
use shelf::Held;
use std::process::Abort;
use std::test::Fail;

const TEXT: [u8; 11] = *b"abcdefghijX";

// Version 11 is "abcdefghij" 1,024 times, and version 12 has "X" behind it.
// X is joined with the lowest node on the right, and a node is made at each of the 10 levels.
fn keep_long(rt: &impl Abort, book: &mut Book) -> Result<(), Fail> {
    keep_doubled(rt, book, 10, 11)?;
    shaped(rt, book, 11, 10_240, 10, 1_024);
    book.open(11)?;
    assert_eq!(rt; book.put_piece(10_240, 0, 10, 1), Ok(11));
    keeps(rt, book, 12, 11);
    shaped(rt, book, 12, 10_241, 11, 1_025);
    Ok(())
}

#[test]
fn places_of_patterns(rt: HostRuntime) -> Result<(), Fail> {
    let shelf = Held::new(&TEXT);
    let mut nodes = [Node::FREE; 22];
    let mut book = open_book(&mut nodes, &shelf);
    keep_long(&rt, &mut book)?;
    // Rows of a place, a pattern and where it is found: as a struct each would take five lines.
    let table: [(usize, &[u8], Option<usize>); 16] = [
        (0, b"a", Some(0)),
        (1, b"a", Some(10)),
        (0, b"X", Some(10_240)),
        (10_240, b"X", Some(10_240)),
        (10_241, b"X", None),
        (10_240, b"XX", None),
        (0, b"ijX", Some(10_238)),
        (10_239, b"ijX", None),
        // 4,096 bytes from the place end behind "i", behind "ij" and behind "ijX"
        (6_143, b"ijX", Some(10_238)),
        (6_144, b"ijX", Some(10_238)),
        (6_145, b"ijX", Some(10_238)),
        // across three pieces
        (0, b"jabcdefghija", Some(9)),
        (10, b"jabcdefghija", Some(19)),
        (10_219, b"jabcdefghija", Some(10_219)),
        (10_220, b"jabcdefghija", None),
        (0, b"ba", None),
    ];
    for (from, pattern, place) in table {
        assert_eq!(rt; find(&book, &shelf, 12, from, pattern), Ok(place));
    }
    Ok(())
}

// A pattern of 256 bytes that stands at 5, and at every tenth place from there that leaves room for it.
#[test]
fn longest_pattern(rt: HostRuntime) -> Result<(), Fail> {
    let shelf = Held::new(&TEXT);
    let mut nodes = [Node::FREE; 22];
    let mut book = open_book(&mut nodes, &shelf);
    keep_long(&rt, &mut book)?;
    let mut pattern = Vec::new(rt.alloc());
    for _ in 0..25 {
        pattern.extend_from_slice(b"fghijabcde")?;
    }
    pattern.extend_from_slice(b"fghija")?;
    // Pairs of a place and where the pattern is found: as a struct each would take four lines.
    for (from, place) in [
        (0, 5),
        (6, 15),
        (3_846, 3_855),
        (4_086, 4_095),
        (9_975, 9_975),
    ] {
        assert_eq!(rt;
            find(&book, &shelf, 12, from, pattern.as_slice()),
            Ok(Some(place))
        );
    }
    assert_eq!(rt;
        find(&book, &shelf, 12, 9_976, pattern.as_slice()),
        Ok(None)
    );
    Ok(())
}

#[test]
fn refused_finds(rt: HostRuntime) -> Result<(), Fail> {
    let shelf = Held::new(&TEXT);
    let mut nodes = [Node::FREE; 22];
    let mut book = open_book(&mut nodes, &shelf);
    keep_long(&rt, &mut book)?;
    let too_long = [b'a'; LONGEST_PATTERN + 1];
    // Rows of a version, a place, a pattern and the refusal: as a struct each would take six lines.
    let table: [(usize, usize, &[u8], BookFault); 8] = [
        (13, 0, b"a", BookFault::NotKept),
        (13, 99_999, b"", BookFault::NotKept),
        (12, 10_242, b"a", BookFault::PastEnd),
        (12, usize::MAX, b"", BookFault::PastEnd),
        (0, 1, b"a", BookFault::PastEnd),
        (12, 0, b"", BookFault::BadPattern),
        (12, 10_241, &too_long, BookFault::BadPattern),
        (0, 0, b"", BookFault::BadPattern),
    ];
    for (version, from, pattern, fault) in table {
        assert_eq!(rt; find(&book, &shelf, version, from, pattern), Err(fault));
    }
    assert_eq!(rt; find(&book, &shelf, 0, 0, b"a"), Ok(None));
    Ok(())
}

// Stretches across pieces, up to the end.
#[test]
fn reads(rt: HostRuntime) -> Result<(), Fail> {
    let shelf = Held::new(&TEXT);
    let mut nodes = [Node::FREE; 22];
    let mut book = open_book(&mut nodes, &shelf);
    keep_long(&rt, &mut book)?;
    let mut out = [0u8; 12];
    assert_eq!(rt; read(&book, &shelf, 12, 4_089, &mut out), Ok(()));
    assert_eq!(rt; out, *b"jabcdefghija");
    assert_eq!(rt; read(&book, &shelf, 12, 10_229, &mut out), Ok(()));
    assert_eq!(rt; out, *b"jabcdefghijX");
    assert_eq!(rt;
        read(&book, &shelf, 12, 10_230, &mut out),
        Err(BookFault::PastEnd)
    );
    assert_eq!(rt;
        read(&book, &shelf, 12, usize::MAX, &mut out),
        Err(BookFault::PastEnd)
    );
    assert_eq!(rt;
        read(&book, &shelf, 13, 0, &mut out),
        Err(BookFault::NotKept)
    );
    assert_eq!(rt;
        read(&book, &shelf, 0, 0, &mut out),
        Err(BookFault::PastEnd)
    );
    assert_eq!(rt; out, *b"jabcdefghijX");
    // no bytes, at the end and past it
    assert_eq!(rt; read(&book, &shelf, 12, 10_241, &mut out[0..0]), Ok(()));
    assert_eq!(rt;
        read(&book, &shelf, 12, 10_242, &mut out[0..0]),
        Err(BookFault::PastEnd)
    );
    assert_eq!(rt; read(&book, &shelf, 0, 0, &mut out[0..0]), Ok(()));
    Ok(())
}
