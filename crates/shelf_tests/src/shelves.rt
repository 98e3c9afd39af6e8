use super::reading::shows;
use shelf::{CopyFault, Held, Pair, Ring, Shelf};
use std::process::Abort;
use std::test::Fail;

// What a ring of the memory "abcde" shows for starts in it and beyond it.
#[test]
fn rings_turn(rt: HostRuntime) -> Result<(), Fail> {
    let starts: [(usize, &[u8]); 6] = [
        (0, b"abcde"),
        (4, b"eabcd"),
        (5, b"abcde"),
        (7, b"cdeab"),
        (1_073_741_824, b"eabcd"),
        (usize::MAX, b"abcde"),
    ];
    for (start, text) in starts {
        shows(&rt, &Ring::new(b"abcde", start), 0, text)?;
    }
    Ok(())
}

#[test]
fn stretches_of_a_ring(rt: HostRuntime) -> Result<(), Fail> {
    let ring = Ring::new(b"abcde", 3);
    let mut out = [0u8; 2];
    ring.copy(0, 1, &mut out)?;
    assert_eq!(rt; out, *b"ea");
    ring.copy(0, 3, &mut out)?;
    assert_eq!(rt; out, *b"bc");
    // nothing at the end, nothing one past it, and one byte past it
    ring.copy(0, 5, &mut out[0..0])?;
    assert_eq!(rt; ring.copy(0, 6, &mut out[0..0]), Err(CopyFault::PastEnd));
    assert_eq!(rt; ring.copy(0, 4, &mut out), Err(CopyFault::PastEnd));
    assert_eq!(rt; ring.copy(0, usize::MAX, &mut out), Err(CopyFault::PastEnd));
    assert_eq!(rt; ring.copy(1, 9, &mut out), Err(CopyFault::NoText));
    assert_eq!(rt; out, *b"bc");
    let empty = Ring::new(b"", 3);
    assert_eq!(rt; empty.length(0), Some(0));
    empty.copy(0, 0, &mut out[0..0])?;
    assert_eq!(rt; empty.copy(0, 0, &mut out), Err(CopyFault::PastEnd));
    Ok(())
}

#[test]
fn stretches_of_a_held_text(rt: HostRuntime) -> Result<(), Fail> {
    let held = Held::new(b"home");
    let mut out = *b"??";
    assert_eq!(rt; held.count(), 1);
    assert_eq!(rt; held.length(0), Some(4));
    assert_eq!(rt; held.length(1), None);
    held.copy(0, 2, &mut out)?;
    assert_eq!(rt; out, *b"me");
    assert_eq!(rt; held.copy(0, 3, &mut out), Err(CopyFault::PastEnd));
    assert_eq!(rt; held.copy(1, 0, &mut out), Err(CopyFault::NoText));
    held.copy(0, 4, &mut out[0..0])?;
    assert_eq!(rt; held.copy(0, 5, &mut out[0..0]), Err(CopyFault::PastEnd));
    assert_eq!(rt; out, *b"me");
    Ok(())
}

// Three texts and then seven: the last two are cut off.
#[test]
fn pairs_of_pairs(rt: HostRuntime) -> Result<(), Fail> {
    let three = Pair::new(
        Held::new(b"a"),
        Pair::new(Held::new(b"bb"), Held::new(b"ccc")),
    );
    let four = Pair::new(
        Pair::new(Held::new(b"1"), Held::new(b"22")),
        Pair::new(Held::new(b"333"), Held::new(b"4444")),
    );
    let seven = Pair::new(
        four,
        Pair::new(
            Ring::new(b"5xx", 1),
            Pair::new(Held::new(b"6"), Held::new(b"7")),
        ),
    );
    let ten = Pair::new(three, seven);
    assert_eq!(rt; ten.count(), 8);
    let texts: [&[u8]; 8] = [b"a", b"bb", b"ccc", b"1", b"22", b"333", b"4444", b"xx5"];
    for (k, text) in texts.iter().enumerate() {
        shows(&rt, &ten, k, *text)?;
    }
    assert_eq!(rt; ten.length(8), None);
    assert_eq!(rt; ten.length(9), None);
    cut_off(&rt, &ten);
    Ok(())
}

// A copy from the ninth text is refused, and so is one that passes the end of the fourth.
fn cut_off<S: Shelf>(rt: &impl Abort, ten: &S) {
    let mut out = *b"??";
    assert_eq!(rt; ten.copy(8, 0, &mut out), Err(CopyFault::NoText));
    assert_eq!(rt; ten.copy(3, 0, &mut out), Err(CopyFault::PastEnd));
    assert_eq!(rt; out, *b"??");
}
