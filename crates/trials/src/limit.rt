use crate::tally::Tally;
use ask::shape;
use book::{Book, BookFault, Node, open_book};
use replay::{Answer, Call, Change, Inputs, perform};
use rule::brackets::{Brackets, Unmatched};
use rule::lines::Lines;
use sheet::Sheet;
use shelf::{Held, LIMIT};
use std::alloc::{AllocError, Global};

// The version that has LIMIT bytes: version 1 has one byte, and each later one has twice as many as the one before.
const FULL: usize = 31;

// A change, and whether it is accepted.
#[derive(Clone, Copy)]
struct Step {
    change: Change,
    expected: Result<(), BookFault>,
}

fn accepted(change: Change) -> Step {
    Step {
        change,
        expected: Ok(()),
    }
}

fn refused(change: Change, fault: BookFault) -> Step {
    Step {
        change,
        expected: Err(fault),
    }
}

// One byte put into the draft at a place.
fn one_byte(place: usize) -> Change {
    Change::PutPiece {
        place,
        text: 0,
        from: 0,
        len: 1,
    }
}

// Versions are put into themselves until one is full.
fn doubled(heap: Global) -> Result<Vec<Step>, AllocError> {
    let mut steps = Vec::from_slice(
        heap,
        &[
            accepted(Change::Open { version: 0 }),
            accepted(one_byte(0)),
            accepted(Change::Keep),
        ],
    )?;
    for version in 1..FULL {
        let place = version;
        steps.extend_from_slice(&[
            accepted(Change::Open { version }),
            accepted(Change::PutVersion { place, version }),
            accepted(Change::Keep),
        ])?;
    }
    Ok(steps)
}

// The full version takes no byte more until one is cut.
fn at_limit() -> [Step; 11] {
    let full = Change::PutVersion {
        place: 7,
        version: FULL,
    };
    let empty = Change::PutVersion {
        place: 7,
        version: 0,
    };
    [
        accepted(Change::Open { version: FULL }),
        refused(one_byte(0), BookFault::TooLong),
        refused(one_byte(LIMIT), BookFault::TooLong),
        refused(one_byte(LIMIT + 1), BookFault::PastEnd),
        refused(full, BookFault::TooLong),
        accepted(empty),
        accepted(Change::Cut { from: 5, len: 1 }),
        accepted(one_byte(LIMIT - 1)),
        refused(one_byte(9), BookFault::TooLong),
        accepted(Change::Keep),
        refused(Change::Toss, BookFault::NoDraft),
    ]
}

// Whether a change was accepted, or refused by the row that was expected.
fn as_expected(expected: Result<(), BookFault>, answer: &Answer<u32, Unmatched>) -> bool {
    match (expected, answer) {
        (Err(fault), Answer::Book(Err(given))) => fault == *given,
        (Ok(()), Answer::Book(Ok(_))) => true,
        _ => false,
    }
}

// Whether each version has the length that doubling gives, and as many line ends: its bytes are all of them line ends.
fn compare_lengths(book: &Book, lines: &mut Sheet<Lines>, shelf: &Held, tally: &mut Tally) {
    tally.compared(lines.bring_up(book, shelf).is_ok());
    for version in 1..=FULL {
        let len = 1usize << (version - 1);
        tally.compared(shape(book, version).is_ok_and(|told| told.len == len));
        let ends = lines.summary(book, shelf, version, 0, len);
        tally.compared(ends.is_ok_and(|ends| ends as usize == len));
    }
}

// Makes versions up to LIMIT bytes, which are compared by their lengths.
pub fn run_limit(heap: Global, tally: &mut Tally) -> Result<(), AllocError> {
    let shelf = Held::new(b"\n");
    let mut nodes = vec![in heap; Node::FREE; 8000]?;
    let mut counts = vec![in heap; 0u32; 8000]?;
    let mut book = open_book(nodes.as_mut_slice(), &shelf);
    let mut lines = Sheet::<Lines>::new(counts.as_mut_slice());
    let mut brackets = Sheet::<Brackets>::new(&mut []);
    let inputs = Inputs {
        first: &shelf,
        second: &shelf,
        patterns: b"",
    };
    let mut steps = doubled(heap)?;
    steps.extend_from_slice(&at_limit())?;
    for Step { change, expected } in steps {
        let call = Call::Book(change);
        let answer = perform(heap, &mut book, &mut lines, &mut brackets, &inputs, call)?;
        tally.note(call, &answer);
        tally.compared(as_expected(expected, &answer));
    }
    compare_lengths(&book, &mut lines, &shelf, tally);
    Ok(())
}
