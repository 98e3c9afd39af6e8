use super::reading::shows;
use shelf::{FrameFault, Kind, Layer, Received, Row};
use std::process::Abort;
use std::test::Fail;

#[test]
fn rows_of_frames(rt: HostRuntime) {
    let table = [
        (FrameFault::ShortFrame, 1),
        (FrameFault::UnknownKind, 2),
        (FrameFault::WrongLength, 3),
        (FrameFault::BadRing, 4),
    ];
    let layer = Layer::Shelf;
    for (fault, number) in table {
        assert_eq!(rt; fault.row(), Row { number, layer });
    }
}

// The check refuses each frame with this fault.
fn refuses(rt: &impl Abort, fault: FrameFault, frames: &[&[u8]]) {
    for frame in frames {
        assert_eq!(rt; Received::new(*frame).check().err(), Some(fault));
    }
}

// Fewer than 6 bytes.
#[test]
fn short_frames(rt: HostRuntime) {
    refuses(&rt, FrameFault::ShortFrame, &[b"", b"\x00\x00\x00\x00\x01"]);
}

#[test]
fn unknown_kinds(rt: HostRuntime) {
    refuses(
        &rt,
        FrameFault::UnknownKind,
        &[
            // kinds 0, 3 and 513
            b"\x00\x00\x00\x00\x00\x00",
            b"\x00\x00\x00\x00\x03\x00",
            b"\x00\x00\x00\x00\x01\x02",
            // an unknown kind with a wrong length: the smaller row answers
            b"\x09\x00\x00\x00\x03\x00a",
        ],
    );
}

#[test]
fn wrong_lengths(rt: HostRuntime) {
    refuses(
        &rt,
        FrameFault::WrongLength,
        &[
            // the length one too small, one too large, and above LIMIT
            b"\x01\x00\x00\x00\x01\x00ab",
            b"\x03\x00\x00\x00\x01\x00ab",
            b"\x01\x00\x00\x40\x01\x00a",
            // a wrong length of a ring without a start: the smaller row answers
            b"\x02\x00\x00\x00\x02\x00a",
        ],
    );
}

#[test]
fn bad_rings(rt: HostRuntime) {
    refuses(
        &rt,
        FrameFault::BadRing,
        &[
            // ring bodies of 0 to 3 bytes
            b"\x00\x00\x00\x00\x02\x00",
            b"\x01\x00\x00\x00\x02\x00\x00",
            b"\x03\x00\x00\x00\x02\x00\x00\x00\x00",
            // a start that is the memory's length, one beyond it, and 1 in an empty memory
            b"\x07\x00\x00\x00\x02\x00\x03\x00\x00\x00abc",
            b"\x07\x00\x00\x00\x02\x00\x04\x00\x00\x00abc",
            b"\x04\x00\x00\x00\x02\x00\x01\x00\x00\x00",
        ],
    );
}

// The check passes each frame, as one of this kind whose text is these bytes.
struct Passed {
    frame: &'static [u8],
    kind: Kind,
    text: &'static [u8],
}

const PASSED: [Passed; 7] = [
    // 6 bytes, an empty trace
    Passed {
        frame: b"\x00\x00\x00\x00\x01\x00",
        kind: Kind::Straight,
        text: b"",
    },
    Passed {
        frame: b"\x02\x00\x00\x00\x01\x00ab",
        kind: Kind::Straight,
        text: b"ab",
    },
    // an empty memory with the start 0
    Passed {
        frame: b"\x04\x00\x00\x00\x02\x00\x00\x00\x00\x00",
        kind: Kind::Ring,
        text: b"",
    },
    Passed {
        frame: b"\x08\x00\x00\x00\x02\x00\x02\x00\x00\x00cdab",
        kind: Kind::Ring,
        text: b"abcd",
    },
    Passed {
        frame: b"\x08\x00\x00\x00\x02\x00\x00\x00\x00\x00abcd",
        kind: Kind::Ring,
        text: b"abcd",
    },
    // the last start that lies in the memory
    Passed {
        frame: b"\x08\x00\x00\x00\x02\x00\x03\x00\x00\x00bcda",
        kind: Kind::Ring,
        text: b"abcd",
    },
    Passed {
        frame: b"\x05\x00\x00\x00\x02\x00\x00\x00\x00\x00a",
        kind: Kind::Ring,
        text: b"a",
    },
];

#[test]
fn passed_frames(rt: HostRuntime) -> Result<(), Fail> {
    for case in &PASSED {
        let frame = Received::new(case.frame).check()?;
        assert_eq!(rt; frame.kind(), case.kind);
        shows(&rt, &frame.text(), 0, case.text)?;
    }
    Ok(())
}
