use crate::brackets::{Brackets, Unmatched};
use crate::lines::Lines;
use crate::{Rule, value_of};

fn pair(closings: u32, openings: u32) -> Unmatched {
    Unmatched { closings, openings }
}

#[test]
fn strings(rt: HostRuntime) {
    let table: [(&[u8], u32, u32, u32); 8] = [
        (b"", 0, 0, 0),
        (b"no end of a line", 0, 0, 0),
        (b"\n\n\n\n\n", 5, 0, 0),
        (b"one\r\ntwo\nlast", 2, 0, 0),
        (b"((((((((((((()))))))))))))", 0, 0, 0),
        (b"(((((((((((\n(((((((((((", 1, 0, 22),
        (b")))(((", 0, 3, 3),
        (b"a)b(c)\n)(d((\n)", 2, 2, 2),
    ];
    for (bytes, lines, closings, openings) in table {
        assert_eq!(rt; value_of::<Lines>(bytes), lines);
        assert_eq!(rt; value_of::<Brackets>(bytes), pair(closings, openings));
    }
}

#[test]
fn joins(rt: HostRuntime) {
    let most = u32::MAX;
    assert_eq!(rt; Lines::join(2, 3), 5);
    assert_eq!(rt; Lines::join(most, most), most);
    assert_eq!(rt; Lines::join(most - 1, 1), most);
    let facing = value_of::<Brackets>(b")(");
    let table = [
        (facing, facing, pair(1, 1)),
        (pair(0, 5), pair(2, 0), pair(0, 3)),
        (pair(0, 2), pair(5, 0), pair(3, 0)),
        (pair(most, 0), pair(most, most), pair(most, most)),
        (pair(most, most), pair(0, most), pair(most, most)),
        (pair(0, most), pair(most, 0), pair(0, 0)),
    ];
    for (first, second, both) in table {
        assert_eq!(rt; Brackets::join(first, second), both);
    }
}
