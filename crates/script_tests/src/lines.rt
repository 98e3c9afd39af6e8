use script::{
    Fault, Line, Names, ScriptFault, Stretch, check_buffer, check_file, first_column, judge,
    line_at,
};
use shelf::{Layer, Row};

fn line(number: usize, start: usize, end: usize) -> Line {
    Line { number, start, end }
}

#[test]
fn lines_end_at_line_ends(rt: HostRuntime) {
    let script = b"toss\n\ncut";
    assert_eq!(rt; line_at(script, 1, 0), Some(line(1, 0, 4)));
    assert_eq!(rt; line_at(script, 2, 5), Some(line(2, 5, 5)));
    assert_eq!(rt; line_at(script, 3, 6), Some(line(3, 6, 9)));
    assert_eq!(rt; line_at(script, 4, 10), None);
    assert_eq!(rt; line_at(b"", 1, 0), None);
    // nothing behind the last line end is no line
    assert_eq!(rt; line_at(b"toss\n", 2, 5), None);
}

#[test]
fn faults_name_their_line(rt: HostRuntime) {
    let script = b"toss\n\n cut 1\ntoss";
    let fault = Fault {
        row: Row {
            number: 18,
            layer: Layer::Script,
        },
        line: 3,
        column: 7,
    };
    assert_eq!(rt; judge(script, line(3, 6, 12), &Names::new()), Err(fault));
}

#[test]
fn blank_lines_have_no_first_token(rt: HostRuntime) {
    let script = b"  toss\n  \ncut";
    assert_eq!(rt; first_column(script, line(1, 0, 6)), Some(3));
    assert_eq!(rt; first_column(script, line(2, 7, 9)), None);
    assert_eq!(rt; first_column(script, line(3, 10, 13)), Some(1));
}

#[test]
fn stretches_are_cut_off_at_the_end(rt: HostRuntime) {
    let bytes = b"abcdef";
    assert_eq!(rt; Stretch { start: 1, end: 3 }.of(bytes), b"bc".as_slice());
    assert_eq!(rt; Stretch { start: 4, end: 9 }.of(bytes), b"ef".as_slice());
    assert_eq!(rt; Stretch { start: 3, end: 1 }.of(bytes), b"".as_slice());
    assert_eq!(rt; Stretch { start: 4, end: 9 }.len(), 5);
}

#[test]
fn files_and_buffers_have_bounds(rt: HostRuntime) {
    assert_eq!(rt; check_file(&[0; 8_192]), Ok(()));
    assert_eq!(rt; check_file(&[0; 8_193]), Err(ScriptFault::LongFile));
    assert_eq!(rt; check_buffer(&[0; 4_200]), Ok(()));
    assert_eq!(rt; check_buffer(&[0; 4_199]), Err(ScriptFault::SmallBuffer));
}

#[test]
fn names_are_added_once(rt: HostRuntime) {
    let mut names = Names::new();
    assert!(rt; names.add(b"abcdefgh", 1));
    assert!(rt; !names.add(b"abcdefghi", 2));
    assert!(rt; names.add(b"b", 2));
    assert_eq!(rt; names.version(b"abcdefgh"), Some(1));
    assert_eq!(rt; names.version(b"b"), Some(2));
    assert_eq!(rt; names.version(b"empty"), Some(0));
    assert_eq!(rt; names.version(b"abcdefg"), None);
}

#[test]
fn there_is_room_for_63_names(rt: HostRuntime) {
    let mut names = Names::new();
    for i in 1..64 {
        assert!(rt; names.add(&[b'a', b'a' + (i % 26) as u8, b'a' + (i / 26) as u8], i));
    }
    assert!(rt; !names.add(b"more", 64));
    assert_eq!(rt; names.version(b"alc"), Some(63));
}
