use script::{Command, Names, Stretch, judge, line_at};

// The names `one` and `two`, of the versions 1 and 2.
fn two_names() -> Names {
    let mut names = Names::new();
    names.add(b"one", 1);
    names.add(b"two", 2);
    names
}

// The row and the column of the first line's fault.
fn fault(script: &[u8]) -> Option<(u8, usize)> {
    let line = line_at(script, 1, 0)?;
    let fault = judge(script, line, &two_names()).err()?;
    Some((fault.row.number, fault.column))
}

// The command of the first line, if it has one.
fn command(script: &[u8]) -> Option<Command> {
    let line = line_at(script, 1, 0)?;
    judge(script, line, &two_names()).ok()?
}

#[test]
fn tokens_have_columns(rt: HostRuntime) {
    assert_eq!(rt; fault(b"  opens one"), Some((18, 3)));
    assert_eq!(rt; fault(b"open"), Some((18, 5)));
    assert_eq!(rt; fault(b"open  "), Some((18, 7)));
    assert_eq!(rt; fault(b"cut 1 2 3"), Some((18, 9)));
    assert_eq!(rt; fault(b"cut  1"), Some((18, 7)));
    assert_eq!(rt; fault(b"toss 1 2"), Some((18, 6)));
    assert_eq!(rt; fault(b"zip x y z"), Some((18, 1)));
    assert_eq!(rt; fault(b"Open one"), Some((18, 1)));
}

#[test]
fn the_smallest_row_answers(rt: HostRuntime) {
    // the misshapen token stands before the missing one
    assert_eq!(rt; fault(b"cut x"), Some((18, 5)));
    assert_eq!(rt; fault(b"cut 9999999999 x"), Some((18, 16)));
    assert_eq!(rt; fault(b"put two 0"), Some((18, 5)));
    assert_eq!(rt; fault(b"cut 1073741825 1073741825"), Some((19, 5)));
    assert_eq!(rt; fault(b"show six 1073741825 0"), Some((19, 10)));
    assert_eq!(rt; fault(b"show six 0 4001"), Some((20, 6)));
    assert_eq!(rt; fault(b"put 0 six"), Some((20, 7)));
    assert_eq!(rt; fault(b" show one 0 4001"), Some((22, 2)));
}

#[test]
fn numbers_have_ten_digits(rt: HostRuntime) {
    assert_eq!(rt;
        command(b"cut 1073741824 0"),
        Some(Command::Cut {
            from: 1_073_741_824,
            len: 0,
        })
    );
    assert_eq!(rt; fault(b"cut 0 1073741825"), Some((19, 7)));
    assert_eq!(rt;
        command(b"crop 0000000001 2"),
        Some(Command::Crop { from: 1, len: 2 })
    );
    assert_eq!(rt; fault(b"cut 00000000001 2"), Some((18, 5)));
    assert_eq!(rt; fault(b"cut -1 2"), Some((18, 5)));
}

#[test]
fn names_have_eight_letters(rt: HostRuntime) {
    assert_eq!(rt;
        command(b"keep abcdefgh"),
        Some(Command::Keep {
            name: Stretch { start: 5, end: 13 },
        })
    );
    assert_eq!(rt; fault(b"keep abcdefghi"), Some((18, 6)));
    assert_eq!(rt; fault(b"keep a1"), Some((18, 6)));
    assert_eq!(rt; fault(b"keep one"), Some((21, 6)));
    assert_eq!(rt; fault(b"keep empty"), Some((21, 6)));
    // a command's word may be a name
    assert_eq!(rt;
        command(b"keep open"),
        Some(Command::Keep {
            name: Stretch { start: 5, end: 9 },
        })
    );
    assert_eq!(rt; fault(b"open open"), Some((20, 6)));
}

#[test]
fn quotes_hold_plain_bytes(rt: HostRuntime) {
    assert_eq!(rt;
        command(b"say 0 \"a b\""),
        Some(Command::Say {
            place: 0,
            quoted: Stretch { start: 7, end: 10 },
        })
    );
    assert_eq!(rt;
        command(b"say 0 \"~\""),
        Some(Command::Say {
            place: 0,
            quoted: Stretch { start: 7, end: 8 },
        })
    );
    assert_eq!(rt; fault(b"say 0 \"\""), Some((18, 7)));
    assert_eq!(rt; fault(b"say 0 \"a b"), Some((18, 7)));
    assert_eq!(rt; fault(b"say 0 a\"b c\""), Some((18, 7)));
    assert_eq!(rt; fault(b"say 0 \"a\"b"), Some((18, 7)));
    assert_eq!(rt; fault(b"say 0 \"\x7f\""), Some((18, 7)));
    assert_eq!(rt; fault(b"say 0 \"\t\""), Some((18, 7)));
}

#[test]
fn other_bytes_are_of_a_token(rt: HostRuntime) {
    assert_eq!(rt; fault(b"open\tone"), Some((18, 1)));
    assert_eq!(rt; fault(b"open one\r"), Some((18, 6)));
    assert_eq!(rt; fault(b"say 0 \"\x80\""), Some((18, 7)));
    // the quote is open up to the line's end
    assert_eq!(rt; fault(b"open one\"  two"), Some((18, 6)));
}

#[test]
fn quotes_hold_256_bytes(rt: HostRuntime) {
    let mut script = [b'a'; 264];
    script[0..7].copy_from_slice(b"say 0 \"");
    script[263] = b'"';
    assert_eq!(rt;
        command(&script),
        Some(Command::Say {
            place: 0,
            quoted: Stretch { start: 7, end: 263 },
        })
    );
    let mut longer = [b'a'; 265];
    longer[0..7].copy_from_slice(b"say 0 \"");
    longer[264] = b'"';
    assert_eq!(rt; fault(&longer), Some((18, 7)));
}

#[test]
fn versions_are_read(rt: HostRuntime) {
    assert_eq!(rt;
        command(b"  open   two "),
        Some(Command::Open { version: 2 })
    );
    assert_eq!(rt; command(b"open empty"), Some(Command::Open { version: 0 }));
    assert_eq!(rt; command(b"shape one"), Some(Command::Shape { version: 1 }));
    assert_eq!(rt;
        command(b"put 3 two"),
        Some(Command::Put {
            place: 3,
            version: 2,
        })
    );
    assert_eq!(rt; command(b"toss "), Some(Command::Toss));
    assert_eq!(rt; command(b"   "), None);
    assert_eq!(rt; fault(b"   "), None);
}

#[test]
fn stretches_are_read(rt: HostRuntime) {
    assert_eq!(rt;
        command(b"text 1 2 3 4"),
        Some(Command::Text {
            place: 1,
            text: 2,
            from: 3,
            len: 4,
        })
    );
    assert_eq!(rt;
        command(b"show one 0 4000"),
        Some(Command::Show {
            version: 1,
            from: 0,
            len: 4_000,
        })
    );
    assert_eq!(rt;
        command(b"lines one 0 4001"),
        Some(Command::Lines {
            version: 1,
            from: 0,
            len: 4_001,
        })
    );
    assert_eq!(rt;
        command(b"pairs two 5 6"),
        Some(Command::Pairs {
            version: 2,
            from: 5,
            len: 6,
        })
    );
    assert_eq!(rt;
        command(b"find one 3 \"ab\""),
        Some(Command::Find {
            version: 1,
            from: 3,
            quoted: Stretch { start: 12, end: 14 },
        })
    );
}
