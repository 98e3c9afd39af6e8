use script::{Answer, Fault, Item, ScriptFault, print, print_answer, put};

// Whether an answer or a fault prints the bytes, from place 2 of a buffer on, and leaves what stands around them.
fn prints(answer: Result<Answer, Fault>, expected: &[u8]) -> bool {
    let mut out = [b'.'; 64];
    let Some(end) = print_answer(&mut out, 2, answer) else {
        return false;
    };
    if end < 2 || end > 63 {
        return false;
    }
    let whole: &[u8] = &out;
    &whole[2..end] == expected && whole[1] == b'.' && whole[end] == b'.'
}

#[test]
fn answers_are_printed(rt: HostRuntime) {
    assert!(rt; prints(Ok(Answer::Done), b""));
    assert!(rt;
        prints(
            Ok(Answer::Kept {
                version: 1,
                made: 6,
            }),
            b"kept 1 made 6\n",
        )
    );
    assert!(rt; prints(Ok(Answer::Found { place: Some(5) }), b"5\n"));
    assert!(rt; prints(Ok(Answer::Found { place: None }), b"none\n"));
    assert!(rt; prints(Ok(Answer::Lines { count: 0 }), b"0\n"));
    assert!(rt;
        prints(
            Ok(Answer::Pairs {
                closings: 0,
                openings: 1,
            }),
            b"0 1\n",
        )
    );
    assert!(rt;
        prints(
            Ok(Answer::Shape {
                length: 8,
                height: 2,
                pieces: 3,
            }),
            b"8 2 3\n",
        )
    );
}

#[test]
fn faults_are_printed(rt: HostRuntime) {
    let row = ScriptFault::NoForm.row();
    assert!(rt;
        prints(
            Err(Fault {
                row,
                line: 10,
                column: 1
            }),
            b"fault 18 script 10 1\n",
        )
    );
    let row = ScriptFault::SmallBuffer.row();
    assert!(rt;
        prints(
            Err(Fault {
                row,
                line: 0,
                column: 0
            }),
            b"fault 24 script 0 0\n",
        )
    );
}

#[test]
fn numbers_are_decimal(rt: HostRuntime) {
    assert!(rt; prints(Ok(Answer::Lines { count: 9 }), b"9\n"));
    assert!(rt; prints(Ok(Answer::Lines { count: 10 }), b"10\n"));
    assert!(rt;
        prints(
            Ok(Answer::Lines {
                count: 1_073_741_824,
            }),
            b"1073741824\n",
        )
    );
    assert!(rt;
        prints(
            Ok(Answer::Lines { count: usize::MAX }),
            b"18446744073709551615\n",
        )
    );
}

#[test]
fn without_room_nothing_is_written(rt: HostRuntime) {
    let mut out = [b'.'; 8];
    let items = [Item::Number(12345), Item::Number(67)];
    assert_eq!(rt; print(&mut out, 0, &items), None);
    assert_eq!(rt; out, *b"........");
    assert_eq!(rt; put(&mut out, 5, b"abcd"), None);
    assert_eq!(rt; put(&mut out, 5, b"abc"), Some(8));
    assert_eq!(rt; out, *b".....abc");
    assert_eq!(rt; put(&mut out, 9, b""), None);
}
