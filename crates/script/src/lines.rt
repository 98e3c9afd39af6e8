ghost use Rattle.std.specs.Prelude.{◌≡◌, ◌+◌, ◌≤◌, length};
ghost use Rattle.std.specs.List.{position_or_len};
ghost use Rattle.script.specs.Firsts.{begun};
ghost use Rattle.script.specs.Lines.{ends_line, lines_from};

// A line of a script: its number, counted from 1, its first place, and the place behind its last byte.
#[derive(Clone, Copy, PartialEq, Eq, Debug)]
pub struct Line {
    pub number: usize,
    pub start: usize,
    pub end: usize,
}

// How many bytes stand before the first 0x0A, or how many there are where there is none.
fn len_to_end(rest: &[u8]) -> usize
    ensures place { result ≡ position_or_len ends_line rest.now }
    ensures bound { result ≤ length rest.now }
{
    rest.iter()
        .position(|byte| *byte == b'\n')
        .unwrap_or(rest.len())
}

// The line that starts at `start` and has the number `number`, or none at the script's end.
pub fn line_at(script: &[u8], number: usize, start: usize) -> Option<Line>
    ensures { lines_from number start script.now ≡ begun result (λ line. lines_from (line.number + 1) (line.end + 1) script.now) }
{
    if start >= script.len() {
        return None;
    }
    let rest = &script[start..];
    let end = start + len_to_end(rest);
    Some(Line { number, start, end })
}
