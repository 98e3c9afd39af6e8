use super::stretch::Stretch;

// A line that has one of the allowed forms: its numbers, the versions that its names stand for, and the stretches of the
// script that hold a name to keep or the bytes between two quotes.
#[derive(Clone, Copy, PartialEq, Eq, Debug)]
pub enum Command {
    Open {
        version: usize,
    },
    Keep {
        name: Stretch,
    },
    Shape {
        version: usize,
    },
    Text {
        place: usize,
        text: usize,
        from: usize,
        len: usize,
    },
    Say {
        place: usize,
        quoted: Stretch,
    },
    Put {
        place: usize,
        version: usize,
    },
    Cut {
        from: usize,
        len: usize,
    },
    Crop {
        from: usize,
        len: usize,
    },
    Toss,
    // Show, Lines and Pairs have the same fields: a struct for these would add a level to each match on a command.
    Show {
        version: usize,
        from: usize,
        len: usize,
    },
    Lines {
        version: usize,
        from: usize,
        len: usize,
    },
    Pairs {
        version: usize,
        from: usize,
        len: usize,
    },
    Find {
        version: usize,
        from: usize,
        quoted: Stretch,
    },
}
