ghost use Rattle.std.specs.Prelude.{◌≡◌, ◌+◌, ◌^◌, ◌<◌};
ghost use Rattle.script.specs.Faults.{script_row, column, fault_at};

use super::lines::Line;
use shelf::{Layer, Row};

// Why a script, or a line of it, was refused.
#[derive(Clone, Copy, PartialEq, Eq, Debug)]
pub enum ScriptFault {
    // Row 18: the line has no allowed form.
    NoForm,
    // Row 19: a number is above LIMIT.
    AboveLimit,
    // Row 20: a name is unknown.
    UnknownName,
    // Row 21: a name to keep is taken.
    TakenName,
    // Row 22: show is longer than SHOW_MOST bytes.
    LongShow,
    // Row 23: the script or a trace file is longer than FILE_MOST bytes.
    LongFile,
    // Row 24: the output buffer is shorter than BUFFER_LEAST bytes.
    SmallBuffer,
}

impl ScriptFault {
    // A table of its own: a trait of all faults would have to be imported by every caller.
    pub fn row(&self) -> Row
        ensures { result ≡ script_row self.now }
    {
        let number = match self {
            ScriptFault::NoForm => 18,
            ScriptFault::AboveLimit => 19,
            ScriptFault::UnknownName => 20,
            ScriptFault::TakenName => 21,
            ScriptFault::LongShow => 22,
            ScriptFault::LongFile => 23,
            ScriptFault::SmallBuffer => 24,
        };
        Row {
            number,
            layer: Layer::Script,
        }
    }
}

// A fault as it is printed: its row, and the line and the column that it is at, both counted from 1.
#[derive(Clone, Copy, PartialEq, Eq, Debug)]
pub struct Fault {
    pub row: Row,
    pub line: usize,
    pub column: usize,
}

impl Line {
    // The column of a place of the line.
    pub(crate) fn column(&self, place: usize) -> usize
        requires { place + 1 < 2 ^ 64 }
        ensures { result ≡ column self.now place }
    {
        place.saturating_sub(self.start) + 1
    }

    // The fault of the line at a place.
    pub(crate) fn fault(&self, cause: ScriptFault, place: usize) -> Fault
        requires { place + 1 < 2 ^ 64 }
        ensures { result ≡ fault_at self.now cause place }
    {
        Fault {
            row: cause.row(),
            line: self.number,
            column: self.column(place),
        }
    }
}
