use crate::plain::Plain;
use crate::random::Random;
use replay::{Call, Change, Question, SheetCall, Which};

// A draft that is longer is cropped next.
const LONG: usize = 3000;

// Makes calls from the next numbers, mostly such as the plain book accepts.
#[derive(Drop)]
pub struct Maker<'b> {
    pub random: &'b mut Random,
    pub plain: &'b Plain<'b>,
}

impl<'b> Maker<'b> {
    // A version's number, now and then of one that is not kept.
    fn some_version(&mut self) -> usize {
        self.random
            .about(self.plain.strings.len().saturating_sub(1))
    }

    // A place of a string of `total` bytes and a number of bytes behind it, up to `most`; now and then they reach past it.
    fn some_stretch(&mut self, total: usize, most: usize) -> (usize, usize) {
        let from = self.random.about(total);
        let len = self.random.about(most.min(total.saturating_sub(from)));
        (from, len)
    }

    // A shelf, the first three times out of four.
    fn some_shelf(&mut self) -> Which {
        self.random
            .pick(&[Which::Second, Which::First, Which::First, Which::First])
    }

    fn piece(&mut self, place: usize) -> Change {
        let text = match self.random.below(30) {
            0 => 2,
            1 => self.random.about(self.plain.texts.len()),
            _ => self.random.below(2),
        };
        let total = self.plain.text(text).map_or(0, |bytes| bytes.len());
        let (from, len) = self.some_stretch(total, 30);
        Change::PutPiece {
            place,
            text,
            from,
            len,
        }
    }

    // An edit of a draft of `total` bytes.
    fn edit(&mut self, total: usize) -> Change {
        match self.random.below(16) {
            0..=3 => {
                let place = self.random.about(total);
                self.piece(place)
            }
            4..=5 => self.piece(total),
            6 => self.piece(0),
            7..=9 => Change::PutVersion {
                place: self.random.about(total),
                version: self.some_version(),
            },
            10 => Change::PutVersion {
                place: total,
                version: self.some_version(),
            },
            11..=14 => {
                let (from, len) = self.some_stretch(total, 60);
                Change::Cut { from, len }
            }
            _ => {
                let from = self.random.about(total / 4);
                let len = self.random.about(total.saturating_sub(from));
                Change::Crop { from, len }
            }
        }
    }

    fn some_change(&mut self) -> Change {
        let total = match self.plain.open_draft() {
            Err(_) if self.random.below(8) != 0 => {
                let version = self.some_version();
                return Change::Open { version };
            }
            Err(_) => 0,
            Ok(draft) => draft.len(),
        };
        if total > LONG {
            let from = self.random.below(LONG);
            let len = self.random.below(total.saturating_sub(from).min(LONG / 2));
            return Change::Crop { from, len };
        }
        let kinds = if self.plain.draft.is_some() { 40 } else { 8 };
        match self.random.below(kinds) {
            0..=3 => Change::Keep,
            4 => Change::Toss,
            5 => Change::Open {
                version: self.some_version(),
            },
            _ => self.edit(total),
        }
    }

    fn some_question(&mut self) -> Question {
        let version = self.some_version();
        let total = self.plain.len(version);
        match self.random.below(5) {
            0 => Question::Shape { version },
            1..=2 => {
                let (from, len) = self.some_stretch(total, total);
                Question::Read { version, from, len }
            }
            _ => {
                let from = self.random.about(total);
                let start = self.random.below(self.plain.patterns().len());
                let most = if self.random.below(10) == 0 { 400 } else { 6 };
                let count = self.random.about(most);
                Question::Find {
                    version,
                    from,
                    start,
                    count,
                }
            }
        }
    }

    fn some_sheet_call(&mut self) -> SheetCall {
        if self.random.below(6) == 0 {
            return SheetCall::BringUp;
        }
        let version = self.some_version();
        let total = self.plain.len(version);
        let (from, len) = self.some_stretch(total, total);
        SheetCall::Summary { version, from, len }
    }

    // A call made from the next numbers, mostly one that the plain book accepts.
    pub fn some_call(&mut self) -> Call {
        match self.random.below(12) {
            0..=7 => Call::Book(self.some_change()),
            8..=9 => Call::Ask {
                shelf: self.some_shelf(),
                question: self.some_question(),
            },
            _ => Call::Sheet {
                sheet: self.random.pick(&[Which::First, Which::Second]),
                shelf: self.some_shelf(),
                call: self.some_sheet_call(),
            },
        }
    }
}

// The number of a kept version, counting round where fewer are kept; version 0 always is.
fn kept(plain: &Plain, k: usize) -> usize {
    k.checked_rem(plain.strings.len()).unwrap_or(0)
}

// A read of the whole of a kept version.
pub fn whole_read(plain: &Plain, k: usize) -> Call {
    let version = kept(plain, k);
    Call::Ask {
        shelf: Which::First,
        question: Question::Read {
            version,
            from: 0,
            len: plain.len(version),
        },
    }
}

// A call on a sheet that is handed the first shelf.
pub fn on_sheet(sheet: Which, call: SheetCall) -> Call {
    Call::Sheet {
        sheet,
        shelf: Which::First,
        call,
    }
}

// A summary of the whole of a kept version.
pub fn whole_summary(plain: &Plain, sheet: Which, k: usize) -> Call {
    let version = kept(plain, k);
    on_sheet(
        sheet,
        SheetCall::Summary {
            version,
            from: 0,
            len: plain.len(version),
        },
    )
}
