use replay::{Answer, BookTold, Call, Change, Question, SheetCall};
use rule::brackets::Unmatched;
use std::alloc::{AllocError, Global};
use std::collections::BTreeMap;
use std::io;

// How many calls of a kind were accepted and refused.
#[derive(Clone, Copy, Default)]
struct Count {
    accepted: u32,
    refused: u32,
}

// The calls of each kind. A list of counts with their names was tried: the borrow checker does not cover the lending of a tally
// with `&'static str` in it.
#[derive(Clone, Copy, Default)]
struct Kinds {
    open: Count,
    put_piece: Count,
    put_version: Count,
    cut: Count,
    crop: Count,
    keep: Count,
    toss: Count,
    read: Count,
    find: Count,
    shape: Count,
    bring_up: Count,
    summary: Count,
}

impl Kinds {
    // The count of a call's kind.
    fn of(&mut self, call: Call) -> &mut Count {
        match call {
            Call::Book(change) => match change {
                Change::Open { .. } => &mut self.open,
                Change::PutPiece { .. } => &mut self.put_piece,
                Change::PutVersion { .. } => &mut self.put_version,
                Change::Cut { .. } => &mut self.cut,
                Change::Crop { .. } => &mut self.crop,
                Change::Keep => &mut self.keep,
                Change::Toss => &mut self.toss,
            },
            Call::Ask { question, .. } => match question {
                Question::Read { .. } => &mut self.read,
                Question::Find { .. } => &mut self.find,
                Question::Shape { .. } => &mut self.shape,
            },
            Call::Sheet { call, .. } => match call {
                SheetCall::BringUp => &mut self.bring_up,
                SheetCall::Summary { .. } => &mut self.summary,
            },
        }
    }

    fn named(&self) -> [(&'static str, Count); 12] {
        [
            ("open", self.open),
            ("put piece", self.put_piece),
            ("put version", self.put_version),
            ("cut", self.cut),
            ("crop", self.crop),
            ("keep", self.keep),
            ("toss", self.toss),
            ("read", self.read),
            ("find", self.find),
            ("shape", self.shape),
            ("bring-up", self.bring_up),
            ("summary", self.summary),
        ]
    }
}

// How many calls were accepted and refused, by kind and by row, and how many answers were other than expected.
#[derive(Drop)]
pub struct Tally {
    kinds: Kinds,
    // By the numbers of the rows.
    rows: BTreeMap<u8, u32>,
    differences: u32,
    // The greatest of the dimensions that were told.
    longest: usize,
    highest: usize,
    most_pieces: usize,
}

// The row of a refusal.
fn row(answer: &Answer<u32, Unmatched>) -> Option<u8> {
    match answer {
        Answer::Book(Err(fault)) => Some(fault.row().number),
        Answer::First(Err(fault)) | Answer::Second(Err(fault)) => Some(fault.row().number),
        _ => None,
    }
}

impl Tally {
    // A book and its sheets refuse calls by rows 5 to 17.
    pub fn new(heap: Global) -> Result<Tally, AllocError> {
        let mut rows = BTreeMap::new(heap);
        for number in 5..=17u8 {
            rows.insert(number, 0)?;
        }
        Ok(Tally {
            kinds: Kinds::default(),
            rows,
            differences: 0,
            longest: 0,
            highest: 0,
            most_pieces: 0,
        })
    }

    // Counts a call by its answer.
    pub fn note(&mut self, call: Call, answer: &Answer<u32, Unmatched>) {
        let count = self.kinds.of(call);
        match row(answer) {
            Some(number) => {
                count.refused = count.refused.saturating_add(1);
                if let Some(times) = self.rows.get_mut(&number) {
                    *times = times.saturating_add(1);
                }
            }
            None => count.accepted = count.accepted.saturating_add(1),
        }
        if let Answer::Book(Ok(BookTold::Shaped(dimensions))) = answer {
            self.longest = self.longest.max(dimensions.len);
            self.highest = self.highest.max(dimensions.height);
            self.most_pieces = self.most_pieces.max(dimensions.pieces);
        }
    }

    // Counts a difference where the answer was not the expected one.
    pub fn compared(&mut self, agrees: bool) {
        if !agrees {
            self.differences = self.differences.saturating_add(1);
        }
    }

    pub fn print(&self, rt: &HostRuntime) -> io::Result<()> {
        for (name, Count { accepted, refused }) in self.kinds.named() {
            println!(rt; "{name}: {accepted} accepted, {refused} refused")?;
        }
        for (number, times) in &self.rows {
            println!(rt; "row {number}: {times}")?;
        }
        let longest = self.longest;
        let highest = self.highest;
        let most_pieces = self.most_pieces;
        println!(rt; "up to {longest} bytes, height {highest}, {most_pieces} pieces")?;
        let differences = self.differences;
        println!(rt; "differences: {differences}")
    }
}
