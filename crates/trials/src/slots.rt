use book::Kept;
use replay::{BookTold, Change};
use std::alloc::{AllocError, Global};

// No edit of these trials takes as many slots: row 12 comes only where fewer are free.
const MOST_TAKEN: usize = 400;

// How many slots of a real book are in use, by what its calls told.
#[derive(Drop)]
pub struct Slots {
    room: usize,
    used: usize,
    // Those in use when the draft was opened, if one is open.
    base: Option<usize>,
    // Those in use when each version was kept.
    used_at: Vec<usize>,
}

impl Slots {
    pub fn new(heap: Global, room: usize) -> Result<Slots, AllocError> {
        Ok(Slots {
            room,
            used: 0,
            base: None,
            used_at: vec![in heap; 0usize]?,
        })
    }

    // Whether an edit can be refused for want of slots.
    pub fn few(&self) -> bool {
        self.room.saturating_sub(self.used) < MOST_TAKEN
    }

    // The slots that a bring-up covers: those in use but the draft's.
    pub fn settled(&self) -> usize {
        self.base.unwrap_or(self.used)
    }

    // Whether a sheet that covers so many slots leaves one uncovered that was taken up to the keeping of a version.
    pub fn uncovered(&self, version: usize, covered: usize) -> bool {
        self.used_at
            .get(version)
            .is_some_and(|used| covered < *used)
    }

    // Whether the version that was kept has the next number, and was told to have made the slots taken since its draft was opened.
    fn kept(&mut self, kept: &Kept) -> Result<bool, AllocError> {
        let version = self.used_at.len();
        self.used_at.push(self.used)?;
        let made = self.used.saturating_sub(self.settled());
        self.base = None;
        Ok(kept.version == version && kept.made == made)
    }

    // Counts the slots of an accepted change; says whether it told what belongs to this change and its numbers are right.
    pub fn count(&mut self, change: Change, told: &BookTold) -> Result<bool, AllocError> {
        match (change, told) {
            (Change::Open { .. }, BookTold::Opened) => {
                self.base = Some(self.used);
                Ok(true)
            }
            (Change::Keep, BookTold::Kept(kept)) => self.kept(kept),
            (Change::Toss, BookTold::Tossed) => {
                self.used = self.settled();
                self.base = None;
                Ok(true)
            }
            (Change::Open { .. } | Change::Keep | Change::Toss, _) => Ok(false),
            (_, BookTold::Edited(made)) => {
                self.used = self.used.saturating_add(*made);
                Ok(self.used <= self.room)
            }
            _ => Ok(false),
        }
    }
}
