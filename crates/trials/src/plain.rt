use book::{BookFault, MOST_VERSIONS};
use replay::Change;
use shelf::LIMIT;
use std::alloc::{AllocError, Global};

// The plain book: the texts on its shelf, the strings of the versions, and that of the draft if one is open.
#[derive(Drop)]
pub struct Plain<'a> {
    heap: Global,
    pub texts: &'a [Vec<u8>],
    pub strings: Vec<Vec<u8>>,
    pub draft: Option<Vec<u8>>,
}

// The bytes of a draft, as three stretches in a row.
#[derive(Clone, Copy)]
pub struct Parts<'b> {
    before: &'b [u8],
    put: &'b [u8],
    after: &'b [u8],
}

// What an accepted change does.
#[derive(Clone, Copy)]
pub enum Effect<'b> {
    Draft(Parts<'b>),
    Kept,
    Tossed,
}

// The stretch of `len` bytes from `from` on, as far as the bytes go.
// `replay` has its own: the plain book takes no such function from the code that it is compared with.
pub fn stretch(bytes: &[u8], from: usize, len: usize) -> &[u8] {
    let rest = bytes.get(from..).unwrap_or(b"");
    rest.get(..len).unwrap_or(rest)
}

// Refuses a stretch that reaches past a string of `total` bytes.
pub fn check_end(total: usize, from: usize, len: usize) -> Result<(), BookFault> {
    match from.checked_add(len) {
        Some(end) if end <= total => Ok(()),
        _ => Err(BookFault::PastEnd),
    }
}

impl<'b> Parts<'b> {
    fn whole(bytes: &'b [u8]) -> Parts<'b> {
        Parts {
            before: b"",
            put: bytes,
            after: b"",
        }
    }

    // The draft with `put` in place of the `dropped` bytes at `from`.
    fn replaced(draft: &'b [u8], from: usize, dropped: usize, put: &'b [u8]) -> Parts<'b> {
        Parts {
            before: stretch(draft, 0, from),
            put,
            after: stretch(draft, from.saturating_add(dropped), usize::MAX),
        }
    }

    fn joined(self, heap: Global) -> Result<Vec<u8>, AllocError> {
        let mut all = Vec::from_slice(heap, self.before)?;
        all.extend_from_slice(self.put)?;
        all.extend_from_slice(self.after)?;
        Ok(all)
    }
}

impl<'a> Plain<'a> {
    // Version 0 is empty.
    pub fn new(heap: Global, texts: &'a [Vec<u8>]) -> Result<Plain<'a>, AllocError> {
        Ok(Plain {
            heap,
            texts,
            strings: vec![in heap; Vec::new(heap)]?,
            draft: None,
        })
    }

    // The string of a version. Refuses one that is not kept.
    pub fn version(&self, version: usize) -> Result<&[u8], BookFault> {
        let string = self.strings.get(version).ok_or(BookFault::NotKept)?;
        Ok(string.as_slice())
    }

    // The length of a version, or 0 where it is not kept.
    pub fn len(&self, version: usize) -> usize {
        self.version(version).map_or(0, |string| string.len())
    }

    // The string of the draft. Refuses where none is open.
    pub fn open_draft(&self) -> Result<&[u8], BookFault> {
        let string = self.draft.as_ref().ok_or(BookFault::NoDraft)?;
        Ok(string.as_slice())
    }

    // The text of a number. Refuses a number that no text has.
    pub fn text(&self, text: usize) -> Result<&'a [u8], BookFault> {
        let bytes = self.texts.get(text).ok_or(BookFault::NoText)?;
        Ok(bytes.as_slice())
    }

    // The bytes that patterns are taken from: those of the first text.
    pub fn patterns(&self) -> &'a [u8] {
        self.texts.first().map_or(b"", |text| text.as_slice())
    }

    // What it does to put bytes into the draft at a place. Refuses a place past the end, and a draft that would be too long.
    fn put<'b>(&'b self, place: usize, bytes: &'b [u8]) -> Result<Effect<'b>, BookFault> {
        let draft = self.open_draft()?;
        check_end(draft.len(), place, 0)?;
        if bytes.len() > LIMIT.saturating_sub(draft.len()) {
            return Err(BookFault::TooLong);
        }
        Ok(Effect::Draft(Parts::replaced(draft, place, 0, bytes)))
    }

    // The same for a piece of a text, which may not be empty.
    fn put_piece(
        &self,
        place: usize,
        text: usize,
        from: usize,
        len: usize,
    ) -> Result<Effect<'_>, BookFault> {
        let draft = self.open_draft()?;
        let bytes = self.text(text)?;
        check_end(bytes.len(), from, len)?;
        check_end(draft.len(), place, 0)?;
        if len == 0 {
            return Err(BookFault::EmptyPiece);
        }
        self.put(place, stretch(bytes, from, len))
    }

    // What a change does. Refuses one by the smallest row that it meets, row 12 left out.
    pub fn effect(&self, change: Change) -> Result<Effect<'_>, BookFault> {
        match change {
            Change::Open { version } => {
                let string = self.version(version)?;
                if self.draft.is_some() {
                    return Err(BookFault::DraftOpen);
                }
                Ok(Effect::Draft(Parts::whole(string)))
            }
            Change::PutPiece {
                place,
                text,
                from,
                len,
            } => self.put_piece(place, text, from, len),
            Change::PutVersion { place, version } => self.put(place, self.version(version)?),
            Change::Cut { from, len } => {
                let draft = self.open_draft()?;
                check_end(draft.len(), from, len)?;
                Ok(Effect::Draft(Parts::replaced(draft, from, len, b"")))
            }
            Change::Crop { from, len } => {
                let draft = self.open_draft()?;
                check_end(draft.len(), from, len)?;
                Ok(Effect::Draft(Parts::whole(stretch(draft, from, len))))
            }
            Change::Keep => {
                self.open_draft()?;
                if self.strings.len() >= MOST_VERSIONS {
                    return Err(BookFault::AllKept);
                }
                Ok(Effect::Kept)
            }
            Change::Toss => {
                self.open_draft()?;
                Ok(Effect::Tossed)
            }
        }
    }

    // Makes a change that is accepted, and says whether it is.
    pub fn make(&mut self, change: Change) -> Result<bool, AllocError> {
        match self.effect(change) {
            Err(_) => return Ok(false),
            Ok(Effect::Draft(parts)) => {
                let draft = parts.joined(self.heap)?;
                self.draft = Some(draft);
            }
            Ok(Effect::Kept) => {
                if let Some(string) = self.draft.take() {
                    self.strings.push(string)?;
                }
            }
            Ok(Effect::Tossed) => self.draft = None,
        }
        Ok(true)
    }
}
