use crate::plain::{Plain, check_end, stretch};
use ask::Dimensions;
use book::BookFault;
use replay::{BookTold, Question};
use rule::brackets::Unmatched;

// The longest pattern.
const LONGEST_PATTERN: usize = 256;

// What is expected of a question that is accepted. The shape of a version is known by its length alone.
#[derive(Clone, Copy)]
enum Outcome<'a> {
    Bytes(&'a [u8]),
    Found(Option<usize>),
    Long(usize),
}

// The first place at or after `from` where the pattern stands, by trying every place.
fn first_place(bytes: &[u8], from: usize, pattern: &[u8]) -> Option<usize> {
    (from..bytes.len()).find(|place| stretch(bytes, *place, pattern.len()) == pattern)
}

// The line ends of a string, counted one by one.
pub fn line_ends(bytes: &[u8]) -> u32 {
    bytes
        .iter()
        .filter(|b| **b == b'\n')
        .fold(0u32, |ends, _| ends.saturating_add(1))
}

// The brackets of a string without a partner, counted one by one.
pub fn unmatched(bytes: &[u8]) -> Unmatched {
    bytes.iter().fold(Unmatched::default(), |seen, b| match *b {
        b'(' => Unmatched {
            openings: seen.openings.saturating_add(1),
            ..seen
        },
        b')' if seen.openings > 0 => Unmatched {
            openings: seen.openings.saturating_sub(1),
            ..seen
        },
        b')' => Unmatched {
            closings: seen.closings.saturating_add(1),
            ..seen
        },
        _ => seen,
    })
}

// Whether a tree can have these dimensions and spell `len` bytes.
fn fits(dimensions: Dimensions, len: usize) -> bool {
    if len == 0 {
        dimensions.len == 0 && dimensions.height == 0 && dimensions.pieces == 0
    } else {
        dimensions.len == len && dimensions.height < dimensions.pieces && dimensions.pieces <= len
    }
}

// What a question is answered from: the plain book, and whether the shelf that is handed has its texts.
#[derive(Clone, Copy)]
pub struct Source<'b> {
    plain: &'b Plain<'b>,
    same: bool,
}

impl<'b> Source<'b> {
    pub fn new(plain: &'b Plain<'b>, same: bool) -> Source<'b> {
        Source { plain, same }
    }

    // Refuses a shelf that has not the book's texts.
    pub fn check_texts(self) -> Result<(), BookFault> {
        if self.same {
            Ok(())
        } else {
            Err(BookFault::OtherTexts)
        }
    }

    // The bytes that a read gives, or why it is refused.
    pub fn read(self, version: usize, from: usize, len: usize) -> Result<&'b [u8], BookFault> {
        let bytes = self.plain.version(version)?;
        check_end(bytes.len(), from, len)?;
        self.check_texts()?;
        Ok(stretch(bytes, from, len))
    }

    // The place that a find gives, or why it is refused.
    fn find(self, version: usize, from: usize, pattern: &[u8]) -> Result<Option<usize>, BookFault> {
        let bytes = self.plain.version(version)?;
        check_end(bytes.len(), from, 0)?;
        if pattern.is_empty() || pattern.len() > LONGEST_PATTERN {
            return Err(BookFault::BadPattern);
        }
        self.check_texts()?;
        Ok(first_place(bytes, from, pattern))
    }

    // What is expected of a question, or why it is refused.
    fn expected(self, question: Question) -> Result<Outcome<'b>, BookFault> {
        match question {
            Question::Read { version, from, len } => {
                let bytes = self.read(version, from, len)?;
                Ok(Outcome::Bytes(bytes))
            }
            Question::Find {
                version,
                from,
                start,
                count,
            } => {
                let pattern = stretch(self.plain.patterns(), start, count);
                Ok(Outcome::Found(self.find(version, from, pattern)?))
            }
            Question::Shape { version } => Ok(Outcome::Long(self.plain.version(version)?.len())),
        }
    }

    // Whether a question to the book was answered as the strings say.
    pub fn agrees(self, question: Question, answer: &Result<BookTold, BookFault>) -> bool {
        match (self.expected(question), answer) {
            (Err(fault), Err(given)) => fault == *given,
            (Ok(Outcome::Bytes(bytes)), Ok(BookTold::Bytes(given))) => given.as_slice() == bytes,
            (Ok(Outcome::Found(place)), Ok(BookTold::Found(given))) => place == *given,
            (Ok(Outcome::Long(len)), Ok(BookTold::Shaped(given))) => fits(*given, len),
            _ => false,
        }
    }
}
