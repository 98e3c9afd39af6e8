ghost use Rattle.book.specs.declared.fault.BookFault.TheVariants.{NotKept, NoText};
ghost use Rattle.book.specs.Contents.{noted, versions, ItemOr};

use crate::fault::BookFault;
use arrayvec::ArrayVec;
use shelf::MOST_TEXTS;

// The greatest number of kept versions, version 0 counted.
pub const MOST_VERSIONS: usize = 64;

// An open draft: the root of its tree, and how many slots were in use when it was opened.
#[derive(Clone, Copy)]
pub struct OpenDraft {
    pub root: Option<u16>,
    pub base: usize,
}

// What a book holds beside its records: the open draft, the roots of the kept versions, and the noted lengths of the texts.
#[derive(Drop)]
pub struct Contents {
    pub draft: Option<OpenDraft>,
    pub roots: ArrayVec<Option<u16>, MOST_VERSIONS>,
    pub lens: ArrayVec<usize, MOST_TEXTS>,
}

impl Contents {
    // The root of a kept version, none if the version is empty.
    pub fn root(&self, version: usize) -> Result<Option<u16>, BookFault>
        ensures { ItemOr (versions self.now) version NotKept result }
    {
        self.roots.get(version).copied().ok_or(BookFault::NotKept)
    }

    // The noted length of a text.
    pub fn text_len(&self, text: usize) -> Result<usize, BookFault>
        ensures { ItemOr (noted self.now) text NoText result }
    {
        self.lens.get(text).copied().ok_or(BookFault::NoText)
    }
}
