ghost use Rattle.std.specs.Prelude.{◌≡◌, map, length};
ghost use Rattle.model.specs.Book.{same};
ghost use Rattle.book.specs.Access.{Settled, RootAnswer};
ghost use Rattle.book.specs.Contents.{settled as settled_slots};
ghost use Rattle.book.specs.Whole.{view};

use super::Book;
use crate::contents::Contents;
use crate::fault::BookFault;
use crate::node::{Node, Places};
use shelf::Shelf;

// How many slots no draft made.
fn settled_count(places: &Places, contents: &Contents) -> usize
    ensures { result ≡ settled_slots places.now.used contents.now.draft }
{
    contents.draft.map_or(places.used, |draft| draft.base)
}

// Whether the texts on a shelf have the noted count and lengths, text by text.
fn same_texts<S: Shelf>(lens: &[usize], shelf: &S) -> bool
    ensures { result ≡ same (map length (S.texts shelf.now)) lens.now }
{
    if shelf.count() != lens.len() {
        return false;
    }
    // A loop over the noted lengths, each compared with the shelf's answer.
    for (k, len) in lens.iter().enumerate() {
        if shelf.length(k) != Some(*len) {
            return false;
        }
    }
    true
}

impl<'a> Book<'a> {
    // The records of the slots that no draft made.
    pub fn settled(&self) -> &[Node]
        ensures { Settled (view self.now) result.now }
    {
        let count = settled_count(&self.places, &self.contents);
        &self.nodes[0..count]
    }

    // The root of a kept version, none if the version is empty.
    pub fn root(&self, version: usize) -> Result<Option<u16>, BookFault>
        ensures { RootAnswer (view self.now) version result }
    {
        self.contents.root(version)
    }

    // Whether a shelf shows the count and the lengths that the book noted.
    pub fn has_texts<S: Shelf>(&self, shelf: &S) -> bool
        ensures { result ≡ same (map length (S.texts shelf.now)) (view self.now).lengths }
    {
        same_texts(&self.contents.lens, shelf)
    }
}
