ghost use Rattle.std.specs.Prelude.{◌≡◌, true, MatchResult};
ghost use Rattle.book.specs.Reader.{readable, Read, Unread, LengthAnswer};
ghost use Rattle.book.specs.Whole.{view};

use crate::book::Book;
use crate::fault::BookFault;
use crate::node::Node;
use crate::size::tree_len;
use shelf::Shelf;

// Records that stand for trees, with a shelf inside whose texts all their pieces lie. A book makes one of the records of the slots
// that no draft made, if the shelf shows the noted lengths.
#[derive(Drop)]
pub struct Reader<'n, 's, S: Shelf> {
    pub nodes: &'n [Node],
    pub shelf: &'s S,
    pub ghost shown: { readable (S.texts shelf.now) nodes.now ≡ true },
}

impl<'b> Book<'b> {
    // How many bytes a kept version has.
    pub fn length(&self, version: usize) -> Result<usize, BookFault>
        ensures { LengthAnswer (view self.now) version result }
    {
        let root = self.root(version)?;
        Ok(tree_len(self.settled(), root))
    }

    // A reader, if the shelf shows the count and the lengths that the book noted.
    pub fn reader<'n, 's, S: Shelf>(&'n self, shelf: &'s S) -> Result<Reader<'n, 's, S>, BookFault>
        ensures { MatchResult result
            (λ r. (r.shelf.now ≡ shelf.now) × Read (view self.now) (S.texts shelf.now) r.nodes.now)
            (Unread (view self.now) (S.texts shelf.now)) }
    {
        if !self.has_texts(shelf) {
            return Err(BookFault::OtherTexts);
        }
        Ok(Reader {
            nodes: self.settled(),
            shelf,
        })
    }
}
