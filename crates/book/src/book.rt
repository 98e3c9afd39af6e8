ghost use Rattle.std.specs.Prelude.{◌≡◌, true};
ghost use Rattle.book.specs.Records.{store};
ghost use Rattle.book.specs.Tests.{consistent};

use crate::contents::Contents;
use crate::node::{Node, Places};

pub mod access;
pub mod drafts;
pub mod edits;
mod judge;
pub mod opening;

// A book on a lent list of node records, which it alone writes. Trees are slots in it and the number in use stands beside it,
// since no call allocates.
#[derive(Drop)]
pub struct Book<'a> {
    nodes: &'a mut [Node],
    places: Places,
    contents: Contents,
    ghost sound: { consistent (store nodes.now places) contents ≡ true },
}
