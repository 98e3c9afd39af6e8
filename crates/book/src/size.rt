ghost use Rattle.std.specs.Prelude.{◌≡◌, ◌≤◌, length};
ghost use Rattle.shelf.specs.Texts.{limit};
ghost use Rattle.tree.specs.Edits.{size_any};
ghost use Rattle.book.specs.Records.{Sound};
ghost use Rattle.book.specs.Changing.{Root, any_at};

use crate::node::Node;

// The number of bytes of the tree at a root. A match: with `map_or` the proof did not close.
pub(crate) fn tree_len(nodes: &[Node], root: Option<u16>) -> usize
    requires sound { Sound nodes.now }
    requires root { Root (length nodes.now) root }
    ensures is { result ≡ size_any (any_at nodes.now root) }
    ensures short { result ≤ limit }
{
    match root {
        None => 0,
        Some(slot) => nodes[slot as usize].len as usize,
    }
}
