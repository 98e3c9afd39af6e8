ghost use Rattle.std.specs.Prelude.{◌+◌, ◌<◌, ◌≤◌, Some};
ghost use Rattle.shelf.specs.Texts.{limit};
ghost use Rattle.tree.specs.Edits.{size_any};
ghost use Rattle.tree.specs.Edits as rules;
ghost use Rattle.book.specs.Records.{store, tree_in, Ready};
ghost use Rattle.book.specs.Changing.{Root, any_in, Two, Gets, Allowed, changed};

use super::any::{join_any, split_any};
use super::writes::leaf;
use crate::node::{Built, Change, NoRoom, Node, Places};

// The tree at a slot put in at a place: the split there, then the join of its left part and the tree, then that with its right part.
fn put(
    nodes: &mut [Node],
    places: &mut Places,
    root: Option<u16>,
    place: u32,
    tree: u16,
) -> Result<Built<Option<u16>>, NoRoom>
    requires { Two (store nodes.old places.old) root (Some tree) }
    ensures { Gets (store nodes.old places.old) (store nodes.new places.new)
        (rules.put places.old.used (any_in (store nodes.old places.old) root) place
        (tree_in (store nodes.old places.old) tree)) result }
{
    let parts = split_any(nodes, places, root, place)?;
    let front = join_any(nodes, places, parts.value.0, Some(tree))?;
    let whole = join_any(nodes, places, front.value, parts.value.1)?;
    Ok(parts.then(front).then(whole))
}

// A new piece put in at a place.
fn put_leaf(
    nodes: &mut [Node],
    places: &mut Places,
    root: Option<u16>,
    place: u32,
    text: u8,
    start: u32,
    len: u32,
) -> Result<Built<Option<u16>>, NoRoom>
    requires ready { Ready (store nodes.old places.old) }
    requires root { Root places.old.used root }
    requires some { 0 < len }
    requires ends { start + len ≤ limit }
    requires short { size_any (any_in (store nodes.old places.old) root) + len ≤ limit }
    ensures { Gets (store nodes.old places.old) (store nodes.new places.new)
        (rules.put_piece places.old.used (any_in (store nodes.old places.old) root) place text start len) result }
{
    let piece = leaf(nodes, places, text, start, len)?;
    let whole = put(nodes, places, root, place, piece.value)?;
    Ok(piece.then(whole))
}

// A tree without `len` bytes at `from`: the split at `from`, the split of its right part at `len`, and the join of the outer parts.
fn cut(
    nodes: &mut [Node],
    places: &mut Places,
    root: Option<u16>,
    from: u32,
    len: u32,
) -> Result<Built<Option<u16>>, NoRoom>
    requires ready { Ready (store nodes.old places.old) }
    requires root { Root places.old.used root }
    ensures { Gets (store nodes.old places.old) (store nodes.new places.new)
        (rules.cut places.old.used (any_in (store nodes.old places.old) root) from len) result }
{
    if len == 0 {
        return Ok(Built::there(root));
    }
    let outer = split_any(nodes, places, root, from)?;
    let inner = split_any(nodes, places, outer.value.1, len)?;
    let whole = join_any(nodes, places, outer.value.0, inner.value.1)?;
    Ok(outer.then(inner).then(whole))
}

// The `len` bytes of a tree at `from`: the same two splits, and the middle part.
// Each of `cut` and `crop` is written as the tree rules state it: a common part would need a contract of three parts.
fn crop(
    nodes: &mut [Node],
    places: &mut Places,
    root: Option<u16>,
    from: u32,
    len: u32,
) -> Result<Built<Option<u16>>, NoRoom>
    requires ready { Ready (store nodes.old places.old) }
    requires root { Root places.old.used root }
    ensures { Gets (store nodes.old places.old) (store nodes.new places.new)
        (rules.crop places.old.used (any_in (store nodes.old places.old) root) from len) result }
{
    let outer = split_any(nodes, places, root, from)?;
    let inner = split_any(nodes, places, outer.value.1, len)?;
    Ok(outer.then(inner).with(inner.value.0))
}

// The tree that a change makes.
pub(crate) fn build(
    nodes: &mut [Node],
    places: &mut Places,
    root: Option<u16>,
    change: Change,
) -> Result<Built<Option<u16>>, NoRoom>
    requires { Allowed (store nodes.old places.old) root change }
    ensures { Gets (store nodes.old places.old) (store nodes.new places.new)
        (changed (store nodes.old places.old) root change) result }
{
    match change {
        Change::Piece {
            place,
            text,
            start,
            len,
        } => put_leaf(nodes, places, root, place, text, start, len),
        Change::Tree { root: None, .. } => Ok(Built::there(root)),
        Change::Tree {
            place,
            root: Some(tree),
        } => put(nodes, places, root, place, tree),
        Change::Cut { from, len } => cut(nodes, places, root, from, len),
        Change::Crop { from, len } => crop(nodes, places, root, from, len),
    }
}
