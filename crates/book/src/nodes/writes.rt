ghost use Rattle.std.specs.Prelude.{◌≡◌, ◌+◌, ◌<◌, ◌≤◌, length, MatchResult, slice_index_or};
ghost use Rattle.shelf.specs.Texts.{limit};
ghost use Rattle.tree.specs.Tree.{piece};
ghost use Rattle.tree.specs.Relations.{on};
ghost use Rattle.book.specs.Sides.{tree_side, sides_of};
ghost use Rattle.book.specs.Records.{no_node, store, tree_in, room, Ready};
ghost use Rattle.book.specs.Building.{one, Level, Added, Builds};

use crate::node::{Built, MOST_SLOTS, NoRoom, Node, Places, Shape, Side};

// The slots of the two sides of a node, first the one on the side. A piece, which has no sides, stands for both.
pub(crate) fn sides(nodes: &[Node], side: Side, slot: u16) -> (u16, u16)
    requires { slot < length nodes.now }
    ensures { result ≡ sides_of (tree_side side) slot (slice_index_or nodes.now slot no_node).shape }
{
    match nodes[slot as usize].shape {
        Shape::Piece { .. } => (slot, slot),
        Shape::Fork { left, right } => side.order(left, right),
    }
}

// Writes a record at the next free slot.
fn put_record(nodes: &mut [Node], places: &mut Places, node: Node) -> Result<Built<u16>, NoRoom>
    ensures { MatchResult result
        (λ b. Added (store nodes.old places.old) (store nodes.new places.new) node b)
        (λ _. (nodes.new ≡ nodes.old) × (room nodes.old ≤ places.old.used)) }
{
    let slot = places.used;
    if slot >= nodes.len() || slot >= MOST_SLOTS {
        return Err(NoRoom);
    }
    nodes[slot] = node;
    places.used = slot + 1;
    Ok(Built {
        value: slot as u16,
        made: 1,
    })
}

// A piece of its own.
pub(crate) fn leaf(
    nodes: &mut [Node],
    places: &mut Places,
    text: u8,
    start: u32,
    len: u32,
) -> Result<Built<u16>, NoRoom>
    requires ready { Ready (store nodes.old places.old) }
    requires some { 0 < len }
    requires ends { start + len ≤ limit }
    ensures { Builds (store nodes.old places.old) (store nodes.new places.new)
        (one (piece places.old.used text start len)) result }
{
    put_record(
        nodes,
        places,
        Node {
            len,
            height: 0,
            pieces: 1,
            shape: Shape::Piece { text, start },
        },
    )
}

// The node (A B) with A on the side; on the right it is (B A).
pub(crate) fn fork(
    nodes: &mut [Node],
    places: &mut Places,
    side: Side,
    a: u16,
    b: u16,
) -> Result<Built<u16>, NoRoom>
    requires { Level (store nodes.old places.old) a b }
    ensures { Builds (store nodes.old places.old) (store nodes.new places.new)
        (one (on (tree_side side) places.old.used (tree_in (store nodes.old places.old) a)
        (tree_in (store nodes.old places.old) b))) result }
{
    let x = nodes[a as usize];
    let y = nodes[b as usize];
    let (left, right) = side.order(a, b);
    put_record(
        nodes,
        places,
        Node {
            len: x.len + y.len,
            height: x.height.max(y.height) + 1,
            pieces: x.pieces + y.pieces,
            shape: Shape::Fork { left, right },
        },
    )
}
