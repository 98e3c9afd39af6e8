ghost use Rattle.std.specs.Prelude.{◌+◌, ◌<◌};
ghost use Rattle.tree.specs.Rules.{write};
ghost use Rattle.tree.specs.Rules as rules;
ghost use Rattle.book.specs.Sides.{tree_side};
ghost use Rattle.book.specs.Records.{store, tree_in};
ghost use Rattle.book.specs.Building.{Pair, Four, four, Leaning, Higher, Builds};

use super::writes::{fork, sides};
use crate::node::{Built, NoRoom, Node, Places, Side};

// Which of two heights is greater by two or more, if one is.
fn higher(left: u8, right: u8) -> Option<Side>
    requires { (left < 255) × (right < 255) }
    ensures { Higher left right result }
{
    match (left, right) {
        (l, r) if l > r + 1 => Some(Side::Left),
        (l, r) if r > l + 1 => Some(Side::Right),
        _ => None,
    }
}

// The node ((W X)(Y Z)).
fn fork_four(
    nodes: &mut [Node],
    places: &mut Places,
    w: u16,
    x: u16,
    y: u16,
    z: u16,
) -> Result<Built<u16>, NoRoom>
    requires { Four (store nodes.old places.old) w x y z }
    ensures { Builds (store nodes.old places.old) (store nodes.new places.new)
        (write places.old.used (four (store nodes.old places.old) w x y z)) result }
{
    let left = fork(nodes, places, Side::Left, w, x)?;
    let right = fork(nodes, places, Side::Left, y, z)?;
    let top = fork(nodes, places, Side::Left, left.value, right.value)?;
    Ok(left.then(right.then(top)))
}

// A stays on the side and T takes the other: (A T). If T is more than one higher than A, T is (C D), and it is turned:
// ((A C) D) if C is not higher than D; otherwise C is (E F), and the result is ((A E)(F D)).
fn lean(
    nodes: &mut [Node],
    places: &mut Places,
    side: Side,
    a: u16,
    t: u16,
) -> Result<Built<u16>, NoRoom>
    requires { Leaning (store nodes.old places.old) a t }
    ensures { Builds (store nodes.old places.old) (store nodes.new places.new)
        (write places.old.used (rules.lean (tree_side side) (tree_in (store nodes.old places.old) a)
        (tree_in (store nodes.old places.old) t))) result }
{
    let (c, d) = sides(nodes, side, t);
    let (e, f) = sides(nodes, side, c);
    let (a_height, t_height) = (nodes[a as usize].height, nodes[t as usize].height);
    let (c_height, d_height) = (nodes[c as usize].height, nodes[d as usize].height);
    match side {
        _ if t_height <= a_height + 1 => fork(nodes, places, side, a, t),
        _ if c_height <= d_height => {
            let inner = fork(nodes, places, side, a, c)?;
            let outer = fork(nodes, places, side, inner.value, d)?;
            Ok(inner.then(outer))
        }
        Side::Left => fork_four(nodes, places, a, e, f, d),
        Side::Right => fork_four(nodes, places, d, f, e, a),
    }
}

// One tree of the trees at two slots. Where one is higher by two or more, it is (A B) with A on its side,
// and T, the join of B and the other, takes the place of B.
pub(crate) fn join(
    nodes: &mut [Node],
    places: &mut Places,
    left: u16,
    right: u16,
) -> Result<Built<u16>, NoRoom>
    requires { Pair (store nodes.old places.old) left right }
    ensures { Builds (store nodes.old places.old) (store nodes.new places.new)
        (rules.join places.old.used (tree_in (store nodes.old places.old) left)
        (tree_in (store nodes.old places.old) right)) result }
{
    match higher(nodes[left as usize].height, nodes[right as usize].height) {
        None => fork(nodes, places, Side::Left, left, right),
        Some(side) => {
            let (high, low) = side.order(left, right);
            let (a, b) = sides(nodes, side, high);
            let (x, y) = side.order(b, low);
            let t = join(nodes, places, x, y)?;
            let top = lean(nodes, places, side, a, t.value)?;
            Ok(t.then(top))
        }
    }
}
