ghost use Rattle.std.specs.Prelude.{◌+◌};
ghost use Rattle.tree.specs.Rules as rules;
ghost use Rattle.book.specs.Records.{store, tree_in};
ghost use Rattle.book.specs.Parting.{Inside, Splits};

use super::joins::join;
use super::writes::leaf;
use crate::node::{Built, NoRoom, Node, Places, Shape};

// The parts of the tree at a slot before and behind a place, which is strictly inside it.
pub(crate) fn split(
    nodes: &mut [Node],
    places: &mut Places,
    slot: u16,
    place: u32,
) -> Result<Built<(u16, u16)>, NoRoom>
    requires { Inside (store nodes.old places.old) slot place }
    ensures { Splits (store nodes.old places.old) (store nodes.new places.new)
        (rules.split places.old.used (tree_in (store nodes.old places.old) slot) place) result }
{
    let len = nodes[slot as usize].len;
    match nodes[slot as usize].shape {
        Shape::Piece { text, start } => {
            let left = leaf(nodes, places, text, start, place)?;
            let right = leaf(nodes, places, text, start + place, len - place)?;
            Ok(left.then(right).with((left.value, right.value)))
        }
        Shape::Fork { left, right } => {
            let first = nodes[left as usize].len;
            if place < first {
                let part = split(nodes, places, left, place)?;
                let rest = join(nodes, places, part.value.1, right)?;
                Ok(part.then(rest).with((part.value.0, rest.value)))
            } else if place == first {
                Ok(Built::there((left, right)))
            } else {
                let part = split(nodes, places, right, place - first)?;
                let front = join(nodes, places, left, part.value.0)?;
                Ok(part.then(front).with((front.value, part.value.1)))
            }
        }
    }
}
