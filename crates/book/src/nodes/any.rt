ghost use Rattle.tree.specs.Edits as rules;
ghost use Rattle.book.specs.Records.{store, Ready};
ghost use Rattle.book.specs.Changing.{Root, any_in, Two, Gets, Halved};

use super::joins::join;
use super::splits::split;
use crate::node::{Built, NoRoom, Node, Places};

// The join of two trees, where one or both may be empty.
pub(crate) fn join_any(
    nodes: &mut [Node],
    places: &mut Places,
    left: Option<u16>,
    right: Option<u16>,
) -> Result<Built<Option<u16>>, NoRoom>
    requires { Two (store nodes.old places.old) left right }
    ensures { Gets (store nodes.old places.old) (store nodes.new places.new)
        (rules.join_any places.old.used (any_in (store nodes.old places.old) left)
        (any_in (store nodes.old places.old) right)) result }
{
    match (left, right) {
        (None, _) => Ok(Built::there(right)),
        (Some(_), None) => Ok(Built::there(left)),
        (Some(a), Some(b)) => {
            let whole = join(nodes, places, a, b)?;
            Ok(whole.with(Some(whole.value)))
        }
    }
}

// The parts before and behind any place.
pub(crate) fn split_any(
    nodes: &mut [Node],
    places: &mut Places,
    root: Option<u16>,
    place: u32,
) -> Result<Built<(Option<u16>, Option<u16>)>, NoRoom>
    requires ready { Ready (store nodes.old places.old) }
    requires root { Root places.old.used root }
    ensures { Halved (store nodes.old places.old) (store nodes.new places.new)
        (rules.split_any places.old.used (any_in (store nodes.old places.old) root) place) result }
{
    let Some(slot) = root else {
        return Ok(Built::there((None, None)));
    };
    if place == 0 {
        return Ok(Built::there((None, root)));
    }
    if nodes[slot as usize].len <= place {
        return Ok(Built::there((root, None)));
    }
    let parts = split(nodes, places, slot, place)?;
    Ok(parts.with((Some(parts.value.0), Some(parts.value.1))))
}
