ghost use Rattle.std.specs.Prelude.{◌≡◌, ◌+◌, ◌-◌, ◌<◌, ◌≤◌, length, Ok};
ghost use Rattle.tree.specs.Tree.{size};
ghost use Rattle.book.specs.Records.{trees, tree_at};
ghost use Rattle.model.specs.Sheet.{tree_value, filled, stretch_value};
ghost use Rattle.sheet.specs.Reading.{rule_of};

use crate::pieces::piece_value;
use book::{Reader, Shape};
use rule::Rule;
use shelf::{CopyFault, Shelf};

// The list of values is handed to functions, as the sheet's calls are lent it; a slot would be wrapped anew for each side.
// The value of the tree at a slot: a piece's from its bytes, a node's from the values of its sides.
fn slot_value<R: Rule, S: Shelf>(
    values: &[R::Value],
    reader: &Reader<S>,
    slot: usize,
) -> Result<R::Value, CopyFault>
    requires { (slot < length reader.now.nodes.now) × (slot ≤ length values.now) }
    ensures { result ≡ Ok (tree_value (S.texts reader.now.shelf.now) (rule_of R.value R.joined) values.now (tree_at reader.now.nodes.now slot)) }
{
    let node = &reader.nodes[slot];
    match node.shape {
        Shape::Piece { text, start } => piece_value::<R, S>(
            reader.shelf,
            text as usize,
            start as usize,
            node.len as usize,
        ),
        Shape::Fork { left, right } => {
            Ok(R::join(values[left as usize], values[right as usize]))
        }
    }
}

// Fills in the values of the slots from `from` on.
pub(crate) fn fill_values<R: Rule, S: Shelf>(
    values: &mut [R::Value],
    reader: &Reader<S>,
    from: usize,
) -> Result<(), CopyFault>
    requires { length reader.now.nodes.now ≤ length values.old }
    ensures answers { result ≡ Ok tt }
    ensures fills { values.new ≡ filled (S.texts reader.now.shelf.now) (rule_of R.value R.joined)
        (trees reader.now.nodes.now) values.old from (length reader.now.nodes.now - from) }
{
    // By slot: a node's value is made from values that earlier turns wrote to the same list.
    for slot in from..reader.nodes.len() {
        values[slot] = slot_value::<R, S>(values, reader, slot)?;
    }
    Ok(())
}

// The value of a stretch of the tree at a slot: a tree that lies in the stretch whole is not entered.
pub(crate) fn stretch_value<R: Rule, S: Shelf>(
    values: &[R::Value],
    reader: &Reader<S>,
    slot: u16,
    from: usize,
    len: usize,
) -> Result<R::Value, CopyFault>
    requires slot { (slot < length reader.now.nodes.now) × (slot < length values.now) }
    requires inside { from + len ≤ size (tree_at reader.now.nodes.now slot) }
    ensures { result ≡ Ok (stretch_value (S.texts reader.now.shelf.now) (rule_of R.value R.joined) values.now (tree_at reader.now.nodes.now slot) from len) }
{
    let node = &reader.nodes[slot as usize];
    if len == node.len as usize {
        return Ok(values[slot as usize]);
    }
    match node.shape {
        Shape::Piece { text, start } => {
            piece_value::<R, S>(reader.shelf, text as usize, start as usize + from, len)
        }
        Shape::Fork { left, right } => {
            let front = reader.nodes[left as usize].len as usize;
            if from + len <= front {
                stretch_value::<R, S>(values, reader, left, from, len)
            } else if front <= from {
                stretch_value::<R, S>(values, reader, right, from - front, len)
            } else {
                let first = stretch_value::<R, S>(values, reader, left, from, front - from)?;
                let second = stretch_value::<R, S>(values, reader, right, 0, from + len - front)?;
                Ok(R::join(first, second))
            }
        }
    }
}
