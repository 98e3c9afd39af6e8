ghost use Rattle.std.specs.Prelude.{◌≡◌, ◌+◌, ◌<◌, ◌≤◌, length, Ok};
ghost use Rattle.shelf.specs.Texts.{stretch};
ghost use Rattle.tree.specs.Tree.{size};
ghost use Rattle.book.specs.Records.{tree_at};
ghost use Rattle.book.specs.Reader.{bytes_at};

use book::{Reader, Shape};
use shelf::{CopyFault, Shelf};

// The slot stays a parameter: a struct of reader and slot would be made anew for each side.
// Fills `out` from place `from` of the tree at a slot: goes down to the pieces that it touches, and copies each by one call.
pub(crate) fn fill<S: Shelf>(
    reader: &Reader<S>,
    slot: u16,
    from: usize,
    out: &mut [u8],
) -> Result<(), CopyFault>
    requires used { slot < length reader.now.nodes.now }
    requires inside { from + length out.old ≤ size (tree_at reader.now.nodes.now slot) }
    ensures passes { result ≡ Ok tt }
    ensures fills { out.new ≡ stretch from (length out.old) (bytes_at (S.texts reader.now.shelf.now) reader.now.nodes.now slot) }
{
    match reader.nodes[slot as usize].shape {
        Shape::Piece { text, start } => {
            reader.shelf.copy(text as usize, start as usize + from, out)
        }
        Shape::Fork { left, right } => {
            let size = reader.nodes[left as usize].len as usize;
            if from >= size {
                fill(reader, right, from - size, out)
            } else if out.len() <= size - from {
                fill(reader, left, from, out)
            } else {
                let (front, rest) = out.split_at_mut(size - from);
                fill(reader, left, from, front)?;
                fill(reader, right, 0, rest)
            }
        }
    }
}
