ghost use Rattle.std.specs.Prelude.{◌≡◌, ◌+◌, ◌≤◌, length, Ok};
ghost use Rattle.tree.specs.Edits.{size_any};
ghost use Rattle.book.specs.Changing.{Root, any_at};
ghost use Rattle.book.specs.Tests.{rooted};
ghost use Rattle.model.specs.Sheet.{version_value};
ghost use Rattle.sheet.specs.Reading.{rule_of};

use crate::values::stretch_value;
use book::Reader;
use rule::Rule;
use shelf::{CopyFault, Shelf};

// Whether the first `covered` slots are all that a root needs: its own is the last of them.
pub(crate) fn covers_root(covered: usize, root: Option<u16>) -> bool
    ensures { result ≡ rooted covered root }
{
    root.is_none_or(|slot| (slot as usize) < covered)
}

// The value of a stretch of the tree at a root. The values stay as they are; they are lent to write, since the borrow checker lends
// no shared part of a sheet that is itself lent to write.
pub(crate) fn root_value<R: Rule, S: Shelf>(
    values: &mut [R::Value],
    reader: &Reader<S>,
    root: Option<u16>,
    from: usize,
    len: usize,
) -> Result<R::Value, CopyFault>
    requires root { Root (length reader.now.nodes.now) root × Root (length values.old) root }
    requires inside { from + len ≤ size_any (any_at reader.now.nodes.now root) }
    ensures tells { result ≡ Ok (version_value (S.texts reader.now.shelf.now) (rule_of R.value R.joined) values.old (any_at reader.now.nodes.now root) from len) }
    ensures stay { values.new ≡ values.old }
{
    match root {
        None => Ok(R::empty()),
        Some(slot) => stretch_value::<R, S>(values, reader, slot, from, len),
    }
}
