ghost use Rattle.std.specs.Prelude.{◌≡◌, length, Ok};
ghost use Rattle.shelf.specs.Texts.{text, stretch};
ghost use Rattle.sheet.specs.Reading.{WithinText};

use rule::{Rule, value_of};
use shelf::{CopyFault, Shelf};

// How many bytes are copied from a text at a time.
const BLOCK: usize = 4096;

// The value of the bytes that fill the block, from place `from` of text k on.
fn block_value<R: Rule, S: Shelf>(
    shelf: &S,
    k: usize,
    from: usize,
    block: &mut [u8],
) -> Result<R::Value, CopyFault>
    requires { WithinText (S.texts shelf.now) k from (length block.old) }
    ensures { result ≡ Ok (R.value (stretch from (length block.old) (text (S.texts shelf.now) k))) }
{
    shelf.copy(k, from, block)?;
    Ok(value_of::<R>(block))
}

// The value of `len` bytes from place `from` of text k on, read block by block.
pub(crate) fn piece_value<R: Rule, S: Shelf>(
    shelf: &S,
    k: usize,
    from: usize,
    len: usize,
) -> Result<R::Value, CopyFault>
    requires { WithinText (S.texts shelf.now) k from len }
    ensures { result ≡ Ok (R.value (stretch from len (text (S.texts shelf.now) k))) }
{
    let mut block = [0u8; BLOCK];
    let mut value = R::empty();
    for done in (0..len).step_by(BLOCK) {
        let count = BLOCK.min(len - done);
        let more = block_value::<R, S>(shelf, k, from + done, &mut block[0..count])?;
        value = R::join(value, more);
    }
    Ok(value)
}
