ghost use Rattle.std.specs.Prelude.{◌≡◌, ℕ, List, map, length, OnErr};
ghost use Rattle.model.specs.Answers.{bytes, found};
ghost use Rattle.model.specs.Book.{book_step};
ghost use Rattle.model.specs.Calls as calls;
ghost use Rattle.model.specs.Histories.{BookGoesOn};
ghost use Rattle.book.specs.Faults.{answer};
ghost use Rattle.book.specs.Whole.{view};
ghost use Rattle.ask.specs.Told.{shape_told};

use super::fill::fill;
use super::stream::stream;
use book::{Book, BookFault};
use shelf::Shelf;

// The greatest length of a pattern, in bytes.
pub const LONGEST_PATTERN: usize = 256;

// The bytes, the height and the pieces of a version. An empty one has three zeros.
#[derive(Clone, Copy, PartialEq, Eq, Debug, Default)]
pub struct Dimensions {
    pub len: usize,
    pub height: usize,
    pub pieces: usize,
}

// Fills `out` from place `from` of a version. On a refusal `out` is as it was.
pub fn read<S: Shelf>(
    book: &Book<'_>,
    shelf: &S,
    version: usize,
    from: usize,
    out: &mut [u8],
) -> Result<(), BookFault>
    ensures steps { book_step (S.texts shelf.now) (view book.now)
        (calls.read version from (length out.old) (map length (S.texts shelf.now)))
        ≡ (answer (λ _. bytes out.new) result, view book.now) }
    ensures history { BookGoesOn (S.texts shelf.now) (view book.now)
        (calls.read version from (length out.old) (map length (S.texts shelf.now)))
        (answer (λ _. bytes out.new) result) (view book.now) }
    ensures refused { OnErr result (out.new ≡ out.old) }
{
    // A sum that is too large for its type is past the end too.
    if from.saturating_add(out.len()) > book.length(version)? {
        return Err(BookFault::PastEnd);
    }
    let reader = book.reader(shelf)?;
    if let Some(slot) = book.root(version)? {
        fill(&reader, slot, from, out)?;
    }
    Ok(())
}

// The first place at or after `from` where the pattern stands in a version, or none.
pub fn find<S: Shelf>(
    book: &Book<'_>,
    shelf: &S,
    version: usize,
    from: usize,
    pattern: &[u8],
) -> Result<Option<usize>, BookFault>
    ensures steps { book_step (S.texts shelf.now) (view book.now)
        (calls.find version from pattern.now (map length (S.texts shelf.now)))
        ≡ (answer found result, view book.now) }
    ensures history { BookGoesOn (S.texts shelf.now) (view book.now)
        (calls.find version from pattern.now (map length (S.texts shelf.now)))
        (answer found result) (view book.now) }
{
    if from > book.length(version)? {
        return Err(BookFault::PastEnd);
    }
    if pattern.is_empty() || pattern.len() > LONGEST_PATTERN {
        return Err(BookFault::BadPattern);
    }
    let reader = book.reader(shelf)?;
    let Some(slot) = book.root(version)? else {
        return Ok(None);
    };
    Ok(stream(&reader, slot, from, pattern)?)
}

// The length, the height and the pieces of a version.
pub fn shape(book: &Book<'_>, version: usize) -> Result<Dimensions, BookFault>
    ensures steps { (texts : List (List ℕ)) → book_step texts (view book.now) (calls.shape version)
        ≡ (answer shape_told result, view book.now) }
    ensures history { (texts : List (List ℕ)) → BookGoesOn texts (view book.now) (calls.shape version)
        (answer shape_told result) (view book.now) }
{
    let root = book.root(version)?;
    let nodes = book.settled();
    let Some(slot) = root else {
        return Ok(Dimensions::default());
    };
    let node = &nodes[slot as usize];
    Ok(Dimensions {
        len: node.len as usize,
        height: node.height as usize,
        pieces: node.pieces as usize,
    })
}
