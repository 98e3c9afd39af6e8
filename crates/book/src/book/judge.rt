ghost use Rattle.std.specs.Prelude.{◌≡◌, ◌≤◌, length};
ghost use Rattle.std.specs.List.{AllByRecursion};
ghost use Rattle.shelf.specs.Texts.{limit, most_texts};
ghost use Rattle.tree.specs.Edits.{size_any};
ghost use Rattle.book.specs.Records.{store};
ghost use Rattle.book.specs.Changing.{Root, any_in};
ghost use Rattle.book.specs.Contents.{noted};
ghost use Rattle.book.specs.Judging.{edit_of, Begins, Stretch, PieceJudged, Judges};

use super::Book;
use crate::contents::{Contents, OpenDraft};
use crate::edit::Edit;
use crate::fault::BookFault;
use crate::node::Change;
use crate::size::tree_len;
use shelf::LIMIT;

// A stretch of a string of `whole` bytes.
fn stretch(whole: usize, from: usize, len: usize) -> Result<(u32, u32), BookFault>
    requires { whole ≤ limit }
    ensures { Stretch whole from len result }
{
    if from > whole || len > whole - from {
        return Err(BookFault::PastEnd);
    }
    Ok((from as u32, len as u32))
}

// The piece that is put into a draft of `size` bytes.
fn piece(
    contents: &Contents,
    size: usize,
    place: usize,
    text: usize,
    from: usize,
    len: usize,
) -> Result<Change, BookFault>
    requires few { length (noted contents.now) ≤ most_texts }
    requires lens { AllByRecursion (λ n. n ≤ limit) (noted contents.now) }
    requires short { size ≤ limit }
    ensures { PieceJudged (noted contents.now) size place text from len result }
{
    let whole = contents.text_len(text)?;
    if place > size || from > whole || len > whole - from {
        return Err(BookFault::PastEnd);
    }
    if len == 0 {
        return Err(BookFault::EmptyPiece);
    }
    if len > LIMIT - size {
        return Err(BookFault::TooLong);
    }
    Ok(Change::Piece {
        place: place as u32,
        text: text as u8,
        start: from as u32,
        len: len as u32,
    })
}

impl<'a> Book<'a> {
    // The number of bytes of the tree at a root.
    fn len_at(&self, root: Option<u16>) -> usize
        requires { Root self.now.places.used root }
        ensures is { result ≡ size_any (any_in (store self.now.nodes.now self.now.places) root) }
        ensures short { result ≤ limit }
    {
        tree_len(&self.nodes[..self.places.used], root)
    }

    // The open draft, and the number of its bytes.
    fn open_draft(&self) -> Result<(OpenDraft, usize), BookFault>
        ensures { Begins (store self.now.nodes.now self.now.places) self.now.contents result }
    {
        let Some(draft) = self.contents.draft else {
            return Err(BookFault::NoDraft);
        };
        Ok((draft, self.len_at(draft.root)))
    }

    // The open draft and the change that an edit makes of its tree, or why the lengths refuse it.
    pub(crate) fn judge(&self, edit: Edit) -> Result<(OpenDraft, Change), BookFault>
        ensures { Judges (store self.now.nodes.now self.now.places) self.now.contents (edit_of edit) result }
    {
        match edit {
            Edit::PutPiece {
                place,
                text,
                from,
                len,
            } => {
                let (draft, size) = self.open_draft()?;
                let change = piece(&self.contents, size, place, text, from, len)?;
                Ok((draft, change))
            }
            Edit::PutVersion { place, version } => {
                let root = self.contents.root(version)?;
                let (draft, size) = self.open_draft()?;
                let (place, _) = stretch(size, place, 0)?;
                if self.len_at(root) > LIMIT - size {
                    return Err(BookFault::TooLong);
                }
                Ok((draft, Change::Tree { place, root }))
            }
            Edit::Cut { from, len } => {
                let (draft, size) = self.open_draft()?;
                let (from, len) = stretch(size, from, len)?;
                Ok((draft, Change::Cut { from, len }))
            }
            Edit::Crop { from, len } => {
                let (draft, size) = self.open_draft()?;
                let (from, len) = stretch(size, from, len)?;
                Ok((draft, Change::Crop { from, len }))
            }
        }
    }
}
