ghost use Rattle.std.specs.Prelude.{◌≡◌, ℕ, List, Some};
ghost use Rattle.model.specs.Answers.{edited};
ghost use Rattle.model.specs.Book.{book_step};
ghost use Rattle.model.specs.Calls.{put_piece, put_version};
ghost use Rattle.model.specs.Calls as calls;
ghost use Rattle.book.specs.Records.{store};
ghost use Rattle.book.specs.Changing.{changed};
ghost use Rattle.model.specs.Histories.{BookGoesOn};
ghost use Rattle.book.specs.Faults.{answer};
ghost use Rattle.book.specs.Judging.{edit_of};
ghost use Rattle.book.specs.View.{Fits, Redrafts};
ghost use Rattle.book.specs.Whole.{view};

use super::Book;
use crate::contents::OpenDraft;
use crate::edit::Edit;
use crate::fault::BookFault;
use crate::node::Change;
use crate::nodes::change as change_tree;

impl<'a> Book<'a> {
    // Changes the tree of the draft. The places in use are copied out, and written back as the change leaves them.
    fn redraft(&mut self, draft: OpenDraft, change: Change) -> Result<usize, BookFault>
        requires begun { self.old.contents.draft ≡ Some draft }
        requires fits { Fits (store self.old.nodes.now self.old.places) self.old.contents draft.root change }
        ensures { Redrafts (store self.old.nodes.now self.old.places) self.old.contents draft
            (store self.new.nodes.now self.new.places) self.new.contents
            (changed (store self.old.nodes.now self.old.places) draft.root change) result }
    {
        let Book {
            nodes,
            places,
            contents,
        } = self;
        let mut taken = *places;
        let result = change_tree(nodes, &mut taken, draft.root, change);
        *places = taken;
        let whole = result?;
        contents.draft = Some(OpenDraft {
            root: whole.value,
            base: draft.base,
        });
        Ok(whole.made)
    }

    // Makes an edit of the draft, if no row refuses it.
    fn edit(&mut self, edit: Edit) -> Result<usize, BookFault>
        ensures steps { (texts : List (List ℕ)) → book_step texts (view self.old) (calls.edit (edit_of edit)) ≡ (answer edited result, view self.new) }
        ensures history { (texts : List (List ℕ)) → BookGoesOn texts (view self.old) (calls.edit (edit_of edit)) (answer edited result) (view self.new) }
    {
        let (draft, change) = self.judge(edit)?;
        self.redraft(draft, change)
    }

    // Puts `len` bytes of a text, at `from` in it, into the draft at `place`. Answers how many slots were made.
    pub fn put_piece(
        &mut self,
        place: usize,
        text: usize,
        from: usize,
        len: usize,
    ) -> Result<usize, BookFault>
        ensures steps { (texts : List (List ℕ)) → book_step texts (view self.old) (calls.edit (put_piece place text from len)) ≡ (answer edited result, view self.new) }
        ensures history { (texts : List (List ℕ)) → BookGoesOn texts (view self.old) (calls.edit (put_piece place text from len)) (answer edited result) (view self.new) }
    {
        self.edit(Edit::PutPiece {
            place,
            text,
            from,
            len,
        })
    }

    // Puts a kept version into the draft at `place`. Answers how many slots were made.
    pub fn put_version(&mut self, place: usize, version: usize) -> Result<usize, BookFault>
        ensures steps { (texts : List (List ℕ)) → book_step texts (view self.old) (calls.edit (put_version place version)) ≡ (answer edited result, view self.new) }
        ensures history { (texts : List (List ℕ)) → BookGoesOn texts (view self.old) (calls.edit (put_version place version)) (answer edited result) (view self.new) }
    {
        self.edit(Edit::PutVersion { place, version })
    }

    // Drops `len` bytes of the draft at `from`. Answers how many slots were made.
    pub fn cut(&mut self, from: usize, len: usize) -> Result<usize, BookFault>
        ensures steps { (texts : List (List ℕ)) → book_step texts (view self.old) (calls.edit (calls.cut from len)) ≡ (answer edited result, view self.new) }
        ensures history { (texts : List (List ℕ)) → BookGoesOn texts (view self.old) (calls.edit (calls.cut from len)) (answer edited result) (view self.new) }
    {
        self.edit(Edit::Cut { from, len })
    }

    // Drops all of the draft but `len` bytes at `from`. Answers how many slots were made.
    pub fn crop(&mut self, from: usize, len: usize) -> Result<usize, BookFault>
        ensures steps { (texts : List (List ℕ)) → book_step texts (view self.old) (calls.edit (calls.crop from len)) ≡ (answer edited result, view self.new) }
        ensures history { (texts : List (List ℕ)) → BookGoesOn texts (view self.old) (calls.edit (calls.crop from len)) (answer edited result) (view self.new) }
    {
        self.edit(Edit::Crop { from, len })
    }
}
