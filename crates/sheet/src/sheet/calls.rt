ghost use Rattle.std.specs.Prelude.{◌≡◌, map, length};
ghost use Rattle.model.specs.Answers.{SheetTold};
ghost use Rattle.model.specs.Calls.{bring_up};
ghost use Rattle.model.specs.Calls as calls;
ghost use Rattle.model.specs.Histories.{SheetGoesOn};
ghost use Rattle.model.specs.Sheet.{new_sheet, sheet_step};
ghost use Rattle.book.specs.Whole.{view};
ghost use Rattle.sheet.specs.Faults.{answer};
ghost use Rattle.sheet.specs.Reading.{rule_of};
ghost use Rattle.sheet.specs.View.{sheet_view};

use super::Sheet;
use crate::fault::SheetFault;
use crate::roots::{covers_root, root_value};
use crate::values::fill_values;
use book::{Book, BookFault};
use rule::Rule;
use shelf::Shelf;

impl<'a, R: Rule> Sheet<'a, R> {
    // A sheet that covers nothing yet.
    pub fn new(values: &'a mut [R::Value]) -> Sheet<'a, R>
        ensures { sheet_view result ≡ new_sheet values.old }
    {
        Sheet { values, covered: 0 }
    }

    // Covers the slots in use but those of an open draft, which may be tossed and filled otherwise later.
    // Answers how many slots were added.
    pub fn bring_up<S: Shelf>(&mut self, book: &Book, shelf: &S) -> Result<usize, SheetFault>
        ensures steps { sheet_step (S.texts shelf.now) (rule_of R.value R.joined) (view book.now)
            (sheet_view self.old) (bring_up (map length (S.texts shelf.now)))
            ≡ (answer SheetTold.added result, sheet_view self.new) }
        ensures history { SheetGoesOn (S.texts shelf.now) (rule_of R.value R.joined) (view book.now)
            (sheet_view self.old) (bring_up (map length (S.texts shelf.now)))
            (answer SheetTold.added result) (sheet_view self.new) }
    {
        let Sheet { values, covered } = self;
        let count = book.settled().len();
        if values.len() < count {
            return Err(SheetFault::TooShort);
        }
        let reader = book.reader(shelf)?;
        let from = *covered;
        fill_values::<R, S>(values, &reader, from)?;
        *covered = from.max(count);
        Ok(count.saturating_sub(from))
    }

    // The value of the `len` bytes of a version from place `from` on.
    pub fn summary<S: Shelf>(
        &mut self,
        book: &Book,
        shelf: &S,
        version: usize,
        from: usize,
        len: usize,
    ) -> Result<R::Value, SheetFault>
        ensures steps { sheet_step (S.texts shelf.now) (rule_of R.value R.joined) (view book.now)
            (sheet_view self.old) (calls.summary version from len (map length (S.texts shelf.now)))
            ≡ (answer SheetTold.value result, sheet_view self.new) }
        ensures history { SheetGoesOn (S.texts shelf.now) (rule_of R.value R.joined) (view book.now)
            (sheet_view self.old) (calls.summary version from len (map length (S.texts shelf.now)))
            (answer SheetTold.value result) (sheet_view self.new) }
    {
        let Sheet { values, covered } = self;
        let root = book.root(version)?;
        // A sum that is too large for its type is past the end too.
        if from.saturating_add(len) > book.length(version)? {
            return Err(SheetFault::Book(BookFault::PastEnd));
        }
        if !covers_root(*covered, root) {
            return Err(SheetFault::Uncovered);
        }
        let reader = book.reader(shelf)?;
        Ok(root_value::<R, S>(values, &reader, root, from, len)?)
    }
}
