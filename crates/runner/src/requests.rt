ghost use Rattle.std.specs.Prelude.{◌≡◌, ◌<◌, map, length};
ghost use Rattle.model.specs.Calls as calls;
ghost use Rattle.book.specs.Whole.{view};
ghost use Rattle.sheet.specs.Reading.{rule_of};
ghost use Rattle.sheet.specs.View.{sheet_view};
ghost use Rattle.runner.specs.Answering.{quieted, Answered};
ghost use Rattle.runner.specs.Commands.{book_outcome, sheet_outcome};

use super::output::Output;
use super::printed::Printed;
use ask::{find, read, shape};
use book::{Book, BookFault};
use script::Answer;
use sheet::{Sheet, SheetFault};
use shelf::Shelf;

// Of a call that tells nothing: no bytes, or its fault.
pub(crate) fn quiet<T: Copy>(res: Result<T, BookFault>) -> Result<usize, SheetFault>
    ensures { result ≡ quieted res }
{
    res?;
    Ok(0)
}

// The `len` bytes of a version from place `from` on.
#[derive(Clone, Copy)]
pub(crate) struct Span {
    pub version: usize,
    pub from: usize,
    pub len: usize,
}

// What questions are put to: a book, and the shelf that its texts are read from.
pub(crate) struct Source<'s, 'a, S: Shelf> {
    pub book: &'s Book<'a>,
    pub shelf: &'s S,
}

impl<'s, 'a, S: Shelf> Source<'s, 'a, S> {
    // Writes the bytes of a span, and a line end behind them.
    pub(crate) fn show(&self, span: Span, output: &mut Output) -> Result<usize, SheetFault>
        requires { span.len < length output.old.out.now }
        ensures { let texts = S.texts self.now.shelf.now in let b = view self.now.book.now in
            Answered (book_outcome texts b (calls.read span.version span.from span.len (map length texts))) b result output.old output.new }
    {
        let Span { version, from, len } = span;
        read(
            self.book,
            self.shelf,
            version,
            from,
            &mut output.out[0..len],
        )?;
        output.out[len] = b'\n';
        Ok(len + 1)
    }

    // Prints the first place at or after `from` where a pattern stands in a version, or none.
    pub(crate) fn locate(
        &self,
        version: usize,
        from: usize,
        pattern: &[u8],
        output: &mut Output,
    ) -> Result<usize, SheetFault>
        ensures { let texts = S.texts self.now.shelf.now in let b = view self.now.book.now in
            Answered (book_outcome texts b (calls.find version from pattern.now (map length texts))) b result output.old output.new }
    {
        let place = find(self.book, self.shelf, version, from, pattern)?;
        Ok(output.tell(Answer::Found { place }))
    }

    // Prints the length, the height and the pieces of a version.
    pub(crate) fn measure(&self, version: usize, output: &mut Output) -> Result<usize, SheetFault>
        ensures { let texts = S.texts self.now.shelf.now in let b = view self.now.book.now in
            Answered (book_outcome texts b (calls.shape version)) b result output.old output.new }
    {
        let dimensions = shape(self.book, version)?;
        Ok(output.tell(Answer::Shape {
            length: dimensions.len,
            height: dimensions.height,
            pieces: dimensions.pieces,
        }))
    }

    // Prints the value of a span by a sheet's rule.
    pub(crate) fn summarize<R: Printed>(
        &self,
        sheet: &mut Sheet<R>,
        span: Span,
        output: &mut Output,
    ) -> Result<usize, SheetFault>
        ensures { let texts = S.texts self.now.shelf.now in let b = view self.now.book.now in
            Answered (sheet_outcome texts (rule_of R.value R.joined) R.answer_of b (sheet_view sheet.old)
            (calls.summary span.version span.from span.len (map length texts))) (sheet_view sheet.new) result output.old output.new }
    {
        let Span { version, from, len } = span;
        let value = sheet.summary(self.book, self.shelf, version, from, len)?;
        Ok(output.tell(R::answer(value)))
    }
}
