ghost use Rattle.runner.specs.Answering.{Answered};
ghost use Rattle.runner.specs.Commands.{request_step};
ghost use Rattle.runner.specs.Requests.{keep_as};
ghost use Rattle.runner.specs.View.{runner_view};

use super::output::Output;
use super::runner::Runner;
use script::Answer;
use sheet::SheetFault;
use shelf::Shelf;

impl<'a> Runner<'a> {
    // Keeps the draft under a name, brings both sheets up, and prints the version's number and what was made.
    pub(crate) fn keep<S: Shelf>(
        &mut self,
        shelf: &S,
        name: &[u8],
        output: &mut Output,
    ) -> Result<usize, SheetFault>
        ensures { Answered (request_step (S.texts shelf.now) (runner_view self.old) (keep_as name.now))
            (runner_view self.new) result output.old output.new }
    {
        let Runner {
            book,
            lines,
            pairs,
            names,
        } = self;
        let kept = book.keep()?;
        names.add(name, kept.version);
        // A sheet that refuses to be brought up says so when it is asked.
        let _ = lines.bring_up(book, shelf);
        let _ = pairs.bring_up(book, shelf);
        Ok(output.tell(Answer::Kept {
            version: kept.version,
            made: kept.made,
        }))
    }
}
