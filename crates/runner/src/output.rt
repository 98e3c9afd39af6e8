ghost use Rattle.std.specs.Prelude.{◌≤◌, length};
ghost use Rattle.script.specs.Bounds.{buffer_least};

use script::{Answer, print_answer};

// A lent output buffer that is long enough for what any line prints.
#[derive(Drop)]
pub(crate) struct Output<'o> {
    pub(crate) out: &'o mut [u8],
    pub(crate) ghost room: { buffer_least ≤ length out.now },
}

impl<'o> Output<'o> {
    ghost use Rattle.runner.specs.Answering.{Prints};
    ghost use Rattle.runner.specs.Said.{line_of};

    // Prints an answer at the beginning of the buffer, and gives the number of bytes written.
    pub(crate) fn tell(&mut self, answer: Answer) -> usize
        ensures { Prints (line_of answer) self.old self.new result }
    {
        print_answer(self.out, 0, Ok(answer)).unwrap()
    }
}
