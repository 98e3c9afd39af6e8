ghost use Rattle.std.specs.Prelude.{◌≡◌};
ghost use Rattle.script.specs.Stretches.{count, bytes_of};

// A part of some bytes: from the place `start` up to the place `end`, which is behind it.
#[derive(Clone, Copy, PartialEq, Eq, Debug)]
pub struct Stretch {
    pub start: usize,
    pub end: usize,
}

impl Stretch {
    // How many bytes it has.
    pub fn len(&self) -> usize
        ensures { result ≡ count self.now }
    {
        self.end.saturating_sub(self.start)
    }

    // Its bytes; those past the end of `whole` are left out.
    pub fn of<'a>(&self, whole: &'a [u8]) -> &'a [u8]
        ensures { result.now ≡ bytes_of self.now whole.now }
    {
        let end = self.end.min(whole.len());
        let start = self.start.min(end);
        &whole[start..end]
    }
}
