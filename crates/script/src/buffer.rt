ghost use Rattle.std.specs.Prelude.{◌≡◌, ◌+◌, ◌≤◌, length};
ghost use Rattle.script.specs.Buffers.{Wrote, end_of, written};

// Writes into a lent buffer, one thing behind the other: `at` is the place that it has reached.
#[derive(Drop)]
pub(crate) struct Writer<'a> {
    pub(crate) out: &'a mut [u8],
    pub(crate) at: usize,
}

impl<'a> Writer<'a> {
    // Writes bytes that have room.
    pub(crate) fn put(&mut self, bytes: &[u8])
        requires { self.old.at + length bytes.now ≤ length self.old.out.now }
        ensures { Wrote bytes.now self.old self.new }
    {
        let end = self.at + bytes.len();
        self.out[self.at..end].copy_from_slice(bytes);
        self.at = end;
    }
}

// Writes bytes from the place `at` on, and gives the place behind them; without room for all of them it writes none.
pub fn put(out: &mut [u8], at: usize, bytes: &[u8]) -> Option<usize>
    ensures end { result ≡ end_of at bytes.now out.old }
    ensures buffer { out.new ≡ written at bytes.now out.old }
{
    if at > out.len() || bytes.len() > out.len() - at {
        return None;
    }
    let mut writer = Writer { out, at };
    writer.put(bytes);
    Some(writer.at)
}
