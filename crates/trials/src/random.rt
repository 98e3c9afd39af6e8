ghost use Rattle.std.specs.Prelude.{◌<◌};

// Numbers made from a seed, by shifts and exclusive ors.
#[derive(Clone, Copy)]
pub struct Random {
    state: u64,
}

impl Random {
    // A seed is any number but 0.
    pub fn new(seed: u64) -> Random {
        Random { state: seed }
    }

    fn next(&mut self) -> u64 {
        let mut x = self.state;
        x ^= x.wrapping_shl(13);
        x ^= x.wrapping_shr(7);
        x ^= x.wrapping_shl(17);
        self.state = x;
        x
    }

    // A number below `n`, or 0 where n is 0.
    pub fn below(&mut self, n: usize) -> usize
        ensures { 0 < n → result < n }
    {
        let x = (self.next().wrapping_shr(11) & 0xffff_ffff) as usize;
        if n == 0 { 0 } else { x % n }
    }

    // A number up to `n`, and now and then one above it.
    pub fn about(&mut self, n: usize) -> usize {
        match self.below(24) {
            0 => n.saturating_add(1),
            1 => n.saturating_add(self.below(100)),
            2 if self.below(4) == 0 => usize::MAX,
            3 => n,
            4 => 0,
            _ => self.below(n.saturating_add(1)),
        }
    }

    // One of some values, each as often as it stands among them.
    pub(crate) fn pick<T: Copy, const N: usize>(&mut self, values: &[T; N]) -> T
        requires { 0 < N }
    {
        values[self.below(N)]
    }
}
