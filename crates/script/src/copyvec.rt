ghost use Rattle.std.specs.Prelude.{◌≤◌};

use std::alloc::AllocError;

// A list of at most N values in place. An ArrayVec is not Copy, and `Names` has to be; the arguments of a line and the
// items of an answer use the same list.
pub(crate) struct CopyVec<T, const N: usize> {
    slots: [T; N],
    len: usize,
    ghost fits: { len ≤ N },
}

// Of a struct with a ghost field, Clone and Copy are derived only where it has no type parameter.
impl<T: Copy, const N: usize> Clone for CopyVec<T, N> {
    ghost use Rattle.std.specs.Prelude.{◌≡◌};
    ghost use Rattle.std.specs.Bool.{⊤};

    ghost is_clone = { λ x y. y ≡ x };

    ghost is_infallible = { λ _. ⊤ };

    fn clone(&self) -> Result<CopyVec<T, N>, AllocError> {
        Ok(*self)
    }
}

impl<T: Copy, const N: usize> Copy for CopyVec<T, N> {}

impl<T: Copy, const N: usize> CopyVec<T, N> {
    ghost use Rattle.std.specs.Prelude.{◌≡◌, ◌+◌, [], ◌++◌, length, if◌then◌else◌, nat_le};
    ghost use Rattle.script.specs.CopyVec.{items};

    // An empty list, of which `unused` stands in the slots.
    pub(crate) fn new(unused: T) -> CopyVec<T, N>
        ensures { items result ≡ [] }
    {
        CopyVec {
            slots: [unused; N],
            len: 0,
        }
    }

    pub(crate) fn as_slice(&self) -> &[T]
        ensures { result.now ≡ items self.now }
    {
        &self.slots[..self.len]
    }

    // Adds values at the end if all of them have room, and says whether they had it: a bool, since there is one way to fail.
    pub(crate) fn extend(&mut self, more: &[T]) -> bool
        ensures room { result ≡ nat_le (length (items self.old) + length more.now) N }
        ensures list { items self.new ≡ (if result then items self.old ++ more.now else items self.old) }
    {
        if more.len() > N - self.len {
            return false;
        }
        let end = self.len + more.len();
        let slots = &mut self.slots[..];
        slots[self.len..end].copy_from_slice(more);
        self.len = end;
        true
    }
}
