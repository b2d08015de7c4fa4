// What can be done with it. Nothing here allocates, and nothing is asked of the caller.
ghost use Rattle.std.specs.Prelude.{◌≡◌, ◌<◌, [], ◌∷◌, ◌++◌, length, if◌then◌else◌, nat_lt};
ghost use Rattle.std.specs.Prelude.{nat_le, slice_set};
ghost use Rattle.std.specs.Result.{is_ok};
ghost use Rattle.bounded.specs.Listed.{listed};

use crate::list::{Bounded, Full};

impl<T: Copy, const N: usize> Bounded<T, N> {
    // An empty list; the blank fills the memory that is not in use.
    pub fn new(blank: T) -> Self
        ensures { listed result ≡ [] }
    {
        Bounded {
            items: [blank; N],
            used: 0,
        }
    }

    pub fn len(&self) -> usize
        ensures used { result ≡ self.now.used }
        ensures len { result ≡ length (listed self.now) }
    {
        self.as_slice().len()
    }

    pub fn is_full(&self) -> bool
        ensures { result ≡ nat_le N (length (listed self.now)) }
    {
        self.used >= N
    }

    pub fn as_slice(&self) -> &[T]
        ensures { result.now ≡ listed self.now }
    {
        &self.items[..self.used]
    }

    pub fn clear(&mut self)
        ensures { listed self.new ≡ [] }
    {
        self.used = 0;
    }

    // Replaces item i, where there is one.
    #[tactic(auto, using(crate::proofs::Facts::take_set_in))]
    pub fn set(&mut self, i: usize, item: T)
        ensures { listed self.new ≡ slice_set (listed self.old) i item }
    {
        if i < self.used {
            self.items[i] = item;
        }
    }

    // One item more. A list that is full stays as it is.
    pub fn push(&mut self, item: T) -> Result<(), Full>
        ensures pushed { is_ok result ≡ nat_lt (length (listed self.old)) N }
        ensures items { listed self.new
            ≡ (if is_ok result then listed self.old ++ (item ∷ []) else listed self.old) }
    {
        if self.is_full() {
            return Err(Full);
        }
        self.items[self.used] = item;
        self.used += 1;
        Ok(())
    }
}
