//! Making a mapping, and its operations: length, find, bind and cut.
ghost use Rattle.std.specs.Prelude.{◌≡◌, [], ◌∷◌, length, slice_set, is_ok, if◌then◌else◌, nat_lt};
ghost use Rattle.mapping.specs.Bindings.{lookup, bound, memory, capacity, since, oldest, blanked};

use crate::mapping::{Binding, Blank, Mapping};

/// There is no memory left for one binding more.
#[derive(Clone, Copy, PartialEq, Eq, Debug)]
pub struct Full;

#[tactic(auto, using(crate::proofs::Bindings::in_use), unfolding(crate::specs::Bindings::bound, crate::specs::Bindings::memory, crate::specs::Bindings::capacity))]
impl<'a, E: Blank> Mapping<'a, E> {
    /// The mapping that binds nothing, over the lent bindings.
    pub fn new(bindings: &'a mut [Binding<E>]) -> Mapping<'a, E>
        ensures empty { bound result ≡ [] }
        ensures memory { memory result ≡ bindings.old }
        ensures capacity { capacity result ≡ length bindings.old }
    {
        Mapping { bindings, count: 0 }
    }

    /// How many bindings are in use.
    pub fn length(&self) -> usize
        ensures length { result ≡ length (bound self.now) }
    {
        self.count
    }

    /// For how many bindings there is memory.
    pub fn capacity(&self) -> usize
        ensures capacity { result ≡ capacity self.now }
    {
        self.bindings.len()
    }

    /// The newest entry of the slot among the bindings that were made since there were `earlier` of them.
    #[inline(always)]
    pub fn find(&self, earlier: usize, slot: u16) -> Option<E>
        ensures newest { result ≡ lookup slot (since earlier (bound self.now)) }
    {
        let first = earlier.min(self.count);
        self.bindings[first..self.count]
            .iter()
            .rev()
            .find(|b| b.slot == slot)
            .map(|b| b.entry)
    }

    /// Binds the entry to the slot; where the memory is full, nothing changes.
    pub fn bind(&mut self, slot: u16, entry: E) -> Result<(), Full>
        ensures full { is_ok result ≡ nat_lt (length (bound self.old)) (capacity self.old) }
        ensures newest { bound self.new ≡ (if is_ok result then (record { slot = slot; entry = entry } ∷ bound self.old) else bound self.old) }
        ensures memory { memory self.new ≡ (if is_ok result then slice_set (memory self.old) (length (bound self.old)) (record { slot = slot; entry = entry }) else memory self.old) }
        ensures capacity { capacity self.new ≡ capacity self.old }
    {
        if self.count >= self.capacity() {
            return Err(Full);
        }
        // by its index: the contract of `get_mut` does not say what the slice holds after a write
        self.bindings[self.count] = Binding { slot, entry };
        self.count += 1;
        Ok(())
    }

    /// Cuts back to the first `earlier` bindings, and leaves blanks where the newer ones were.
    pub fn cut(&mut self, earlier: usize)
        ensures oldest { bound self.new ≡ oldest earlier (bound self.old) }
        ensures blank { memory self.new ≡ blanked E.Blank.blank earlier (length (bound self.old)) (memory self.old) }
        ensures capacity { capacity self.new ≡ capacity self.old }
    {
        // not `fill`, which calls a function of the C library: most cuts take away one or two
        while self.count > earlier {
            self.count -= 1;
            self.bindings[self.count] = Binding {
                slot: 0,
                entry: E::blank(),
            };
        }
    }
}
