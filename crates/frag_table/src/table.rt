ghost use Rattle.std.specs.Prelude.{◌≡◌, ◌<◌, ◌==◌, ℕ, Some, None, [], cond, length, get_or, option_map, OnOk, OnErr, IfOk};
ghost use Rattle.std.specs.FinMap as fin;

use crate::held::Held;
use crate::index::Index;
use crate::slots::Slots;
use std::alloc::{AllocError, Global};

/// The places of the live addresses, and what lies in each. That both agree is kept by who holds the table.
#[derive(Drop)]
pub struct FragTable {
    pub index: Index,
    pub slots: Slots,
}

impl FragTable {
    /// No address is live, and there is no place. It takes no memory.
    pub fn new(alloc: Global) -> FragTable
        ensures index { result.index ≡ fin.empty }
        ensures slots { result.slots ≡ [] }
    {
        FragTable {
            index: Index::new(alloc),
            slots: Slots::new(alloc),
        }
    }

    /// The place of an address.
    #[inline]
    pub fn find(&self, addr: u32) -> Option<u32>
        ensures { result ≡ fin.get self.now.index addr }
    {
        self.index.find(addr)
    }

    /// What lies in a place.
    #[inline]
    pub fn at(&self, place: u32) -> Option<&Held>
        ensures { option_map (λ h. h.now) result ≡ get_or self.now.slots place None }
    {
        self.slots.at(place)
    }

    /// A free place, below 1,073,741,824, as of `Slots`. It is the only call that makes places.
    pub fn room(&mut self) -> Result<u32, AllocError>
        ensures index { self.new.index ≡ self.old.index }
        ensures same { (q : ℕ) → get_or self.new.slots q None ≡ get_or self.old.slots q None }
        ensures within { IfOk result (λ p. (p < length self.new.slots) × (p < 1073741824)) }
        ensures free { IfOk result (λ p. get_or self.old.slots p None ≡ None) }
    {
        self.slots.room()
    }

    /// The block comes to lie in the place, which is its address's from now on. The only error is want of memory.
    pub fn take(&mut self, place: u32, held: Held) -> Result<(), AllocError>
        requires { place < length self.old.slots }
        ensures index { OnOk result (self.new.index ≡ fin.insert self.old.index held.block.address place) }
        ensures slots { OnOk result ((q : ℕ) → get_or self.new.slots q None ≡ cond (q == place) (Some held) (get_or self.old.slots q None)) }
        ensures err { OnErr result ((self.new.index ≡ self.old.index) × (self.new.slots ≡ self.old.slots)) }
    {
        self.index.insert(held.block().addr(), place)?;
        self.slots.put(place, held);
        Ok(())
    }

    /// The address has no place any more, and nothing lies in this one. It takes no memory.
    pub fn drop_at(&mut self, addr: u32, place: u32)
        ensures index { self.new.index ≡ fin.remove self.old.index addr }
        ensures slots { (q : ℕ) → get_or self.new.slots q None ≡ cond (q == place) None (get_or self.old.slots q None) }
    {
        self.index.remove(addr);
        self.slots.clear(place);
    }
}
