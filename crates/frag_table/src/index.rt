ghost use Rattle.std.specs.Prelude.{◌≡◌, OnOk, OnErr};
ghost use Rattle.std.specs.FinMap as fin;

use std::alloc::{AllocError, Global};
use std::collections::HashMap;
use std::marker::Model;

/// Live addresses, each with its place. A look-up is one probe.
#[derive(Drop)]
pub struct Index {
    map: HashMap<u32, u32>,
}

impl Model for Index {
    ghost use Rattle.std.specs.Prelude.{ℕ};
    ghost use Rattle.std.specs.Ordering.{nat_cmp};
    ghost use Rattle.std.specs.FinMap as fin;
    ghost use Rattle.std.specs.Coded.{coded_ℕ};

    ghost Value = { fin.FinMap nat_cmp ℕ };

    ghost coded = { fin.code coded_ℕ coded_ℕ };

    ghost view = { λ a. fin.from_entries a.map.entries };
}

impl Index {
    /// No address has a place. It takes no memory.
    pub fn new(alloc: Global) -> Index
        ensures { result ≡ fin.empty }
    {
        Index {
            map: HashMap::new(alloc),
        }
    }

    /// The place of an address.
    #[inline]
    pub fn find(&self, addr: u32) -> Option<u32>
        ensures { result ≡ fin.get self.now addr }
    {
        self.map.get(&addr).copied()
    }

    /// The address has this place from now on. The only error is want of memory.
    pub fn insert(&mut self, addr: u32, place: u32) -> Result<(), AllocError>
        ensures ok { OnOk result (self.new ≡ fin.insert self.old addr place) }
        ensures err { OnErr result (self.new ≡ self.old) }
    {
        self.map.insert(addr, place)?;
        Ok(())
    }

    /// The address has none any more. It takes no memory.
    pub fn remove(&mut self, addr: u32)
        ensures { self.new ≡ fin.remove self.old addr }
    {
        let _ = self.map.remove(&addr);
    }
}
