ghost use Rattle.std.specs.Prelude.{◌≡◌, ◌<◌, ◌/◌, ◌==◌, not, option_map, map, IfOk, OnOk, OnErr};
ghost use Rattle.std.specs.FinMap as fin;
ghost use Rattle.std.specs.BTreeMap.{keys, values};
ghost use Rattle.merge_pass.specs.Segments.{marked};

use crate::attached::Attached;
use cc_base::Image;
use std::alloc::{AllocError, Global};
use std::collections::BTreeMap;
use std::marker::Model;

/// The attached segments, by number.
#[derive(Drop)]
pub struct Segments {
    map: BTreeMap<u32, Attached>,
}

impl Model for Segments {
    ghost use Rattle.std.specs.Ordering.{nat_cmp};
    ghost use Rattle.std.specs.FinMap as fin;
    ghost use Rattle.std.specs.Coded.{coded_ℕ};
    ghost use Rattle.block_ledger.specs.Ledger.{Segment};
    ghost use Rattle.merge_pass.specs.Segments.{segment_code};

    ghost Value = { fin.FinMap nat_cmp Segment };

    ghost coded = { fin.code coded_ℕ segment_code };

    ghost view = { λ a. fin.from_entries a.map.entries };
}

impl Segments {
    /// None is attached. It takes no memory.
    pub fn new(alloc: Global) -> Segments
        ensures { result ≡ fin.empty }
    {
        Segments {
            map: BTreeMap::new(alloc),
        }
    }

    /// The segment of this number.
    pub fn get(&self, number: u32) -> Option<&Attached>
        ensures { option_map (λ s. s.now) result ≡ fin.get self.now number }
    {
        self.map.get(&number)
    }

    /// Their numbers, rising.
    pub fn numbers(&self, alloc: Global) -> Result<Vec<u32>, AllocError>
        ensures { IfOk result (λ v. v.items ≡ fin.keys self.now) }
    {
        let _ = self.map.len();
        numbers_in(alloc, &self.map)
    }

    /// Their images, in the order of the numbers. The bytes are shared, not copied.
    pub fn images(&self, alloc: Global) -> Result<Vec<Image>, AllocError>
        ensures { IfOk result (λ v. v.items ≡ map (λ s. s.image) (fin.values self.now)) }
    {
        let _ = self.map.len();
        images_in(alloc, &self.map)
    }

    /// The segment of this number is attached. The only error is want of memory.
    pub fn insert(&mut self, number: u32, segment: Attached) -> Result<(), AllocError>
        ensures ok { OnOk result (self.new ≡ fin.insert self.old number segment) }
        ensures err { OnErr result (self.new ≡ self.old) }
    {
        self.map.insert(number, segment)?;
        Ok(())
    }

    /// The segment of this number is not attached any more. It takes no memory.
    pub fn remove(&mut self, number: u32)
        ensures { self.new ≡ fin.remove self.old number }
    {
        let _ = self.map.remove(&number);
    }

    /// The segments of a module, four at most, are not attached any more. It takes no memory.
    pub fn remove_module(&mut self, number: u32)
        requires { number < 1073741824 }
        ensures { self.new ≡ fin.retain_keys self.old (λ i. not (i / 4 == number)) }
    {
        self.remove(4 * number);
        self.remove(4 * number + 1);
        self.remove(4 * number + 2);
        self.remove(4 * number + 3);
    }

    /// Blocks at these addresses were offered to the segment of this number. The only error is want of memory.
    pub fn mark(&mut self, number: u32, addrs: &[u32]) -> Result<(), AllocError>
        ensures ok { OnOk result (self.new ≡ marked number addrs.now (fin.get self.old number) self.old) }
        ensures err { OnErr result (self.new ≡ self.old) }
    {
        match self.map.get_mut(&number) {
            Some(segment) => segment.mark(addrs),
            None => Ok(()),
        }
    }
}

// The keys of a map.
fn numbers_in(alloc: Global, map: &BTreeMap<u32, Attached>) -> Result<Vec<u32>, AllocError>
    ensures { IfOk result (λ v. v.items ≡ keys map.now) }
{
    let mut numbers = Vec::new(alloc);
    for number in map.keys() {
        numbers.push(*number)?;
    }
    Ok(numbers)
}

// The images of a map's segments.
fn images_in(alloc: Global, segments: &BTreeMap<u32, Attached>) -> Result<Vec<Image>, AllocError>
    ensures { IfOk result (λ v. v.items ≡ map (λ s. s.image) (values segments.now)) }
{
    let mut images = Vec::new(alloc);
    for segment in segments.values() {
        images.push(segment.image()?)?;
    }
    Ok(images)
}
