ghost use Rattle.std.specs.Prelude.{◌≡◌, ◌&&◌, not, OnOk, OnErr, IfOk};
ghost use Rattle.std.specs.Arc.{arc_value};
ghost use Rattle.std.specs.FinSet as set;
ghost use Rattle.std.specs.Ordering.{nat_cmp};
ghost use Rattle.block_ledger.specs.Ledger.{is_candidate};
ghost use Rattle.merge_pass.specs.Segments.{segment_for, with_marks};

use crate::words::{is_within, spells, view_of};
use cc_base::Image;
use fragment::Fragment;
use std::alloc::{AllocError, Global};
use std::collections::BTreeSet;
use std::marker::Model;
use std::sync::Arc;
use unit_set::Unit;

/// A segment whose unit is attached: the unit, and where blocks were offered to it.
#[derive(Drop)]
pub struct Attached {
    unit: Arc<Unit>,
    offered: BTreeSet<u32>,
}

impl Model for Attached {
    ghost use Rattle.std.specs.Arc.{arc_value};
    ghost use Rattle.block_ledger.specs.Ledger.{Segment};
    ghost use Rattle.merge_pass.specs.Segments.{segment_with, segment_code};

    ghost Value = { Segment };

    ghost coded = { segment_code };

    ghost view = { λ s. segment_with (arc_value s.unit) s.offered.keys };
}

impl Attached {
    /// Nothing was offered to it yet. The unit is shared, not copied.
    pub fn of(alloc: Global, unit: &Arc<Unit>) -> Result<Attached, AllocError>
        ensures { IfOk result (λ s. s ≡ segment_for (arc_value unit.now)) }
    {
        Ok(Attached {
            unit: Arc::try_clone(unit)?,
            offered: BTreeSet::new(alloc),
        })
    }

    /// Its image. The bytes are shared, not copied.
    pub fn image(&self) -> Result<Image, AllocError>
        ensures { IfOk result (λ i. i ≡ self.now.image) }
    {
        share_image(self.unit.image())
    }

    /// How many blocks were offered to it.
    pub fn offered_count(&self) -> usize
        ensures { result ≡ set.len self.now.offered }
    {
        self.offered.len()
    }

    /// Whether a block of the process's own is one that the unit could have: it begins in the segment, its words are the
    /// image's, and its address is neither in the unit nor was it offered.
    pub fn wants(&self, block: &Fragment) -> bool
        ensures { result ≡ is_candidate self.now (block.now.address, block.now) }
    {
        let addr = block.addr();
        let image = view_of(self.unit.image());
        is_within(image, addr) && spells(image, addr, block.words()) && self.is_new(addr)
    }

    // Whether the address is neither in the unit nor was it offered.
    fn is_new(&self, addr: u32) -> bool
        ensures { result ≡ (not (set.contains self.now.addresses addr) && not (set.contains self.now.offered addr)) }
    {
        self.unit.find(addr).is_none() && !self.offered.contains(&addr)
    }

    /// Blocks at these addresses were offered to it. The only error is want of memory.
    pub fn mark(&mut self, addrs: &[u32]) -> Result<(), AllocError>
        ensures ok { OnOk result (self.new ≡ with_marks self.old addrs.now) }
        ensures err { OnErr result (self.new ≡ self.old) }
    {
        let mut more = copied(&self.offered)?;
        mark_all(&mut more, addrs)?;
        self.offered = more;
        Ok(())
    }
}

// The same image.
fn share_image(image: &Image) -> Result<Image, AllocError>
    ensures { IfOk result (λ i. i ≡ image.now) }
{
    Ok(Image {
        start: image.start,
        bytes: Arc::try_clone(&image.bytes)?,
    })
}

// The same addresses.
fn copied(set: &BTreeSet<u32>) -> Result<BTreeSet<u32>, AllocError>
    ensures { IfOk result (λ s. s.keys ≡ set.now.keys) }
{
    set.clone()
}

// The addresses are in the set from now on.
fn mark_all(marks: &mut BTreeSet<u32>, addrs: &[u32]) -> Result<(), AllocError>
    ensures { OnOk result (set.from_list marks.new.keys ≡ set.union (set.from_list {R = nat_cmp} marks.old.keys) (set.from_list addrs.now)) }
{
    for i in 0..addrs.len() {
        marks.insert(addrs[i])?;
    }
    Ok(())
}
