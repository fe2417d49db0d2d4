// A unit is attached: its blocks come to lie in places, and its exits lead on.
ghost use Rattle.std.specs.Prelude.{◌≡◌, ◌<◌, ◌≤◌, ◌+◌, ◌*◌, ℕ, Some, None, true, false, not, length, get_or, OnOk, OnErr, IfOk, IfSome};
ghost use Rattle.std.specs.FinMap as fin;
ghost use Rattle.std.specs.Arc.{arc_value};
ghost use Rattle.block_ledger.specs.Ledger.{is_live, exit_at, attached};
ghost use Rattle.code_book.specs.Book.{IsShort, outside};
ghost use Rattle.code_book.specs.Whole.{AreBlocks, IsClear, IsClearOf, blocks_of, has, region_of, led_to, with_one, with_blocks, with_exits, with_links};
ghost use Rattle.merge_pass.specs.Segments.{segment_for};
ghost use Rattle.code_book.specs.View.{ledger_of};

use crate::code_book::CodeBook;
use crate::exits::link;
use crate::settle::here_now;
use crate::units;
use cc_base::Span;
use frag_table::Held;
use fragment::Fragment;
use merge_pass::Attached;
use std::alloc::AllocError;
use std::sync::Arc;
use unit_set::{Shared, Unit};

impl CodeBook {
    // A block that a unit shares comes to lie in a free place.
    fn hold(&mut self, place: u32, block: Shared) -> Result<(), AllocError>
        requires absent { is_live (ledger_of self.old) block.address ≡ false }
        requires short { IsShort block }
        requires free { get_or self.old.places.slots place None ≡ None }
        requires within { place < length self.old.places.slots }
        requires wide { place < self.old.links.places }
        ensures ok { OnOk result (ledger_of self.new ≡ with_one block (ledger_of self.old)) }
        ensures err { OnErr result (ledger_of self.new ≡ ledger_of self.old) }
    {
        let addr = block.fragment().addr();
        let len = 4 * block.fragment().words().len() as u32;
        self.covers.cover(addr, len)?;
        if let Err(e) = self.places.take(place, Held::of(block)) {
            self.covers.uncover(addr);
            return Err(e);
        }
        self.here = here_now(self.here, self.block == addr, place);
        Ok(())
    }

    // A block of a unit comes to lie in a place, shared and not copied.
    fn place_one(&mut self, block: &Shared) -> Result<(), AllocError>
        requires absent { is_live (ledger_of self.old) block.now.address ≡ false }
        requires short { IsShort block.now }
        ensures ok { OnOk result (ledger_of self.new ≡ with_one block.now (ledger_of self.old)) }
        ensures err { OnErr result (ledger_of self.new ≡ ledger_of self.old) }
    {
        let shared = block.share()?;
        let place = self.reserve()?;
        self.hold(place, shared)
    }

    // The blocks of a unit come to lie in places, all or none of them.
    fn place_all(&mut self, blocks: &[Shared], region: Span) -> Result<(), AllocError>
        requires inside { AreBlocks region 0 blocks.now }
        requires clear { IsClearOf region (ledger_of self.old) }
        ensures ok { OnOk result (ledger_of self.new ≡ with_blocks blocks.now (ledger_of self.old)) }
        ensures err { OnErr result (ledger_of self.new ≡ ledger_of self.old) }
    {
        let mut left = blocks.len();
        while left > 0 {
            if let Err(e) = self.place_one(&blocks[left - 1]) {
                self.withdraw_region(region);
                return Err(e);
            }
            left -= 1;
        }
        Ok(())
    }

    // The exit of a live block leads to another, if it leads anywhere.
    fn lead(&mut self, addr: u32, exit: u8, to: Option<u32>)
        requires exit { exit < 2 }
        requires from { is_live (ledger_of self.old) addr ≡ true }
        requires onto { IfSome to (λ a. is_live (ledger_of self.old) a ≡ true) }
        ensures { ledger_of self.new ≡ led_to (exit_at addr exit) to (ledger_of self.old) }
    {
        let Some(to) = to else {
            return;
        };
        let Some(from) = self.places.find(addr) else {
            return;
        };
        let Some(place) = self.places.find(to) else {
            return;
        };
        link(&mut self.links, from, exit, place);
    }

    // The exits of one block lead on, where the unit has their targets.
    fn lead_block(&mut self, unit: &Unit, block: &Fragment)
        requires inside { AreBlocks (region_of unit.now.image) 0 unit.now.frags }
        requires few { length block.now.exits ≤ 2 }
        requires from { is_live (ledger_of self.old) block.now.address ≡ true }
        requires live { (a : ℕ) → has unit.now.frags a ≡ true → is_live (ledger_of self.old) a ≡ true }
        ensures { ledger_of self.new ≡ with_exits unit.now.frags block.now (ledger_of self.old) }
    {
        self.lead(block.addr(), 1, units::target_of(unit, block, 1));
        self.lead(block.addr(), 0, units::target_of(unit, block, 0));
    }

    // The exits of the unit's blocks lead on, where the unit has their targets. It takes no memory.
    fn lead_all(&mut self, unit: &Unit)
        requires live { (a : ℕ) → has unit.now.frags a ≡ true → is_live (ledger_of self.old) a ≡ true }
        ensures { ledger_of self.new ≡ with_links unit.now.frags unit.now.frags (ledger_of self.old) }
    {
        let blocks = units::blocks_of(unit);
        let mut left = blocks.len();
        while left > 0 {
            self.lead_block(unit, blocks[left - 1].fragment());
            left -= 1;
        }
    }

    // The same, with its segment.
    fn attach_as(&mut self, number: u32, unit: &Unit, segment: Attached) -> Result<(), AllocError>
        requires clear { IsClear unit.now.image (ledger_of self.old) }
        requires segment { segment ≡ segment_for unit.now }
        ensures ok { OnOk result (ledger_of self.new ≡ attached number unit.now.image (blocks_of unit.now.frags) (ledger_of self.old)) }
        ensures err { OnErr result (ledger_of self.new ≡ ledger_of self.old) }
    {
        let region = units::region_of(unit);
        self.place_all(units::blocks_of(unit), region)?;
        if let Err(e) = self.segments.insert(number, segment) {
            self.withdraw_region(region);
            return Err(e);
        }
        self.lead_all(unit);
        Ok(())
    }

    /// The unit of segment `number` is attached: its blocks stand ready, and lead to one another. Nothing is copied.
    pub fn attach_unit(&mut self, number: u32, unit: &Arc<Unit>) -> Result<(), AllocError>
        requires clear { IsClear (arc_value unit.now).image (ledger_of self.old) }
        ensures ok { OnOk result (ledger_of self.new ≡ attached number (arc_value unit.now).image (blocks_of (arc_value unit.now).frags) (ledger_of self.old)) }
        ensures err { OnErr result (ledger_of self.new ≡ ledger_of self.old) }
    {
        let segment = Attached::of(self.alloc, unit)?;
        self.attach_as(number, unit, segment)
    }
}
