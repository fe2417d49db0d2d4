//! What a process keeps of its blocks, as a trait: each call is one thing that happens to the ledger.
//!
//! It stands on `block_ledger`. A process goes over any [`Book`]; the tables that meet it are a crate beside it.
#![tactic(auto)]

ghost use Rattle.std.specs.Prelude.{◌≡◌, ◌<◌, ℕ, List, true, false, OnOk, OnErr, IfOk, IfSome, option_map, is_some, map, Some};
ghost use Rattle.std.specs.Arc.{arc_value};
ghost use Rattle.std.specs.FinMap as fin;
ghost use Rattle.cc_base.specs.Image.{Code};
ghost use Rattle.fragment.specs.Parts.{Parts};
ghost use Rattle.block_ledger.specs.Ledger.{Ledger, Segment, view, is_live, begun, left_by, written, flushed, wants_room, attached, candidates, offered, unmapped};
ghost use Rattle.block_ledger.specs.Traced.{range_of};
ghost use Rattle.block_book.specs.Clauses.{IsShort, IsClear, blocks_of, region_of};

use cc_base::{Image, Span};
use fragment::Fragment;
use std::alloc::{AllocError, Global};
use std::sync::Arc;
use unit_set::Unit;

/// How often a block began, and one of an attached unit did; how many blocks were built; and how often a link led to the
/// block that began.
#[derive(Clone, Copy, Debug, PartialEq, Eq)]
pub struct Counts {
    pub blocks: u64,
    pub reused: u64,
    pub built: u64,
    pub linked: u64,
}

/// What stands ready, what is linked, and the counts.
pub trait Book {
    // What has happened so far.
    ghost ledger: { Self → Ledger };

    /// The block begun last, where it is live still. It is found without a search.
    fn current(&self) -> Option<&Fragment>
        ensures { option_map (λ f. f.now) result ≡ view (ledger self.now) (ledger self.now).block };

    /// Whether the block at an address is not live, and there is no room for it.
    fn wants_room(&self, pool: u32, addr: u32) -> bool
        ensures { result ≡ wants_room pool (ledger self.now) addr };

    /// The block at the address begins, where it is live. It takes no memory.
    fn begin(&mut self, addr: u32) -> bool
        requires { (ledger self.old).counts.blocks < 18446744073709551615 }
        ensures live { result ≡ is_live (ledger self.old) addr }
        ensures begun { result ≡ true → (f : Parts) → f.address ≡ addr → ledger self.new ≡ begun f (ledger self.old) }
        ensures same { result ≡ false → ledger self.new ≡ ledger self.old };

    /// A block begins that was built for it.
    fn begin_built(&mut self, block: Fragment) -> Result<(), AllocError>
        requires absent { is_live (ledger self.old) block.address ≡ false }
        requires short { IsShort block }
        requires few { (ledger self.old).counts.blocks < 18446744073709551615 }
        ensures ok { OnOk result (ledger self.new ≡ begun block (ledger self.old)) }
        ensures err { OnErr result (ledger self.new ≡ ledger self.old) };

    /// How the block begun last was left: by which of its exits, if the next begin may link it.
    fn leave(&mut self, exit: Option<u8>)
        requires { IfSome exit (λ e. e < 2) }
        ensures { ledger self.new ≡ left_by exit (ledger self.old) };

    /// Bytes of code were written. It takes no memory.
    fn write(&mut self, span: Span)
        ensures { ledger self.new ≡ written (range_of span) (ledger self.old) };

    /// The private blocks go. It takes no memory.
    fn flush(&mut self)
        ensures { ledger self.new ≡ flushed (ledger self.old) };

    /// The unit of the segment of this number is attached, where no live block begins in its region. Nothing is copied.
    fn attach(&mut self, number: u32, unit: &Arc<Unit>) -> Result<(), AllocError>
        requires clear { IsClear (arc_value unit.now).image (ledger self.old) }
        ensures ok { OnOk result (ledger self.new ≡ attached number (arc_value unit.now).image (blocks_of (arc_value unit.now).frags) (ledger self.old)) }
        ensures err { OnErr result (ledger self.new ≡ ledger self.old) };

    /// The numbers of the attached segments, in rising order.
    fn segments(&self, alloc: Global) -> Result<Vec<u32>, AllocError>
        ensures { IfOk result (λ numbers. numbers.items ≡ fin.keys (ledger self.now).segments) };

    /// The images of the attached segments, in the order of their numbers. Nothing is copied.
    fn images(&self, alloc: Global) -> Result<Vec<Image>, AllocError>
        ensures { IfOk result (λ images. images.items ≡ map (λ s. s.image) (fin.values (ledger self.now).segments)) };

    /// The candidates of an attached segment are offered to its unit.
    fn offer(&mut self, alloc: Global, segment: u32) -> Result<Vec<Fragment>, AllocError>
        requires { is_some (fin.get (ledger self.old).segments segment) ≡ true }
        ensures blocks { IfOk result (λ blocks. (s : Segment) → fin.get (ledger self.old).segments segment ≡ Some s → blocks.items ≡ map (λ e. e.1) (candidates s (ledger self.old))) }
        ensures ok { OnOk result (ledger self.new ≡ offered segment (ledger self.old)) }
        ensures err { OnErr result (ledger self.new ≡ ledger self.old) }
        // Each block of the process's own stands ready.
        ensures own { OnOk result ((a : ℕ) (f : Parts) → fin.get (ledger self.old).private a ≡ Some f → view (ledger self.old) a ≡ Some f) };

    /// A module goes that has its code in these regions: their blocks, and its segments. It takes no memory.
    fn unmap(&mut self, number: u32, regions: &[Span])
        requires { number < 1073741824 }
        ensures { (codes : List Code) → regions.now ≡ map region_of codes → ledger self.new ≡ unmapped number codes (ledger self.old) };

    /// What happened so far.
    fn counts(&self) -> Counts
        ensures { record { blocks = result.blocks; reused = result.reused; built = result.built; linked = result.linked } ≡ (ledger self.now).counts };
}
