// A unit, as far as an attach asks for it.
ghost use Rattle.std.specs.Prelude.{◌≡◌, ◌<◌, ◌≤◌, ◌+◌, length, slice_get, Some, None, if◌then◌else◌};
ghost use Rattle.std.specs.List.{All};
ghost use Rattle.cc_base.specs.Image.{FitsSegment};
ghost use Rattle.unit_set.specs.Held.{IsFreshFor, addresses};
ghost use Rattle.unit_set.specs.Sets.{IsRising};
ghost use Rattle.unit_set.specs.Slot.{IsSlot};
ghost use Rattle.code_book.specs.Whole.{AreBlocks, has, region_of, target_in};

use cc_base::{Image, Span};
use fragment::{Exit, Fragment};
use unit_set::{Shared, SlotName, Unit};

// Its blocks.
pub(crate) fn blocks_of(unit: &Unit) -> &[Shared]
    ensures blocks { result.now ≡ unit.now.frags }
    ensures inside { AreBlocks (region_of unit.now.image) 0 unit.now.frags }
{
    tell_slot(unit.slot());
    tell_image(unit.image());
    let _ = unit.addrs();
    unit.frags()
}

// Tells what a slot keeps.
fn tell_slot(slot: &SlotName)
    ensures { IsSlot slot.now }
{
    let _max = slot.max;
}

// Tells what an image keeps.
fn tell_image(image: &Image)
    ensures { FitsSegment image.now.start image.now.bytes }
{
    let _start = image.start;
}

// The region that it is for.
pub(crate) fn region_of(unit: &Unit) -> Span
    ensures { result ≡ region_of unit.now.image }
{
    span_of(unit.image())
}

fn span_of(image: &Image) -> Span
    ensures { result ≡ region_of image.now }
{
    Span {
        start: image.start,
        len: image.bytes.items().len() as u32,
    }
}

// Where an exit of a block leads, if the unit has a block there.
pub(crate) fn target_of(unit: &Unit, block: &Fragment, exit: u8) -> Option<u32>
    ensures { result ≡ target_in unit.now.frags (slice_get block.now.exits exit) }
{
    match block.exits().get(usize::from(exit)) {
        Some(Exit::Direct(to)) => if_has(unit, *to),
        Some(Exit::Indirect) => None,
        Some(Exit::Asks(_)) => None,
        Some(Exit::Stop) => None,
        None => None,
    }
}

// The address, if it has a block there.
fn if_has(unit: &Unit, addr: u32) -> Option<u32>
    ensures { result ≡ (if has unit.now.frags addr then Some addr else None) }
{
    if unit.find(addr).is_some() {
        Some(addr)
    } else {
        None
    }
}
