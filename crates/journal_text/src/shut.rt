// The slots that are shut.
ghost use Rattle.std.specs.Prelude.{◌≡◌, ◌<◌, ◌≤◌, ◌++◌, length, codes, slice_get, OnOk, OnErr, IfSome};
ghost use Rattle.std.specs.List.{list_any};
ghost use Rattle.journal_text.specs.Journal.{slot_name};
ghost use Rattle.journal_text.specs.Shut.{is_unread, broke, wore_out, is_shelf, is_worn, shelf_failed, is_worn_out, shut_line, shut_lines, first_fault};

use crate::names::push_slot;
use publish::{Loaded, Pub, PubFault};
use std::alloc::{AllocError, Global};
use unit_set::SlotName;

/// Appends a line for each slot that is shut, in order: `shut SLOT shelf` where its load or a publication of it met a
/// fault of the shelf, else `shut SLOT worn` where a publication found its seq at the end. `loads` has the outcome of each
/// slot's load, in order. Where memory runs out nothing is appended.
pub fn push_shut(
    alloc: Global,
    out: &mut Vec<u8>,
    slots: &[SlotName],
    loads: &[Loaded],
    served: &[Pub],
) -> Result<(), AllocError>
    requires { length slots.now ≤ 4294967295 }
    ensures ok { OnOk result (out.new.items ≡ out.old.items ++ shut_lines slots.now loads.now served.now) }
    ensures err { OnErr result (out.new.items ≡ out.old.items) }
{
    let mut lines = Vec::new(alloc);
    for slot in 0..slots.len() as u32 {
        push_line(alloc, &mut lines, slots, loads, served, slot)?;
    }
    out.extend_from_slice(&lines)
}

// Appends the line of a slot, where it is shut.
#[tactic(auto, unfolding(crate::specs::Shut::shut_line))]
fn push_line(
    alloc: Global,
    out: &mut Vec<u8>,
    slots: &[SlotName],
    loads: &[Loaded],
    served: &[Pub],
    slot: u32,
) -> Result<(), AllocError>
    ensures { OnOk result (out.new.items ≡ out.old.items ++ shut_line slots.now loads.now served.now slot) }
{
    if shelf_failed(loads, served, slot) {
        push_shut_by(alloc, out, slots, slot, b" shelf\n")
    } else if is_worn_out(served, slot) {
        push_shut_by(alloc, out, slots, slot, b" worn\n")
    } else {
        Ok(())
    }
}

fn push_shut_by(
    alloc: Global,
    out: &mut Vec<u8>,
    slots: &[SlotName],
    slot: u32,
    cause: &[u8],
) -> Result<(), AllocError>
    ensures { OnOk result (out.new.items ≡ out.old.items ++ (codes "shut " ++ slot_name slots.now slot ++ cause.now)) }
{
    out.extend_from_slice(b"shut ")?;
    push_slot(alloc, out, slots, slot)?;
    out.extend_from_slice(cause)
}

/// The first slot whose load, or a publication of which, met a fault of the shelf; none where there is no such slot. There
/// are as many slots as `loads` has outcomes.
pub fn first_fault(loads: &[Loaded], served: &[Pub]) -> Option<u32>
    requires { length loads.now ≤ 4294967295 }
    ensures first { result ≡ first_fault loads.now served.now }
    ensures within { IfSome result (λ slot. slot < length loads.now) }
{
    for slot in 0..loads.len() as u32 {
        if shelf_failed(loads, served, slot) {
            return Some(slot);
        }
    }
    None
}

// Whether the load of the slot, or a publication of it, met a fault of the shelf.
fn shelf_failed(loads: &[Loaded], served: &[Pub], slot: u32) -> bool
    ensures { result ≡ shelf_failed loads.now served.now slot }
{
    is_unread(loads, slot) || any_broke(served, slot)
}

fn is_unread(loads: &[Loaded], slot: u32) -> bool
    ensures { result ≡ is_unread (slice_get loads.now slot) }
{
    match loads.get(slot as usize) {
        Some(Loaded::Unread) => true,
        Some(Loaded::Held { area: _, seq: _ }) => false,
        Some(Loaded::Nothing { a: _, b: _ }) => false,
        None => false,
    }
}

fn any_broke(served: &[Pub], slot: u32) -> bool
    ensures { result ≡ list_any (broke slot) served.now }
{
    for p in served {
        if p.slot == slot && is_shelf(p.fault) {
            return true;
        }
    }
    false
}

// Whether a publication of the slot found its seq at the end.
fn is_worn_out(served: &[Pub], slot: u32) -> bool
    ensures { result ≡ is_worn_out served.now slot }
{
    for p in served {
        if p.slot == slot && is_worn(p.fault) {
            return true;
        }
    }
    false
}

fn is_shelf(fault: Option<PubFault>) -> bool
    ensures { result ≡ is_shelf fault }
{
    match fault {
        Some(PubFault::Shelf) => true,
        Some(PubFault::WornOut) => false,
        None => false,
    }
}

fn is_worn(fault: Option<PubFault>) -> bool
    ensures { result ≡ is_worn fault }
{
    match fault {
        Some(PubFault::WornOut) => true,
        Some(PubFault::Shelf) => false,
        None => false,
    }
}
