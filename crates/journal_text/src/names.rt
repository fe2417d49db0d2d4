// The names and numbers of a line.
ghost use Rattle.std.specs.Prelude.{◌≡◌, ◌++◌, codes, OnOk};
ghost use Rattle.unit_set.specs.Slot.{slot_text};
ghost use Rattle.journal_text.specs.Journal.{number, numbers, guest_name, slot_name, both_names};

use cc_base::Name;
use itoa::Buffer;
use std::alloc::{AllocError, Global};
use unit_set::SlotName;

/// Appends a number, with a space before it.
pub fn push_number(out: &mut Vec<u8>, n: u64) -> Result<(), AllocError>
    ensures { OnOk result (out.new.items ≡ out.old.items ++ number n) }
{
    let mut buffer = Buffer::new();
    out.extend_from_slice(b" ")?;
    out.extend_from_slice(buffer.format(n).as_bytes())
}

/// Appends numbers, each with a space before it.
pub fn push_numbers(out: &mut Vec<u8>, ns: &[u32]) -> Result<(), AllocError>
    ensures { OnOk result (out.new.items ≡ out.old.items ++ numbers ns.now) }
{
    for n in ns {
        push_number(out, u64::from(*n))?;
    }
    Ok(())
}

/// Appends the name of the guest of this number; nothing where there is no such guest.
pub fn push_guest(out: &mut Vec<u8>, guests: &[Name], guest: u32) -> Result<(), AllocError>
    ensures { OnOk result (out.new.items ≡ out.old.items ++ guest_name guests.now guest) }
{
    match guests.get(guest as usize) {
        Some(name) => out.extend_from_slice(name.items()),
        None => Ok(()),
    }
}

/// Appends the spelling of the slot of this number; nothing where there is no such slot.
pub fn push_slot(
    alloc: Global,
    out: &mut Vec<u8>,
    slots: &[SlotName],
    slot: u32,
) -> Result<(), AllocError>
    ensures { OnOk result (out.new.items ≡ out.old.items ++ slot_name slots.now slot) }
{
    match slots.get(slot as usize) {
        Some(name) => push_name(alloc, out, name),
        None => Ok(()),
    }
}

fn push_name(alloc: Global, out: &mut Vec<u8>, slot: &SlotName) -> Result<(), AllocError>
    ensures { OnOk result (out.new.items ≡ out.old.items ++ slot_text slot.now) }
{
    let text = slot.text(alloc)?;
    out.extend_from_slice(text.items())
}

/// Appends a guest and a slot.
pub fn push_both(
    alloc: Global,
    out: &mut Vec<u8>,
    guests: &[Name],
    guest: u32,
    slots: &[SlotName],
    slot: u32,
) -> Result<(), AllocError>
    ensures { OnOk result (out.new.items ≡ out.old.items ++ both_names guests.now guest slots.now slot) }
{
    push_guest(out, guests, guest)?;
    out.extend_from_slice(b" ")?;
    push_slot(alloc, out, slots, slot)
}
