// The lines of a journal.
ghost use Rattle.std.specs.Prelude.{◌≡◌, ◌++◌, ◌∷◌, [], codes, OnOk, OnErr};
ghost use Rattle.journal_text.specs.Journal.{number, numbers, guest_name, slot_name, both_names, file_text, replaced_text, merged_text, call_text, entry_names, entry_numbers, entry_line, journal_lines};

use crate::names::{push_both, push_guest, push_number, push_numbers, push_slot};
use cc_base::Name;
use registry::{Entry, Merged, Replaced};
use std::alloc::{AllocError, Global};
use unit_set::SlotName;

/// Appends `journal LENGTH`, and a line for each entry of a journal: what was called, the names of its guest and its slot
/// where it has these, its numbers, and the reply. A guest's name is by its number in `guests`, and a slot's spelling by
/// its number in `slots`; a number that is past the end stands for no name. Where memory runs out nothing is appended.
pub fn push_journal(
    alloc: Global,
    out: &mut Vec<u8>,
    guests: &[Name],
    slots: &[SlotName],
    journal: &[Entry],
) -> Result<(), AllocError>
    ensures ok { OnOk result (out.new.items ≡ out.old.items ++ journal_lines guests.now slots.now journal.now) }
    ensures err { OnErr result (out.new.items ≡ out.old.items) }
{
    let mut lines = Vec::from_slice(alloc, b"journal")?;
    push_number(&mut lines, journal.len() as u64)?;
    lines.extend_from_slice(b"\n")?;
    for entry in journal {
        push_line(alloc, &mut lines, guests, slots, entry)?;
    }
    out.extend_from_slice(&lines)
}

fn push_line(
    alloc: Global,
    out: &mut Vec<u8>,
    guests: &[Name],
    slots: &[SlotName],
    entry: &Entry,
) -> Result<(), AllocError>
    ensures { OnOk result (out.new.items ≡ out.old.items ++ entry_line guests.now slots.now entry.now) }
{
    out.extend_from_slice(call_text(entry))?;
    push_names(alloc, out, guests, slots, entry)?;
    push_entry_numbers(out, entry)?;
    out.extend_from_slice(b"\n")
}

// Appends the names of its guest and its slot.
fn push_names(
    alloc: Global,
    out: &mut Vec<u8>,
    guests: &[Name],
    slots: &[SlotName],
    entry: &Entry,
) -> Result<(), AllocError>
    ensures { OnOk result (out.new.items ≡ out.old.items ++ entry_names guests.now slots.now entry.now) }
{
    match entry {
        Entry::Map { guest, .. } => push_guest(out, guests, *guest),
        Entry::Replace { guest, .. } => push_guest(out, guests, *guest),
        Entry::Attach { guest, slot, .. } => push_both(alloc, out, guests, *guest, slots, *slot),
        Entry::Merge { guest, slot, .. } => push_both(alloc, out, guests, *guest, slots, *slot),
        Entry::Detach { guest, slot, .. } => push_both(alloc, out, guests, *guest, slots, *slot),
        Entry::Due { slot, .. } => push_slot(alloc, out, slots, *slot),
        Entry::Acked { slot, .. } => push_slot(alloc, out, slots, *slot),
        Entry::Failed { slot } => push_slot(alloc, out, slots, *slot),
        Entry::Finish => Ok(()),
    }
}

fn call_text(entry: &Entry) -> &'static [u8]
    ensures text { result.now ≡ call_text entry.now }
{
    match entry {
        Entry::Map { .. } => b"map ",
        Entry::Replace { .. } => b"replace ",
        Entry::Attach { .. } => b"attach ",
        Entry::Merge { .. } => b"merge ",
        Entry::Detach { .. } => b"detach ",
        Entry::Due { .. } => b"due ",
        Entry::Acked { .. } => b"acked ",
        Entry::Failed { .. } => b"failed ",
        Entry::Finish => b"finish",
    }
}

// Appends its numbers, and the reply.
fn push_entry_numbers(out: &mut Vec<u8>, entry: &Entry) -> Result<(), AllocError>
    ensures { OnOk result (out.new.items ≡ out.old.items ++ entry_numbers entry.now) }
{
    match entry {
        Entry::Map { module, file, .. } => push_map(out, *module, *file),
        Entry::Replace {
            module,
            file,
            reply,
            ..
        } => push_replace(out, *module, *file, *reply),
        Entry::Attach {
            file,
            age,
            version,
            ..
        } => push_numbers(out, &[*file, *age, *version]),
        Entry::Merge {
            age,
            addrs,
            reply,
            ..
        } => push_merge(out, *age, addrs.items().len(), *reply),
        Entry::Detach { age, .. } => push_numbers(out, &[*age]),
        Entry::Due { age, version, .. } => push_numbers(out, &[*age, *version]),
        Entry::Acked { age, version, .. } => push_numbers(out, &[*age, *version]),
        Entry::Failed { .. } => Ok(()),
        Entry::Finish => Ok(()),
    }
}

fn push_map(out: &mut Vec<u8>, module: u32, file: Option<u32>) -> Result<(), AllocError>
    ensures { OnOk result (out.new.items ≡ out.old.items ++ number «module» ++ file_text file) }
{
    push_numbers(out, &[module])?;
    push_file(out, file)
}

fn push_replace(
    out: &mut Vec<u8>,
    module: u32,
    file: u32,
    reply: Replaced,
) -> Result<(), AllocError>
    ensures { OnOk result (out.new.items ≡ out.old.items ++ numbers («module» ∷ file ∷ []) ++ replaced_text reply) }
{
    push_numbers(out, &[module, file])?;
    out.extend_from_slice(replaced_text(reply))
}

// Of the addresses of a merge their number is told.
fn push_merge(out: &mut Vec<u8>, age: u32, count: usize, reply: Merged) -> Result<(), AllocError>
    ensures { OnOk result (out.new.items ≡ out.old.items ++ numbers (age ∷ count ∷ []) ++ merged_text reply) }
{
    push_numbers(out, &[age])?;
    push_number(out, count as u64)?;
    push_merged(out, reply)
}

fn push_file(out: &mut Vec<u8>, file: Option<u32>) -> Result<(), AllocError>
    ensures { OnOk result (out.new.items ≡ out.old.items ++ file_text file) }
{
    match file {
        None => out.extend_from_slice(b" none"),
        Some(file) => push_number(out, u64::from(file)),
    }
}

fn replaced_text(reply: Replaced) -> &'static [u8]
    ensures text { result.now ≡ replaced_text reply }
{
    match reply {
        Replaced::Yes => b" yes",
        Replaced::NoSuchModule => b" no-module",
        Replaced::NoSuchFile => b" no-file",
    }
}

fn push_merged(out: &mut Vec<u8>, reply: Merged) -> Result<(), AllocError>
    ensures { OnOk result (out.new.items ≡ out.old.items ++ merged_text reply) }
{
    match reply {
        Merged::Version(version) => {
            out.extend_from_slice(b" version")?;
            push_number(out, u64::from(version))
        }
        Merged::UnitFull(count) => {
            out.extend_from_slice(b" full")?;
            push_number(out, u64::from(count))
        }
    }
}
