// The two areas of a slot are read.
ghost use Rattle.std.specs.Prelude.{◌≡◌, ◌≤◌, ℕ, List, Some, None, ◌+◌, length, Err, IfOk, OnOk, OnErr};
ghost use Rattle.shelf_model.specs.Shelf.{Rests, TellsSame, WhereTold, Leaves};
ghost use Rattle.unit_set.specs.Slot.{slot_text};
ghost use Rattle.unit_format.specs.declared.header.Version.{Version};
ghost use Rattle.unit_format.specs.Text.{IsRaw};
ghost use Rattle.publish.specs.Area.{seq_in, text_len, text_in, which, door_of, seq_of, unit_of};
ghost use Rattle.publish.specs.Verdict.{IsOpen};
ghost use Rattle.publish.specs.Crash.{Fits};
ghost use Rattle.publish.specs.Load.{FindsAll, HasLoadCause};
ghost use Rattle.publish.specs.Looking.{verdict_in, edition_in, IsRawReading, IsTextReading, IsReading, Sees, IsFoundOf};

use crate::area::{Door, Reading, Standing, Verdict, is_slot};
use shelf_model::{Area, Shelf, ShelfErr};
use std::alloc::{AllocError, Global};
use thiserror::Error;
use unit_check::{AdmitErr, admit};
use unit_format::{TextErr, read_unit};
use unit_set::{RawUnit, SlotName, Unit};

const LIMIT: u32 = 4_194_304;

/// Why a slot was not loaded.
#[derive(Clone, Copy, Debug, PartialEq, Eq, Error)]
pub enum LoadErr {
    /// The shelf failed.
    #[error("unread")]
    Unread,
    /// The host has no memory left.
    #[error("memory")]
    Memory,
}

impl From<AllocError> for LoadErr {
    ghost use Rattle.std.specs.Prelude.{◌≡◌};
    ghost use Rattle.publish.specs.declared.loading.LoadErr.TheVariants.{Memory};

    ghost from_gives = { λ _ e. e ≡ Memory };

    fn from(_: AllocError) -> Self {
        LoadErr::Memory
    }
}

/// What a load found.
#[derive(Drop)]
pub struct Found {
    /// The unit that is held.
    pub unit: Option<Unit>,
    pub a: Verdict,
    pub b: Verdict,
    pub standing: Standing,
}

// An area that was looked at.
#[derive(Drop)]
pub struct Looked {
    reading: Reading,
    door: Door,
}

// How the gate of these bytes stands.
fn door(bytes: &[u8]) -> Door
    ensures { result ≡ door_of bytes.now }
{
    match bytes {
        [] => Door::Absent,
        [0xa5, ..] => Door::Opened,
        [_, ..] => Door::Closed,
    }
}

fn seq_field(bytes: &[u8]) -> u64
    requires { 13 ≤ length bytes.now }
    ensures { result ≡ seq_in bytes.now }
{
    let mut field = [0u8; 8];
    field.copy_from_slice(&bytes[1..9]);
    u64::from_le_bytes(field)
}

fn len_field(bytes: &[u8]) -> u32
    requires { 13 ≤ length bytes.now }
    ensures { result ≡ text_len bytes.now }
{
    let mut field = [0u8; 4];
    field.copy_from_slice(&bytes[9..13]);
    u32::from_le_bytes(field)
}

// The text behind the fields.
fn text_part(bytes: &[u8], n: usize) -> &[u8]
    requires whole { 13 + n ≤ length bytes.now }
    requires len { n ≡ text_len bytes.now }
    ensures { result.now ≡ text_in bytes.now }
{
    &bytes[13..13 + n]
}

// What a unit that was read is for this slot.
fn judge(alloc: Global, slot: &SlotName, seq: u64, raw: RawUnit) -> Result<Reading, LoadErr>
    requires { (v : Version) × IsRaw v raw }
    ensures judged { IfOk result (IsRawReading slot.now seq raw) }
    ensures memory { OnErr result (result ≡ Err LoadErr.Memory) }
{
    let refused = match admit(alloc, raw, slot) {
        Ok(unit) => return Ok(Reading::Taken { seq, unit }),
        Err(AdmitErr::Foreign) => Verdict::Foreign,
        Err(AdmitErr::NotFresh(addr)) => Verdict::NotFresh(addr),
        Err(AdmitErr::BadLink(addr, exit)) => Verdict::BadLink(addr, exit),
        Err(AdmitErr::Memory) => return Err(LoadErr::Memory),
    };
    Ok(Reading::Refused(refused))
}

// What a text is for this slot.
fn read_text(alloc: Global, slot: &SlotName, seq: u64, text: &[u8]) -> Result<Reading, LoadErr>
    ensures judged { IfOk result (IsTextReading slot.now seq text.now) }
    ensures memory { OnErr result (result ≡ Err LoadErr.Memory) }
{
    is_slot(slot);
    match read_unit(alloc, text) {
        Ok(raw) => judge(alloc, slot, seq, raw),
        Err(TextErr::Memory) => Err(LoadErr::Memory),
        Err(e) => Ok(Reading::Refused(Verdict::Text(e))),
    }
}

// What bytes behind an open gate are for this slot.
fn read_open(alloc: Global, slot: &SlotName, bytes: &[u8]) -> Result<Reading, LoadErr>
    requires { IsOpen bytes.now }
    ensures reading { IfOk result (IsReading slot.now bytes.now) }
    ensures memory { OnErr result (result ≡ Err LoadErr.Memory) }
{
    if bytes.len() < 13 {
        return Ok(Reading::Refused(Verdict::Text(TextErr::Short)));
    }
    let len = len_field(bytes) as usize;
    if bytes.len() < 13 + len {
        return Ok(Reading::Refused(Verdict::Text(TextErr::Short)));
    }
    read_text(alloc, slot, seq_field(bytes), text_part(bytes, len))
}

// What these bytes are for this slot.
fn read_area(alloc: Global, slot: &SlotName, bytes: &[u8]) -> Result<Reading, LoadErr>
    requires { length bytes.now ≤ 4194304 }
    ensures reading { IfOk result (IsReading slot.now bytes.now) }
    ensures memory { OnErr result (result ≡ Err LoadErr.Memory) }
{
    match door(bytes) {
        Door::Absent => Ok(Reading::Refused(Verdict::Empty)),
        Door::Closed => Ok(Reading::Refused(Verdict::Closed)),
        Door::Opened => read_open(alloc, slot, bytes),
    }
}

// An area is synced.
fn synced<H: Shelf>(shelf: &mut H, name: &[u8], area: Area) -> Result<(), LoadErr>
    ensures told { TellsSame (H.told shelf.old) (H.told shelf.new) }
    ensures time { Rests (H.moment shelf.old) (H.moment shelf.new) (H.images shelf.old) (H.images shelf.new) }
    ensures settled { OnOk result (WhereTold (H.told shelf.new name.now area) (Leaves (H.images shelf.new) (H.moment shelf.new) name.now area)) }
    ensures cause { HasLoadCause (H.faults shelf.old) (H.faults shelf.new) name.now result }
{
    match shelf.sync(name, area) {
        Ok(()) => Ok(()),
        Err(ShelfErr::Memory) => Err(LoadErr::Memory),
        Err(ShelfErr::Failed) => Err(LoadErr::Unread),
        Err(ShelfErr::TooLong) => Err(LoadErr::Unread),
    }
}

// An area is read.
fn look<H: Shelf>(
    alloc: Global,
    shelf: &mut H,
    slot: &SlotName,
    name: &[u8],
    area: Area,
) -> Result<Looked, LoadErr>
    requires { name.now ≡ slot_text slot.now }
    ensures told { TellsSame (H.told shelf.old) (H.told shelf.new) }
    ensures time { Rests (H.moment shelf.old) (H.moment shelf.new) (H.images shelf.old) (H.images shelf.new) }
    ensures seen { IfOk result (Sees (H.told shelf.old) slot.now area) }
    ensures cause { HasLoadCause (H.faults shelf.old) (H.faults shelf.new) name.now result }
{
    match shelf.read(name, area, LIMIT) {
        Ok(bytes) => Ok(Looked {
            door: door(&bytes),
            reading: read_area(alloc, slot, &bytes)?,
        }),
        Err(ShelfErr::TooLong) => Ok(Looked {
            door: Door::Opened,
            reading: Reading::Refused(Verdict::TooLong),
        }),
        Err(ShelfErr::Memory) => Err(LoadErr::Memory),
        Err(ShelfErr::Failed) => Err(LoadErr::Unread),
    }
}

fn verdict_of(reading: &Reading) -> Verdict
    ensures { result ≡ verdict_in reading.now }
{
    match reading {
        Reading::Refused(why) => *why,
        Reading::Taken { .. } => Verdict::Fine,
    }
}

// The area that is held.
fn held_area(a: &Reading, b: &Reading) -> Option<Area>
    ensures { result ≡ which (edition_in a.now) (edition_in b.now) }
{
    match (a, b) {
        (Reading::Refused(_), Reading::Refused(_)) => None,
        (Reading::Refused(_), Reading::Taken { .. }) => Some(Area::B),
        (Reading::Taken { .. }, Reading::Refused(_)) => Some(Area::A),
        (Reading::Taken { seq: p, .. }, Reading::Taken { seq: q, .. }) => {
            if *p < *q {
                Some(Area::B)
            } else {
                Some(Area::A)
            }
        }
    }
}

// The seq and the unit of an area.
fn taken(reading: Reading) -> (u64, Option<Unit>)
    ensures seq { result.0 ≡ seq_of (edition_in reading) }
    ensures unit { result.1 ≡ unit_of (edition_in reading) }
{
    match reading {
        Reading::Refused(_) => (0, None),
        Reading::Taken { seq, unit } => (seq, Some(unit)),
    }
}

// What two areas make.
fn join_looks(a: Looked, b: Looked) -> Found
    ensures { IsFoundOf a b result }
{
    let verdict_a = verdict_of(&a.reading);
    let verdict_b = verdict_of(&b.reading);
    let held = held_area(&a.reading, &b.reading);
    let (door_a, door_b) = (a.door, b.door);
    let (seq, unit) = match held {
        None => (0, None),
        Some(Area::A) => taken(a.reading),
        Some(Area::B) => taken(b.reading),
    };
    Found {
        unit,
        a: verdict_a,
        b: verdict_b,
        standing: Standing {
            seq,
            held,
            a: door_a,
            b: door_b,
        },
    }
}

/// Syncs and reads the two areas of a slot.
pub fn load<H: Shelf>(alloc: Global, shelf: &mut H, slot: &SlotName) -> Result<Found, LoadErr>
    ensures told { TellsSame (H.told shelf.old) (H.told shelf.new) }
    ensures time { Rests (H.moment shelf.old) (H.moment shelf.new) (H.images shelf.old) (H.images shelf.new) }
    ensures found { IfOk result (FindsAll (H.told shelf.old) slot.now) }
    ensures fits { IfOk result (λ f. Fits (H.told shelf.new) (H.images shelf.new) (H.moment shelf.new) slot.now f.standing) }
    ensures unheld { IfOk result (λ f. f.standing.held ≡ None → f.standing.seq ≡ 0) }
    ensures cause { HasLoadCause (H.faults shelf.old) (H.faults shelf.new) (slot_text slot.now) result }
{
    let name = slot.text(alloc)?;
    synced(shelf, name.items(), Area::A)?;
    synced(shelf, name.items(), Area::B)?;
    let a = look(alloc, shelf, slot, name.items(), Area::A)?;
    let b = look(alloc, shelf, slot, name.items(), Area::B)?;
    Ok(join_looks(a, b))
}
