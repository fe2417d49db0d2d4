// What happens to the slots of a registry, and to the files of its modules.
ghost use Rattle.std.specs.Prelude.{◌≡◌, ◌<◌, ◌≤◌, ◌+◌, ◌^◌, [], length, IfOk, OnOk, OnErr, slice_get, map, option_map};
ghost use Rattle.std.specs.Arc.{arc_value};
ghost use Rattle.std.specs.List.{All};
ghost use Rattle.unit_set.specs.Sets.{IsRising};
ghost use Rattle.unit_set.specs.Held.{IsFreshFor, addresses};
ghost use Rattle.registry.specs.Content.{content_of};
ghost use Rattle.registry.specs.State.{with_at, first_due};
ghost use Rattle.registry.specs.Registry.{attached, with_generation, one_less, slot_in, generation_in, replaced_by, files_after, published_as, shut_now, merged, merge_reply, slot_opened, slots_opened};
ghost use Rattle.registry.specs.History.{AreCounted};
ghost use Rattle.registry.specs.Holds.{IsGeneration};

use crate::entry::{Merged, Replaced, Stamp};
use crate::slot::{Attached, Generation, Slot, slot_due};
use cc_base::{Addrs, Image};
use fragment::Fragment;
use std::alloc::{AllocError, Global};
use std::sync::Arc;
use unit_set::{SlotName, Unit};

// The file of a module.
pub fn file_of(files: &[u32], module: u32) -> Option<u32>
    ensures { result ≡ slice_get files.now «module» }
{
    if (module as usize) < files.len() {
        Some(files[module as usize])
    } else {
        None
    }
}

pub fn room_for(owed: u64) -> usize
    requires { owed < 2 ^ 62 }
    ensures { result ≡ owed + 1 }
{
    owed as usize + 1
}

// A guest attaches an image at a slot.
pub fn attach_at(
    alloc: Global,
    slots: &mut Vec<Slot>,
    slot: u32,
    name: &SlotName,
    image: Image,
) -> Result<Attached, AllocError>
    requires there { slot < length slots.old.items }
    requires ages { length (slot_in slots.old.items slot).generations < 2 ^ 32 }
    requires counts { AreCounted (slot_in slots.old.items slot).generations }
    ensures new { OnOk result (slots.new.items ≡ with_at (attached (record { slot = name.now; image = image; addrs = [] })) slot slots.old.items) }
    ensures old { OnErr result (slots.new.items ≡ slots.old.items) }
    ensures told { IfOk result (IsGeneration (record { slot = name.now; image = image; addrs = [] }) (slot_in slots.old.items slot).generations) }
{
    let state = &mut slots[slot as usize];
    state.attach(alloc, name, image)
}

// A guest lets a generation of a slot go.
pub fn detach_at(slots: &mut Vec<Slot>, slot: u32, age: u32)
    requires there { slot < length slots.old.items }
    requires age_there { age < length (slot_in slots.old.items slot).generations }
    requires held { 0 < (generation_in (slot_in slots.old.items slot).generations age).attached }
    ensures { slots.new.items ≡ with_at (with_generation age one_less) slot slots.old.items }
{
    let state = &mut slots[slot as usize];
    state.detach(age);
}

// A module is another file from now on, where both numbers are in range.
pub fn replace_in(files: &mut Vec<u32>, count: usize, module: u32, file: u32) -> Replaced
    ensures reply { result ≡ replaced_by files.old.items count «module» file }
    ensures files { files.new.items ≡ files_after result files.old.items «module» file }
{
    if module as usize >= files.len() {
        return Replaced::NoSuchModule;
    }
    if file as usize >= count {
        return Replaced::NoSuchFile;
    }
    files[module as usize] = file;
    Replaced::Yes
}

// A version of a slot is published.
pub fn publish_at(slots: &mut Vec<Slot>, slot: u32, stamp: Stamp)
    requires there { slot < length slots.old.items }
    ensures { slots.new.items ≡ with_at (published_as stamp.age stamp.version) slot slots.old.items }
{
    let state = &mut slots[slot as usize];
    state.published = Some(stamp);
}

// A slot is shut.
pub fn shut_at(slots: &mut Vec<Slot>, slot: u32)
    requires there { slot < length slots.old.items }
    ensures { slots.new.items ≡ with_at shut_now slot slots.old.items }
{
    let state = &mut slots[slot as usize];
    state.shut = true;
}

// The slots at the start.
pub fn slots_of(
    alloc: Global,
    found: &[Option<Arc<Unit>>],
    shut: &[bool],
) -> Result<Vec<Slot>, AllocError>
    requires { length shut.now ≡ length found.now }
    ensures { IfOk result (λ v. v.items ≡ slots_opened (map (option_map (λ u. content_of (arc_value u))) found.now) shut.now) }
{
    let mut slots = Vec::new(alloc);
    for i in 0..found.len() {
        let unit = &found[i];
        slots.push(slot_of(alloc, unit, shut[i])?)?;
    }
    Ok(slots)
}

// A slot at the start.
fn slot_of(alloc: Global, found: &Option<Arc<Unit>>, shut: bool) -> Result<Slot, AllocError>
    ensures { IfOk result (λ s. s ≡ slot_opened (option_map (λ u. content_of (arc_value u)) found.now) shut) }
{
    let mut generations = Vec::new(alloc);
    match found {
        None => Ok(Slot {
            generations,
            current: None,
            published: None,
            shut,
        }),
        Some(unit) => {
            generations.push(Generation {
                unit: Arc::try_clone(unit)?,
                version: 0,
                attached: 0,
            })?;
            Ok(Slot {
                generations,
                current: Some(0),
                published: Some(Stamp { age: 0, version: 0 }),
                shut,
            })
        }
    }
}

// The first slot that is due.
pub fn first_due(slots: &[Slot]) -> Option<(u32, Stamp)>
    requires { length slots.now < 2 ^ 32 }
    ensures { result ≡ first_due 0 slots.now }
{
    for (i, slot) in slots.iter().enumerate() {
        if let Some(stamp) = slot_due(slot) {
            return Some((i as u32, stamp));
        }
    }
    None
}

// The unit of a generation.
pub fn unit_at(slots: &[Slot], slot: u32, age: u32) -> Result<Arc<Unit>, AllocError>
    requires there { slot < length slots.now }
    requires age_there { age < length (slot_in slots.now slot).generations }
    ensures { IfOk result (λ u. content_of (arc_value u) ≡ (generation_in (slot_in slots.now slot).generations age).unit) }
{
    let state = &slots[slot as usize];
    unit_in(&state.generations, age)
}

fn unit_in(generations: &[Generation], age: u32) -> Result<Arc<Unit>, AllocError>
    requires { age < length generations.now }
    ensures { IfOk result (λ u. content_of (arc_value u) ≡ (generation_in generations.now age).unit) }
{
    let generation = &generations[age as usize];
    Arc::try_clone(&generation.unit)
}

// The addresses of fragments.
pub fn addresses_of(alloc: Global, added: &[Fragment]) -> Result<Addrs, AllocError>
    ensures { IfOk result (λ all. all ≡ addresses added.now) }
{
    let mut all = Vec::new(alloc);
    for f in added {
        all.push(f.addr())?;
    }
    Ok(Addrs::from_vec(all))
}

// Fragments are added to the unit of a generation of a slot.
pub fn merge_at(
    alloc: Global,
    slots: &mut Vec<Slot>,
    slot: u32,
    age: u32,
    added: &[Fragment],
) -> Result<Merged, AllocError>
    requires there { slot < length slots.old.items }
    requires age_there { age < length (slot_in slots.old.items slot).generations }
    requires fresh { All (IsFreshFor (generation_in (slot_in slots.old.items slot).generations age).unit.slot (generation_in (slot_in slots.old.items slot).generations age).unit.image) added.now }
    requires rises { IsRising (addresses added.now) }
    requires few { length added.now ≤ 16384 }
    requires version { (generation_in (slot_in slots.old.items slot).generations age).version ≤ length (generation_in (slot_in slots.old.items slot).generations age).unit.addrs }
    ensures new { OnOk result (slots.new.items ≡ with_at (with_generation age (merged (addresses added.now))) slot slots.old.items) }
    ensures old { OnErr result (slots.new.items ≡ slots.old.items) }
    ensures reply { IfOk result (λ reply. reply ≡ merge_reply (addresses added.now) (generation_in (slot_in slots.old.items slot).generations age)) }
{
    let state = &mut slots[slot as usize];
    state.merge(alloc, age, added)
}
