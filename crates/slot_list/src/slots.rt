// The slots of a run.
ghost use Rattle.std.specs.Prelude.{◌≡◌, ◌≤◌, ◌<◌, ◌++◌, true, length, map, IfOk, OnOk, MatchResult, nat_le};
ghost use Rattle.std.specs.List.{All, flat_map, range_with_len};
ghost use Rattle.manifest.specs.Manifest.{module_names};
ghost use Rattle.unit_set.specs.Slot.{IsSlot, slot_text};
ghost use Rattle.slot_list.specs.declared.slots.SlotsErr.TheVariants.{Memory};
ghost use Rattle.slot_list.specs.Slots.{slot_for, segment_slots, module_slots, slots_in, slots_of};
ghost use Rattle.slot_list.specs.Answers.{Lists, Refuses};
ghost use Rattle.slot_list.specs.Laws.{AreDistinct};

use crate::laws::{slots_differ, spellings_differ};
use crate::layout::SlotLayout;
use crate::recipe::Recipe;
use elf_map::Elf;
use manifest::{GuestRow, ModuleRow};
use std::alloc::{AllocError, Global};
use thiserror::Error;
use unit_set::SlotName;

/// Why the slots of a run are refused.
#[derive(Clone, Copy, Debug, PartialEq, Eq, Error)]
pub enum SlotsErr {
    /// There are so many, which is over 64.
    #[error("slots {0}")]
    TooMany(u32),
    /// The host has no memory left.
    #[error("memory")]
    Memory,
}

impl From<AllocError> for SlotsErr {
    ghost from_gives = { λ _ e. e ≡ Memory };

    fn from(_: AllocError) -> Self {
        SlotsErr::Memory
    }
}

/// The slots of a run of these modules, guests and files, in order, or how many there are where that is over 64.
pub fn slots_of(
    alloc: Global,
    modules: &[ModuleRow],
    guests: &[GuestRow],
    elfs: &[Elf],
) -> Result<Vec<SlotName>, SlotsErr>
    requires modules { length modules.now ≤ 32 }
    requires guests { length guests.now ≤ 64 }
    ensures slots { MatchResult result (λ v. Lists (slots_of modules.now guests.now elfs.now) v.items) (Refuses (slots_of modules.now guests.now elfs.now)) }
    ensures spelled { IfOk result (λ v. All IsSlot v.items) }
    ensures differ { AreDistinct (module_names modules.now) → IfOk result (λ v. AreDistinct v.items) }
    ensures texts_differ { AreDistinct (module_names modules.now) → IfOk result (λ v. AreDistinct (map slot_text v.items)) }
{
    slots_differ();
    spellings_differ();
    let layout = SlotLayout::of(alloc, guests, elfs)?;
    let count = count_of(modules, &layout);
    if count > 64 {
        return Err(SlotsErr::TooMany(count));
    }
    Ok(slots_in(alloc, modules, &layout)?)
}

// How many slots there are.
fn count_of(modules: &[ModuleRow], layout: &SlotLayout) -> u32
    requires { length modules.now ≤ 32 }
    ensures { result ≡ length (slots_in modules.now layout.now) }
{
    modules.len() as u32 * u32::from(layout.segs) * layout.recipes.len() as u32
}

fn slots_in(
    alloc: Global,
    modules: &[ModuleRow],
    layout: &SlotLayout,
) -> Result<Vec<SlotName>, AllocError>
    ensures slots { IfOk result (λ v. v.items ≡ slots_in modules.now layout.now) }
    ensures spelled { IfOk result (λ v. All IsSlot v.items) }
{
    let mut slots = Vec::new(alloc);
    for module in modules {
        push_module(alloc, module, layout, &mut slots)?;
    }
    Ok(slots)
}

// Appends the slots of a module.
fn push_module(
    alloc: Global,
    module: &ModuleRow,
    layout: &SlotLayout,
    slots: &mut Vec<SlotName>,
) -> Result<(), AllocError>
    requires { All IsSlot slots.old.items }
    ensures slots { OnOk result (slots.new.items ≡ slots.old.items ++ module_slots layout.now «module».now) }
    ensures spelled { OnOk result (All IsSlot slots.new.items) }
{
    for seg in 0..layout.segs {
        push_segment(alloc, module, seg, &layout.recipes, slots)?;
    }
    Ok(())
}

// Appends the slots of a segment.
fn push_segment(
    alloc: Global,
    module: &ModuleRow,
    seg: u8,
    recipes: &[Recipe],
    slots: &mut Vec<SlotName>,
) -> Result<(), AllocError>
    requires seg { seg < 4 }
    requires spelled { All IsSlot slots.old.items }
    ensures slots { OnOk result (slots.new.items ≡ slots.old.items ++ segment_slots recipes.now «module».now seg) }
    ensures spelled { OnOk result (All IsSlot slots.new.items) }
{
    for recipe in recipes {
        slots.push(SlotName {
            module: module.name.copy(alloc)?,
            seg,
            base: module.base,
            isa: recipe.isa,
            tool: recipe.tool,
            max: recipe.max,
        })?;
    }
    Ok(())
}
