// How many slots a module has, and their numbers.
ghost use Rattle.std.specs.Prelude.{◌≡◌, ℕ, ◌≤◌, ◌<◌, List, length, IfOk, Some, slice_get};
ghost use Rattle.std.specs.List.{Contains};
ghost use Rattle.manifest.specs.Entries.{ModuleEntry};
ghost use Rattle.slot_list.specs.Slots.{layout_of, most_segs, slot_for, slots_in};

use crate::recipe::{Recipe, place_of, recipes_of};
use elf_map::Elf;
use manifest::GuestRow;
use std::alloc::{AllocError, Global};
use std::marker::Model;

/// What a run has for each module: how many segments, at most 4, and for each of them which recipes, at most 64.
#[derive(Debug, Drop)]
pub struct SlotLayout {
    pub(crate) segs: u8,
    pub(crate) recipes: Vec<Recipe>,
}

impl Model for SlotLayout {
    ghost use Rattle.slot_list.specs.Slots.{Layout, IsLayout};

    ghost Value = { Layout };

    ghost view = { λ l. record { segs = l.segs; recipes = l.recipes.items } };

    ghost invariant = { λ l. IsLayout (record { segs = l.segs; recipes = l.recipes.items }) };
}

impl SlotLayout {
    /// The layout of a run of these guests and files: as many segments as the file has that has the most of them, and
    /// the recipes in the order in which guests first use them.
    pub fn of(alloc: Global, guests: &[GuestRow], elfs: &[Elf]) -> Result<SlotLayout, AllocError>
        requires { length guests.now ≤ 64 }
        ensures { IfOk result (λ l. l ≡ layout_of guests.now elfs.now) }
    {
        let recipes = recipes_of(alloc, guests)?;
        Ok(SlotLayout {
            segs: most_segs(elfs),
            recipes,
        })
    }
}

// The most executable segments of a file.
fn most_segs(elfs: &[Elf]) -> u8
    ensures most { result ≡ most_segs elfs.now }
    ensures few { result ≤ 4 }
{
    let mut most = 0;
    for elf in elfs {
        most = elf.code_count().max(most);
    }
    most
}

/// The number of the slot of a module's segment and a recipe, among the slots of a run.
pub fn slot_number(layout: &SlotLayout, module: u32, seg: u8, recipe: Recipe) -> u32
    requires few { «module» < 32 }
    requires seg { seg < layout.now.segs }
    requires listed { Contains layout.now.recipes recipe }
    ensures { (modules : List ModuleEntry) (m : ModuleEntry) → slice_get modules «module» ≡ Some m → slice_get (slots_in modules layout.now) result ≡ Some (slot_for m seg recipe) }
{
    let segment = module * u32::from(layout.segs) + u32::from(seg);
    segment * layout.recipes.len() as u32 + place_of(&layout.recipes, recipe)
}
