//! Which slots a run has, in order, and the number of each.
//!
//! A slot is there for each module, each number below the most executable segments of any file, and each recipe: how the
//! blocks of a guest are built. They stand by module, then by segment, then by the first guest that uses the recipe.
//!
//! It stands on `manifest`, `elf_map` and `unit_set`. The layers above use: [`slots_of`] lists the slots of a run, or
//! refuses them where they are over 64; [`slot_number`] is the place of a slot in that list; slots and their spellings
//! differ where modules have names of their own.
#![tactic(auto)]

pub mod laws;
mod layout;
mod recipe;
mod slots;
#[cfg(test)]
mod tests;

pub use layout::{SlotLayout, slot_number};
pub use recipe::{Recipe, recipe_of};
pub use slots::{SlotsErr, slots_of};
