//! Slots and units: the name of a slot and its spelling, a unit as the set of blocks that are built in an image, and a unit
//! as it is read.
//!
//! It stands on `fragment`, `probe_tools`, `rv_decode` and `cc_base`. The layers above use: a `SlotName` is spelled in one
//! way, and read just where it is spelled; the type of `Unit` keeps that each fragment is the one that is built at its
//! address, so that a unit is its slot, its image and its addresses; `join` is the union. Links are found, not kept.
#![tactic(auto)]

pub mod laws;
mod merge;
mod raw;
mod room;
mod shared;
mod slot;
mod spelling;
#[cfg(test)]
mod tests;
mod union;
mod unit;

pub use raw::{RawFrag, RawUnit};
pub use room::{put_byte, put_bytes};
pub use shared::Shared;
pub use slot::{NameErr, SlotName};
pub use unit::{Joined, Unit, link_at};
