//! Admission: a unit that was read becomes a `Unit` where its slot, its fragments and its links are right.
//!
//! It stands on `unit_set`, `unit_format` and `fragment`. The layers above use: [`admit`] answers by `Admits`, so exactly
//! the unit, or the first cause; [`laws`] says that there is one answer, and that the texts of a unit are admitted as it.
#![tactic(auto)]

mod admission;
mod fresh;
pub mod laws;
mod links;
#[cfg(test)]
mod tests;

pub use admission::{AdmitErr, admit};
