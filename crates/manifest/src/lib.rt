//! The manifest: which files there are, which modules of them, and which guests run, with all that is chosen for each.
//!
//! It stands on `toml`. The layers above use: [`Manifest::read`] answers `manifest_of` the bytes, by which the first rule
//! that fails is the answer; the types keep that every number is in its range.
#![tactic(auto)]

mod error;
mod files;
mod guest;
mod lists;
mod module;
mod name_table;
mod names;
mod numbers;
mod path;
mod read;
mod rows;
mod tables;
#[cfg(test)]
mod tests;
mod texts;

pub use error::ManifestErr;
pub use read::Manifest;
pub use rows::{GuestRow, ModuleRow};
