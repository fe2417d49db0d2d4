//! The text of a unit, in two versions: the grammar of both, reading with the first failure, and writing the newer one.
//!
//! It stands on `unit_set`, `fragment`, `probe_tools`, `rv_decode`, `cc_base` and `byteorder`. The layers above use:
//! `Spells` is the grammar over whole byte strings; [`read_unit`] answers what is spelled, or else the first failure by
//! `unit_of`; [`write_unit`] appends `text` of version 2, or leaves what was there; [`laws`] says that no text begins another, how long one can be,
//! and which refusals stand whatever follows.
#![tactic(auto)]

mod bytes;
mod error;
mod fragments;
mod header;
pub mod laws;
mod reading;
#[cfg(test)]
mod tests;
mod writing;

pub use error::TextErr;
pub use header::Version;
pub use reading::read_unit;
pub use writing::{number_of, text_len, write_unit};
