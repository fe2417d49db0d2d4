//! What a process may offer to the units that it attached.
//!
//! It stands on `block_ledger`, `fragment` and `unit_set`. The layer above uses: [`Attached`] is a segment with its unit,
//! and tells which blocks are candidates; [`Segments`] is a map of them by number.
#![tactic(auto)]

mod attached;
mod segments;
#[cfg(test)]
mod tests;
mod words;

pub use attached::Attached;
pub use segments::Segments;
