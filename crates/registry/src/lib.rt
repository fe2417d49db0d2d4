//! The units that guests share, with the journal of all calls: which file each module is, per slot the generations of
//! units with their images, what is due to be published, and what was.
//!
//! It stands on `unit_set`. The layer above uses: each call of [`Registry`] answers `entry_for` of the state and adds
//! exactly that entry to the journal; the state is `reg` of the opening and the journal.
#![tactic(auto)]

mod entry;
mod fitting;
pub mod laws;
mod opening;
mod registry;
mod slot;
mod slots;
#[cfg(test)]
mod tests;

pub use entry::{Entry, Merged, Replaced, Stamp};
pub use fitting::may_attach;
pub use opening::{FileCodes, Opening};
pub use registry::{Due, Registry};
pub use slot::Attached;
