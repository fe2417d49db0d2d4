//! Tools, what their probes see, and what a report of these events has.
//!
//! It stands on std alone. The layers above use: [`probe_for`] answers the probe of the table in `specs/Probes.antt`;
//! definitions of events, builders of blocks and reports cite `specs/Rows.antt`, one row for each key that occurs, with
//! the number of its events.
#![tactic(auto)]

mod event;
pub mod laws;
mod probe;
#[cfg(test)]
mod tests;
mod tool;

pub use event::Event;
pub use probe::{Class, ProbeKind, probe_for};
pub use tool::Tool;
