//! The printed lines of a journal, and of the slots that a fault has shut.
//!
//! It stands on `registry`, whose entries these are, on `publish`, whose outcomes tell what was shut, and on `unit_set`,
//! `cc_base` and `itoa`. The layers above use: [`push_journal`] appends `journal_lines`, [`push_shut`] appends
//! `shut_lines`, and [`first_fault`] is the first slot that a fault of the shelf has shut.
#![tactic(auto)]

mod journal;
mod names;
mod shut;
#[cfg(test)]
mod tests;

pub use journal::push_journal;
pub use shut::{first_fault, push_shut};
