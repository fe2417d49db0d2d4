//! A report: how often each key of a tool's events occurred.
//!
//! It stands on `probe_tools`. The layers above use: a report is a tool and a count for each key that occurred; an event
//! whose key has a row takes no memory; the printed rows.
#![tactic(auto)]

mod report;
#[cfg(test)]
mod tests;
mod text;

pub use report::{Report, key_of};
pub use text::push_hex;
