//! The live blocks of a process by place: which place an address has, and what lies in each.
//!
//! It stands on `fragment` and `unit_set`. The layer above uses: an [`Index`] is a map from addresses to places, a
//! [`Slots`] a list of what lies in each place, and a [`FragTable`] both; room is made by one call and taken by another,
//! so that all calls but these take no memory.
#![tactic(auto)]

mod held;
mod index;
mod slots;
mod table;
#[cfg(test)]
mod tests;

pub use held::Held;
pub use index::Index;
pub use slots::Slots;
pub use table::FragTable;
