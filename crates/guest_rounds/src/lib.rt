//! All guests of a run, one after the other: by rising round, and in order within a round, over one registry that each is
//! lent in turn. How one guest is run is a trait, so that this stands apart from it.
//!
//! It stands on `registry`. The layer above uses: [`run_rounds`] answers for each guest what is told of it by its own entries,
//! in their order, over any [`Guests`].
#![tactic(auto)]

mod guests;
mod rounds;
#[cfg(test)]
mod tests;

pub use guests::Guests;
pub use rounds::run_rounds;
