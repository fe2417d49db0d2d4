//! The calls of a guest to a registry, as a trait: each adds one entry to those that its holder made, and tells what its
//! answer means whatever others do between two calls. The publisher's calls are no part of it: what they answer speaks of
//! the whole journal.
//!
//! It stands on `registry`, which meets it where it is called by one alone. The layer above uses: a guest runs over any
//! [`Registrar`], with its clauses and [`laws`].
#![tactic(auto)]

pub mod laws;
mod lone;
mod registrar;
#[cfg(test)]
mod tests;

pub use registrar::Registrar;
