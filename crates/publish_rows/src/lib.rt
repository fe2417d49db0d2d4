//! Worked examples of loading and publication, over shelves in memory. The areas' bytes are written out by the rules. Those of
//! whole runs stand in `rows`.
//!
//! It stands on `publish`, and nothing stands on it.
#![tactic(auto)]

#[cfg(test)]
mod areas;
#[cfg(test)]
mod shelves;
