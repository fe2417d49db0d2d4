//! The ledger of a process, as definitions, and its laws: which blocks stand ready, which exits lead on without a search,
//! what a write, a flush and an unmapping withdraw, which blocks are offered to a unit, what is asked of the files and units
//! that guests share, and four counts.
//!
//! It stands on `plain_machine` and `fragment`. The layers above use the definitions: `Ledger` with one function for each
//! thing that happens, `traced` for the ledger and the requests of a run of the plain machine, and [`laws`].
#![tactic(auto)]

pub mod laws;
