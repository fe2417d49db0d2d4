//! Which calls of a registry a guest makes, as definitions, and their laws: each request of its run is one entry.
//!
//! It stands on `block_ledger` for what a guest asks, on `registry` for entries and what they hand out, and on `slot_list`
//! for the slots of its segments. The layers above use: `AreMade`, how the guest's own entries follow from its requests;
//! `files_told` and `units_told`, what the entries tell its run; `legs`, how many blocks began between them; and [`laws`].
#![tactic(auto)]

pub mod laws;
