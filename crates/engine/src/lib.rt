//! The engine: it runs a block as the plain machine runs it, up to the next block, and counts what its probes see.
//!
//! It stands on `rv_exec`, `fragment` and `report`. The layer above uses: the states that a block does are the plain
//! machine's, of which the first alone begins a block, and the run goes on from the state now; the report has just the
//! events of these states more.
#![tactic(auto)]

mod block;
mod probing;
#[cfg(test)]
mod tests;

pub use block::{Left, run_block};
pub use probing::{event_of_access, event_of_call};
