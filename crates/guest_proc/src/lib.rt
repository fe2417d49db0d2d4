//! One guest process: it runs block by block, over the blocks that stand ready in its book.
//!
//! It stands on `engine`, `guest_calls` and `elf_map`, and goes over any `Book` of `block_book` and any `Maker` of
//! `block_build`. The layer above uses: a run goes on by the plain machine and by the ledger to the stop that it names
//! (`RanOn`), and what it takes to want memory; a call on a module or a unit puts the process to the state and the ledger
//! that it names.
#![tactic(auto)]

mod begin;
mod block;
mod call;
mod place;
mod process;
mod ready;
mod run;
mod running;
mod start;
mod stop;
#[cfg(test)]
mod tests;
mod told;
mod units;
mod unplace;

pub use block_book::Counts;
pub use process::Proc;
pub use running::{Limits, Running, Setup};
pub use stop::Stop;
