//! The plain, slow interpreter: it runs one guest an instruction at a time, builds no block, and finds where blocks begin
//! and what the tool sees by the definitions alone.
//!
//! It stands on `elf_map`, `rv_exec` and `guest_calls`, and on `engine` for the event of an access and of a call. What
//! compares two runs uses: how a guest ends, what it wrote and its report are those of its plain run, whose map answers
//! are those that its own calls make them.
#![tactic(auto)]

mod block;
mod calls;
mod events;
mod find;
mod guest;
mod process;
mod run;
mod step;
#[cfg(test)]
mod tests;

pub use guest::{Module, Ran, Setup};
pub use run::interpret;
