//! The plain machine, as definitions (`specs/`) that know no blocks built and no cache, and the small types that they
//! are written over.
//!
//! It stands on `rv_decode`, `probe_tools` and `cc_base`. Every layer above cites its definitions: memories, one step,
//! the system calls, one transition of a guest with its map answers, runs, where blocks begin in a run, what a tool sees of
//! it, and the plain run of a guest as it is told.
#![tactic(auto)]

mod access;
mod cpu;
mod effect;
mod ends;
mod io;
mod operation;
#[cfg(test)]
mod tests;

pub use access::{Access, Flags, MemErr, Size};
pub use cpu::{Cpu, Done, Regs};
pub use effect::{Effect, Extension};
pub use ends::{End, Kind};
pub use io::{Asked, Heap, Mapping};
pub use operation::{Comparison, Op};
