//! The memory of a guest: disjoint regions of bytes, each with flags that say what may be done with it.
//!
//! It stands on `plain_machine`, whose definitions of memory it meets, and on `cc_base`. The layers above use: a memory
//! is a list of regions, each access is as defined, and a refusal leaves it unchanged.
#![tactic(auto)]

mod access;
mod mem;
mod region;
#[cfg(test)]
mod tests;

pub use access::CopyErr;
pub use mem::Mem;
pub use plain_machine::{Access, Flags, MemErr, Size};
