//! One instruction of a RISC-V processor: all of RV32I, FENCE.I and RV32M.
//!
//! It stands on `guest_mem` and `rv_decode`. The layers above use: `exec` is one step of the plain machine.
#![tactic(auto)]

mod alu;
mod effect;
mod step;
#[cfg(test)]
mod tests;

pub use plain_machine::{Cpu, Done, Kind, Regs};
pub use step::exec;
