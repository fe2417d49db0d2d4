//! The instruction words of RV32I, of FENCE.I (extension Zifencei) and of RV32M, as the RISC-V unprivileged manual lists
//! them. It stands on no other crate. What stands above uses the clauses of [`decode`]: it answers the instruction that
//! the table of `specs/Table.antt` gives, and the registers that it names are below 32.
#![tactic(auto)]

mod bits;
mod decoder;
mod ins;
#[cfg(test)]
mod tests;

pub use decoder::decode;
pub use ins::{Ins, Isa};
