//! The assembler of single instructions: the word of an instruction of RV32I, of FENCE.I (extension Zifencei) or of
//! RV32M. It stands on `rv_decode`, and is said by the same table. What stands above uses the clauses of [`asm`]: the
//! word that it answers is decoded to the instruction, and it answers none only where no word is. `immediates` has the
//! bits of one operand, `formats` the words of the manual's formats, and `assembler` the codes of each instruction.
#![tactic(auto)]

mod assembler;
mod formats;
mod immediates;
#[cfg(test)]
mod tests;

pub use assembler::asm;
