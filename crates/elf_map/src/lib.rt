//! ELF files of 32 bits for RISC-V: reading them, and placing their segments in a guest's memory.
//!
//! It stands on `plain_machine`, whose definitions say what a program is and what it puts into memory, on `guest_mem`
//! and on `cc_base`. The layers above use: `Elf::read` answers the first rule that fails, or the program of the file;
//! `place` adds all segments or none.
#![tactic(auto)]

mod checks;
mod elf;
mod error;
mod header;
mod place;
mod segment;
#[cfg(test)]
mod tests;

pub use elf::Elf;
pub use error::ElfErr;
