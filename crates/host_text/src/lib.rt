//! The printed texts: what a run prints of a guest, and the line that tells why nothing was run.
//!
//! It stands on `report`, `manifest`, `elf_map`, `guest_loop` and `outside`. The top call uses: [`texts_of`] is the text of
//! the guests of a run; [`refuse`] writes the line of a cause, or a front of it where the sink failed.
#![tactic(auto)]

mod cause;
mod printing;
mod refusals;
#[cfg(test)]
mod tests;
mod text;

pub use cause::{Cause, status_of};
pub use printing::print;
pub use refusals::refuse;
pub use text::{text_of, texts_of};
