//! The system calls of a guest, and what they work on.
//!
//! It stands on `plain_machine` and `guest_mem`. The layers above use: `ask` does a call as the plain machine does it, and the
//! calls on modules are left to the layer that has the modules.
#![tactic(auto)]

mod calls;
mod io;
#[cfg(test)]
mod tests;

pub use calls::ask;
pub use io::GuestIo;
pub use plain_machine::{Asked, Heap, Mapping};
