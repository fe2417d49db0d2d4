//! How a guest's stops are answered where it shares units with others: over any registrar, and any book of blocks.
//!
//! It stands on `guest_proc` for the guest's process, on `registrar` for its calls, on `guest_script` for which calls its
//! requests are, and on the laws of `module_laws`. The layer above uses: [`begin`], [`answer_stop`], [`make_room`] and
//! [`close`] make the entries of just the requests that the ledger of the run asks, put the process to the ledger that they
//! lead to, and keep that each attached segment's generation is held, once, so that at its end a guest has let each go as
//! often as it attached it; an answered call joins whatever run came before it. All entries are the guest's own, also where
//! memory ran out behind some of them.
//! Nothing stands on it yet.
#![tactic(auto)]

mod ages;
mod answer;
mod attach;
mod come;
mod desk;
pub mod laws;
mod leave;
mod offer;
mod part;
mod plan;
mod room;
mod start;
mod stops;
#[cfg(test)]
mod tests;

pub use ages::AgeMap;
pub use answer::replace;
pub use attach::{attach_all, attach_one};
pub use come::map;
pub use desk::{Desk, mark};
pub use leave::unmap;
pub use offer::{offer_one, part_one, slot_of};
pub use part::{close, part_all};
pub use plan::Plan;
pub use room::make_room;
pub use start::begin;
pub use stops::answer_stop;
