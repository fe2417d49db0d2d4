//! The top call: a manifest, its files and its inputs are read, its guests are run over the units of a shelf, and printed.
//!
//! It stands on `manifest`, `elf_map`, `slot_list`, `whole_run`, `journal_text`, `host_text`, `outside` and `shelf_model`. The
//! program above uses the clauses of [`host`]: what was written is the text of the run, by which each guest is told by its own
//! entries in the one journal, and the folder by the publications; and each other answer has its cause, which is the first
//! failure in the order of the work.
#![tactic(auto)]

mod ended;
mod prepare;
mod reading;
mod run;
mod top;
mod words;

pub use ended::Ended;
pub use guest_loop::{Counts, GuestEnd, Taken};
pub use host_text::{Cause, status_of};
pub use publish::{Loaded, Pub, PubFault};
pub use registry::Entry;
pub use top::host;
