// What a process has.
ghost use Rattle.std.specs.Prelude.{◌≡◌, false};
ghost use Rattle.guest_proc.specs.Kept.{IsReady, process_of, scheme_of};

use crate::running::{Limits, Running};
use block_book::Book;
use std::alloc::Global;

/// A guest process: what runs, and its book of blocks. Where a call of it answered want of memory it is spent, and each
/// later call that may answer so does. It is entered once its program was placed.
#[derive(Drop)]
pub struct Proc<B: Book> {
    pub(crate) alloc: Global,
    pub at: Running,
    pub limits: Limits,
    pub book: B,
    pub spent: bool,
    pub entered: bool,
    ghost ready: { spent ≡ false → IsReady (scheme_of at limits) (process_of at (B.ledger book)) },
}
