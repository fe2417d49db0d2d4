// A book in which nothing happened.
ghost use Rattle.std.specs.Prelude.{◌≡◌, IfOk};
ghost use Rattle.block_ledger.specs.Ledger.{new_ledger};
ghost use Rattle.code_book.specs.View.{ledger_of};

use crate::code_book::CodeBook;
use block_book::Counts;
use code_writes::Covers;
use exit_links::Links;
use frag_table::FragTable;
use merge_pass::Segments;
use std::alloc::{AllocError, Global};

impl CodeBook {
    /// Nothing is live.
    pub fn new(alloc: Global) -> Result<Self, AllocError>
        ensures { IfOk result (λ b. ledger_of b ≡ new_ledger) }
    {
        let counts = Counts {
            blocks: 0,
            reused: 0,
            built: 0,
            linked: 0,
        };
        let links = Links::new(alloc, 0)?;
        Ok(CodeBook {
            alloc,
            segments: Segments::new(alloc),
            places: FragTable::new(alloc),
            links,
            covers: Covers::new(alloc),
            block: 0,
            here: None,
            left: None,
            own: 0,
            owned: Vec::new(alloc),
            counts,
        })
    }
}
