// A process runs.
ghost use Rattle.std.specs.Prelude.{◌≡◌, ◌⊎◌, ◌<◌, ◌%◌, ◌^◌, [], true, false, None, Some, IfOk, OnOk, OnErr, IsErr};
ghost use Rattle.std.specs.FinMap as fin;
ghost use Rattle.block_ledger.specs.Ledger.{new_ledger};
ghost use Rattle.region_laws.specs.Heap.{HeapIsData};
ghost use Rattle.guest_proc.specs.Begun.{AreMade};
ghost use Rattle.guest_proc.specs.Kept.{IsReady, Keeps, StopsWell, process_of, scheme_of};
ghost use Rattle.guest_proc.specs.Process.{Advances, CameToWant, RanOn, RanOne, RanThrough, WantsMemory, stop_of};

use crate::begin::stop_before;
use crate::block::run_one_block;
use crate::process::Proc;
use crate::running::{Limits, Running};
use crate::stop::Stop;
use block_book::Book;
use block_build::{Maker, PlainMaker};
use cc_base::Steps;
use plain_machine::End;
use std::alloc::{AllocError, Global};
use std::sync::ledger::Ledger;

impl<B: Book> Proc<B> {
    /// A process before its first block, with its program in place: nothing has happened to its book, and its report is
    /// empty.
    pub fn of(alloc: Global, at: Running, limits: Limits, book: B) -> Self
        requires new { B.ledger book ≡ new_ledger }
        requires aligned { at.cpu.pc % 4 ≡ 0 }
        requires inert { HeapIsData at.io.heap at.mem }
        requires empty { at.report.counts ≡ fin.empty }
        requires fuel { at.fuel < 2 ^ 63 }
        ensures parts { (result.at ≡ at) × (result.limits ≡ limits) × (result.book ≡ book) }
        ensures fresh { result.spent ≡ false }
        ensures entered { result.entered ≡ true }
    {
        Proc {
            alloc,
            at,
            limits,
            book,
            spent: false,
            entered: true,
        }
    }

    /// The stop that comes before the next block begins.
    pub fn stop(&self) -> Option<Stop>
        ensures { result ≡ stop_of self.now.limits.pool (process_of self.now.at (B.ledger self.now.book)) }
    {
        if self.at.fuel == 0 {
            return Some(Stop::Ended(End::Fuel));
        }
        stop_before(self.at.cpu.pc, &self.at.mem, self.limits.pool, &self.book)
    }

    /// At most one block: where a stop comes before a block begins it answers that stop; else it runs one block, and
    /// answers the stop that follows directly, if one does. The counter and the maker are those of the blocks that are
    /// built.
    pub fn run_one<M: Maker, L: Ledger>(
        &mut self,
        maker: &mut M,
        steps: &mut Steps<L>,
    ) -> Result<Option<Stop>, AllocError>
        ensures ran { IfOk result (RanOne (scheme_of self.old.at self.old.limits) (process_of self.old.at (B.ledger self.old.book)) (process_of self.new.at (B.ledger self.new.book))) }
        ensures keeps { OnOk result (Keeps (process_of self.old.at (B.ledger self.old.book)) (process_of self.new.at (B.ledger self.new.book))) }
        ensures asks { IfOk result (λ stop. StopsWell stop self.new.at.io) }
        ensures made { OnOk result (AreMade (B.ledger self.old.book).counts.built (B.ledger self.new.book).counts.built steps.old steps.new (M.taken maker.old) (M.taken maker.new)) }
        ensures wants { OnErr result ((self.old.spent ≡ true) ⊎ WantsMemory (scheme_of self.old.at self.old.limits) (process_of self.old.at (B.ledger self.old.book))) }
        ensures spent { self.old.spent ≡ true → IsErr result }
        ensures after { OnErr result (self.new.spent ≡ true) }
        ensures lasts { OnOk result (self.new.spent ≡ self.old.spent) }
        ensures entered { self.new.entered ≡ self.old.entered }
        ensures scheme { scheme_of self.new.at self.new.limits ≡ scheme_of self.old.at self.old.limits }
    {
        if let Some(stop) = self.advance(maker, steps)? {
            return Ok(Some(stop));
        }
        Ok(self.stop())
    }

    // At most one block: the stop that it answers came before the block or in it.
    #[inline]
    fn advance<M: Maker, L: Ledger>(
        &mut self,
        maker: &mut M,
        steps: &mut Steps<L>,
    ) -> Result<Option<Stop>, AllocError>
        ensures ran { IfOk result (Advances (scheme_of self.old.at self.old.limits) (process_of self.old.at (B.ledger self.old.book)) (process_of self.new.at (B.ledger self.new.book))) }
        ensures keeps { OnOk result (Keeps (process_of self.old.at (B.ledger self.old.book)) (process_of self.new.at (B.ledger self.new.book))) }
        ensures asks { IfOk result (λ stop. StopsWell stop self.new.at.io) }
        ensures made { OnOk result (AreMade (B.ledger self.old.book).counts.built (B.ledger self.new.book).counts.built steps.old steps.new (M.taken maker.old) (M.taken maker.new)) }
        ensures wants { OnErr result ((self.old.spent ≡ true) ⊎ WantsMemory (scheme_of self.old.at self.old.limits) (process_of self.old.at (B.ledger self.old.book))) }
        ensures spent { self.old.spent ≡ true → IsErr result }
        ensures after { OnErr result (self.new.spent ≡ true) }
        ensures lasts { OnOk result (self.new.spent ≡ self.old.spent) }
        ensures entered { self.new.entered ≡ self.old.entered }
        ensures scheme { scheme_of self.new.at self.new.limits ≡ scheme_of self.old.at self.old.limits }
    {
        if self.spent {
            return Err(AllocError);
        }
        self.spent = true;
        let stop = run_one_block(
            self.alloc,
            &mut self.at,
            self.limits,
            &mut self.book,
            maker,
            steps,
        )?;
        self.spent = false;
        Ok(stop)
    }

    /// Runs on until a stop, over any maker of blocks. The pool is full exactly where the next block is not live and there
    /// is no room for it.
    pub fn run_with<M: Maker, L: Ledger>(
        &mut self,
        maker: &mut M,
        steps: &mut Steps<L>,
    ) -> Result<Stop, AllocError>
        ensures blocks { IfOk result (RanThrough (scheme_of self.old.at self.old.limits)
            (process_of self.old.at (B.ledger self.old.book)) (process_of self.new.at (B.ledger self.new.book))) }
        ensures ran { IfOk result (RanOn (scheme_of self.old.at self.old.limits) [] (process_of self.old.at (B.ledger self.old.book)) (process_of self.new.at (B.ledger self.new.book))) }
        ensures keeps { OnOk result (Keeps (process_of self.old.at (B.ledger self.old.book)) (process_of self.new.at (B.ledger self.new.book))) }
        ensures asks { IfOk result (λ stop. StopsWell (Some stop) self.new.at.io) }
        ensures made { OnOk result (AreMade (B.ledger self.old.book).counts.built (B.ledger self.new.book).counts.built steps.old steps.new (M.taken maker.old) (M.taken maker.new)) }
        ensures wants { OnErr result ((self.old.spent ≡ true) ⊎ CameToWant (scheme_of self.old.at self.old.limits) (process_of self.old.at (B.ledger self.old.book))) }
        ensures spent { self.old.spent ≡ true → IsErr result }
        ensures after { OnErr result (self.new.spent ≡ true) }
        ensures lasts { OnOk result (self.new.spent ≡ self.old.spent) }
        ensures entered { self.new.entered ≡ self.old.entered }
        ensures scheme { scheme_of self.new.at self.new.limits ≡ scheme_of self.old.at self.old.limits }
    {
        if self.spent {
            return Err(AllocError);
        }
        loop {
            if let Some(stop) = self.advance(maker, steps)? {
                return Ok(stop);
            }
        }
    }

    /// The same, where each block that isn't live is built.
    pub fn run<L: Ledger>(&mut self, steps: &mut Steps<L>) -> Result<Stop, AllocError>
        ensures blocks { IfOk result (RanThrough (scheme_of self.old.at self.old.limits)
            (process_of self.old.at (B.ledger self.old.book)) (process_of self.new.at (B.ledger self.new.book))) }
        ensures ran { IfOk result (RanOn (scheme_of self.old.at self.old.limits) [] (process_of self.old.at (B.ledger self.old.book)) (process_of self.new.at (B.ledger self.new.book))) }
        ensures keeps { OnOk result (Keeps (process_of self.old.at (B.ledger self.old.book)) (process_of self.new.at (B.ledger self.new.book))) }
        ensures asks { IfOk result (λ stop. StopsWell (Some stop) self.new.at.io) }
        ensures made { OnOk result (AreMade (B.ledger self.old.book).counts.built (B.ledger self.new.book).counts.built steps.old steps.new [] []) }
        ensures wants { OnErr result ((self.old.spent ≡ true) ⊎ CameToWant (scheme_of self.old.at self.old.limits) (process_of self.old.at (B.ledger self.old.book))) }
        ensures spent { self.old.spent ≡ true → IsErr result }
        ensures after { OnErr result (self.new.spent ≡ true) }
        ensures lasts { OnOk result (self.new.spent ≡ self.old.spent) }
        ensures entered { self.new.entered ≡ self.old.entered }
        ensures scheme { scheme_of self.new.at self.new.limits ≡ scheme_of self.old.at self.old.limits }
    {
        self.run_with(&mut PlainMaker, steps)
    }
}
