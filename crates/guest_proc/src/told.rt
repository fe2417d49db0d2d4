// What a process tells, and what it is told.
ghost use Rattle.std.specs.Prelude.{◌≡◌, ◌%◌, false};
ghost use Rattle.plain_machine.specs.Memory.{IsMemory};
ghost use Rattle.plain_machine.specs.Machine.{with_result};
ghost use Rattle.guest_proc.specs.Kept.{process_of, scheme_of};
ghost use Rattle.guest_proc.specs.Maps.{put_to};

use crate::process::Proc;
use crate::running::Running;
use block_book::{Book, Counts};
use cc_base::Blob;
use report::Report;

impl<B: Book> Proc<B> {
    /// Puts the result of the call that the last run stopped at. It takes no memory.
    pub fn answer(&mut self, value: u32)
        ensures becomes { process_of self.new.at (B.ledger self.new.book) ≡ put_to (process_of self.old.at (B.ledger self.old.book)) (with_result (process_of self.old.at (B.ledger self.old.book)).state value) (B.ledger self.old.book) }
        ensures entered { self.new.entered ≡ self.old.entered }
        ensures spent { self.new.spent ≡ self.old.spent }
        ensures scheme { scheme_of self.new.at self.new.limits ≡ scheme_of self.old.at self.old.limits }
    {
        self.at.cpu.regs.set(10, value);
    }

    /// Its counts of blocks.
    pub fn counts(&self) -> Counts
        ensures { record { blocks = result.blocks; reused = result.reused; built = result.built; linked = result.linked } ≡ (B.ledger self.now.book).counts }
    {
        self.book.counts()
    }

    /// What every process keeps.
    pub fn kept(&self)
        ensures memory { IsMemory self.now.at.mem }
        ensures aligned { self.now.spent ≡ false → self.now.at.cpu.pc % 4 ≡ 0 }
    {
        let _ = self.at.mem.code_at(self.at.cpu.pc);
    }
}

impl<B: Book + Drop> Proc<B> {
    /// Its output and its report. It takes no memory.
    pub fn finish(self) -> (Blob, Report)
        ensures output { result.0 ≡ self.at.io.output }
        ensures report { result.1 ≡ self.at.report }
    {
        let Proc { at, .. } = self;
        let Running { io, report, .. } = at;
        (io.into_output(), report)
    }
}
