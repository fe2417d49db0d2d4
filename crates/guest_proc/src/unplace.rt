// A module goes.
ghost use Rattle.std.specs.Prelude.{◌≡◌, ◌≤◌, ◌<◌, length, map, take};
ghost use Rattle.plain_machine.specs.Program.{top_of};
ghost use Rattle.block_book.specs.Clauses.{region_of};
ghost use Rattle.block_ledger.specs.Ledger.{unmapped};
ghost use Rattle.block_ledger.specs.Traced.{codes_of};
ghost use Rattle.guest_proc.specs.Kept.{process_of, scheme_of};
ghost use Rattle.guest_proc.specs.Maps.{IsPlaced, put_to, unplaced_state};

use crate::process::Proc;
use block_book::Book;
use cc_base::Span;
use elf_map::Elf;

impl<B: Book> Proc<B> {
    /// Takes a module away that was placed from this file at this base. It takes no memory.
    pub fn unplace(&mut self, module: u32, elf: &Elf, base: u32)
        requires few { «module» < 1073741824 }
        requires top { top_of elf.now base ≤ 4294967295 }
        requires placed { IsPlaced self.old.at.mem self.old.at.io.heap «module» elf.now base (B.ledger self.old.book) }
        ensures becomes { process_of self.new.at (B.ledger self.new.book) ≡ put_to (process_of self.old.at (B.ledger self.old.book))
            (unplaced_state (process_of self.old.at (B.ledger self.old.book)).state «module» elf.now base) (unmapped «module» (codes_of elf.now base) (B.ledger self.old.book)) }
        ensures entered { self.new.entered ≡ self.old.entered }
        ensures spent { self.new.spent ≡ self.old.spent }
        ensures scheme { scheme_of self.new.at self.new.limits ≡ scheme_of self.old.at self.old.limits }
    {
        let _ = self.at.mem.code_at(self.at.cpu.pc);
        elf.unplace(base, &mut self.at.mem);
        self.at.io.mark_unmapped(module);
        unmap(&mut self.book, module, elf, base);
    }
}

// Tells the book that the module goes, with its code.
fn unmap<B: Book>(book: &mut B, module: u32, elf: &Elf, base: u32)
    requires few { «module» < 1073741824 }
    requires top { top_of elf.now base ≤ 4294967295 }
    ensures { B.ledger book.new ≡ unmapped «module» (codes_of elf.now base) (B.ledger book.old) }
{
    let mut spans = [Span { start: 0, len: 0 }; 4];
    let count = put_spans(elf, base, &mut spans);
    book.unmap(module, &spans[..count]);
}

// Puts where its executable segments lie, one after the other, and answers how many they are.
fn put_spans(elf: &Elf, base: u32, spans: &mut [Span; 4]) -> usize
    requires top { top_of elf.now base ≤ 4294967295 }
    ensures few { result ≤ 4 }
    ensures spans { take result spans.new ≡ map region_of (codes_of elf.now base) }
{
    let count = usize::from(elf.code_count());
    for seg in 0..count {
        spans[seg] = elf.code_span(seg as u8, base);
    }
    count
}
