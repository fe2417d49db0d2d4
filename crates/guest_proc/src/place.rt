// A module comes.
ghost use Rattle.std.specs.Prelude.{◌≡◌, ◌≤◌, ◌||◌, true, false, option_map, IfOk, OnOk, OnErr, IsErr};
ghost use Rattle.plain_machine.specs.Memory.{IsMemory};
ghost use Rattle.plain_machine.specs.Machine.{heap_from as heap_of};
ghost use Rattle.plain_machine.specs.Program.{base_of, placed, top_of};
ghost use Rattle.block_ledger.specs.Ledger.{Ledger};
ghost use Rattle.block_ledger.specs.Traced.{codes_of};
ghost use Rattle.region_laws.specs.Heap.{HeapIsData};
ghost use Rattle.region_laws.specs.Standing.{AllStand, AreThere};
ghost use Rattle.guest_proc.specs.Kept.{process_of, scheme_of};
ghost use Rattle.guest_proc.specs.Maps.{AreClear, Enters, Places, Placing, StandsNow};

use crate::process::Proc;
use crate::running::Running;
use block_book::Book;
use elf_map::Elf;
use guest_mem::Mem;
use plain_machine::MemErr;
use std::alloc::AllocError;

impl<B: Book> Proc<B> {
    /// Places a file for a module, which is mapped from it then; false where it is refused. Where no program was entered it
    /// enters this one: false too where it has no entry.
    pub fn place(
        &mut self,
        module: u32,
        file: u32,
        elf: &Elf,
        base: u32,
    ) -> Result<bool, AllocError>
        ensures places { self.old.entered ≡ true → IfOk result (Places elf.now base «module» file (process_of self.old.at (B.ledger self.old.book)) (process_of self.new.at (B.ledger self.new.book))) }
        ensures enters { self.old.entered ≡ false → IfOk result (Enters elf.now base «module» file (process_of self.old.at (B.ledger self.old.book)) (process_of self.new.at (B.ledger self.new.book))) }
        ensures top { IfOk result (λ placed. placed ≡ true → top_of elf.now base ≤ 4294967295) }
        ensures stand { IfOk result (λ placed. placed ≡ true → AllStand self.new.at.mem self.new.at.io.heap (base_of elf.now base) elf.now.segments) }
        ensures there { IfOk result (λ placed. placed ≡ true → AreThere (codes_of elf.now base) self.new.at.mem) }
        ensures clear { IfOk result (λ placed. placed ≡ true → AreClear (codes_of elf.now base) (B.ledger self.new.book)) }
        ensures entered { IfOk result (λ placed. self.new.entered ≡ (self.old.entered || placed)) }
        ensures spent { self.old.spent ≡ true → IsErr result }
        ensures after { OnErr result (self.new.spent ≡ true) }
        ensures lasts { OnOk result (self.new.spent ≡ self.old.spent) }
        ensures scheme { scheme_of self.new.at self.new.limits ≡ scheme_of self.old.at self.old.limits }
    {
        if self.spent {
            return Err(AllocError);
        }
        self.spent = true;
        let placed = come(self.entered, &mut self.at, module, file, elf, base)?;
        self.spent = false;
        self.entered = either(self.entered, placed);
        Ok(placed)
    }
}

fn either(a: bool, b: bool) -> bool
    ensures { result ≡ (a || b) }
{
    a || b
}

// Places a file for a module: beside what runs, where that was entered, or as the program that is to be run.
fn come(
    entered: bool,
    at: &mut Running,
    module: u32,
    file: u32,
    elf: &Elf,
    base: u32,
) -> Result<bool, AllocError>
    requires inert { HeapIsData at.old.io.heap at.old.mem }
    ensures places { entered ≡ true → IfOk result (λ placed. (led : Ledger) → Places elf.now base «module» file (process_of at.old led) (process_of at.new led) placed) }
    ensures enters { entered ≡ false → IfOk result (λ placed. (led : Ledger) → Enters elf.now base «module» file (process_of at.old led) (process_of at.new led) placed) }
    ensures stands { IfOk result (λ placed. placed ≡ true → StandsNow elf.now base at.old.mem at.new.mem at.new.io.heap) }
    ensures report { at.new.report ≡ at.old.report }
{
    if entered {
        place_more(at, module, file, elf, base)
    } else {
        enter(at, module, file, elf, base)
    }
}

// Places a file for a module beside what runs; false where it is refused.
fn place_more(
    at: &mut Running,
    module: u32,
    file: u32,
    elf: &Elf,
    base: u32,
) -> Result<bool, AllocError>
    requires inert { HeapIsData at.old.io.heap at.old.mem }
    ensures places { IfOk result (λ placed. (led : Ledger) → Places elf.now base «module» file (process_of at.old led) (process_of at.new led) placed) }
    ensures stands { IfOk result (λ placed. placed ≡ true → StandsNow elf.now base at.old.mem at.new.mem at.new.io.heap) }
    ensures report { at.new.report ≡ at.old.report }
{
    if !place_file(elf, base, &mut at.mem)? {
        return Ok(false);
    }
    at.io.mark_mapped(module, file)?;
    Ok(true)
}

// Places the program that is to be run, and enters it; false where it is refused, or has no entry.
fn enter(at: &mut Running, module: u32, file: u32, elf: &Elf, base: u32) -> Result<bool, AllocError>
    ensures enters { IfOk result (λ placed. (led : Ledger) → Enters elf.now base «module» file (process_of at.old led) (process_of at.new led) placed) }
    ensures stands { IfOk result (λ placed. placed ≡ true → StandsNow elf.now base at.old.mem at.new.mem at.new.io.heap) }
    ensures report { at.new.report ≡ at.old.report }
{
    let Some(entry) = elf.entry(base) else {
        return Ok(false);
    };
    if !place_file(elf, base, &mut at.mem)? {
        return Ok(false);
    }
    at.io.mark_mapped(module, file)?;
    at.io.start_heap(heap_from(elf.top(base)));
    at.cpu.pc = entry;
    Ok(true)
}

// Whether the file is placed; else it is refused, and the memory is as it was.
fn place_file(elf: &Elf, base: u32, mem: &mut Mem) -> Result<bool, AllocError>
    ensures placing { IfOk result (Placing (placed elf.now base mem.old) mem.old mem.new) }
    ensures top { IfOk result (λ placed. placed ≡ true → top_of elf.now base ≤ 4294967295) }
    ensures memory { IfOk result (λ placed. IsMemory mem.new) }
{
    let placed = elf.place(base, mem);
    let _ = mem.code_at(0);
    match placed {
        Ok(()) => Ok(true),
        Err(e) => match e {
            MemErr::Memory => Err(AllocError),
            MemErr::Overlap => Ok(false),
            MemErr::OverLimit => Ok(false),
            MemErr::PastEnd => Ok(false),
            MemErr::NotMapped => Ok(false),
        },
    }
}

// Where the heap begins behind the program, if there is room for one.
fn heap_from(top: u32) -> Option<u32>
    ensures { option_map (λ at. record { start = at; end = at }) result ≡ heap_of top }
{
    let start = (u64::from(top) + 15) / 16 * 16;
    if start > u64::from(u32::MAX) {
        None
    } else {
        Some(start as u32)
    }
}
