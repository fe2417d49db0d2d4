// A system call of a process.
ghost use Rattle.std.specs.Prelude.{◌≡◌, ◌%◌, ℕ, IfOk};
ghost use Rattle.report.specs.Rows.{Rows};
ghost use Rattle.region_laws.specs.Heap.{HeapIsData};
ghost use Rattle.guest_proc.specs.Called.{CallDone, stop_for, told};
ghost use Rattle.guest_proc.specs.Process.{process};

use crate::stop::Stop;
use block_book::Book;
use guest_calls::{GuestIo, ask};
use guest_mem::Mem;
use plain_machine::{Asked, Cpu, End, Kind};
use std::alloc::AllocError;

/// Does the call at the program counter, and tells the book what it wrote. It answers the stop that the call comes to.
pub fn call<B: Book>(
    cpu: &mut Cpu,
    mem: &mut Mem,
    io: &mut GuestIo,
    book: &mut B,
) -> Result<Option<Stop>, AllocError>
    requires aligned { cpu.old.pc % 4 ≡ 0 }
    requires inert { HeapIsData io.old.heap mem.old }
    ensures done { IfOk result (λ stop. (fuel : ℕ) (report : Rows) →
        CallDone (process cpu.old mem.old io.old fuel report (B.ledger book.old)) (process cpu.new mem.new io.new fuel report (B.ledger book.new)) stop) }
{
    let _ = mem.code_at(cpu.pc);
    let pc = cpu.pc;
    let asked = ask(cpu, mem, io)?;
    tell(&asked, book);
    Ok(stop_for(&asked, pc))
}

// Tells the book what a call wrote.
fn tell<B: Book>(asked: &Asked, book: &mut B)
    ensures { B.ledger book.new ≡ told asked.now (B.ledger book.old) }
{
    if let Asked::Back(Some(span)) = asked {
        book.write(*span);
    }
}

// The stop that a call at pc comes to.
fn stop_for(asked: &Asked, pc: u32) -> Option<Stop>
    ensures { result ≡ stop_for pc asked.now }
{
    match asked {
        Asked::Back(_) => None,
        Asked::Exit(status) => Some(Stop::Ended(End::Exit(*status))),
        Asked::Map(module) => Some(Stop::Map(*module)),
        Asked::Unmap(module) => Some(Stop::Unmap(*module)),
        Asked::Replace(module, file) => Some(Stop::Replace(*module, *file)),
        Asked::OutputFull => Some(Stop::Ended(End::Fault {
            kind: Kind::Output,
            pc,
        })),
    }
}
