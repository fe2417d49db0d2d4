// A process before its program is placed.
ghost use Rattle.std.specs.Prelude.{◌≡◌, ◌≤◌, ◌<◌, ◌∷◌, [], false, IfOk};
ghost use Rattle.plain_machine.specs.Machine.{first_registers, stack_of};
ghost use Rattle.block_ledger.specs.Ledger.{new_ledger};
ghost use Rattle.guest_proc.specs.Kept.{process_of, scheme_of};
ghost use Rattle.guest_proc.specs.Started.{first_process, scheme_for};

use crate::process::Proc;
use crate::running::{Limits, Running, Setup};
use block_book::Book;
use guest_calls::GuestIo;
use guest_mem::{Flags, Mem};
use plain_machine::{Cpu, Regs};
use report::Report;
use rv_decode::Isa;
use std::alloc::{AllocError, Global};

/// Where the stack ends.
const STACK_END: u32 = 0x8000_0000;

/// The stack pointer at the start.
const STACK_POINTER: u32 = 0x7fff_ffc0;

impl<B: Book + Drop> Proc<B> {
    /// A process with nothing placed: it has its stack alone, and its input. Nothing has happened to its book.
    pub fn start(alloc: Global, setup: Setup, book: B) -> Result<Self, AllocError>
        requires new { B.ledger book ≡ new_ledger }
        ensures starts { IfOk result (λ p. process_of p.at (B.ledger p.book) ≡ first_process setup) }
        ensures scheme { IfOk result (λ p. scheme_of p.at p.limits ≡ scheme_for setup) }
        ensures spent { IfOk result (λ p. p.spent ≡ false) }
        ensures entered { IfOk result (λ p. p.entered ≡ false) }
    {
        let limits = Limits {
            max: setup.max,
            pool: setup.pool,
        };
        let at = first(alloc, setup)?;
        Ok(Proc {
            alloc,
            at,
            limits,
            book,
            spent: false,
            entered: false,
        })
    }
}

// What runs, before a program is placed.
fn first(alloc: Global, setup: Setup) -> Result<Running, AllocError>
    ensures { IfOk result (λ at. process_of at new_ledger ≡ first_process setup) }
{
    let mem = with_stack(alloc, setup.stack)?;
    let io = GuestIo::new(alloc, setup.input.items(), None)?;
    Ok(Running {
        cpu: first_cpu(setup.isa),
        mem,
        io,
        report: Report::new(alloc, setup.tool),
        fuel: setup.fuel,
    })
}

// A memory that has the stack alone.
fn with_stack(alloc: Global, size: u32) -> Result<Mem, AllocError>
    requires some { 0 < size }
    requires fits { size ≤ 1048576 }
    ensures { IfOk result (λ m. m ≡ stack_of size ∷ []) }
{
    let mut mem = Mem::new(alloc);
    let flags = Flags {
        read: true,
        write: true,
        execute: false,
    };
    match mem.add(STACK_END - size, flags, &[], size) {
        Ok(()) => Ok(mem),
        Err(_) => Err(AllocError),
    }
}

// All registers are 0 but x2.
fn first_cpu(isa: Isa) -> Cpu
    ensures { result ≡ record { pc = 0; isa = isa; regs = first_registers } }
{
    let mut regs = Regs::new();
    regs.set(2, STACK_POINTER);
    Cpu { pc: 0, isa, regs }
}
