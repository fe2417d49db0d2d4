// A guest that runs, and its start.
ghost use Rattle.std.specs.Prelude.{◌≡◌, ◌≤◌, ◌<◌, ◌∷◌, [], length, option_map, slice_get, IfOk, IfSome};
ghost use Rattle.std.specs.FinMap as fin;
ghost use Rattle.plain_machine.specs.Program.{Program};
ghost use Rattle.plain_machine.specs.Machine.{first_registers, heap_from as heap_of, stack_of, start as start_of};
ghost use Rattle.plain_run.specs.Plain.{guest_of};
ghost use Rattle.plain_run.specs.Ready.{IsReady, state_of};

use crate::calls::place;
use crate::guest::{Module, Setup};
use elf_map::Elf;
use guest_calls::GuestIo;
use guest_mem::{Flags, Mem};
use plain_machine::{Cpu, Regs};
use report::Report;
use rv_decode::Isa;
use std::alloc::{AllocError, Global};

/// Where the stack ends.
const STACK_END: u32 = 0x8000_0000;

/// The stack pointer at the start.
const STACK_POINTER: u32 = 0x7fff_ffc0;

/// A guest that runs: its processor, memory and calls, its report, how many instructions may still be done, and the file
/// that its module is now.
#[derive(Drop)]
pub struct Process {
    pub cpu: Cpu,
    pub mem: Mem,
    pub io: GuestIo,
    pub report: Report,
    pub left: u64,
    pub file: u32,
}

/// The guest with its program placed, or none where that is refused or has no entry.
pub fn start(
    alloc: Global,
    elfs: &[Elf],
    module: Module,
    setup: &Setup,
) -> Result<Option<Process>, AllocError>
    requires { «module».file < length elfs.now }
    ensures starts { IfOk result (λ started. (program : Program) → slice_get elfs.now «module».file ≡ Some program →
        option_map state_of started ≡ start_of (guest_of setup.now) «module».file «module».base program) }
    ensures ready { IfOk result (λ started. IfSome started (λ p. IsReady elfs.now «module».base setup.now.tool p)) }
    ensures empty { IfOk result (λ started. IfSome started (λ p. (p.report.counts ≡ fin.empty) × (p.left ≡ setup.now.fuel) × (p.file ≡ «module».file))) }
{
    let elf = &elfs[module.file as usize];
    let mut mem = with_stack(alloc, setup.stack)?;
    if !place(elf, module.base, &mut mem)? {
        return Ok(None);
    }
    let Some(entry) = elf.entry(module.base) else {
        return Ok(None);
    };
    let heap = heap_from(elf.top(module.base));
    let mut io = GuestIo::new(alloc, setup.input.items(), heap)?;
    io.mark_mapped(0, module.file)?;
    Ok(Some(Process {
        cpu: first_cpu(entry, setup.isa),
        mem,
        io,
        report: Report::new(alloc, setup.tool),
        left: setup.fuel,
        file: module.file,
    }))
}

// A memory that has the stack alone.
fn with_stack(alloc: Global, size: u32) -> Result<Mem, AllocError>
    requires some { 0 < size }
    requires fits { size ≤ 1048576 }
    ensures { IfOk result (λ m. m ≡ stack_of size ∷ []) }
{
    let mut mem = Mem::new(alloc);
    let flags = Flags {
        read: true,
        write: true,
        execute: false,
    };
    match mem.add(STACK_END - size, flags, &[], size) {
        Ok(()) => Ok(mem),
        Err(_) => Err(AllocError),
    }
}

// Where the heap begins behind the program, if there is room for one.
fn heap_from(top: u32) -> Option<u32>
    ensures { option_map (λ at. record { start = at; end = at }) result ≡ heap_of top }
{
    let start = (u64::from(top) + 15) / 16 * 16;
    if start > u64::from(u32::MAX) {
        None
    } else {
        Some(start as u32)
    }
}

// All registers are 0 but x2.
fn first_cpu(entry: u32, isa: Isa) -> Cpu
    ensures { result ≡ record { pc = entry; isa = isa; regs = first_registers } }
{
    let mut regs = Regs::new();
    regs.set(2, STACK_POINTER);
    Cpu {
        pc: entry,
        isa,
        regs,
    }
}
