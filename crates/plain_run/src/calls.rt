// System calls, and the answers to those on the one module.
ghost use Rattle.std.specs.Prelude.{◌≡◌, ◌≢◌, ◌≤◌, ◌<◌, ◌%◌, ◌^◌, ◌-◌, ◌++◌, ◌⊎◌, ℕ, [], ◌∷◌, length, List, find, true, None, Some, IfOk, OnOk, OnErr, MatchOption, is_some};
ghost use Rattle.plain_machine.specs.Calls.{called, is_mapped, is_module, minus};
ghost use Rattle.plain_machine.specs.Io.{Io};
ghost use Rattle.plain_machine.specs.Memory.{Memory};
ghost use Rattle.plain_machine.specs.Own.{taken_by, files_after, replaced};
ghost use Rattle.plain_machine.specs.Program.{Program, placed, top_of};
ghost use Rattle.plain_machine.specs.Registers.{with_register};
ghost use Rattle.plain_machine.specs.Machine.{Maps as MapsTo, To, after_replace, unmap_module};
ghost use Rattle.engine.specs.Standing.{state};
ghost use Rattle.plain_run.specs.Plain.{one_module};
ghost use Rattle.plain_run.specs.Known.{AreKnown};
ghost use Rattle.plain_run.specs.Answer.{Answers, Maps, Placing};

use cc_base::Span;
use elf_map::Elf;
use guest_calls::{GuestIo, ask};
use guest_mem::{Mem, MemErr};
use plain_machine::{Asked, Cpu, End, Kind};
use std::alloc::AllocError;

/// Does the system call at the program counter. The calls on modules are answered for the one module, number 0, which
/// stands at `base` and is now the file of this number. It answers the end where the call ends the guest. `maps` gains
/// the map answers that the call took; where memory was wanting it may have gained one.
pub fn answer(
    elfs: &[Elf],
    base: u32,
    cpu: &mut Cpu,
    mem: &mut Mem,
    io: &mut GuestIo,
    file: &mut u32,
    maps: &mut Vec<u32>,
) -> Result<Option<End>, AllocError>
    requires known { AreKnown elfs.now base io.old.mapped }
    requires file { file.old < length elfs.now }
    requires aligned { cpu.old.pc % 4 ≡ 0 }
    ensures answers { IfOk result (Answers (one_module elfs.now base) (state cpu.old mem.old io.old) (state cpu.new mem.new io.new) (file.old ∷ []) (file.new ∷ []) maps.old.items maps.new.items) }
    ensures wants { OnErr result ((maps.new.items ≡ maps.old.items) ⊎ (maps.new.items ≡ maps.old.items ++ file.old ∷ [])) }
    ensures known { IfOk result (λ end. AreKnown elfs.now base io.new.mapped) }
    ensures file { file.new < length elfs.now }
    ensures aligned { IfOk result (λ end. end ≡ None → cpu.new.pc % 4 ≡ 0) }
{
    let pc = cpu.pc;
    match ask(cpu, mem, io)? {
        Asked::Back(span) => {
            let _: Option<Span> = span;
            Ok(None)
        }
        Asked::Exit(status) => Ok(Some(End::Exit(status))),
        Asked::OutputFull => Ok(Some(End::Fault {
            kind: Kind::Output,
            pc,
        })),
        Asked::Map(module) => {
            map(elfs, base, cpu, mem, io, *file, maps, module)?;
            Ok(None)
        }
        Asked::Unmap(module) => {
            unmap(elfs, base, cpu, mem, io, module);
            Ok(None)
        }
        Asked::Replace(module, other) => {
            replace(elfs, cpu, file, module, other);
            Ok(None)
        }
    }
}

fn minus(n: u32) -> u32
    requires { 0 < n }
    ensures { result ≡ 2 ^ 32 - n }
{
    u32::MAX - n + 1
}

// The result of a call.
fn set_result(cpu: &mut Cpu, value: u32)
    ensures { cpu.new ≡ record cpu.old { regs = with_register cpu.old.regs 10 value } }
{
    cpu.regs.set(10, value);
}

fn map(
    elfs: &[Elf],
    base: u32,
    cpu: &mut Cpu,
    mem: &mut Mem,
    io: &mut GuestIo,
    file: u32,
    maps: &mut Vec<u32>,
    module: u32,
) -> Result<(), AllocError>
    requires known { AreKnown elfs.now base io.old.mapped }
    requires file { file < length elfs.now }
    ensures maps { OnOk result (Maps (one_module elfs.now base) «module» (state cpu.old mem.old io.old) (state cpu.new mem.new io.new) (taken_by (file ∷ []) (MapsTo «module» (state cpu.old mem.old io.old))) maps.old.items maps.new.items) }
    ensures wants { OnErr result ((maps.new.items ≡ maps.old.items) ⊎ (maps.new.items ≡ maps.old.items ++ file ∷ [])) }
    ensures known { OnOk result (AreKnown elfs.now base io.new.mapped) }
    ensures pc { cpu.new.pc ≡ cpu.old.pc }
{
    if module != 0 {
        set_result(cpu, minus(22));
        return Ok(());
    }
    maps.push(file)?;
    if place(&elfs[file as usize], base, mem)? {
        io.mark_mapped(0, file)?;
        set_result(cpu, 0);
    } else {
        set_result(cpu, minus(12));
    }
    Ok(())
}

/// Whether the program is placed; else it is refused, and the memory is as it was.
pub fn place(elf: &Elf, base: u32, mem: &mut Mem) -> Result<bool, AllocError>
    ensures placing { IfOk result (Placing mem.old (placed elf.now base mem.old) mem.new) }
    ensures top { IfOk result (λ placed. placed ≡ true → top_of elf.now base ≤ 4294967295) }
{
    match elf.place(base, mem) {
        Ok(()) => Ok(true),
        Err(e) => match e {
            MemErr::Memory => Err(AllocError),
            MemErr::Overlap => Ok(false),
            MemErr::OverLimit => Ok(false),
            MemErr::PastEnd => Ok(false),
            MemErr::NotMapped => Ok(false),
        },
    }
}

// The regions of the module go, which is mapped.
fn unmap(elfs: &[Elf], base: u32, cpu: &mut Cpu, mem: &mut Mem, io: &mut GuestIo, module: u32)
    requires known { AreKnown elfs.now base io.old.mapped }
    requires mapped { is_mapped io.old «module» ≡ true }
    ensures goes { (answers : List ℕ) → unmap_module (one_module elfs.now base) (state cpu.old mem.old io.old) «module» answers ≡ To (state cpu.new mem.new io.new) answers }
    ensures known { AreKnown elfs.now base io.new.mapped }
    ensures pc { cpu.new.pc ≡ cpu.old.pc }
{
    let Some(file) = io.file_of(module) else {
        return;
    };
    elfs[file as usize].unplace(base, mem);
    io.mark_unmapped(module);
    set_result(cpu, 0);
}

// The module is to be another file, where both numbers are in range.
fn replace(elfs: &[Elf], cpu: &mut Cpu, file: &mut u32, module: u32, other: u32)
    requires { file.old < length elfs.now }
    ensures state { (base : ℕ) (m : Memory) (io : Io) → state cpu.new m io ≡ after_replace (one_module elfs.now base) (state cpu.old m io) «module» other }
    ensures files { (base : ℕ) → file.new ∷ [] ≡ replaced (one_module elfs.now base) (file.old ∷ []) «module» other }
    ensures file { file.new < length elfs.now }
    ensures pc { cpu.new.pc ≡ cpu.old.pc }
{
    if module == 0 && (other as usize) < elfs.len() {
        *file = other;
        set_result(cpu, 0);
    } else {
        set_result(cpu, minus(22));
    }
}
