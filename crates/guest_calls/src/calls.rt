ghost use Rattle.std.specs.Prelude.{◌≡◌, ◌<◌, ◌≤◌, ◌^◌, ◌-◌, IfOk, OnErr, None, MatchResult};
ghost use Rattle.guest_mem.specs.Results.{RefusedFor};
ghost use Rattle.plain_machine.specs.Memory.{Memory};
ghost use Rattle.plain_machine.specs.Step.{reg};
ghost use Rattle.plain_machine.specs.Calls.{behind, brk_call, called, counted, if_left, map_call, replace_call, unmap_call, given, heap_refusal, with_heap, read_call, write_call};

use crate::io::GuestIo;
use cc_base::Span;
use guest_mem::Mem;
use plain_machine::{Asked, Cpu, Flags, Heap, MemErr};
use std::alloc::AllocError;

/// The most bytes of output.
const OUTPUT_LIMIT: usize = 1_048_576;

/// The most map calls of a guest.
const MAP_LIMIT: u32 = 128;

/// Does the system call that the processor asks for: its number is in x17, its arguments are in x10 to x12, and its
/// result is put into x10. For `Map`, `Unmap` and `Replace` the caller puts the result. Except after `Exit` and
/// `OutputFull`, the program counter is behind the call. Want of memory leaves all as it was.
pub fn ask(cpu: &mut Cpu, mem: &mut Mem, io: &mut GuestIo) -> Result<Asked, AllocError>
    ensures wants { OnErr result ((cpu.new ≡ cpu.old) × (mem.new ≡ mem.old) × (io.new ≡ io.old)) }
    ensures called { IfOk result (λ asked. (asked, cpu.new, mem.new, io.new) ≡ called cpu.old mem.old io.old) }
{
    match cpu.regs.get(17) {
        63 => Ok(read(cpu, mem, io)),
        64 => write(cpu, mem, io),
        93 | 94 => Ok(Asked::Exit((cpu.regs.get(10) % 256) as u8)),
        214 => brk(cpu, mem, io),
        1000 => Ok(map(cpu, io)),
        1001 => Ok(unmap(cpu, io)),
        1002 => Ok(replace(cpu, io)),
        _ => Ok(give_back(cpu, minus(38))),
    }
}

fn minus(n: u32) -> u32
    requires { 0 < n }
    ensures { result ≡ 2 ^ 32 - n }
{
    u32::MAX - n + 1
}

/// Sets the result, and goes on.
fn give(cpu: &mut Cpu, value: u32)
    ensures { cpu.new ≡ given cpu.old value }
{
    cpu.regs.set(10, value);
    cpu.pc = cpu.pc.wrapping_add(4);
}

fn give_back(cpu: &mut Cpu, value: u32) -> Asked
    ensures asked { result ≡ Asked.Back None }
    ensures cpu { cpu.new ≡ given cpu.old value }
{
    give(cpu, value);
    Asked::Back(None)
}

fn read(cpu: &mut Cpu, mem: &mut Mem, io: &mut GuestIo) -> Asked
    ensures { (result, cpu.new, mem.new, io.new) ≡ read_call cpu.old mem.old io.old }
{
    if cpu.regs.get(10) != 0 {
        return give_back(cpu, minus(9));
    }
    let buf = cpu.regs.get(11);
    let n = (cpu.regs.get(12) as usize).min(io.input().len());
    if n == 0 {
        return give_back(cpu, 0);
    }
    match mem.copy_in(buf, &io.input()[..n]) {
        Err(_) => give_back(cpu, minus(14)),
        Ok(()) => {
            io.take_input(n);
            let span = Span {
                start: buf,
                len: n as u32,
            };
            give(cpu, n as u32);
            if mem.touches_code(span) {
                Asked::Back(Some(span))
            } else {
                Asked::Back(None)
            }
        }
    }
}

fn write(cpu: &mut Cpu, mem: &Mem, io: &mut GuestIo) -> Result<Asked, AllocError>
    ensures wants { OnErr result ((cpu.new ≡ cpu.old) × (io.new ≡ io.old)) }
    ensures called { IfOk result (λ asked. (asked, cpu.new, mem.now, io.new) ≡ write_call cpu.old mem.now io.old) }
{
    let fd = cpu.regs.get(10);
    if fd != 1 && fd != 2 {
        return Ok(give_back(cpu, minus(9)));
    }
    let len = cpu.regs.get(12);
    if len == 0 {
        return Ok(give_back(cpu, 0));
    }
    let Ok(bytes) = mem.bytes(cpu.regs.get(11), len) else {
        return Ok(give_back(cpu, minus(14)));
    };
    if io.output().len() + len as usize > OUTPUT_LIMIT {
        return Ok(Asked::OutputFull);
    }
    io.write(bytes)?;
    Ok(give_back(cpu, len))
}

fn brk(cpu: &mut Cpu, mem: &mut Mem, io: &mut GuestIo) -> Result<Asked, AllocError>
    ensures wants { OnErr result ((cpu.new ≡ cpu.old) × (mem.new ≡ mem.old) × (io.new ≡ io.old)) }
    ensures called { IfOk result (λ asked. (asked, cpu.new, mem.new, io.new) ≡ brk_call cpu.old mem.old io.old) }
{
    let Some(heap) = io.heap() else {
        return Ok(give_back(cpu, minus(12)));
    };
    let end = cpu.regs.get(10);
    if end < heap.start {
        return Ok(give_back(cpu, heap.end));
    }
    match make_heap(mem, heap, end - heap.start) {
        Ok(()) => {
            io.set_heap(Heap {
                start: heap.start,
                end,
            });
            Ok(give_back(cpu, end))
        }
        Err(MemErr::Memory) => Err(AllocError),
        Err(_) => Ok(give_back(cpu, heap.end)),
    }
}

/// Makes the heap this long. An empty heap has no region.
fn make_heap(mem: &mut Mem, heap: Heap, len: u32) -> Result<(), MemErr>
    ensures refused { RefusedFor (heap_refusal mem.old heap len) result }
    ensures made { MatchResult result (λ _. mem.new ≡ with_heap mem.old heap len) (λ _. mem.new ≡ mem.old) }
{
    if heap.start != heap.end {
        return mem.resize(heap.start, len);
    }
    if len == 0 {
        mem.laws();
        return Ok(());
    }
    let flags = Flags {
        read: true,
        write: true,
        execute: false,
    };
    mem.add(heap.start, flags, &[], len)
}

fn map(cpu: &mut Cpu, io: &mut GuestIo) -> Asked
    ensures { (m : Memory) → (result, cpu.new, m, io.new) ≡ if_left cpu.old m io.old (map_call cpu.old m (counted io.old) (reg cpu.old 10)) }
{
    if io.map_calls() >= MAP_LIMIT {
        return give_back(cpu, minus(12));
    }
    io.count_map_call();
    let module = cpu.regs.get(10);
    if io.is_mapped(module) {
        return give_back(cpu, minus(17));
    }
    ask_outside(cpu, Asked::Map(module))
}

fn unmap(cpu: &mut Cpu, io: &mut GuestIo) -> Asked
    ensures { (m : Memory) → (result, cpu.new, m, io.new) ≡ if_left cpu.old m io.old (unmap_call cpu.old m (counted io.old) (reg cpu.old 10)) }
{
    if io.map_calls() >= MAP_LIMIT {
        return give_back(cpu, minus(12));
    }
    io.count_map_call();
    let module = cpu.regs.get(10);
    if !io.is_mapped(module) {
        return give_back(cpu, minus(22));
    }
    ask_outside(cpu, Asked::Unmap(module))
}

fn replace(cpu: &mut Cpu, io: &mut GuestIo) -> Asked
    ensures { (m : Memory) → (result, cpu.new, m, io.new) ≡ if_left cpu.old m io.old (replace_call cpu.old m (counted io.old) (reg cpu.old 10) (reg cpu.old 11)) }
{
    if io.map_calls() >= MAP_LIMIT {
        return give_back(cpu, minus(12));
    }
    io.count_map_call();
    let (module, file) = (cpu.regs.get(10), cpu.regs.get(11));
    ask_outside(cpu, Asked::Replace(module, file))
}

/// Goes on behind the call, and leaves its result to the caller.
fn ask_outside(cpu: &mut Cpu, asked: Asked) -> Asked
    ensures asked { result ≡ asked }
    ensures behind { cpu.new ≡ behind cpu.old }
{
    cpu.pc = cpu.pc.wrapping_add(4);
    asked
}
