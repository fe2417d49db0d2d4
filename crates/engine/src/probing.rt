// Probes, and what they see.
ghost use Rattle.std.specs.Prelude.{◌≡◌, ◌<◌, ◌+◌, ◌^◌, ℕ, List, length, option_map, OnOk, OnErr};
ghost use Rattle.rv_decode.specs.declared.ins.Isa.{Isa};
ghost use Rattle.probe_tools.specs.declared.tool.Tool.{Tool as ToolOf};
ghost use Rattle.probe_tools.specs.Rows.{count_at};
ghost use Rattle.rv_decode.specs.Registers.{NamesRegisters};
ghost use Rattle.rv_decode.specs.Table.{instruction};
ghost use Rattle.plain_machine.specs.Memory.{size_of};
ghost use Rattle.plain_machine.specs.Step.{access_of, address as address_of, target_of};
ghost use Rattle.plain_machine.specs.Events.{access_event};
ghost use Rattle.fragment.specs.Probing.{probe_at, probes_before, probes_of};
ghost use Rattle.engine.specs.Seeing.{LacksRow, probe_count, seen_by, seen_with, with_events};

use fragment::Probe;
use plain_machine::{Cpu, Size};
use probe_tools::{Event, ProbeKind};
use report::Report;
use rv_decode::{Ins, decode};
use std::alloc::AllocError;

/// The probe before the word at this place, of the probes of a block, the first `next` of which stand before it.
#[inline(always)]
pub fn kind_at(probes: &[Probe], next: usize, place: usize) -> Option<ProbeKind>
    ensures { (tool : ToolOf) (isa : Isa) (words : List ℕ) → probes.now ≡ probes_of tool isa words → next ≡ length (probes_before tool isa words place) → place < length words →
        result ≡ probe_at tool isa words place }
{
    if next < probes.len() {
        let probe = probes[next];
        if usize::from(probe.place) == place {
            return Some(probe.kind);
        }
    }
    None
}

/// How many probes stand at a place.
#[inline(always)]
pub fn probe_count(kind: Option<ProbeKind>) -> usize
    ensures { result ≡ probe_count kind }
{
    match kind {
        None => 0,
        Some(_) => 1,
    }
}

/// Counts what is seen before a word, where a probe may stand.
#[inline(always)]
pub fn see(
    report: &mut Report,
    kind: Option<ProbeKind>,
    cpu: &Cpu,
    word: u32,
) -> Result<(), AllocError>
    requires { (key : ℕ) → count_at report.old.counts key + 1 < 2 ^ 64 }
    ensures ok { OnOk result (report.new ≡ with_events (seen_with kind cpu.now (instruction cpu.now.isa word)) report.old) }
    ensures same { OnErr result (report.new ≡ report.old) }
    ensures lacks { OnErr result (LacksRow (seen_with kind cpu.now (instruction cpu.now.isa word)) report.old.counts) }
{
    let Some(kind) = kind else {
        return Ok(());
    };
    let Some(event) = event_of(kind, cpu, word) else {
        return Ok(());
    };
    report.add(&event)
}

// What a probe sees before a word.
fn event_of(kind: ProbeKind, cpu: &Cpu, word: u32) -> Option<Event>
    ensures { result ≡ seen_by kind cpu.now (instruction cpu.now.isa word) }
{
    match kind {
        ProbeKind::Block => Some(Event::Block { at: cpu.pc }),
        ProbeKind::Call => event_of_call(decode(word, cpu.isa), cpu),
        ProbeKind::Load => event_of_access(decode(word, cpu.isa), cpu),
        ProbeKind::Store => event_of_access(decode(word, cpu.isa), cpu),
    }
}

/// The event of a jump that is a call: the address that it jumps to, computed before it. None where the instruction is no
/// JAL and no JALR.
pub fn event_of_call(ins: Ins, cpu: &Cpu) -> Option<Event>
    requires { NamesRegisters ins }
    ensures { result ≡ option_map (Event.Call cpu.now.pc) (target_of ins cpu.now) }
{
    let to = match ins {
        Ins::Jal { imm, .. } => cpu.pc.wrapping_add(imm.cast_unsigned()),
        Ins::Jalr { rs1, imm, .. } => address(cpu, rs1, imm) / 2 * 2,
        _ => return None,
    };
    Some(Event::Call { at: cpu.pc, to })
}

/// The event of a load or a store, at the address that it is to reach. None where the instruction is neither.
pub fn event_of_access(ins: Ins, cpu: &Cpu) -> Option<Event>
    requires { NamesRegisters ins }
    ensures { result ≡ option_map (access_event cpu.now.pc) (access_of ins cpu.now) }
{
    match ins {
        Ins::Lb { rs1, imm, .. } => Some(mem_event(cpu, rs1, imm, Size::Byte, false)),
        Ins::Lh { rs1, imm, .. } => Some(mem_event(cpu, rs1, imm, Size::Half, false)),
        Ins::Lw { rs1, imm, .. } => Some(mem_event(cpu, rs1, imm, Size::Word, false)),
        Ins::Lbu { rs1, imm, .. } => Some(mem_event(cpu, rs1, imm, Size::Byte, false)),
        Ins::Lhu { rs1, imm, .. } => Some(mem_event(cpu, rs1, imm, Size::Half, false)),
        Ins::Sb { rs1, imm, .. } => Some(mem_event(cpu, rs1, imm, Size::Byte, true)),
        Ins::Sh { rs1, imm, .. } => Some(mem_event(cpu, rs1, imm, Size::Half, true)),
        Ins::Sw { rs1, imm, .. } => Some(mem_event(cpu, rs1, imm, Size::Word, true)),
        _ => None,
    }
}

fn mem_event(cpu: &Cpu, rs1: u8, imm: i32, size: Size, store: bool) -> Event
    requires { rs1 < 32 }
    ensures { result ≡ access_event cpu.now.pc (record { address = address_of cpu.now rs1 imm; size = size; store = store }) }
{
    Event::Mem {
        at: cpu.pc,
        addr: address(cpu, rs1, imm),
        size: size.bytes() as u8,
        store,
    }
}

// A register, and an offset.
fn address(cpu: &Cpu, rs1: u8, imm: i32) -> u32
    requires { rs1 < 32 }
    ensures { result ≡ address_of cpu.now rs1 imm }
{
    cpu.regs.get(rs1).wrapping_add(imm.cast_unsigned())
}
