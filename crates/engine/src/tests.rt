ghost use Rattle.std.specs.Prelude.{◌≡◌, ◌<◌, length, true};
ghost use Rattle.engine.specs.Standing.{StandsIn};

use super::*;
use cc_base::Span;
use fragment::{Exit, Fragment, Probe, same_as_built};
use guest_mem::{Flags, Mem};
use plain_machine::{Cpu, Kind, Regs};
use probe_tools::{Event, ProbeKind, Tool};
use report::Report;
use rv_decode::{Isa, decode};
use std::alloc::Global;
use std::test::Fail;

const CODE: u32 = 0x1_0000;

const BEGIN: Probe = Probe {
    place: 0,
    kind: ProbeKind::Block,
};

const fn probe(place: u8, kind: ProbeKind) -> Probe {
    Probe { place, kind }
}

// The words of a block, which are the whole code; its probes and exits, by the rules; and its tool.
#[derive(Clone, Copy)]
struct Block<'a> {
    tool: Tool,
    words: &'a [u32],
    probes: &'a [Probe],
    exits: &'a [Exit],
}

// How a block was left, and the fuel, the program counter and register 5 after it.
#[derive(Clone, Copy, Debug, PartialEq, Eq)]
struct Seen {
    left: Left,
    fuel: u64,
    pc: u32,
    x5: u32,
}

fn left_so(left: Left, fuel: u64, pc: u32, x5: u32) -> Seen {
    Seen { left, fuel, pc, x5 }
}

// A store met the word at this address.
fn met(start: u32) -> Left
    requires { start < 4294967292 }
{
    Left::Touched(Span { start, len: 4 })
}

// Whether the block is the one that is built where it stands in memory.
fn stands(mem: &Mem, isa: Isa, tool: Tool, block: &Fragment) -> bool
    ensures { result ≡ true → StandsIn mem.now isa tool (length block.now.words) block.now }
{
    let count = block.words().len();
    if count == 0 || count > 64 {
        return false;
    }
    let Some(code) = mem.code_at(block.addr()) else {
        return false;
    };
    same_as_built(block, code, isa, tool, count as u8)
}

// Runs a block, and appends the rows that its report has then.
fn run(
    alloc: Global,
    write: bool,
    block: Block<'_>,
    fuel: u64,
    text: &mut Vec<u8>,
) -> Result<Seen, Fail>
    requires { 0 < fuel }
{
    let mut bytes = Vec::new(alloc);
    for word in block.words {
        bytes.extend_from_slice(&word.to_le_bytes())?;
    }
    if bytes.is_empty() || bytes.len() > 1000 {
        return Err(Fail::from("no words, or too many"));
    }
    let mut mem = Mem::new(alloc);
    let flags = Flags {
        read: true,
        write,
        execute: true,
    };
    mem.add(CODE, flags, &bytes, bytes.len() as u32)?;
    let f = Fragment::of(alloc, CODE, block.words, block.probes, block.exits)?;
    if !stands(&mem, Isa::I, block.tool, &f) {
        return Err(Fail::from("not the block that is built"));
    }
    let mut cpu = Cpu {
        pc: CODE,
        isa: Isa::I,
        regs: Regs::new(),
    };
    let mut report = Report::new(alloc, block.tool);
    let mut rest = fuel;
    let left = run_block(&f, &mut cpu, &mut mem, &mut report, &mut rest)?;
    report.write_text(alloc, text)?;
    Ok(Seen {
        left,
        fuel: rest,
        pc: cpu.pc,
        x5: cpu.regs.get(5),
    })
}

// ADDI x5, x0, 1000; ADDI x5, x5, -1; BNE x5, x0, -4.
#[test]
fn a_block_is_left_by_its_exit_or_for_want_of_fuel(rt: HostRuntime) -> Result<(), Fail> {
    let alloc = rt.alloc();
    let countdown = Block {
        tool: Tool::Blocks,
        words: &[0x3e80_0293, 0xfff2_8293, 0xfe02_9ee3],
        probes: &[BEGIN],
        exits: &[Exit::Direct(0x1_0004), Exit::Direct(0x1_000c)],
    };
    let branch = Block {
        tool: Tool::Blocks,
        words: &[0xfe02_9ee3],
        probes: &[BEGIN],
        exits: &[Exit::Direct(0xfffc), Exit::Direct(0x1_0004)],
    };
    let plain = Block {
        tool: Tool::Blocks,
        words: &[0x3e80_0293],
        probes: &[BEGIN],
        exits: &[Exit::Direct(0x1_0004)],
    };
    for (block, fuel, want) in [
        (countdown, 10, left_so(Left::Exit(0), 7, 0x1_0004, 999)),
        (countdown, 3, left_so(Left::Exit(0), 0, 0x1_0004, 999)),
        (countdown, 2, left_so(Left::Fuel, 0, 0x1_0008, 999)),
        (countdown, 1, left_so(Left::Fuel, 0, 0x1_0004, 1000)),
        (branch, 5, left_so(Left::Exit(1), 4, 0x1_0004, 0)),
        (plain, 5, left_so(Left::Exit(0), 4, 0x1_0004, 1000)),
    ] {
        let mut text = Vec::new(alloc);
        let seen = run(alloc, false, block, fuel, &mut text)?;
        assert_eq!(rt; seen, want, "{fuel}");
        assert_eq!(rt; text.as_slice(), b"00010000 1\n".as_slice());
    }
    Ok(())
}

// LUI x5, 10000; LW x6, 16(x5); SW x0, 16(x5); SW x6, 16(x5); ADDI x17, x0, 93; ECALL. The first word that is stored into
// stands in the same block, two words on.
#[test]
fn self_overwrite(rt: HostRuntime) -> Result<(), Fail> {
    let alloc = rt.alloc();
    let block = Block {
        tool: Tool::Memory,
        words: &[
            0x0001_02b7,
            0x0102_a303,
            0x0002_a823,
            0x0062_a823,
            0x05d0_0893,
            0x0000_0073,
        ],
        probes: &[
            probe(1, ProbeKind::Load),
            probe(2, ProbeKind::Store),
            probe(3, ProbeKind::Store),
        ],
        exits: &[Exit::Asks(0x1_0018)],
    };
    for (fuel, rest) in [(10, 7), (3, 0)] {
        let mut text = Vec::new(alloc);
        let seen = run(alloc, true, block, fuel, &mut text)?;
        assert_eq!(rt; seen, left_so(met(0x1_0010), rest, 0x1_000c, 0x1_0000));
        let rows = b"00010000 load 1\n00010000 store 1\n".as_slice();
        assert_eq!(rt; text.as_slice(), rows, "{fuel}");
    }
    let mut text = Vec::new(alloc);
    let short = run(alloc, true, block, 2, &mut text)?;
    assert_eq!(rt; short, left_so(Left::Fuel, 0, 0x1_0008, 0x1_0000));
    assert_eq!(rt; text.as_slice(), b"00010000 load 1\n".as_slice());
    Ok(())
}

// AUIPC x5, 0, and a load: LW x6, -4(x5), where nothing is; LW x5, 0(x5), which writes over its address.
#[test]
fn a_load_is_counted_before_it_is_done(rt: HostRuntime) -> Result<(), Fail> {
    let alloc = rt.alloc();
    for (load, want, rows) in [
        (
            0xffc2_a303,
            left_so(Left::Fault(Kind::Load), 3, 0x1_0004, 0x1_0000),
            b"0000FFC0 load 1\n".as_slice(),
        ),
        (
            0x0002_a283,
            left_so(Left::Exit(0), 3, 0x1_0008, 0x297),
            b"00010000 load 1\n".as_slice(),
        ),
    ] {
        let block = Block {
            tool: Tool::Memory,
            words: &[0x0000_0297, load],
            probes: &[probe(1, ProbeKind::Load)],
            exits: &[Exit::Direct(0x1_0008)],
        };
        let mut text = Vec::new(alloc);
        let seen = run(alloc, false, block, 5, &mut text)?;
        assert_eq!(rt; seen, want);
        assert_eq!(rt; text.as_slice(), rows);
    }
    Ok(())
}

// AUIPC x5, 0, and: JAL x1, 12; JAL x0, 12; JAL x1, 6; JALR x5, 0(x5), which writes over its target; ECALL.
#[test]
fn calls_are_counted_where_they_link(rt: HostRuntime) -> Result<(), Fail> {
    let alloc = rt.alloc();
    let call = [probe(1, ProbeKind::Call)];
    for (jump, probes, exit, want, rows) in [
        (
            0x00c0_00ef,
            call.as_slice(),
            Exit::Direct(0x1_0010),
            left_so(Left::Exit(0), 3, 0x1_0010, 0x1_0000),
            b"00010010 1\n".as_slice(),
        ),
        (
            0x00c0_006f,
            [].as_slice(),
            Exit::Direct(0x1_0010),
            left_so(Left::Exit(0), 3, 0x1_0010, 0x1_0000),
            b"".as_slice(),
        ),
        (
            0x0060_00ef,
            call.as_slice(),
            Exit::Direct(0x1_000a),
            left_so(Left::Fault(Kind::Misaligned), 3, 0x1_0004, 0x1_0000),
            b"0001000A 1\n".as_slice(),
        ),
        (
            0x0002_82e7,
            call.as_slice(),
            Exit::Indirect,
            left_so(Left::Exit(0), 3, 0x1_0000, 0x1_0008),
            b"00010000 1\n".as_slice(),
        ),
        (
            0x0000_0073,
            [].as_slice(),
            Exit::Asks(0x1_0008),
            left_so(Left::Asked, 3, 0x1_0004, 0x1_0000),
            b"".as_slice(),
        ),
    ] {
        let block = Block {
            tool: Tool::Calls,
            words: &[0x0000_0297, jump],
            probes,
            exits: &[exit],
        };
        let mut text = Vec::new(alloc);
        let seen = run(alloc, false, block, 5, &mut text)?;
        assert_eq!(rt; seen, want, "{jump:08X}");
        assert_eq!(rt; text.as_slice(), rows, "{jump:08X}");
    }
    Ok(())
}

// SB x6, -1(x5); LHU x6, 2(x5); JALR x1, 3(x5); ADDI x5, x5, -1; where x5 is 0.
#[test]
fn events_have_the_addresses_before_the_word(rt: HostRuntime) {
    let cpu = Cpu {
        pc: CODE,
        isa: Isa::I,
        regs: Regs::new(),
    };
    for (word, access, call) in [
        (0xfe62_8fa3, Some((0xffff_ffff, 1, true)), None),
        (0x0022_d303, Some((2, 2, false)), None),
        (0x0032_80e7, None, Some(2)),
        (0xfff2_8293, None, None),
    ] {
        let ins = decode(word, Isa::I);
        let mem = access.map(|(addr, size, store)| Event::Mem {
            at: CODE,
            addr,
            size,
            store,
        });
        assert!(rt; event_of_access(ins, &cpu) == mem, "{word:08X}");
        let to = call.map(|to| Event::Call { at: CODE, to });
        assert!(rt; event_of_call(ins, &cpu) == to, "{word:08X}");
    }
}
