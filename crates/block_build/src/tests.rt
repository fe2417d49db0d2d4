ghost use Rattle.std.specs.Prelude.{◌≡◌, ◌<◌, ◌≤◌};

use super::*;
use cc_base::{CodeView, Steps};
use fragment::{Exit, Fragment, Probe};
use probe_tools::{ProbeKind, Tool};
use rv_decode::Isa;
use std::alloc::Global;
use std::marker::Brand;
use std::sync::ledger::{Blank, Ledger};
use std::test::Fail;

const CODE: u32 = 0x1_0000;

// The block at an address of these bytes.
fn block_in<L: Ledger>(
    alloc: Global,
    bytes: &[u8],
    isa: Isa,
    tool: Tool,
    addr: u32,
    max: u8,
    blank: Blank,
) -> Result<Option<Fragment>, Fail>
    requires name { blank.name ≡ L.name }
    requires parts { blank.parts ≡ L.parts }
    requires owned { 0 < blank.parts }
    requires some { 0 < max }
    requires most { max ≤ 64 }
{
    if bytes.len() > 1000 {
        return Ok(None);
    }
    let code = CodeView { start: CODE, bytes };
    let mut steps = Steps::<L>::of(blank);
    Ok(build(alloc, code, addr, isa, tool, max, &mut steps)?)
}

// The same, as a plain maker gives it.
fn made_in<L: Ledger>(
    alloc: Global,
    bytes: &[u8],
    addr: u32,
    blank: Blank,
) -> Result<Option<Fragment>, Fail>
    requires name { blank.name ≡ L.name }
    requires parts { blank.parts ≡ L.parts }
    requires owned { 0 < blank.parts }
{
    if bytes.len() > 1000 {
        return Ok(None);
    }
    let code = CodeView { start: CODE, bytes };
    let mut steps = Steps::<L>::of(blank);
    Ok(PlainMaker.make(alloc, code, addr, Isa::I, Tool::Blocks, 16, &mut steps)?)
}

// The block at an address of a code of these words.
fn block_of(
    alloc: Global,
    words: &[u32],
    isa: Isa,
    tool: Tool,
    addr: u32,
    max: u8,
) -> Result<Option<Fragment>, Fail>
    requires some { 0 < max }
    requires most { max ≤ 64 }
{
    let mut bytes = Vec::new(alloc);
    for word in words {
        bytes.extend_from_slice(&word.to_le_bytes())?;
    }
    block_in::<Brand>(alloc, &bytes, isa, tool, addr, max, Blank::new(1))
}

// A countdown from 1000, and the end of the guest behind it.
const COUNTDOWN: [u32; 5] = [
    0x3e80_0293,
    0xfff2_8293,
    0xfe02_9ee3,
    0x05d0_0893,
    0x0000_0073,
];

const BEGIN: Probe = Probe {
    place: 0,
    kind: ProbeKind::Block,
};

#[test]
fn a_block_ends_at_a_branch_a_call_or_its_most_words(rt: HostRuntime) -> Result<(), Fail> {
    let alloc = rt.alloc();
    let again = Exit::Direct(0x1_0004);
    let behind = Exit::Direct(0x1_000c);
    let third = Exit::Direct(0x1_0008);
    for (addr, max, from, to, exits) in [
        (0x1_0000, 16, 0, 3, [again, behind].as_slice()),
        (0x1_0004, 16, 1, 3, [again, behind].as_slice()),
        (0x1_000c, 16, 3, 5, [Exit::Asks(0x1_0014)].as_slice()),
        (0x1_0000, 2, 0, 2, [third].as_slice()),
        (0x1_0000, 1, 0, 1, [again].as_slice()),
    ] {
        let block = block_of(alloc, &COUNTDOWN, Isa::I, Tool::Blocks, addr, max)?.ok_or("none")?;
        assert_eq!(rt; block.addr(), addr);
        assert_eq!(rt; block.words(), &COUNTDOWN[from..to], "{addr} {max}");
        assert_eq!(rt; block.probes(), [BEGIN].as_slice());
        assert_eq!(rt; block.exits(), exits, "{addr} {max}");
    }
    Ok(())
}

#[test]
fn each_last_word_has_its_exits(rt: HostRuntime) -> Result<(), Fail> {
    for (word, isa, exits) in [
        (0x00c0_00ef, Isa::I, [Exit::Direct(0x1_000c)].as_slice()),
        (0x0060_006f, Isa::I, [Exit::Direct(0x1_0006)].as_slice()),
        (0xfe5f_f06f, Isa::I, [Exit::Direct(0xffe4)].as_slice()),
        (0x0000_8067, Isa::I, [Exit::Indirect].as_slice()),
        (0x0010_0073, Isa::I, [Exit::Stop].as_slice()),
        (0x0000_0000, Isa::I, [Exit::Stop].as_slice()),
        (0x0262_8533, Isa::I, [Exit::Stop].as_slice()),
        (0x0262_8533, Isa::Im, [Exit::Direct(0x1_0004)].as_slice()),
        (0x0000_0073, Isa::I, [Exit::Asks(0x1_0004)].as_slice()),
    ] {
        let block = block_of(rt.alloc(), &[word], isa, Tool::Calls, CODE, 16)?.ok_or("none")?;
        assert_eq!(rt; block.words(), [word].as_slice());
        assert_eq!(rt; block.exits(), exits, "{word:08X}");
    }
    Ok(())
}

// SW x6, 0(x8); LBU x9, 0(x8); ADDI x5, x5, -1; and a jump: with a link, or without one.
#[test]
fn each_tool_has_its_probes(rt: HostRuntime) -> Result<(), Fail> {
    let call = Probe {
        place: 3,
        kind: ProbeKind::Call,
    };
    let store = Probe {
        place: 0,
        kind: ProbeKind::Store,
    };
    let load = Probe {
        place: 1,
        kind: ProbeKind::Load,
    };
    for (jump, tool, probes) in [
        (0x00c0_00ef, Tool::Blocks, [BEGIN].as_slice()),
        (0x00c0_00ef, Tool::Calls, [call].as_slice()),
        (0x0002_82e7, Tool::Calls, [call].as_slice()),
        (0x00c0_006f, Tool::Calls, [].as_slice()),
        (0x0000_8067, Tool::Calls, [].as_slice()),
        (0x00c0_00ef, Tool::Memory, [store, load].as_slice()),
    ] {
        let words = [0x0064_2023, 0x0004_4483, 0xfff2_8293, jump];
        let block = block_of(rt.alloc(), &words, Isa::I, tool, CODE, 64)?.ok_or("none")?;
        assert_eq!(rt; block.words(), words.as_slice());
        assert_eq!(rt; block.probes(), probes, "{jump:08X}");
    }
    Ok(())
}

#[test]
fn none_where_no_word_is(rt: HostRuntime) -> Result<(), Fail> {
    for addr in [0xfffc, 0x1_0001, 0x1_0002, 0x1_0003, 0x1_0014, 0xffff_fffc] {
        let block = block_of(rt.alloc(), &COUNTDOWN, Isa::I, Tool::Blocks, addr, 16)?;
        assert!(rt; block.is_none(), "{addr}");
    }
    Ok(())
}

// A word, and half of another.
#[test]
fn half_word(rt: HostRuntime) -> Result<(), Fail> {
    let alloc = rt.alloc();
    let bytes = [0x13, 0, 0, 0, 0x73, 0];
    let block = made_in::<Brand>(alloc, &bytes, CODE, Blank::new(1))?.ok_or("none")?;
    assert_eq!(rt; block.words(), [0x13].as_slice());
    assert_eq!(rt; block.exits(), [Exit::Direct(0x1_0004)].as_slice());
    let behind = made_in::<Brand>(alloc, &bytes, CODE + 4, Blank::new(1))?;
    assert!(rt; behind.is_none());
    Ok(())
}
