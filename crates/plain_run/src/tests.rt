ghost use Rattle.std.specs.Prelude.{◌≡◌, ◌<◌, ◌%◌, length, OnOk};
ghost use Rattle.plain_run.specs.Known.{AreKnown};

use super::*;
use crate::calls::answer;
use crate::process::{Process, start};
use cc_base::Blob;
use elf_map::Elf;
use guest_mem::Size;
use plain_machine::{End, Kind};
use probe_tools::Tool;
use rv_decode::Isa;
use std::alloc::{AllocError, Global};
use std::test::Fail;

// An ELF file of type 2 with the entry 00010000 and one program header of type 1, for a segment at offset 84 and address
// 00010000, up to the sizes of the segment.
const HEAD: [u8; 68] = [
    0x7f, b'E', b'L', b'F', 1, 1, 1, 0, 0, 0, 0, 0, 0, 0, 0, 0, 2, 0, 243, 0, 1, 0, 0, 0, 0, 0, 1,
    0, 52, 0, 0, 0, 0, 0, 0, 0, 0, 0, 0, 0, 52, 0, 32, 0, 1, 0, 0, 0, 0, 0, 0, 0, 1, 0, 0, 0, 84,
    0, 0, 0, 0, 0, 1, 0, 0, 0, 1, 0,
];

// The file whose one segment has these flags and these words.
fn file_of(alloc: Global, flags: u8, words: &[u32]) -> Result<Elf, Fail> {
    let mut code = Vec::new(alloc);
    for word in words {
        code.extend_from_slice(&word.to_le_bytes())?;
    }
    if code.len() > 1000 {
        return Err(Fail::from("too many words"));
    }
    let size = (code.len() as u32).to_le_bytes();
    let mut file = Vec::from_slice(alloc, &HEAD)?;
    file.extend_from_slice(&size)?;
    file.extend_from_slice(&size)?;
    file.extend_from_slice(&[flags, 0, 0, 0, 4, 0, 0, 0])?;
    file.extend_from_slice(&code)?;
    Ok(Elf::read(alloc, &file)?)
}

fn setup(alloc: Global, tool: Tool, fuel: u64) -> Result<Setup, AllocError>
    requires { fuel < 1000000000 }
{
    Ok(Setup {
        isa: Isa::I,
        tool,
        max: 4,
        fuel,
        stack: 65_536,
        input: Blob::of(alloc, &[])?,
    })
}

// Runs a guest of the second of two files, which has these words, and appends the rows of its report.
fn run(alloc: Global, words: &[u32], tool: Tool, fuel: u64, text: &mut Vec<u8>) -> Result<End, Fail>
    requires { fuel < 1000000000 }
{
    let mut elfs = Vec::new(alloc);
    elfs.push(file_of(alloc, 7, &[0x0010_0073])?)?;
    elfs.push(file_of(alloc, 7, words)?)?;
    if elfs.len() < 2 {
        return Err(Fail::from("no such file"));
    }
    let setup = setup(alloc, tool, fuel)?;
    let ran = interpret(alloc, &elfs, Module { base: 0, file: 1 }, &setup)?;
    ran.report.write_text(alloc, text)?;
    Ok(ran.end)
}

// ADDI x5, x0, 1000; ADDI x5, x5, -1; BNE x5, x0, -4; ADDI x17, x0, 93; ECALL.
#[test]
fn countdown(rt: HostRuntime) -> Result<(), Fail> {
    let words = [
        0x3e80_0293,
        0xfff2_8293,
        0xfe02_9ee3,
        0x05d0_0893,
        0x0000_0073,
    ];
    for (fuel, end, rows) in [
        (2001, End::Fuel, b"00010000 1\n00010004 999\n".as_slice()),
        (
            2003,
            End::Exit(0),
            b"00010000 1\n00010004 999\n0001000C 1\n".as_slice(),
        ),
    ] {
        let mut text = Vec::new(rt.alloc());
        let seen = run(rt.alloc(), &words, Tool::Blocks, fuel, &mut text)?;
        assert_eq!(rt; seen, end, "{fuel}");
        assert_eq!(rt; text.as_slice(), rows, "{fuel}");
    }
    Ok(())
}

// LUI x5, 10000; LW x6, 16(x5); SW x0, 16(x5); SW x6, 16(x5); ADDI x17, x0, 93; ECALL. The first word that is stored into
// stands in the same block, two words on.
#[test]
fn self_overwrite(rt: HostRuntime) -> Result<(), Fail> {
    let words = [
        0x0001_02b7,
        0x0102_a303,
        0x0002_a823,
        0x0062_a823,
        0x05d0_0893,
        0x0000_0073,
    ];
    for (tool, rows) in [
        (
            Tool::Blocks,
            b"00010000 1\n0001000C 1\n00010010 1\n".as_slice(),
        ),
        (
            Tool::Memory,
            b"00010000 load 1\n00010000 store 2\n".as_slice(),
        ),
    ] {
        let mut text = Vec::new(rt.alloc());
        let seen = run(rt.alloc(), &words, tool, 100, &mut text)?;
        assert_eq!(rt; seen, End::Exit(0));
        assert_eq!(rt; text.as_slice(), rows);
    }
    Ok(())
}

// JAL x1, 8; ECALL; ADDI x17, x0, 93; ADDI x10, x0, 1, three times; ADDI x10, x0, 7; JALR x0, 0(x1).
#[test]
fn a_call_and_its_return(rt: HostRuntime) -> Result<(), Fail> {
    let words = [
        0x0080_00ef,
        0x0000_0073,
        0x05d0_0893,
        0x0010_0513,
        0x0010_0513,
        0x0010_0513,
        0x0070_0513,
        0x0000_8067,
    ];
    for (tool, rows) in [
        (
            Tool::Blocks,
            b"00010000 1\n00010004 1\n00010008 1\n00010018 1\n".as_slice(),
        ),
        (Tool::Calls, b"00010008 1\n".as_slice()),
    ] {
        let mut text = Vec::new(rt.alloc());
        let seen = run(rt.alloc(), &words, tool, 100, &mut text)?;
        assert_eq!(rt; seen, End::Exit(7));
        assert_eq!(rt; text.as_slice(), rows);
    }
    Ok(())
}

// ADDI x10, x0, 3; ADDI x17, x0, 93; ECALL.
const EXIT: [u32; 3] = [0x0030_0513, 0x05d0_0893, 0x0000_0073];

// ADDI x17, x0, 1001; ECALL: the module of a guest's own words goes.
const LEAVES: [u32; 2] = [0x3e90_0893, 0x0000_0073];

#[test]
fn a_guest_whose_words_go_is_not_fetched(rt: HostRuntime) -> Result<(), Fail> {
    let mut text = Vec::new(rt.alloc());
    let seen = run(rt.alloc(), &LEAVES, Tool::Blocks, 100, &mut text)?;
    let gone = End::Fault {
        kind: Kind::Fetch,
        pc: 0x1_0008,
    };
    assert_eq!(rt; seen, gone);
    assert_eq!(rt; text.as_slice(), b"00010000 1\n".as_slice());
    Ok(())
}

// What a call of this number answers to a guest.
fn answered(
    elfs: &[Elf],
    guest: &mut Process,
    maps: &mut Vec<u32>,
    number: u32,
    x10: u32,
    x11: u32,
) -> Result<u32, Fail>
    requires known { AreKnown elfs.now 0 guest.old.io.mapped }
    requires file { guest.old.file < length elfs.now }
    requires aligned { guest.old.cpu.pc % 4 ≡ 0 }
    ensures known { OnOk result (AreKnown elfs.now 0 guest.new.io.mapped) }
    ensures file { OnOk result (guest.new.file < length elfs.now) }
    ensures aligned { OnOk result (guest.new.cpu.pc % 4 ≡ 0) }
{
    guest.cpu.regs.set(17, number);
    guest.cpu.regs.set(10, x10);
    guest.cpu.regs.set(11, x11);
    let end = answer(
        elfs,
        0,
        &mut guest.cpu,
        &mut guest.mem,
        &mut guest.io,
        &mut guest.file,
        maps,
    )?;
    match end {
        None => Ok(guest.cpu.regs.get(10)),
        Some(_) => Err(Fail::from("the guest ended")),
    }
}

#[test]
fn a_module_that_was_replaced_is_mapped_from_its_new_file(rt: HostRuntime) -> Result<(), Fail> {
    let alloc = rt.alloc();
    let mut elfs = Vec::new(alloc);
    elfs.push(file_of(alloc, 5, &LEAVES)?)?;
    elfs.push(file_of(alloc, 5, &EXIT)?)?;
    let setup = setup(alloc, Tool::Blocks, 100)?;
    let module = Module { base: 0, file: 0 };
    let Some(mut guest) = start(alloc, &elfs, module, &setup)? else {
        return Err(Fail::from("unplaced"));
    };
    assert_eq!(rt; guest.cpu.regs.get(2), 0x7fff_ffc0);
    assert_eq!(rt; guest.mem.load(0x1_0000, Size::Word), Ok(LEAVES[0]));
    let mut maps = Vec::new(alloc);
    for (number, x10, x11, result) in [
        (1000, 0, 0, 0xffff_ffef),
        (1000, 1, 0, 0xffff_ffea),
        (1002, 1, 1, 0xffff_ffea),
        (1002, 0, 2, 0xffff_ffea),
        (1002, 0, 1, 0),
        (1001, 1, 0, 0xffff_ffea),
        (1001, 0, 0, 0),
        (1000, 0, 0, 0),
    ] {
        let seen = answered(&elfs, &mut guest, &mut maps, number, x10, x11)?;
        assert_eq!(rt; seen, result, "{number} {x10} {x11}");
    }
    assert_eq!(rt; guest.cpu.pc, 0x1_0020);
    assert_eq!(rt; guest.mem.load(0x1_0000, Size::Word), Ok(EXIT[0]));
    assert_eq!(rt; guest.file, 1);
    assert_eq!(rt; maps.as_slice(), [1].as_slice());
    Ok(())
}
