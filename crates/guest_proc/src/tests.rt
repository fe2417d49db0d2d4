ghost use Rattle.std.specs.Prelude.{◌≡◌, ◌<◌, ◌≤◌, true, is_some, OnOk};
ghost use Rattle.std.specs.FinMap as fin;
ghost use Rattle.plain_machine.specs.Program.{base_of, top_of};
ghost use Rattle.block_ledger.specs.Traced.{codes_of};
ghost use Rattle.region_laws.specs.Standing.{AllStand, AreThere};
ghost use Rattle.guest_proc.specs.Maps.{AreClear};
ghost use Rattle.code_book.specs.View.{ledger_of};

use super::*;
use cc_base::{Blob, Steps, image_of};
use code_book::CodeBook;
use elf_map::Elf;
use plain_machine::End;
use probe_tools::Tool;
use rv_decode::Isa;
use std::alloc::{AllocError, Global};
use std::marker::Brand;
use std::process::Abort;
use std::sync::Arc;
use std::sync::ledger::{Blank, Ledger};
use std::test::Fail;
use unit_set::{SlotName, Unit};

const CODE: u32 = 0x1_0000;

const OTHER: u32 = 0x2_0000;

// The file of a program that has these words alone, at this address.
fn elf_of(alloc: Global, addr: u32, words: &[u32]) -> Result<Elf, Fail> {
    if words.len() > 1000 {
        return Err(Fail::from("too many words"));
    }
    let size = 4 * words.len() as u32;
    let mut file = Vec::new(alloc);
    file.extend_from_slice(&[0x7f, 0x45, 0x4c, 0x46, 1, 1, 1, 0])?;
    file.extend_from_slice(&[0; 8])?;
    file.extend_from_slice(&[2, 0, 0xf3, 0, 1, 0, 0, 0])?;
    for number in [addr, 52, 0, 0] {
        file.extend_from_slice(&number.to_le_bytes())?;
    }
    file.extend_from_slice(&[52, 0, 32, 0, 1, 0, 0, 0, 0, 0, 0, 0])?;
    for number in [1, 84, addr, addr, size, size, 7, 4] {
        file.extend_from_slice(&number.to_le_bytes())?;
    }
    for word in words {
        file.extend_from_slice(&word.to_le_bytes())?;
    }
    Ok(Elf::read(alloc, &file)?)
}

fn setup_of(alloc: Global, tool: Tool) -> Result<Setup, AllocError> {
    Ok(Setup {
        isa: Isa::I,
        tool,
        max: 16,
        fuel: 100_000,
        pool: 2,
        stack: 4096,
        input: Blob::of(alloc, &[])?,
    })
}

// A guest of this program, which is placed as module 0.
fn guest_of(
    rt: &impl Abort,
    alloc: Global,
    tool: Tool,
    elf: &Elf,
) -> Result<Proc<CodeBook>, AllocError> {
    let mut guest = Proc::start(alloc, setup_of(alloc, tool)?, CodeBook::new(alloc)?)?;
    assert!(rt; guest.place(0, 0, elf, 0)?);
    Ok(guest)
}

// Runs on over a full pool, which is flushed once.
fn run_on<L: Ledger>(guest: &mut Proc<CodeBook>, steps: &mut Steps<L>) -> Result<Stop, Fail> {
    let stop = guest.run(steps)?;
    if stop != Stop::PoolFull {
        return Ok(stop);
    }
    guest.flush();
    Ok(guest.run(steps)?)
}

// What a guest of these words comes to, with its counts of blocks begun, reused, built and linked.
fn counts_of<L: Ledger>(
    rt: &impl Abort,
    alloc: Global,
    tool: Tool,
    words: &[u32],
    blank: Blank,
) -> Result<(Stop, [u64; 4]), Fail>
    requires name { blank.name ≡ L.name }
    requires parts { blank.parts ≡ L.parts }
    requires owned { 0 < blank.parts }
{
    let elf = elf_of(alloc, CODE, words)?;
    let mut guest = guest_of(rt, alloc, tool, &elf)?;
    let mut steps = Steps::<L>::of(blank);
    let stop = run_on(&mut guest, &mut steps)?;
    let counts = guest.counts();
    let (output, _) = guest.finish();
    assert!(rt; output.items().is_empty());
    Ok((
        stop,
        [counts.blocks, counts.reused, counts.built, counts.linked],
    ))
}

// The same; nobody asks how many the builder counted.
fn told_of(
    rt: &impl Abort,
    alloc: Global,
    tool: Tool,
    words: &[u32],
) -> Result<(Stop, [u64; 4]), Fail> {
    counts_of::<Brand>(rt, alloc, tool, words, Blank::new(1))
}

// A countdown from 1000; a guest that overwrites its own next instruction; and a call with its return. The pool has room
// for two blocks.
#[test]
fn blocks_are_kept_linked_and_withdrawn(rt: HostRuntime) -> Result<(), Fail> {
    let alloc = rt.alloc();
    let countdown = [
        0x3e80_0293,
        0xfff2_8293,
        0xfe02_9ee3,
        0x05d0_0893,
        0x0000_0073,
    ];
    let overwrite = [
        0x0001_02b7,
        0x0102_a303,
        0x0002_a823,
        0x0062_a823,
        0x05d0_0893,
        0x0000_0073,
    ];
    let calls = [0x00c0_00ef, 0x05d0_0893, 0x0000_0073, 0x0000_8067];
    let end = Stop::Ended(End::Exit(0));
    for (tool, words, counts) in [
        (Tool::Blocks, countdown.as_slice(), [1001, 0, 3, 997]),
        (Tool::Memory, overwrite.as_slice(), [3, 0, 3, 0]),
        (Tool::Calls, calls.as_slice(), [3, 0, 3, 0]),
    ] {
        let told = told_of(&rt, alloc, tool, words)?;
        assert_eq!(rt; told, (end, counts));
    }
    Ok(())
}

// Attaches an empty unit to the one segment of a module.
fn attach_empty(
    rt: &impl Abort,
    alloc: Global,
    guest: &mut Proc<CodeBook>,
    elf: &Elf,
) -> Result<(), Fail>
    requires there { AreThere (codes_of elf.now 0) guest.old.at.mem }
    requires clear { AreClear (codes_of elf.now 0) (ledger_of guest.old.book) }
    requires top { top_of elf.now 0 ≤ 4294967295 }
    ensures { OnOk result (is_some (fin.get (ledger_of guest.new.book).segments 0) ≡ true) }
{
    assert!(rt; elf.code_count() == 1);
    let image = image_of(&elf.code(0)?, 0)?;
    let slot = SlotName::read(alloc, b"main.0.00000000.blocks.16")?;
    assert!(rt; slot.isa == guest.at.cpu.isa);
    assert!(rt; slot.tool == guest.at.report.tool());
    assert!(rt; slot.max == guest.limits.max);
    let unit = Arc::new(alloc, Unit::empty(alloc, slot, image))?;
    guest.attach(0, 0, &unit)?;
    Ok(())
}

// A module that was placed is taken away, where no segment is attached.
fn take_away(guest: &mut Proc<CodeBook>, module: u32, elf: &Elf) -> Result<(), Fail>
    requires few { «module» < 1073741824 }
    requires top { top_of elf.now 0 ≤ 4294967295 }
    requires stand { AllStand guest.old.at.mem guest.old.at.io.heap (base_of elf.now 0) elf.now.segments }
{
    let numbers = guest.segments()?;
    if numbers.len() > 0 {
        return Err(Fail::from("a segment is attached"));
    }
    guest.unplace(module, elf, 0);
    Ok(())
}

// A module is placed, and taken away again.
fn comes_and_goes(guest: &mut Proc<CodeBook>, module: u32, elf: &Elf) -> Result<(), Fail>
    requires { «module» < 1073741824 }
{
    if !guest.place(module, 1, elf, 0)? {
        return Err(Fail::from("the file is refused"));
    }
    take_away(guest, module, elf)
}

// A guest asks for module 1, which comes and goes, and it ends with the answer.
fn maps_another<L: Ledger>(
    rt: &impl Abort,
    guest: &mut Proc<CodeBook>,
    other: &Elf,
    steps: &mut Steps<L>,
) -> Result<Stop, Fail> {
    assert_eq!(rt; guest.run(steps)?, Stop::Map(1));
    comes_and_goes(guest, 1, other)?;
    guest.answer(7);
    Ok(guest.run(steps)?)
}

// What it comes to.
fn told_of_another<L: Ledger>(
    rt: &impl Abort,
    alloc: Global,
    words: &[u32],
    blank: Blank,
) -> Result<Stop, Fail>
    requires name { blank.name ≡ L.name }
    requires parts { blank.parts ≡ L.parts }
    requires owned { 0 < blank.parts }
{
    let own = elf_of(alloc, CODE, words)?;
    let other = elf_of(alloc, OTHER, &[0x73])?;
    let mut guest = guest_of(rt, alloc, Tool::Blocks, &own)?;
    let mut steps = Steps::<L>::of(blank);
    maps_another(rt, &mut guest, &other, &mut steps)
}

#[test]
fn a_module_comes_and_goes(rt: HostRuntime) -> Result<(), Fail> {
    let words = [
        0x3e80_0893,
        0x0010_0513,
        0x0000_0073,
        0x05d0_0893,
        0x0000_0073,
    ];
    let stop = told_of_another::<Brand>(&rt, rt.alloc(), words.as_slice(), Blank::new(1))?;
    assert_eq!(rt; stop, Stop::Ended(End::Exit(7)));
    Ok(())
}

// A file is placed as the program, with an empty unit.
fn place_with_unit(
    rt: &impl Abort,
    alloc: Global,
    guest: &mut Proc<CodeBook>,
    elf: &Elf,
) -> Result<(), Fail>
    ensures { OnOk result (is_some (fin.get (ledger_of guest.new.book).segments 0) ≡ true) }
{
    if !guest.place(0, 0, elf, 0)? {
        return Err(Fail::from("the file is refused"));
    }
    attach_empty(rt, alloc, guest, elf)
}

#[test]
fn a_unit_is_attached(rt: HostRuntime) -> Result<(), Fail> {
    let alloc = rt.alloc();
    let elf = elf_of(alloc, CODE, &[0x73])?;
    let mut guest = Proc::start(alloc, setup_of(alloc, Tool::Blocks)?, CodeBook::new(alloc)?)?;
    place_with_unit(&rt, alloc, &mut guest, &elf)?;
    assert_eq!(rt; guest.segments()?.as_slice(), [0].as_slice());
    assert_eq!(rt; guest.images()?.len(), 1);
    let blocks = guest.offer(0, 0)?;
    assert!(rt; blocks.is_empty());
    Ok(())
}
