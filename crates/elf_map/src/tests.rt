use super::*;
use crate::header::ProgramHeader;
use guest_mem::{Access, Mem, MemErr, Size};
use std::alloc::{AllocError, Global};
use std::sync::Arc;
use std::test::Fail;

const DATA: u32 = 6;

const CODE: u32 = 5;

// The words 05D00893 and 00000073, which end a guest.
const WORDS: [u8; 8] = [0x93, 0x08, 0xd0, 0x05, 0x73, 0, 0, 0];

fn loaded(offset: u32, vaddr: u32, file_size: u32, memory_size: u32, flags: u32) -> ProgramHeader {
    ProgramHeader {
        kind: 1,
        offset,
        vaddr,
        file_size,
        memory_size,
        flags,
    }
}

fn file_of(
    alloc: Global,
    kind: u8,
    headers: &[ProgramHeader],
    content: &[u8],
) -> Result<Vec<u8>, AllocError> {
    let mut file = Vec::new(alloc);
    file.extend_from_slice(&[0x7f, 0x45, 0x4c, 0x46, 1, 1, 1, 0])?;
    file.extend_from_slice(&[0; 8])?;
    file.extend_from_slice(&[kind, 0, 0xf3, 0, 1, 0, 0, 0])?;
    for number in [0x1_0000u32, 52, 0, 0] {
        file.extend_from_slice(&number.to_le_bytes())?;
    }
    file.extend_from_slice(&[52, 0, 32, 0])?;
    file.push(u8::try_from(headers.len()).unwrap_or(0))?;
    file.extend_from_slice(&[0; 7])?;
    for h in headers {
        for number in [
            h.kind,
            h.offset,
            h.vaddr,
            h.vaddr,
            h.file_size,
            h.memory_size,
            h.flags,
            4,
        ] {
            file.extend_from_slice(&number.to_le_bytes())?;
        }
    }
    file.extend_from_slice(content)?;
    Ok(file)
}

fn two_instructions(alloc: Global, kind: u8) -> Result<Vec<u8>, AllocError> {
    file_of(alloc, kind, &[loaded(84, 0x1_0000, 8, 8, CODE)], &WORDS)
}

// The file, changed at one place, is refused for this reason.
#[test]
fn damaged_elf_bytes(rt: HostRuntime) -> Result<(), Fail> {
    let alloc = rt.alloc();
    let whole = two_instructions(alloc, 2)?;
    assert_eq!(rt; whole.len(), 92);
    assert!(rt; Elf::read(alloc, &whole).is_ok());
    let mut cut = whole.clone()?;
    cut.truncate(51);
    let short = Elf::read(alloc, &cut);
    assert_eq!(rt; short.err(), Some(ElfErr::Short));
    for (at, from, to, cause, text) in [
        (0, 0x7f, 0, ElfErr::Magic, "magic"),
        (4, 1, 2, ElfErr::Class, "class"),
        (5, 1, 2, ElfErr::Order, "order"),
        (6, 1, 0, ElfErr::Version, "version"),
        (16, 2, 1, ElfErr::FileKind, "filekind"),
        (18, 0xf3, 0xf2, ElfErr::Machine, "machine"),
        (28, 0x34, 0x3d, ElfErr::Table, "table"),
        (36, 0, 1, ElfErr::Compressed, "compressed"),
        (40, 0x34, 0x33, ElfErr::HeaderSize, "headersize"),
        (44, 1, 0x41, ElfErr::TooManyHeaders, "toomanyheaders"),
        (52, 1, 3, ElfErr::Interp, "interp"),
        (52, 1, 2, ElfErr::Dynamic, "dynamic"),
        (52, 1, 7, ElfErr::Tls, "tls"),
        (56, 0x54, 0x55, ElfErr::Segment(0), "segment 0"),
        (68, 8, 9, ElfErr::Segment(0), "segment 0"),
    ] {
        let mut file = whole.clone()?;
        assert!(rt; at < file.len());
        assert_eq!(rt; file[at], from, "at {at}");
        file[at] = to;
        let refused = Elf::read(alloc, &file);
        assert_eq!(rt; refused.err(), Some(cause), "at {at}");
        let printed = format!(in alloc; "{cause}")?;
        assert_eq!(rt; printed.as_str(), text);
    }
    Ok(())
}

#[test]
fn a_fixed_file_stands_where_it_says(rt: HostRuntime) -> Result<(), Fail> {
    let alloc = rt.alloc();
    let elf = Elf::read(alloc, &two_instructions(alloc, 2)?)?;
    let base = 0x20_0000;
    assert_eq!(rt; elf.entry(base), Some(0x1_0000));
    let mut mem = Mem::new(alloc);
    elf.place(base, &mut mem)?;
    assert_eq!(rt; elf.top(base), 0x1_0008);
    assert_eq!(rt; mem.fetch(0x1_0004), Ok(0x73));
    assert_eq!(rt; mem.load(0x1_0008, Size::Byte), Err(Access::NotMapped));
    assert_eq!(rt; mem.store(0x1_0000, Size::Byte, 0), Err(Access::NotAllowed));
    elf.unplace(base, &mut mem);
    assert_eq!(rt; mem.fetch(0x1_0004), Err(Access::NotMapped));
    Ok(())
}

// The second header is of a kind that is not looked at, the third has no bytes in memory.
#[test]
fn segments_stand_at_the_base(rt: HostRuntime) -> Result<(), Fail> {
    let alloc = rt.alloc();
    let mut stack = loaded(0, 0, 0, 0, DATA);
    stack.kind = 0x6474_e551;
    let headers = [
        loaded(180, 0x1_0000, 8, 12, CODE),
        stack,
        loaded(180, 0x1_0000, 0, 0, CODE),
        loaded(184, 0x2_0000, 4, 4096, DATA),
    ];
    let file = file_of(alloc, 3, &headers, &WORDS)?;
    assert_eq!(rt; file.len(), 188);
    let elf = Elf::read(alloc, &file)?;
    let base = 0x20_0000;
    assert_eq!(rt; elf.entry(base), Some(0x21_0000));
    assert_eq!(rt; elf.entry(0xffff_0000), None);
    assert_eq!(rt; elf.entry(2), None);
    assert_eq!(rt; elf.code_count(), 1);
    let code = elf.code(0)?;
    assert_eq!(rt; code.vaddr, 0x1_0000);
    assert!(rt; !code.fixed);
    let bytes = [0x93, 0x08, 0xd0, 0x05, 0x73, 0, 0, 0, 0, 0, 0, 0];
    assert_eq!(rt; code.bytes.items(), bytes.as_slice());
    assert_eq!(rt; Arc::strong_count(&code.bytes), 2);
    let mut mem = Mem::new(alloc);
    elf.place(base, &mut mem)?;
    assert_eq!(rt; elf.top(base), 0x22_1000);
    assert_eq!(rt; mem.fetch(0x21_0008), Ok(0));
    assert_eq!(rt; mem.load(0x22_0000, Size::Word), Ok(0x73));
    assert_eq!(rt; mem.load(0x22_0ffc, Size::Word), Ok(0));
    assert_eq!(rt; mem.fetch(0x22_0000), Err(Access::NotAllowed));
    Ok(())
}

#[test]
fn all_segments_are_placed_or_none(rt: HostRuntime) -> Result<(), Fail> {
    let alloc = rt.alloc();
    let headers = [
        loaded(116, 0x1_0000, 8, 8, CODE),
        loaded(116, 0x1_0004, 8, 8, DATA),
    ];
    let elf = Elf::read(alloc, &file_of(alloc, 3, &headers, &WORDS)?)?;
    let mut mem = Mem::new(alloc);
    assert_eq!(rt; elf.place(0, &mut mem), Err(MemErr::Overlap));
    assert_eq!(rt; mem.fetch(0x1_0000), Err(Access::NotMapped));
    assert_eq!(rt; elf.place(0xffff_0000, &mut mem), Err(MemErr::PastEnd));
    Ok(())
}

#[test]
fn at_most_four_segments_are_executed(rt: HostRuntime) -> Result<(), Fail> {
    let alloc = rt.alloc();
    let headers = [
        loaded(212, 0x1_0000, 8, 8, CODE),
        loaded(212, 0x2_0000, 8, 8, CODE),
        loaded(212, 0x3_0000, 8, 8, CODE),
        loaded(212, 0x4_0000, 8, 8, CODE),
        loaded(212, 0x5_0000, 8, 8, CODE),
    ];
    let elf = Elf::read(alloc, &file_of(alloc, 2, &headers[..4], &[0; 40])?)?;
    assert_eq!(rt; elf.code_count(), 4);
    assert_eq!(rt; elf.code(3)?.vaddr, 0x4_0000);
    let five = Elf::read(alloc, &file_of(alloc, 2, &headers, &WORDS)?);
    assert_eq!(rt; five.err(), Some(ElfErr::TooManyCode));
    Ok(())
}
