use super::*;
use cc_base::Span;
use std::alloc::Global;
use std::test::Fail;

const CODE: Flags = Flags {
    read: true,
    write: false,
    execute: true,
};

const DATA: Flags = Flags {
    read: true,
    write: true,
    execute: false,
};

// Eight bytes that may be executed, and sixteen that may be written.
fn code_and_data(alloc: Global) -> Result<Mem, MemErr> {
    let mut mem = Mem::new(alloc);
    mem.add(0x1_0000, CODE, &[0x93, 0x08, 0xd0, 0x05, 0x73], 8)?;
    mem.add(0x2_0000, DATA, &[], 16)?;
    Ok(mem)
}

#[test]
fn bytes_are_read_low_first_in_one_region(rt: HostRuntime) -> Result<(), Fail> {
    let mem = code_and_data(rt.alloc())?;
    for (addr, size, want) in [
        (0x1_0000, Size::Byte, Ok(0x93)),
        (0x1_0000, Size::Half, Ok(0x0893)),
        (0x1_0000, Size::Word, Ok(0x05d0_0893)),
        (0x1_0004, Size::Word, Ok(0x73)),
        (0x1_0005, Size::Word, Err(Access::NotMapped)),
        (0x1_0006, Size::Half, Ok(0)),
        (0x1_0008, Size::Byte, Err(Access::NotMapped)),
        (0xffff, Size::Half, Err(Access::NotMapped)),
        (0xffff_ffff, Size::Word, Err(Access::NotMapped)),
    ] {
        assert_eq!(rt; mem.load(addr, size), want, "at {addr}");
    }
    assert_eq!(rt; mem.fetch(0x1_0004), Ok(0x73));
    assert_eq!(rt; mem.fetch(0x1_0006), Err(Access::NotMapped));
    assert_eq!(rt; mem.fetch(0x2_0000), Err(Access::NotAllowed));
    Ok(())
}

#[test]
fn bytes_are_written_where_it_is_allowed(rt: HostRuntime) -> Result<(), Fail> {
    let mut mem = code_and_data(rt.alloc())?;
    assert_eq!(rt; mem.store(0x2_0004, Size::Word, 0x0403_0201), Ok(false));
    assert_eq!(rt; mem.store(0x2_0006, Size::Byte, 0x1ff), Ok(false));
    assert_eq!(rt; mem.load(0x2_0004, Size::Word), Ok(0x04ff_0201));
    assert_eq!(rt; mem.store(0x2_000d, Size::Word, 1), Err(Access::NotMapped));
    assert_eq!(rt; mem.store(0x1_0000, Size::Half, 0), Err(Access::NotAllowed));
    assert_eq!(rt; mem.load(0x1_0000, Size::Half), Ok(0x0893));
    assert_eq!(rt; mem.copy_in(0x2_000e, b"abc"), Err(Access::NotMapped));
    assert_eq!(rt; mem.copy_in(0x2_000d, b"abc"), Ok(()));
    let mut out = vec![in rt.alloc(); b'>']?;
    assert!(rt; mem.copy_out(0x2_000c, 4, &mut out).is_ok());
    assert_eq!(rt; out.as_slice(), [b'>', 0, b'a', b'b', b'c'].as_slice());
    let past = mem.copy_out(0x2_000c, 5, &mut out);
    assert_eq!(rt; past.err(), Some(CopyErr::Access(Access::NotMapped)));
    let closed = Flags {
        read: false,
        write: true,
        execute: true,
    };
    mem.add(0x3_0000, closed, &[1], 4)?;
    assert_eq!(rt; mem.store(0x3_0001, Size::Half, 0x0202), Ok(true));
    assert_eq!(rt; mem.fetch(0x3_0000), Ok(0x0002_0201));
    assert_eq!(rt; mem.load(0x3_0000, Size::Byte), Err(Access::NotAllowed));
    let unread = mem.copy_out(0x3_0000, 1, &mut out);
    assert_eq!(rt; unread.err(), Some(CopyErr::Access(Access::NotAllowed)));
    assert_eq!(rt; out.len(), 5);
    Ok(())
}

#[test]
fn a_region_is_refused_for_the_first_reason(rt: HostRuntime) -> Result<(), Fail> {
    let mut mem = code_and_data(rt.alloc())?;
    for (start, len, want) in [
        (0xffff_fff0, 16, Err(MemErr::PastEnd)),
        (0x1_0004, 0xffff_fff0, Err(MemErr::PastEnd)),
        (0x1_0007, 8_388_608, Err(MemErr::Overlap)),
        (0xffff, 2, Err(MemErr::Overlap)),
        (0x1_0002, 1, Err(MemErr::Overlap)),
        (0x10_0000, 8_388_585, Err(MemErr::OverLimit)),
        (0x1_0008, 4, Ok(())),
        (0xfffc, 4, Ok(())),
        (0xffff_fff0, 15, Ok(())),
    ] {
        assert_eq!(rt; mem.add(start, DATA, &[], len), want, "at {start}");
    }
    assert_eq!(rt; mem.remove(0x1_0001), Err(MemErr::NotMapped));
    assert_eq!(rt; mem.remove(0x1_0000), Ok(()));
    assert_eq!(rt; mem.remove(0x1_0000), Err(MemErr::NotMapped));
    assert_eq!(rt; mem.load(0x1_0000, Size::Byte), Err(Access::NotMapped));
    assert_eq!(rt; mem.load(0x1_0008, Size::Word), Ok(0));
    Ok(())
}

#[test]
fn a_region_grows_with_zeros(rt: HostRuntime) -> Result<(), Fail> {
    let mut mem = code_and_data(rt.alloc())?;
    mem.store(0x2_0004, Size::Word, 0x0403_0201)
        .map_err(|_| MemErr::NotMapped)?;
    mem.resize(0x2_0000, 6)?;
    mem.resize(0x2_0000, 8)?;
    assert_eq!(rt; mem.load(0x2_0004, Size::Word), Ok(0x0201));
    assert_eq!(rt; mem.load(0x2_0008, Size::Byte), Err(Access::NotMapped));
    assert_eq!(rt; mem.resize(0xfff0, 17), Err(MemErr::Overlap));
    assert_eq!(rt; mem.resize(0x2_0000, 0xffff_0000), Err(MemErr::PastEnd));
    assert_eq!(rt; mem.resize(0x2_0000, 8_388_601), Err(MemErr::OverLimit));
    assert_eq!(rt; mem.load(0x2_0004, Size::Word), Ok(0x0201));
    mem.resize(0x3_0000, 4)?;
    assert_eq!(rt; mem.store(0x3_0000, Size::Byte, 7), Ok(false));
    assert_eq!(rt; mem.fetch(0x3_0000), Err(Access::NotAllowed));
    mem.resize(0x2_0000, 0)?;
    mem.resize(0x4_0000, 0)?;
    assert_eq!(rt; mem.remove(0x2_0000), Err(MemErr::NotMapped));
    assert_eq!(rt; mem.remove(0x4_0000), Err(MemErr::NotMapped));
    Ok(())
}

#[test]
fn code_is_met_and_shown(rt: HostRuntime) -> Result<(), Fail> {
    let mem = code_and_data(rt.alloc())?;
    for (start, len, want) in [
        (0xfffc, 4, false),
        (0xfffc, 5, true),
        (0x1_0007, 4, true),
        (0x1_0008, 4, false),
        (0x1_0004, 0, false),
        (0x2_0000, 4, false),
    ] {
        let span = Span { start, len };
        assert_eq!(rt; mem.touches_code(span), want, "at {start}");
    }
    let (start, len) = match mem.code_at(0x1_0007) {
        Some(code) => (code.start, code.bytes.len()),
        None => (0, 0),
    };
    assert_eq!(rt; start, 0x1_0000);
    assert_eq!(rt; len, 8);
    assert!(rt; mem.code_at(0x1_0008).is_none());
    assert!(rt; mem.code_at(0x2_0000).is_none());
    Ok(())
}
