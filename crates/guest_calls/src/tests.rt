use super::*;
use cc_base::Span;
use guest_mem::{Access, Flags, Mem, Size};
use plain_machine::{Cpu, Regs};
use rv_decode::Isa;
use std::alloc::Global;
use std::test::Fail;

const DATA: u32 = 0x2_0000;

const HEAP: u32 = 0x3_0000;

const CODE: u32 = 0x1_0000;

#[derive(Drop)]
struct Guest {
    cpu: Cpu,
    mem: Mem,
    io: GuestIo,
}

// Code of 8 bytes that cannot be written, and behind it `len` bytes of data. Byte 0 of the data is 68, byte 1 is 69.
fn make_guest(alloc: Global, heap: Option<u32>, len: u32) -> Result<Guest, Fail> {
    let mut mem = Mem::new(alloc);
    let code = Flags {
        read: false,
        write: false,
        execute: true,
    };
    mem.add(CODE, code, &[], 8)?;
    let data = Flags {
        read: true,
        write: true,
        execute: false,
    };
    if len >= 2 {
        mem.add(DATA, data, b"hi", len)?;
    }
    Ok(Guest {
        cpu: Cpu {
            pc: CODE,
            isa: Isa::I,
            regs: Regs::new(),
        },
        mem,
        io: GuestIo::new(alloc, b"abcde", heap)?,
    })
}

// What a call comes to, register 10 after it, and by how much the program counter grew.
#[derive(Clone, Copy, Debug, PartialEq, Eq)]
struct Seen {
    asked: Asked,
    x10: u32,
    grown: u32,
}

fn call(guest: &mut Guest, number: u32, x10: u32, x11: u32, x12: u32) -> Result<Seen, Fail> {
    let before = guest.cpu.pc;
    for (register, value) in [(17, number), (10, x10), (11, x11), (12, x12)] {
        guest.cpu.regs.set(register, value);
    }
    let asked = ask(&mut guest.cpu, &mut guest.mem, &mut guest.io)?;
    Ok(Seen {
        asked,
        x10: guest.cpu.regs.get(10),
        grown: guest.cpu.pc.wrapping_sub(before),
    })
}

// Whether the call gives this in register 10, and goes on behind itself.
fn gives(guest: &mut Guest, number: u32, arguments: [u32; 3], x10: u32) -> Result<bool, Fail> {
    let [first, second, third] = arguments;
    let seen = call(guest, number, first, second, third)?;
    let want = Seen {
        asked: Asked::Back(None),
        x10,
        grown: 4,
    };
    Ok(seen == want)
}

#[test]
fn reads(rt: HostRuntime) -> Result<(), Fail> {
    let mut guest = make_guest(rt.alloc(), None, 4)?;
    for (fd, buf, len, x10, left) in [
        (1, DATA, 3, 0xffff_fff7, b"abcde".as_slice()),
        (0, CODE, 3, 0xffff_fff2, b"abcde".as_slice()),
        (0, DATA + 2, 3, 0xffff_fff2, b"abcde".as_slice()),
        (0, DATA, 0, 0, b"abcde".as_slice()),
        (0, DATA + 1, 3, 3, b"de".as_slice()),
        (0, DATA, 9, 2, b"".as_slice()),
        (0, CODE, 9, 0, b"".as_slice()),
    ] {
        assert!(rt;
            gives(&mut guest, 63, [fd, buf, len], x10)?,
            "{fd} {buf} {len}"
        );
        assert_eq!(rt; guest.io.input(), left, "{fd} {buf} {len}");
    }
    assert_eq!(rt; guest.mem.load(DATA, Size::Word), Ok(0x6362_6564));
    Ok(())
}

#[test]
fn a_read_meets_code(rt: HostRuntime) -> Result<(), Fail> {
    let mut guest = make_guest(rt.alloc(), None, 4)?;
    let flags = Flags {
        read: false,
        write: true,
        execute: true,
    };
    guest.mem.add(HEAP, flags, &[], 4)?;
    let seen = call(&mut guest, 63, 0, HEAP + 1, 2)?;
    let want = Seen {
        asked: Asked::Back(Some(Span {
            start: 0x3_0001,
            len: 2,
        })),
        x10: 2,
        grown: 4,
    };
    assert_eq!(rt; seen, want);
    assert_eq!(rt; guest.mem.fetch(HEAP), Ok(0x0062_6100));
    Ok(())
}

#[test]
fn writes(rt: HostRuntime) -> Result<(), Fail> {
    let mut guest = make_guest(rt.alloc(), None, 4)?;
    for (fd, buf, len, x10, output) in [
        (0, DATA, 2, 0xffff_fff7, b"".as_slice()),
        (3, DATA, 2, 0xffff_fff7, b"".as_slice()),
        (1, CODE, 2, 0xffff_fff2, b"".as_slice()),
        (1, CODE, 0, 0, b"".as_slice()),
        (1, DATA, 2, 2, b"hi".as_slice()),
        (2, DATA + 1, 1, 1, b"hii".as_slice()),
    ] {
        assert!(rt;
            gives(&mut guest, 64, [fd, buf, len], x10)?,
            "{fd} {buf} {len}"
        );
        assert_eq!(rt; guest.io.output(), output, "{fd} {buf} {len}");
    }
    Ok(())
}

#[test]
fn the_output_has_a_limit(rt: HostRuntime) -> Result<(), Fail> {
    let mut guest = make_guest(rt.alloc(), None, 1_048_576)?;
    assert!(rt; gives(&mut guest, 64, [1, DATA, 1_048_576], 1_048_576)?);
    let seen = call(&mut guest, 64, 1, DATA, 1)?;
    let full = Seen {
        asked: Asked::OutputFull,
        x10: 1,
        grown: 0,
    };
    assert_eq!(rt; seen, full);
    assert_eq!(rt; guest.io.output().len(), 1_048_576);
    Ok(())
}

#[test]
fn exits(rt: HostRuntime) -> Result<(), Fail> {
    let mut guest = make_guest(rt.alloc(), None, 4)?;
    for (number, status, low) in [(93, 0, 0), (94, 0x1ff, 0xff), (93, 0xffff_ffda, 218)] {
        let seen = call(&mut guest, number, status, 0, 0)?;
        let want = Seen {
            asked: Asked::Exit(low),
            x10: status,
            grown: 0,
        };
        assert_eq!(rt; seen, want);
    }
    Ok(())
}

// The data is 65,536 bytes, up to where the heap begins.
#[test]
fn the_heap_grows_with_zeros(rt: HostRuntime) -> Result<(), Fail> {
    let mut guest = make_guest(rt.alloc(), Some(HEAP), 0x1_0000)?;
    for (end, x10) in [(0, HEAP), (HEAP + 16, HEAP + 16)] {
        assert!(rt; gives(&mut guest, 214, [end, 0, 0], x10)?, "{end}");
    }
    let stored = guest.mem.store(HEAP + 8, Size::Word, 7);
    assert_eq!(rt; stored, Ok(false));
    for end in [HEAP + 8, HEAP + 12] {
        assert!(rt; gives(&mut guest, 214, [end, 0, 0], end)?, "{end}");
    }
    assert_eq!(rt; guest.mem.load(HEAP + 8, Size::Word), Ok(0));
    for (end, x10) in [
        (HEAP - 1, HEAP + 12),
        (HEAP + 0x80_0000, HEAP + 12),
        (HEAP, HEAP),
    ] {
        assert!(rt; gives(&mut guest, 214, [end, 0, 0], x10)?, "{end}");
    }
    assert_eq!(rt; guest.mem.load(HEAP, Size::Byte), Err(Access::NotMapped));
    Ok(())
}

#[test]
fn no_heap_and_no_such_call(rt: HostRuntime) -> Result<(), Fail> {
    let mut guest = make_guest(rt.alloc(), None, 4)?;
    for (number, x10) in [(214, 0xffff_fff4), (5, 0xffff_ffda), (1003, 0xffff_ffda)] {
        assert!(rt; gives(&mut guest, number, [0, 0, 0], x10)?, "{number}");
    }
    Ok(())
}

#[test]
fn map_calls_wait_for_an_answer(rt: HostRuntime) -> Result<(), Fail> {
    let mut guest = make_guest(rt.alloc(), None, 4)?;
    guest.io.mark_mapped(1, 2)?;
    for (number, module, asked) in [
        (1000, 0, Asked::Map(0)),
        (1001, 1, Asked::Unmap(1)),
        (1002, 1, Asked::Replace(1, 3)),
    ] {
        let seen = call(&mut guest, number, module, 3, 0)?;
        let want = Seen {
            asked,
            x10: module,
            grown: 4,
        };
        assert_eq!(rt; seen, want);
    }
    assert!(rt; gives(&mut guest, 1001, [0, 0, 0], 0xffff_ffea)?);
    assert_eq!(rt; guest.io.map_calls(), 4);
    Ok(())
}

#[test]
fn map_calls_have_a_limit(rt: HostRuntime) -> Result<(), Fail> {
    let mut guest = make_guest(rt.alloc(), None, 4)?;
    guest.io.mark_mapped(1, 2)?;
    for _ in 0..128 {
        assert!(rt; gives(&mut guest, 1000, [1, 0, 0], 0xffff_ffef)?);
    }
    assert_eq!(rt; guest.io.map_calls(), 128);
    for number in 1000..1003 {
        assert!(rt;
            gives(&mut guest, number, [1, 3, 0], 0xffff_fff4)?,
            "{number}"
        );
    }
    assert_eq!(rt; guest.io.map_calls(), 128);
    Ok(())
}

#[test]
fn modules_are_marked(rt: HostRuntime) -> Result<(), Fail> {
    let mut io = GuestIo::new(rt.alloc(), b"", None)?;
    io.mark_mapped(7, 1)?;
    io.mark_mapped(4, 2)?;
    assert_eq!(rt; io.file_of(4), Some(2));
    io.mark_unmapped(7);
    assert_eq!(rt; io.file_of(7), None);
    assert!(rt; !io.is_mapped(7));
    assert!(rt; io.is_mapped(4));
    assert_eq!(rt; io.map_calls(), 0);
    Ok(())
}

#[test]
fn a_guest_begins_with_its_input(rt: HostRuntime) -> Result<(), Fail> {
    let mut guest = make_guest(rt.alloc(), Some(HEAP), 4)?;
    assert_eq!(rt; guest.io.input(), b"abcde".as_slice());
    let empty = Heap {
        start: HEAP,
        end: HEAP,
    };
    assert_eq!(rt; guest.io.heap(), Some(empty));
    assert!(rt; gives(&mut guest, 64, [1, DATA, 2], 2)?);
    assert_eq!(rt; guest.io.into_output().items(), b"hi".as_slice());
    Ok(())
}
