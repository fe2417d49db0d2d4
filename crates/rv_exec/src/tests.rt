use super::*;
use cc_base::Span;
use guest_mem::{Flags, Mem, Size};
use rv_decode::Isa;
use std::alloc::Global;
use std::test::Fail;

const CODE: u32 = 0x1_0000;

// What the last of the instructions did, and the program counter and register 10 after it.
#[derive(Clone, Copy, Debug, PartialEq, Eq)]
struct Seen {
    done: Done,
    pc: u32,
    x10: u32,
}

// Does instructions until one of them calls the system, meets code or cannot be done.
fn run(cpu: &mut Cpu, mem: &mut Mem, most: u32) -> Done {
    let mut done = Done::Next;
    for _ in 0..most {
        let Ok(word) = mem.fetch(cpu.pc) else {
            return Done::Fault(Kind::Fetch);
        };
        if cpu.pc % 4 != 0 {
            return Done::Fault(Kind::Misaligned);
        }
        done = exec(cpu, mem, word);
        if done != Done::Next && done != Done::Taken {
            return done;
        }
    }
    done
}

fn run_of(alloc: Global, isa: Isa, write: bool, words: [u32; 5]) -> Result<Seen, Fail> {
    let mut code = Vec::new(alloc);
    for word in words {
        code.extend_from_slice(&word.to_le_bytes())?;
    }
    let mut mem = Mem::new(alloc);
    let flags = Flags {
        read: true,
        write,
        execute: true,
    };
    if code.len() <= 20 {
        mem.add(CODE, flags, &code, 20)?;
    }
    let mut cpu = Cpu {
        pc: CODE,
        isa,
        regs: Regs::new(),
    };
    let done = run(&mut cpu, &mut mem, 1000);
    Ok(Seen {
        done,
        pc: cpu.pc,
        x10: cpu.regs.get(10),
    })
}

#[test]
fn multiplies_and_divides(rt: HostRuntime) -> Result<(), Fail> {
    for (name, words, pc, x10) in [
        (
            "mul",
            [0x0060_0293, 0x0070_0313, 0x0262_8533, 0x05d0_0893, 0x73],
            0x1_0010,
            42,
        ),
        (
            "div-by-zero",
            [0x0060_0293, 0x0202_c533, 0x05d0_0893, 0x73, 0],
            0x1_000c,
            0xffff_ffff,
        ),
        (
            "rem-overflow",
            [0x8000_02b7, 0xfff0_0313, 0x0262_e533, 0x05d0_0893, 0x73],
            0x1_0010,
            0,
        ),
        (
            "mulhu",
            [0xfff0_0313, 0x0263_3533, 0x05d0_0893, 0x73, 0],
            0x1_000c,
            0xffff_fffe,
        ),
        (
            "mulhsu",
            [0xfff0_0313, 0x0263_2533, 0x05d0_0893, 0x73, 0],
            0x1_000c,
            0xffff_ffff,
        ),
    ] {
        let seen = run_of(rt.alloc(), Isa::Im, false, words)?;
        let want = Seen {
            done: Done::Asked,
            pc,
            x10,
        };
        assert_eq!(rt; seen, want, "{name}");
    }
    Ok(())
}

#[test]
fn mul_under_i(rt: HostRuntime) -> Result<(), Fail> {
    let words = [0x0060_0293, 0x0070_0313, 0x0262_8533, 0x05d0_0893, 0x73];
    let seen = run_of(rt.alloc(), Isa::I, false, words)?;
    let want = Seen {
        done: Done::Fault(Kind::Illegal),
        pc: 0x1_0008,
        x10: 0,
    };
    assert_eq!(rt; seen, want);
    Ok(())
}

// Each keeps or loses a sign, or a bit of an address.
#[test]
fn signs_and_links(rt: HostRuntime) -> Result<(), Fail> {
    for (name, words, pc, x10) in [
        (
            "srai",
            [0xff80_0293, 0x4012_d513, 0x73, 0, 0],
            0x1_0008,
            0xffff_fffc,
        ),
        (
            "srli",
            [0xff80_0293, 0x0012_d513, 0x73, 0, 0],
            0x1_0008,
            0x7fff_fffc,
        ),
        ("sltiu", [0xfff0_3513, 0x73, 0, 0, 0], 0x1_0004, 1),
        ("slti", [0xfff0_2513, 0x73, 0, 0, 0], 0x1_0004, 0),
        (
            "lb",
            [0x0000_0297, 0x0002_8503, 0x73, 0, 0],
            0x1_0008,
            0xffff_ff97,
        ),
        (
            "lbu",
            [0x0000_0297, 0x0002_c503, 0x73, 0, 0],
            0x1_0008,
            0x97,
        ),
        (
            "lh",
            [0xff80_0293, 0x0000_0297, 0xffe2_9503, 0x73, 0],
            0x1_000c,
            0xffff_ff80,
        ),
        (
            "jalr",
            [0x0000_0297, 0x0092_8567, 0x73, 0, 0],
            0x1_0008,
            0x1_0008,
        ),
    ] {
        let seen = run_of(rt.alloc(), Isa::I, false, words)?;
        let want = Seen {
            done: Done::Asked,
            pc,
            x10,
        };
        assert_eq!(rt; seen, want, "{name}");
    }
    Ok(())
}

// Register 10 is no link where the target is no multiple of four.
#[test]
fn each_fault(rt: HostRuntime) -> Result<(), Fail> {
    for (words, pc, kind) in [
        ([0x0010_0073, 0, 0, 0, 0], 0x1_0000, Kind::Break),
        ([0, 0, 0, 0, 0], 0x1_0000, Kind::Illegal),
        ([0x0000_2283, 0, 0, 0, 0], 0x1_0000, Kind::Load),
        ([0x0000_0297, 0x0002_a023, 0, 0, 0], 0x1_0004, Kind::Store),
        ([0x0060_006f, 0, 0, 0, 0], 0x1_0000, Kind::Misaligned),
        ([0x0060_056f, 0, 0, 0, 0], 0x1_0000, Kind::Misaligned),
        (
            [0x0000_0297, 0x0022_8567, 0, 0, 0],
            0x1_0004,
            Kind::Misaligned,
        ),
    ] {
        let seen = run_of(rt.alloc(), Isa::I, false, words)?;
        let want = Seen {
            done: Done::Fault(kind),
            pc,
            x10: 0,
        };
        assert_eq!(rt; seen, want, "{kind:?}");
    }
    Ok(())
}

#[test]
fn a_store_meets_code(rt: HostRuntime) -> Result<(), Fail> {
    let words = [0x0000_0297, 0x0002_a623, 0x73, 0xffff_ffff, 0];
    let seen = run_of(rt.alloc(), Isa::I, true, words)?;
    let want = Seen {
        done: Done::Touched(Span {
            start: 0x1_000c,
            len: 4,
        }),
        pc: 0x1_0008,
        x10: 0,
    };
    assert_eq!(rt; seen, want);
    Ok(())
}

// SB x5, -1(x5), where x5 is the end of a region of data.
#[test]
fn a_store_into_data_goes_on(rt: HostRuntime) -> Result<(), Fail> {
    let mut mem = Mem::new(rt.alloc());
    let flags = Flags {
        read: true,
        write: true,
        execute: false,
    };
    mem.add(0x2_0000, flags, &[], 0x82)?;
    let mut cpu = Cpu {
        pc: CODE,
        isa: Isa::I,
        regs: Regs::new(),
    };
    cpu.regs.set(5, 0x2_0082);
    let done = exec(&mut cpu, &mut mem, 0xfe52_8fa3);
    assert_eq!(rt; done, Done::Next);
    assert_eq!(rt; cpu.pc, 0x1_0004);
    assert_eq!(rt; mem.load(0x2_0081, Size::Byte), Ok(0x82));
    assert_eq!(rt; mem.load(0x2_0080, Size::Byte), Ok(0));
    Ok(())
}
