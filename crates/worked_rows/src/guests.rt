// Guests as words, and a few as other files.
use crate::files::{FRAME, elf, elf_of_words};
use crate::hosting::agrees;
use std::test::Fail;

const READING: &str = "max = 16\nfuel = 100000\ninput = 'in'\n";

const CALLS: &str = "max = 16\nfuel = 100000\ntool = 'calls'\n";

const MEMORY: &str = "max = 16\nfuel = 100000\ntool = 'memory'\n";

const IM: &str = "max = 16\nfuel = 100000\nisa = 'im'\n";

// ADDI x17, x0, 93; ECALL.
const EXITS: [u32; 2] = [0x05d0_0893, 0x0000_0073];

// ADDI x5, x0, 1000; ADDI x5, x5, -1; BNE x5, x0, -4; ADDI x17, x0, 93; ECALL.
const COUNTDOWN: [u32; 5] = [
    0x3e80_0293,
    0xfff2_8293,
    0xfe02_9ee3,
    0x05d0_0893,
    0x0000_0073,
];

// The function at 00010020 gives 2, and 1 once its first word is that at 0001001C.
const FUNCTION: [u32; 10] = [
    0x0200_00ef,
    0x0001_02b7,
    0x01c2_a303,
    0x0262_a023,
    0x0100_00ef,
    0x05d0_0893,
    0x0000_0073,
    0x0010_0513,
    0x0020_0513,
    0x0000_8067,
];

// A byte is read to the stack, and where it is not 0 the status is 2.
const READS: [u32; 10] = [
    0x0000_0513,
    0x0001_0593,
    0x0010_0613,
    0x03f0_0893,
    0x0000_0073,
    0x0001_4283,
    0x0002_8463,
    0x0020_0513,
    0x05d0_0893,
    0x0000_0073,
];

// LUI x5, 00010; LW x6, 24(x5); SW x6, 12(x5); ADDI x10, x0, 1; ADDI x17, x0, 93; ECALL; ADDI x10, x0, 2.
const LATER_WORDS: [u32; 7] = [
    0x0001_02b7,
    0x0182_a303,
    0x0062_a623,
    0x0010_0513,
    0x05d0_0893,
    0x0000_0073,
    0x0020_0513,
];

// LUI x5, 00010; LW x6, 16(x5); SW x0, 16(x5); SW x6, 16(x5); ADDI x17, x0, 93; ECALL.
const SELF_OVERWRITE: [u32; 6] = [
    0x0001_02b7,
    0x0102_a303,
    0x0002_a823,
    0x0062_a823,
    0x05d0_0893,
    0x0000_0073,
];

// LUI x5, 00010; ADDI x7, x0, 20; LW x6, 16(x5); SW x6, 16(x5); ADDI x7, x7, -1; BNE x7, x0, -12; ADDI x17, x0, 93; ECALL:
// twenty times a loop stores into its own words what they are.
const OWN_LOOP: [u32; 8] = [
    0x0001_02b7,
    0x0140_0393,
    0x0102_a303,
    0x0062_a823,
    0xfff3_8393,
    0xfe03_9ae3,
    0x05d0_0893,
    0x0000_0073,
];

// Cases by the names that they have among the rows of whole runs: further keys, the flags of the segment, and its words.
#[test]
fn guests_alone_are_run_as_by_the_interpreter(rt: HostRuntime) -> Result<(), Fail> {
    let alloc = rt.alloc();
    let [adds, calls] = EXITS;
    for (name, keys, flags, words) in [
        ("two-instructions", FRAME, 5, EXITS.as_slice()),
        ("fuel-one", "max = 16\nfuel = 1\n", 5, EXITS.as_slice()),
        ("countdown", FRAME, 5, COUNTDOWN.as_slice()),
        ("misaligned", FRAME, 5, [0x0060_006f].as_slice()),
        ("endless-jump", FRAME, 5, [0x0000_006f].as_slice()),
        (
            "unknown-call",
            FRAME,
            5,
            [0x0050_0893, calls, adds, calls].as_slice(),
        ),
        ("fault-break", FRAME, 5, [0x0010_0073].as_slice()),
        ("fault-illegal", FRAME, 5, [0x0000_0000].as_slice()),
        ("fault-load", FRAME, 5, [0x0000_2283].as_slice()),
        (
            "fault-store",
            FRAME,
            5,
            [0x0000_0297, 0x0002_a023].as_slice(),
        ),
        ("store-into-a-function", FRAME, 7, FUNCTION.as_slice()),
        (
            "map-again",
            FRAME,
            5,
            [0x0000_0513, 0x3e80_0893, calls, adds, calls].as_slice(),
        ),
        (
            "map-no-module",
            FRAME,
            5,
            [0x0010_0513, 0x0000_0593, 0x3e80_0893, calls, adds, calls].as_slice(),
        ),
        (
            "unmapped",
            FRAME,
            5,
            [0x0000_0513, 0x0000_0593, 0x3e90_0893, calls, adds, calls].as_slice(),
        ),
        (
            "replace-itself",
            FRAME,
            5,
            [0x0000_0513, 0x0000_0593, 0x3ea0_0893, calls, adds, calls].as_slice(),
        ),
        (
            "replace-no-file",
            FRAME,
            5,
            [0x0000_0513, 0x0010_0593, 0x3ea0_0893, calls, adds, calls].as_slice(),
        ),
        ("one-input", READING, 5, READS.as_slice()),
        (
            "calls-tool",
            CALLS,
            5,
            [0x00c0_00ef, adds, calls, 0x0000_8067].as_slice(),
        ),
        ("later-words", FRAME, 7, LATER_WORDS.as_slice()),
        ("later-words-memory", MEMORY, 7, LATER_WORDS.as_slice()),
        ("self-overwrite", FRAME, 7, SELF_OVERWRITE.as_slice()),
        (
            "mul",
            IM,
            5,
            [0x0060_0293, 0x0070_0313, 0x0262_8533, adds, calls].as_slice(),
        ),
        (
            "div-by-zero",
            IM,
            5,
            [0x0060_0293, 0x0202_c533, adds, calls].as_slice(),
        ),
        (
            "rem-overflow",
            IM,
            5,
            [0x8000_02b7, 0xfff0_0313, 0x0262_e533, adds, calls].as_slice(),
        ),
        (
            "mulhu",
            IM,
            5,
            [0xfff0_0313, 0x0263_3533, adds, calls].as_slice(),
        ),
        (
            "mulhsu",
            IM,
            5,
            [0xfff0_0313, 0x0263_2533, adds, calls].as_slice(),
        ),
        (
            "mul-under-i",
            FRAME,
            5,
            [0x0060_0293, 0x0070_0313, 0x0262_8533, adds, calls].as_slice(),
        ),
    ] {
        let file = elf_of_words(alloc, flags, words)?;
        agrees(&rt, alloc, name, keys, &file)?;
    }
    Ok(())
}

// Under blocks of three words a store meets no block before it.
#[test]
fn guests_that_write_their_words_are_run_as_by_the_interpreter(
    rt: HostRuntime,
) -> Result<(), Fail> {
    let alloc = rt.alloc();
    for (name, words) in [
        ("later-words", LATER_WORDS.as_slice()),
        ("self-overwrite", SELF_OVERWRITE.as_slice()),
        ("own-loop", OWN_LOOP.as_slice()),
    ] {
        let file = elf_of_words(alloc, 7, words)?;
        for tool in ["blocks", "calls", "memory"] {
            let keys = format!(in alloc; "max = 3\npool = 16\ntool = '{tool}'\n")?;
            agrees(&rt, alloc, name, keys.as_str(), &file)?;
        }
    }
    Ok(())
}

// Half a word at the end of the code, and a file whose one header is of type 4.
#[test]
fn guests_of_odd_files_are_run_as_by_the_interpreter(rt: HostRuntime) -> Result<(), Fail> {
    let alloc = rt.alloc();
    let mut file = elf(alloc, 5, &[0x13, 0, 0, 0, 0x73, 0])?;
    agrees(&rt, alloc, "half-word", FRAME, &file)?;
    if let Some(kind) = file.get_mut(52) {
        *kind = 4;
    }
    agrees(&rt, alloc, "no-load-header", FRAME, &file)
}
