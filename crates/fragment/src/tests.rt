use super::*;
use cc_base::CodeView;
use probe_tools::{Class, Tool};
use rv_decode::{Isa, decode};
use std::test::Fail;

const CODE: u32 = 0x1_0000;

// ADDI x5, x0, 1000; ADDI x5, x5, -1; BNE x5, x0, -4; ADDI x17, x0, 93; ECALL.
const COUNTDOWN: [u8; 20] = [
    0x93, 0x02, 0x80, 0x3e, 0x93, 0x82, 0xf2, 0xff, 0xe3, 0x9e, 0x02, 0xfe, 0x93, 0x08, 0xd0, 0x05,
    0x73, 0x00, 0x00, 0x00,
];

const BEGIN: Probe = Probe {
    place: 0,
    kind: ProbeKind::Block,
};

#[test]
fn a_fragment_is_its_parts(rt: HostRuntime) -> Result<(), Fail> {
    let alloc = rt.alloc();
    let words = [0xfff2_8293, 0xfe02_9ee3];
    let exits = [Exit::Direct(0x1_0004), Exit::Direct(0x1_000c)];
    let block = Fragment::of(alloc, 0x1_0004, &words, &[BEGIN], &exits)?;
    let kept = Fragment::from_parts(
        0x1_0004,
        vec![in alloc; 0xfff2_8293, 0xfe02_9ee3]?,
        vec![in alloc; BEGIN]?,
        vec![in alloc; Exit::Direct(0x1_0004), Exit::Direct(0x1_000c)]?,
    );
    for same in [&block, &block.copy(alloc)?, &kept] {
        assert_eq!(rt; same.addr(), 0x1_0004);
        assert_eq!(rt; same.words(), words.as_slice());
        assert_eq!(rt; same.probes(), [BEGIN].as_slice());
        assert_eq!(rt; same.exits(), exits.as_slice());
    }
    Ok(())
}

#[test]
fn instructions_have_a_class(rt: HostRuntime) {
    for (word, class, ends) in [
        (0x00c0_00ef, Class::Call, true),
        (0x00c0_02ef, Class::Call, true),
        (0x00c0_006f, Class::Jump, true),
        (0x0000_80e7, Class::Call, true),
        (0x0000_8067, Class::Jump, true),
        (0xfe02_9ee3, Class::Branch, true),
        (0x0004_4483, Class::Load, false),
        (0x0064_2023, Class::Store, false),
        (0x0000_0073, Class::Ask, true),
        (0x0010_0073, Class::Break, true),
        (0x0000_0000, Class::None, true),
        (0x0262_8533, Class::Plain, false),
        (0x0000_100f, Class::Plain, false),
    ] {
        let ins = decode(word, Isa::Im);
        assert!(rt; class_of(&ins) == class, "{word:08X}");
        assert_eq!(rt; ends_block(&ins), ends, "{word:08X}");
    }
}

#[test]
fn only_the_built_block_is_fresh(rt: HostRuntime) -> Result<(), Fail> {
    let alloc = rt.alloc();
    let code = CodeView {
        start: CODE,
        bytes: &COUNTDOWN,
    };
    let loops = [0xfff2_8293, 0xfe02_9ee3];
    let exits = [Exit::Direct(0x1_0004), Exit::Direct(0x1_000c)];
    let turned = [exits[1], exits[0]];
    for (at, words, probes, exits, tool, max, want) in [
        (
            0x1_0004,
            loops.as_slice(),
            [BEGIN].as_slice(),
            exits.as_slice(),
            Tool::Blocks,
            16,
            true,
        ),
        (0x1_0004, &loops, &[BEGIN], &exits, Tool::Blocks, 2, true),
        (0x1_0004, &loops, &[], &exits, Tool::Memory, 16, true),
        (0x1_0004, &loops, &[], &exits, Tool::Blocks, 16, false),
        (0x1_0004, &loops, &[BEGIN], &turned, Tool::Blocks, 16, false),
        (0x1_0004, &loops, &[BEGIN], &exits, Tool::Blocks, 1, false),
        (
            0x1_0004,
            &loops[..1],
            &[BEGIN],
            &exits,
            Tool::Blocks,
            16,
            false,
        ),
        (0x1_0000, &loops, &[BEGIN], &exits, Tool::Blocks, 16, false),
        (0x1_0005, &loops, &[BEGIN], &exits, Tool::Blocks, 16, false),
    ] {
        let block = Fragment::of(alloc, at, words, probes, exits)?;
        assert_eq!(rt;
            same_as_built(&block, code, Isa::I, tool, max),
            want,
            "{at:08X} {max}"
        );
    }
    Ok(())
}
