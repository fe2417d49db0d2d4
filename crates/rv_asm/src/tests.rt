use super::*;
use rv_decode::Ins;

#[test]
fn words_of_the_manual(rt: HostRuntime) {
    let pairs = [
        (
            Ins::Lui {
                rd: 5,
                imm: -0x8000_0000,
            },
            0x8000_02b7,
        ),
        (Ins::Jal { rd: 1, imm: 12 }, 0x00c0_00ef),
        (
            Ins::Jalr {
                rd: 0,
                rs1: 1,
                imm: 0,
            },
            0x0000_8067,
        ),
        (
            Ins::Bne {
                rs1: 5,
                rs2: 0,
                imm: -4,
            },
            0xfe02_9ee3,
        ),
        (
            Ins::Lw {
                rd: 6,
                rs1: 5,
                imm: 24,
            },
            0x0182_a303,
        ),
        (
            Ins::Sw {
                rs1: 5,
                rs2: 6,
                imm: 12,
            },
            0x0062_a623,
        ),
        (
            Ins::Addi {
                rd: 5,
                rs1: 5,
                imm: -1,
            },
            0xfff2_8293,
        ),
        (
            Ins::Srai {
                rd: 5,
                rs1: 5,
                imm: 31,
            },
            0x41f2_d293,
        ),
        (
            Ins::Sub {
                rd: 10,
                rs1: 10,
                rs2: 11,
            },
            0x40b5_0533,
        ),
        (
            Ins::Mul {
                rd: 10,
                rs1: 5,
                rs2: 6,
            },
            0x0262_8533,
        ),
        (Ins::FenceI, 0x0000_100f),
        (Ins::Ecall, 0x0000_0073),
    ];
    for (ins, word) in pairs {
        assert!(rt; asm(&ins) == Some(word), "{word:08X}");
    }
}

#[test]
fn what_no_word_has(rt: HostRuntime) {
    let all = [
        Ins::Lui { rd: 5, imm: 1 },
        Ins::Jal {
            rd: 1,
            imm: 0x10_0000,
        },
        Ins::Beq {
            rs1: 5,
            rs2: 0,
            imm: 3,
        },
        Ins::Addi {
            rd: 5,
            rs1: 5,
            imm: 2048,
        },
        Ins::Sw {
            rs1: 5,
            rs2: 6,
            imm: -2049,
        },
        Ins::Slli {
            rd: 5,
            rs1: 5,
            imm: 32,
        },
        Ins::Add {
            rd: 32,
            rs1: 0,
            rs2: 0,
        },
    ];
    for ins in all {
        assert!(rt; asm(&ins) == None);
    }
}
