use super::*;

#[test]
fn words_are_the_instructions_of_the_manual(rt: HostRuntime) {
    let pairs = [
        (
            0x0001_02b7,
            Ins::Lui {
                rd: 5,
                imm: 0x1_0000,
            },
        ),
        (
            0x8000_02b7,
            Ins::Lui {
                rd: 5,
                imm: -0x8000_0000,
            },
        ),
        (0x0000_0297, Ins::Auipc { rd: 5, imm: 0 }),
        (0x00c0_00ef, Ins::Jal { rd: 1, imm: 12 }),
        (
            0xfe02_9ee3,
            Ins::Bne {
                rs1: 5,
                rs2: 0,
                imm: -4,
            },
        ),
        (
            0x0002_8463,
            Ins::Beq {
                rs1: 5,
                rs2: 0,
                imm: 8,
            },
        ),
        (
            0x0001_4283,
            Ins::Lbu {
                rd: 5,
                rs1: 2,
                imm: 0,
            },
        ),
        (
            0x0182_a303,
            Ins::Lw {
                rd: 6,
                rs1: 5,
                imm: 24,
            },
        ),
        (
            0x0062_a623,
            Ins::Sw {
                rs1: 5,
                rs2: 6,
                imm: 12,
            },
        ),
        (
            0xfff2_8293,
            Ins::Addi {
                rd: 5,
                rs1: 5,
                imm: -1,
            },
        ),
    ];
    for (word, ins) in pairs {
        assert!(rt; decode(word, Isa::I) == ins, "{word:08X}");
    }
}

#[test]
fn codes_with_funct7_and_whole_words(rt: HostRuntime) {
    let pairs = [
        (
            0x0000_8067,
            Ins::Jalr {
                rd: 0,
                rs1: 1,
                imm: 0,
            },
        ),
        (
            0x41f2_d293,
            Ins::Srai {
                rd: 5,
                rs1: 5,
                imm: 31,
            },
        ),
        (
            0x01f2_d293,
            Ins::Srli {
                rd: 5,
                rs1: 5,
                imm: 31,
            },
        ),
        (
            0x00b5_0533,
            Ins::Add {
                rd: 10,
                rs1: 10,
                rs2: 11,
            },
        ),
        (
            0x40b5_0533,
            Ins::Sub {
                rd: 10,
                rs1: 10,
                rs2: 11,
            },
        ),
        (0x0ff0_000f, Ins::Fence),
        (0x0000_100f, Ins::FenceI),
        (0x0000_0073, Ins::Ecall),
        (0x0010_0073, Ins::Ebreak),
        (0x0020_0073, Ins::None),
        (0x0000_0000, Ins::None),
    ];
    for (word, ins) in pairs {
        assert!(rt; decode(word, Isa::I) == ins, "{word:08X}");
    }
}

#[test]
fn multiplication_is_of_the_larger_set_alone(rt: HostRuntime) {
    let pairs = [
        (
            0x0262_8533,
            Ins::Mul {
                rd: 10,
                rs1: 5,
                rs2: 6,
            },
        ),
        (
            0x0263_2533,
            Ins::Mulhsu {
                rd: 10,
                rs1: 6,
                rs2: 6,
            },
        ),
        (
            0x0263_3533,
            Ins::Mulhu {
                rd: 10,
                rs1: 6,
                rs2: 6,
            },
        ),
        (
            0x0202_c533,
            Ins::Div {
                rd: 10,
                rs1: 5,
                rs2: 0,
            },
        ),
        (
            0x0262_e533,
            Ins::Rem {
                rd: 10,
                rs1: 5,
                rs2: 6,
            },
        ),
    ];
    for (word, ins) in pairs {
        assert!(rt; decode(word, Isa::Im) == ins, "{word:08X}");
        assert!(rt; decode(word, Isa::I) == Ins::None, "{word:08X}");
    }
}
