// The word of an instruction: its opcode, funct3 and funct7, and its other fields by its format.
#![tactic(auto, unfolding(rv_decode::specs::Table::row_of, rv_decode::specs::Word::field))]

ghost use Rattle.std.specs.Prelude.{◌≡◌, ◌<◌, ◌^◌, ℕ, false, IfSome, IfNone};
ghost use Rattle.rv_decode.specs.Table.{instruction};
ghost use Rattle.rv_decode.specs.declared.ins.Isa.TheVariants as isas;
ghost use Rattle.rv_asm.specs.Sets.{is_of_m};

use crate::formats::{b_type, i_type, j_type, r_type, s_type, shift_type, u_type};
use rv_decode::Ins;

/// The word of an instruction, or none where it has none: where a register is not one of the 32, or the immediate has no
/// place in the format. The listings are those of the RISC-V unprivileged manual, chapter "RV32/64G Instruction Set
/// Listings". FENCE is the one of all accesses; the word of `Ins::None` is zero, which is no instruction.
pub fn asm(i: &Ins) -> Option<u32>
    ensures some { IfSome result (λ word. instruction isas.Im word ≡ i.now) }
    ensures base { IfSome result (λ word. is_of_m i.now ≡ false → instruction isas.I word ≡ i.now) }
    ensures none { IfNone result ((word : ℕ) → word < 2 ^ 32 → instruction isas.Im word ≡ i.now → ⊥) }
{
    match *i {
        Ins::Lui { rd, imm } => u_type(0b0110111, rd, imm),
        Ins::Auipc { rd, imm } => u_type(0b0010111, rd, imm),
        Ins::Jal { rd, imm } => j_type(rd, imm),
        Ins::Jalr { rd, rs1, imm } => i_type(0b1100111, 0b000, rd, rs1, imm),
        Ins::Beq { rs1, rs2, imm } => b_type(0b000, rs1, rs2, imm),
        Ins::Bne { rs1, rs2, imm } => b_type(0b001, rs1, rs2, imm),
        Ins::Blt { rs1, rs2, imm } => b_type(0b100, rs1, rs2, imm),
        Ins::Bge { rs1, rs2, imm } => b_type(0b101, rs1, rs2, imm),
        Ins::Bltu { rs1, rs2, imm } => b_type(0b110, rs1, rs2, imm),
        Ins::Bgeu { rs1, rs2, imm } => b_type(0b111, rs1, rs2, imm),
        Ins::Lb { rd, rs1, imm } => i_type(0b0000011, 0b000, rd, rs1, imm),
        Ins::Lh { rd, rs1, imm } => i_type(0b0000011, 0b001, rd, rs1, imm),
        Ins::Lw { rd, rs1, imm } => i_type(0b0000011, 0b010, rd, rs1, imm),
        Ins::Lbu { rd, rs1, imm } => i_type(0b0000011, 0b100, rd, rs1, imm),
        Ins::Lhu { rd, rs1, imm } => i_type(0b0000011, 0b101, rd, rs1, imm),
        Ins::Sb { rs1, rs2, imm } => s_type(0b000, rs1, rs2, imm),
        Ins::Sh { rs1, rs2, imm } => s_type(0b001, rs1, rs2, imm),
        Ins::Sw { rs1, rs2, imm } => s_type(0b010, rs1, rs2, imm),
        Ins::Addi { rd, rs1, imm } => i_type(0b0010011, 0b000, rd, rs1, imm),
        Ins::Slti { rd, rs1, imm } => i_type(0b0010011, 0b010, rd, rs1, imm),
        Ins::Sltiu { rd, rs1, imm } => i_type(0b0010011, 0b011, rd, rs1, imm),
        Ins::Xori { rd, rs1, imm } => i_type(0b0010011, 0b100, rd, rs1, imm),
        Ins::Ori { rd, rs1, imm } => i_type(0b0010011, 0b110, rd, rs1, imm),
        Ins::Andi { rd, rs1, imm } => i_type(0b0010011, 0b111, rd, rs1, imm),
        Ins::Slli { rd, rs1, imm } => shift_type(0b0000000, 0b001, rd, rs1, imm),
        Ins::Srli { rd, rs1, imm } => shift_type(0b0000000, 0b101, rd, rs1, imm),
        Ins::Srai { rd, rs1, imm } => shift_type(0b0100000, 0b101, rd, rs1, imm),
        Ins::Add { rd, rs1, rs2 } => r_type(0b0000000, 0b000, rd, rs1, rs2),
        Ins::Sub { rd, rs1, rs2 } => r_type(0b0100000, 0b000, rd, rs1, rs2),
        Ins::Sll { rd, rs1, rs2 } => r_type(0b0000000, 0b001, rd, rs1, rs2),
        Ins::Slt { rd, rs1, rs2 } => r_type(0b0000000, 0b010, rd, rs1, rs2),
        Ins::Sltu { rd, rs1, rs2 } => r_type(0b0000000, 0b011, rd, rs1, rs2),
        Ins::Xor { rd, rs1, rs2 } => r_type(0b0000000, 0b100, rd, rs1, rs2),
        Ins::Srl { rd, rs1, rs2 } => r_type(0b0000000, 0b101, rd, rs1, rs2),
        Ins::Sra { rd, rs1, rs2 } => r_type(0b0100000, 0b101, rd, rs1, rs2),
        Ins::Or { rd, rs1, rs2 } => r_type(0b0000000, 0b110, rd, rs1, rs2),
        Ins::And { rd, rs1, rs2 } => r_type(0b0000000, 0b111, rd, rs1, rs2),
        Ins::Mul { rd, rs1, rs2 } => r_type(0b0000001, 0b000, rd, rs1, rs2),
        Ins::Mulh { rd, rs1, rs2 } => r_type(0b0000001, 0b001, rd, rs1, rs2),
        Ins::Mulhsu { rd, rs1, rs2 } => r_type(0b0000001, 0b010, rd, rs1, rs2),
        Ins::Mulhu { rd, rs1, rs2 } => r_type(0b0000001, 0b011, rd, rs1, rs2),
        Ins::Div { rd, rs1, rs2 } => r_type(0b0000001, 0b100, rd, rs1, rs2),
        Ins::Divu { rd, rs1, rs2 } => r_type(0b0000001, 0b101, rd, rs1, rs2),
        Ins::Rem { rd, rs1, rs2 } => r_type(0b0000001, 0b110, rd, rs1, rs2),
        Ins::Remu { rd, rs1, rs2 } => r_type(0b0000001, 0b111, rd, rs1, rs2),
        Ins::Fence => Some(0x0ff0_000f),
        Ins::FenceI => Some(0x0000_100f),
        Ins::Ecall => Some(0x0000_0073),
        Ins::Ebreak => Some(0x0010_0073),
        Ins::None => Some(0),
    }
}
