// The words of the six formats, as the RISC-V unprivileged manual lays them out (chapter "RV32I Base Integer
// Instruction Set", "Base Instruction Formats" and "Immediate Encoding Variants").
#![tactic(auto, unfolding(rv_decode::specs::Word::field))]

ghost use Rattle.std.specs.Prelude.{◌≡◌, ◌<◌, ℕ, pos, IfSome, IfNone};
ghost use Rattle.rv_decode.specs.Word.{field, value_of, imm_i, imm_s, imm_b, imm_u, imm_j};

use crate::immediates::{branch_offset, jump_offset, places, register, twelve_bits, upper};

/// Format R, of opcode OP: three registers.
pub fn r_type(funct7: u32, funct3: u32, rd: u8, rs1: u8, rs2: u8) -> Option<u32>
    requires seventh { funct7 < 128 }
    requires third { funct3 < 8 }
    ensures some { IfSome result (λ word. (field word 6 0 ≡ 51) × (field word 14 12 ≡ funct3) × (field word 31 25 ≡ funct7)
        × (field word 11 7 ≡ rd) × (field word 19 15 ≡ rs1) × (field word 24 20 ≡ rs2)) }
    ensures none { IfNone result ((word : ℕ) →
        (field word 11 7 ≡ rd) × (field word 19 15 ≡ rs1) × (field word 24 20 ≡ rs2) → ⊥) }
{
    let rd = register(rd)?;
    let rs1 = register(rs1)?;
    let rs2 = register(rs2)?;
    Some(0b0110011 + (rd << 7) + (funct3 << 12) + (rs1 << 15) + (rs2 << 20) + (funct7 << 25))
}

/// Format I: two registers and twelve bits.
pub fn i_type(opcode: u32, funct3: u32, rd: u8, rs1: u8, imm: i32) -> Option<u32>
    requires first { opcode < 128 }
    requires third { funct3 < 8 }
    ensures some { IfSome result (λ word. (field word 6 0 ≡ opcode) × (field word 14 12 ≡ funct3)
        × (field word 11 7 ≡ rd) × (field word 19 15 ≡ rs1) × (value_of imm_i word ≡ imm)) }
    ensures none { IfNone result ((word : ℕ) →
        (field word 11 7 ≡ rd) × (field word 19 15 ≡ rs1) × (value_of imm_i word ≡ imm) → ⊥) }
{
    let rd = register(rd)?;
    let rs1 = register(rs1)?;
    let imm = twelve_bits(imm)?;
    Some(opcode + (rd << 7) + (funct3 << 12) + (rs1 << 15) + (imm << 20))
}

/// Format I, of opcode OP-IMM, where it shifts by a number of places.
pub fn shift_type(funct7: u32, funct3: u32, rd: u8, rs1: u8, imm: i32) -> Option<u32>
    requires seventh { funct7 < 128 }
    requires third { funct3 < 8 }
    ensures some { IfSome result (λ word. (field word 6 0 ≡ 19) × (field word 14 12 ≡ funct3) × (field word 31 25 ≡ funct7)
        × (field word 11 7 ≡ rd) × (field word 19 15 ≡ rs1) × (pos (field word 24 20) ≡ imm)) }
    ensures none { IfNone result ((word : ℕ) →
        (field word 11 7 ≡ rd) × (field word 19 15 ≡ rs1) × (pos (field word 24 20) ≡ imm) → ⊥) }
{
    let rd = register(rd)?;
    let rs1 = register(rs1)?;
    let places = places(imm)?;
    Some(0b0010011 + (rd << 7) + (funct3 << 12) + (rs1 << 15) + (places << 20) + (funct7 << 25))
}

/// Format S, of opcode STORE.
pub fn s_type(funct3: u32, rs1: u8, rs2: u8, imm: i32) -> Option<u32>
    requires third { funct3 < 8 }
    ensures some { IfSome result (λ word. (field word 6 0 ≡ 35) × (field word 14 12 ≡ funct3)
        × (field word 19 15 ≡ rs1) × (field word 24 20 ≡ rs2) × (value_of imm_s word ≡ imm)) }
    ensures none { IfNone result ((word : ℕ) →
        (field word 19 15 ≡ rs1) × (field word 24 20 ≡ rs2) × (value_of imm_s word ≡ imm) → ⊥) }
{
    let rs1 = register(rs1)?;
    let rs2 = register(rs2)?;
    let imm = twelve_bits(imm)?;
    let low = imm % 0x20;
    let high = imm / 0x20;
    Some(0b0100011 + (low << 7) + (funct3 << 12) + (rs1 << 15) + (rs2 << 20) + (high << 25))
}

/// Format B, of opcode BRANCH: of the offset, bits 4 to 1 and 11 stand low, bits 12 and 10 to 5 high.
pub fn b_type(funct3: u32, rs1: u8, rs2: u8, imm: i32) -> Option<u32>
    requires third { funct3 < 8 }
    ensures some { IfSome result (λ word. (field word 6 0 ≡ 99) × (field word 14 12 ≡ funct3)
        × (field word 19 15 ≡ rs1) × (field word 24 20 ≡ rs2) × (value_of imm_b word ≡ imm)) }
    ensures none { IfNone result ((word : ℕ) →
        (field word 19 15 ≡ rs1) × (field word 24 20 ≡ rs2) × (value_of imm_b word ≡ imm) → ⊥) }
{
    let rs1 = register(rs1)?;
    let rs2 = register(rs2)?;
    let offset = branch_offset(imm)?;
    let low = offset % 0x10 * 2 + offset / 0x400 % 2;
    let high = offset / 0x10 % 0x40 + offset / 0x800 * 0x40;
    Some(0b1100011 + (low << 7) + (funct3 << 12) + (rs1 << 15) + (rs2 << 20) + (high << 25))
}

/// Format U.
pub fn u_type(opcode: u32, rd: u8, imm: i32) -> Option<u32>
    requires { opcode < 128 }
    ensures some { IfSome result (λ word. (field word 6 0 ≡ opcode) × (field word 11 7 ≡ rd) × (value_of imm_u word ≡ imm)) }
    ensures none { IfNone result ((word : ℕ) → (field word 11 7 ≡ rd) × (value_of imm_u word ≡ imm) → ⊥) }
{
    let rd = register(rd)?;
    let imm = upper(imm)?;
    Some(opcode + (rd << 7) + (imm << 12))
}

/// Format J, of opcode JAL: of the offset, bit 20, bits 10 to 1, bit 11 and bits 19 to 12 follow one another.
pub fn j_type(rd: u8, imm: i32) -> Option<u32>
    ensures some { IfSome result (λ word. (field word 6 0 ≡ 111) × (field word 11 7 ≡ rd) × (value_of imm_j word ≡ imm)) }
    ensures none { IfNone result ((word : ℕ) → (field word 11 7 ≡ rd) × (value_of imm_j word ≡ imm) → ⊥) }
{
    let rd = register(rd)?;
    let offset = jump_offset(imm)?;
    let middle = offset / 0x800 % 0x100 + offset / 0x400 % 2 * 0x100;
    let high = offset % 0x400 + offset / 0x8_0000 * 0x400;
    Some(0b1101111 + (rd << 7) + (middle << 12) + (high << 21))
}
