// The bits of an immediate and of a register's number, or none where it has no place in a word.
#![tactic(auto, unfolding(rv_decode::specs::Word::twos_complement))]

ghost use Rattle.std.specs.Prelude.{◌≡◌, ◌<◌, ◌≤◌, ◌*◌, ◌^◌, ℕ, pos, IfSome, IfNone};
ghost use Rattle.rv_decode.specs.Word.{twos_complement};

/// A register's number, of five bits.
pub fn register(number: u8) -> Option<u32>
    ensures some { IfSome result (λ bits. (bits ≡ number) × (bits < 32)) }
    ensures none { IfNone result (32 ≤ number) }
{
    if number < 32 {
        Some(u32::from(number))
    } else {
        None
    }
}

/// A number of places to shift by, of five bits.
pub fn places(imm: i32) -> Option<u32>
    ensures some { IfSome result (λ bits. (pos bits ≡ imm) × (bits < 32)) }
    ensures none { IfNone result ((bits : ℕ) → bits < 32 → pos bits ≡ imm → ⊥) }
{
    if 0 <= imm && imm < 32 {
        Some(imm.cast_unsigned())
    } else {
        None
    }
}

/// A signed number of twelve bits.
pub fn twelve_bits(imm: i32) -> Option<u32>
    ensures some { IfSome result (λ bits. (twos_complement 12 bits ≡ imm) × (bits < 2 ^ 12)) }
    ensures none { IfNone result ((bits : ℕ) → bits < 2 ^ 12 → twos_complement 12 bits ≡ imm → ⊥) }
{
    if -0x800 <= imm && imm < 0x800 {
        Some(imm.cast_unsigned() % 0x1000)
    } else {
        None
    }
}

/// An even signed number of thirteen bits, without its last.
pub fn branch_offset(imm: i32) -> Option<u32>
    ensures some { IfSome result (λ bits. (twos_complement 13 (bits * 2) ≡ imm) × (bits < 2 ^ 12)) }
    ensures none { IfNone result ((bits : ℕ) → bits < 2 ^ 12 → twos_complement 13 (bits * 2) ≡ imm → ⊥) }
{
    if -0x1000 <= imm && imm < 0x1000 && imm.cast_unsigned() % 2 == 0 {
        Some(imm.cast_unsigned() % 0x2000 / 2)
    } else {
        None
    }
}

/// An even signed number of twenty-one bits, without its last.
pub fn jump_offset(imm: i32) -> Option<u32>
    ensures some { IfSome result (λ bits. (twos_complement 21 (bits * 2) ≡ imm) × (bits < 2 ^ 20)) }
    ensures none { IfNone result ((bits : ℕ) → bits < 2 ^ 20 → twos_complement 21 (bits * 2) ≡ imm → ⊥) }
{
    if -0x10_0000 <= imm && imm < 0x10_0000 && imm.cast_unsigned() % 2 == 0 {
        Some(imm.cast_unsigned() % 0x20_0000 / 2)
    } else {
        None
    }
}

/// A number that ends in twelve zeros, without them.
pub fn upper(imm: i32) -> Option<u32>
    ensures some { IfSome result (λ bits. (twos_complement 32 (bits * 2 ^ 12) ≡ imm) × (bits < 2 ^ 20)) }
    ensures none { IfNone result ((bits : ℕ) → bits < 2 ^ 20 → twos_complement 32 (bits * 2 ^ 12) ≡ imm → ⊥) }
{
    if imm.cast_unsigned() % 0x1000 == 0 {
        Some(imm.cast_unsigned() / 0x1000)
    } else {
        None
    }
}
