ghost use Rattle.std.specs.Prelude.{◌≡◌, ◌+◌, ◌-◌, ◌≤◌, ◌<◌, ◌^◌};
ghost use Rattle.rv_decode.specs.Word.{field, twos_complement, value_of, imm_i, imm_s, imm_b, imm_u, imm_j};

// The bits of the word from `high` down to `low`, both numbered from 0 at the least.
pub fn bits(word: u32, high: u32, low: u32) -> u32
    requires order { low ≤ high }
    requires within { high < 32 }
    ensures value { result ≡ field word high low }
    ensures below { result < 2 ^ (high + 1 - low) }
{
    (word >> low) & (u32::MAX >> (31 - (high - low)))
}

// The number of `len` bits in two's complement.
pub fn sign_extended(raw: u32, len: u32) -> i32
    requires positive { 0 < len }
    requires within { len ≤ 32 }
    requires fits { raw < 2 ^ len }
    ensures { result ≡ twos_complement len raw }
{
    (raw << (32 - len)).cast_signed() >> (32 - len)
}

// The immediate of an instruction of format I; those of the other four formats follow.
pub fn imm_i(word: u32) -> i32
    ensures { result ≡ value_of imm_i word }
{
    sign_extended(bits(word, 31, 20), 12)
}

pub fn imm_s(word: u32) -> i32
    ensures { result ≡ value_of imm_s word }
{
    sign_extended(bits(word, 31, 25) << 5 | bits(word, 11, 7), 12)
}

pub fn imm_b(word: u32) -> i32
    ensures { result ≡ value_of imm_b word }
{
    let raw = (bits(word, 31, 31) << 12)
        + (bits(word, 7, 7) << 11)
        + (bits(word, 30, 25) << 5)
        + (bits(word, 11, 8) << 1);
    sign_extended(raw, 13)
}

pub fn imm_u(word: u32) -> i32
    ensures { result ≡ value_of imm_u word }
{
    sign_extended(bits(word, 31, 12) << 12, 32)
}

pub fn imm_j(word: u32) -> i32
    ensures { result ≡ value_of imm_j word }
{
    let raw = (bits(word, 31, 31) << 20)
        + (bits(word, 19, 12) << 12)
        + (bits(word, 20, 20) << 11)
        + (bits(word, 30, 21) << 1);
    sign_extended(raw, 21)
}
