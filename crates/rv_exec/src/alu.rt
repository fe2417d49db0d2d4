ghost use Rattle.std.specs.Prelude.{◌≡◌, ◌<◌, ◌*ℤ◌, ◌/◌, ◌^◌, ◌==◌, pos, if◌then◌else◌, int_div, int_rem, ◌-◌};
ghost use Rattle.plain_machine.specs.Alu.{computed, high, is_taken, signed, word};

use plain_machine::{Comparison, Op};

/// Whether a branch with this comparison is taken.
#[inline(always)]
pub fn is_taken(comparison: Comparison, x: u32, y: u32) -> bool
    ensures { result ≡ is_taken comparison x y }
{
    match comparison {
        Comparison::Eq => x == y,
        Comparison::Ne => x != y,
        Comparison::Lt => x.cast_signed() < y.cast_signed(),
        Comparison::Ge => x.cast_signed() >= y.cast_signed(),
        Comparison::Ltu => x < y,
        Comparison::Geu => x >= y,
    }
}

/// What the operation makes of the two words.
#[inline(always)]
pub fn compute(op: Op, x: u32, y: u32) -> u32
    ensures { result ≡ computed op x y }
{
    match op {
        Op::Add => x.wrapping_add(y),
        Op::Sub => x.wrapping_sub(y),
        Op::Sll => x.wrapping_shl(y),
        Op::Slt => u32::from(x.cast_signed() < y.cast_signed()),
        Op::Sltu => u32::from(x < y),
        Op::Xor => x ^ y,
        Op::Srl => x.wrapping_shr(y),
        Op::Sra => x.cast_signed().wrapping_shr(y).cast_unsigned(),
        Op::Or => x | y,
        Op::And => x & y,
        Op::Mul => x.wrapping_mul(y),
        Op::Mulh => high_of_signed(x, y),
        Op::Mulhsu => high_of_mixed(x, y),
        Op::Mulhu => ((u64::from(x) * u64::from(y)) >> 32) as u32,
        Op::Div => quotient(x, y),
        Op::Divu => if y == 0 { u32::MAX } else { x / y },
        Op::Rem => remainder(x, y),
        Op::Remu => if y == 0 { x } else { x % y },
    }
}

fn high_of_signed(x: u32, y: u32) -> u32
    ensures { result ≡ high (signed x *ℤ signed y) }
{
    let product = i64::from(x.cast_signed()) * i64::from(y.cast_signed());
    (product.cast_unsigned() >> 32) as u32
}

fn high_of_mixed(x: u32, y: u32) -> u32
    ensures { result ≡ high (signed x *ℤ pos y) }
{
    let product = i64::from(x.cast_signed()) * i64::from(y);
    (product.cast_unsigned() >> 32) as u32
}

fn quotient(x: u32, y: u32) -> u32
    ensures { result ≡ (if y == 0 then 2 ^ 32 - 1 else word (int_div (signed x) (signed y))) }
{
    if y == 0 {
        u32::MAX
    } else {
        x.cast_signed()
            .wrapping_div(y.cast_signed())
            .cast_unsigned()
    }
}

fn remainder(x: u32, y: u32) -> u32
    ensures { result ≡ (if y == 0 then x else word (int_rem (signed x) (signed y))) }
{
    if y == 0 {
        x
    } else {
        x.cast_signed()
            .wrapping_rem(y.cast_signed())
            .cast_unsigned()
    }
}
