ghost use Rattle.std.specs.Prelude.{◌≡◌, Ok, IfOk, length};
ghost use Rattle.std.specs.Int.{w16, w32};
ghost use Rattle.unit_format.specs.Steps.{Gives, byte_at, number_at, bytes_at};

use crate::error::TextErr;
use byteorder::{ByteOrder, LittleEndian};

/// The byte at the front, and the bytes behind it.
#[tactic(auto, unfolding(crate::specs::Steps::byte_at))]
pub fn u8_at(bytes: &[u8]) -> Result<(u8, &[u8]), TextErr>
    ensures { Gives (λ x. (x.0, x.1.now)) result (byte_at bytes.now) }
{
    match bytes {
        [] => Err(TextErr::Short),
        [first, rest @ ..] => Ok((*first, rest)),
    }
}

/// The number of two bytes at the front.
#[tactic(auto, unfolding(crate::specs::Steps::number_at, crate::specs::Steps::bytes_at))]
pub fn u16_at(bytes: &[u8]) -> Result<(u16, &[u8]), TextErr>
    ensures { Gives (λ x. (x.0, x.1.now)) result (number_at w16 bytes.now) }
{
    if bytes.len() < 2 {
        return Err(TextErr::Short);
    }
    let (front, rest) = bytes.split_at(2);
    Ok((LittleEndian::read_u16(front), rest))
}

/// The number of four bytes at the front.
#[tactic(auto, unfolding(crate::specs::Steps::number_at, crate::specs::Steps::bytes_at))]
pub fn u32_at(bytes: &[u8]) -> Result<(u32, &[u8]), TextErr>
    ensures { Gives (λ x. (x.0, x.1.now)) result (number_at w32 bytes.now) }
{
    if bytes.len() < 4 {
        return Err(TextErr::Short);
    }
    let (front, rest) = bytes.split_at(4);
    Ok((LittleEndian::read_u32(front), rest))
}

/// So many bytes at the front.
#[tactic(auto, unfolding(crate::specs::Steps::bytes_at))]
pub fn front_of(count: usize, bytes: &[u8]) -> Result<(&[u8], &[u8]), TextErr>
    ensures gives { Gives (λ x. (x.0.now, x.1.now)) result (bytes_at count bytes.now) }
    ensures length { IfOk result (λ x. length x.0.now ≡ count) }
{
    if bytes.len() < count {
        return Err(TextErr::Short);
    }
    Ok(bytes.split_at(count))
}
