ghost use Rattle.std.specs.Prelude.{◌≡◌, Ok, IfOk};
ghost use Rattle.cc_base.specs.Image.{FitsSegment};
ghost use Rattle.unit_set.specs.Slot.{slot_of};
ghost use Rattle.unit_format.specs.declared.error.TextErr.TheVariants as errors;
ghost use Rattle.unit_format.specs.Steps.{Gives, known};
ghost use Rattle.unit_format.specs.Text.{code};
ghost use Rattle.unit_format.specs.Reading.{version_at, isa_at, slot_at, image_at, same_isa};

use crate::bytes::{front_of, u8_at, u32_at};
use crate::error::TextErr;
use rv_decode::Isa;
use std::alloc::Global;
use unit_set::laws::names_are_read;
use unit_set::{NameErr, SlotName};

/// The version of a text.
#[derive(Clone, Copy, Debug, PartialEq, Eq)]
pub enum Version {
    One,
    Two,
}

/// The version.
#[tactic(auto, unfolding(crate::specs::Reading::version_at))]
pub fn version_of(bytes: &[u8]) -> Result<(Version, &[u8]), TextErr>
    ensures { Gives (λ x. (x.0, x.1.now)) result (version_at bytes.now) }
{
    let (magic, rest) = u32_at(bytes)?;
    match magic {
        0x3155_4343 => Ok((Version::One, rest)),
        0x3255_4343 => Ok((Version::Two, rest)),
        _ => Err(TextErr::Magic),
    }
}

/// The instruction set, which version 1 doesn't spell.
#[tactic(auto, unfolding(crate::specs::Reading::isa_at))]
pub fn isa_of(version: Version, bytes: &[u8]) -> Result<(Isa, &[u8]), TextErr>
    ensures { Gives (λ x. (x.0, x.1.now)) result (isa_at version bytes.now) }
{
    match version {
        Version::One => Ok((Isa::I, bytes)),
        Version::Two => {
            let (code, rest) = u8_at(bytes)?;
            match code {
                0 => Ok((Isa::I, rest)),
                1 => Ok((Isa::Im, rest)),
                _ => Err(TextErr::Isa),
            }
        }
    }
}

fn is_same(a: Isa, b: Isa) -> bool
    ensures { result ≡ same_isa a b }
{
    match a {
        Isa::I => matches!(b, Isa::I),
        Isa::Im => matches!(b, Isa::Im),
    }
}

// The name that these bytes spell.
fn name_of(alloc: Global, bytes: &[u8]) -> Result<SlotName, TextErr>
    ensures { Gives (λ s. s) result (known (slot_of bytes.now) errors.Name) }
{
    names_are_read();
    match SlotName::read(alloc, bytes) {
        Ok(slot) => Ok(slot),
        Err(NameErr::Bad) => Err(TextErr::Name),
        Err(NameErr::Memory) => Err(TextErr::Memory),
    }
}

/// The name.
#[tactic(auto, unfolding(crate::specs::Reading::slot_at))]
pub fn slot_in(alloc: Global, isa: Isa, bytes: &[u8]) -> Result<(SlotName, &[u8]), TextErr>
    ensures { Gives (λ x. (x.0, x.1.now)) result (slot_at isa bytes.now) }
{
    let (count, rest) = u8_at(bytes)?;
    let (name, rest) = front_of(count as usize, rest)?;
    let slot = name_of(alloc, name)?;
    if !is_same(slot.isa, isa) {
        return Err(TextErr::Name);
    }
    Ok((slot, rest))
}

/// The start of the image, and its bytes.
#[tactic(auto, unfolding(crate::specs::Reading::image_at))]
pub fn image_in(bytes: &[u8]) -> Result<(u32, &[u8], &[u8]), TextErr>
    ensures gives { Gives (λ x. (code x.0 x.1.now, x.2.now)) result (image_at bytes.now) }
    ensures fits { IfOk result (λ x. FitsSegment x.0 x.1.now) }
{
    let (start, rest) = u32_at(bytes)?;
    let (count, rest) = u32_at(rest)?;
    if count < 1 || count > 1_048_576 || u64::from(start) + u64::from(count) > 4_294_967_295 {
        return Err(TextErr::Count);
    }
    let (content, rest) = front_of(count as usize, rest)?;
    Ok((start, content, rest))
}
