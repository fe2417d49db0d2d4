ghost use Rattle.std.specs.Prelude.{◌≡◌, Ok, IfOk};
ghost use Rattle.unit_set.specs.Raw.{Raw};
ghost use Rattle.unit_format.specs.declared.header.Version.{Version};
ghost use Rattle.unit_format.specs.Text.{Spells};
ghost use Rattle.unit_format.specs.Steps.{Gives};
ghost use Rattle.unit_format.specs.Reading.{text_at, unit_of};

use crate::error::TextErr;
use crate::fragments::fragments_of;
use crate::header::{image_in, isa_of, slot_in, version_of};
use cc_base::{Blob, Image};
use std::alloc::Global;
use std::sync::Arc;
use unit_set::RawUnit;

/// The unit that the bytes spell, all of the bytes.
#[tactic(auto, unfolding(crate::specs::Reading::unit_of, crate::specs::Reading::text_at))]
fn all(alloc: Global, bytes: &[u8]) -> Result<RawUnit, TextErr>
    ensures { Gives (λ u. u) result (unit_of bytes.now) }
{
    let (version, rest) = version_of(bytes)?;
    let (isa, rest) = isa_of(version, rest)?;
    let (slot, rest) = slot_in(alloc, isa, rest)?;
    let (start, content, rest) = image_in(rest)?;
    let (frags, rest) = fragments_of(alloc, version, start, content, rest)?;
    if !rest.is_empty() {
        return Err(TextErr::Trailing);
    }
    let bytes = Arc::new(alloc, Blob::of(alloc, content)?)?;
    Ok(RawUnit {
        slot,
        image: Image { start, bytes },
        frags,
    })
}

/// The unit that the bytes spell, in either version.
pub fn read_unit(alloc: Global, bytes: &[u8]) -> Result<RawUnit, TextErr>
    // What is read is spelled so.
    ensures found { IfOk result (λ u. (v : Version) × Spells v bytes.now u) }
    // What is spelled so is read, unless memory runs out.
    ensures only { (v : Version) (u : Raw) → Spells v bytes.now u → Gives (λ u. u) result (Ok u) }
    // Which failure it is.
    ensures exact { Gives (λ u. u) result (unit_of bytes.now) }
{
    all(alloc, bytes)
}
