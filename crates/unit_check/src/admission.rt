ghost use Rattle.std.specs.Prelude.{◌≡◌, map, IfOk};
ghost use Rattle.unit_format.specs.declared.header.Version.{Version};
ghost use Rattle.unit_format.specs.Text.{IsRaw};
ghost use Rattle.unit_check.specs.declared.admission.AdmitErr.TheVariants.{Memory};
ghost use Rattle.unit_check.specs.Admission.{held_of, Admits};
ghost use Rattle.unit_set.specs.Held.{IsHeld, addresses};

use crate::fresh::first_stale;
use crate::links::{addresses_in, first_bad};
use fragment::Fragment;
use std::alloc::{AllocError, Global};
use thiserror::Error;
use unit_set::{RawFrag, RawUnit, SlotName, Unit};

/// Why a unit that was read is not admitted: the first cause from above.
#[derive(Clone, Copy, Debug, PartialEq, Eq, Error)]
pub enum AdmitErr {
    /// It is of another slot.
    #[error("foreign")]
    Foreign,
    /// The fragment at this address is not the one built there.
    #[error("notfresh {0:08X}")]
    NotFresh(u32),
    /// Of the fragment at this address, the link of this exit is not the defined one.
    #[error("badlink {0:08X} {1}")]
    BadLink(u32, u8),
    /// The host has no memory left.
    #[error("memory")]
    Memory,
}

impl From<AllocError> for AdmitErr {
    ghost from_gives = { λ _ e. e ≡ Memory };

    fn from(_e: AllocError) -> AdmitErr {
        AdmitErr::Memory
    }
}

/// The fragments, moved, without their links.
fn untied(alloc: Global, frags: Vec<RawFrag>) -> Result<Vec<Fragment>, AllocError>
    ensures { IfOk result (λ v. v.items ≡ map (λ f. f.frag) frags.items) }
{
    let mut all = Vec::new(alloc);
    for f in frags {
        all.push(f.into_frag())?;
    }
    Ok(all)
}

/// The unit of the fragments, moved. Their links are found again.
fn unit_of(alloc: Global, raw: RawUnit, addrs: Vec<u32>) -> Result<Unit, AllocError>
    requires addresses { addrs.items ≡ addresses (held_of raw).frags }
    requires held { IsHeld raw.slot raw.image (held_of raw).frags }
    ensures { IfOk result (λ u. u ≡ held_of raw) }
{
    let (slot, image, frags) = raw.into_parts();
    let frags = untied(alloc, frags)?;
    Unit::of(alloc, slot, image, addrs, frags)
}

/// The unit that was read, where it is one of this slot.
pub fn admit(alloc: Global, raw: RawUnit, slot: &SlotName) -> Result<Unit, AdmitErr>
    requires { (v : Version) × IsRaw v raw }
    ensures { Admits raw slot.now result }
{
    if !raw.slot().is(slot) {
        return Err(AdmitErr::Foreign);
    }
    if let Some(addr) = first_stale(raw.slot(), raw.image(), raw.frags()) {
        return Err(AdmitErr::NotFresh(addr));
    }
    let addrs = addresses_in(alloc, raw.frags())?;
    if let Some((addr, exit)) = first_bad(&addrs, raw.frags()) {
        return Err(AdmitErr::BadLink(addr, exit));
    }
    Ok(unit_of(alloc, raw, addrs)?)
}
