// The three stages of a publication, each a write of an area and its sync.
ghost use Rattle.std.specs.Prelude.{◌≡◌, ◌≤◌, ◌+◌, ◌∷◌, [], length, Err};
ghost use Rattle.publish.specs.Gates.{Stage, Closes, Runs, first_stage};
ghost use Rattle.publish.specs.Causes.{HasPubCause};

use crate::area::Door;
use shelf_model::{Area, Shelf, ShelfErr, store};
use std::alloc::AllocError;
use thiserror::Error;

/// Why a unit was not published.
#[derive(Clone, Copy, Debug, PartialEq, Eq, Error)]
pub enum PubErr {
    /// The shelf failed, behind so many finished stages. A gate that stood closed already counts as finished.
    #[error("shelffault {stages}")]
    ShelfFault { stages: u8 },
    /// There is no greater seq.
    #[error("wornout")]
    WornOut,
    /// Memory ran out.
    #[error("memory")]
    Memory,
}

impl From<AllocError> for PubErr {
    ghost use Rattle.std.specs.Prelude.{◌≡◌};
    ghost use Rattle.publish.specs.declared.gates.PubErr.TheVariants.{Memory};

    ghost from_gives = { λ _ e. e ≡ Memory };

    fn from(_: AllocError) -> Self {
        PubErr::Memory
    }
}

// A write and its sync, as the stage behind so many.
fn stage<H: Shelf>(
    shelf: &mut H,
    name: &[u8],
    area: Area,
    at: u32,
    bytes: &[u8],
    stages: u8,
) -> Result<(), PubErr>
    requires { at + length bytes.now ≤ 4294967295 }
    ensures stage { Stage (H.told shelf.old) (H.told shelf.new) (H.moment shelf.old) (H.moment shelf.new) (H.images shelf.old) (H.images shelf.new)
        name.now area at bytes.now result }
    ensures cause { HasPubCause (H.faults shelf.old) (H.faults shelf.new) name.now result stages stages }
    ensures worn { result ≡ Err PubErr.WornOut → ⊥ }
{
    match store(shelf, name, area, at, bytes) {
        Ok(()) => Ok(()),
        Err(ShelfErr::Memory) => Err(PubErr::Memory),
        Err(ShelfErr::Failed) => Err(PubErr::ShelfFault { stages }),
        Err(ShelfErr::TooLong) => Err(PubErr::ShelfFault { stages }),
    }
}

/// Closes the gate of an area.
pub fn close_gate<H: Shelf>(shelf: &mut H, name: &[u8], area: Area) -> Result<(), PubErr>
    ensures stage { Stage (H.told shelf.old) (H.told shelf.new) (H.moment shelf.old) (H.moment shelf.new) (H.images shelf.old) (H.images shelf.new)
        name.now area 0 (0 ∷ []) result }
    ensures cause { HasPubCause (H.faults shelf.old) (H.faults shelf.new) name.now result 0 0 }
    ensures worn { result ≡ Err PubErr.WornOut → ⊥ }
{
    stage(shelf, name, area, 0, &[0], 0)
}

/// Writes an area's body behind its gate.
pub fn fill<H: Shelf>(shelf: &mut H, name: &[u8], area: Area, body: &[u8]) -> Result<(), PubErr>
    requires { length body.now ≤ 4194303 }
    ensures stage { Stage (H.told shelf.old) (H.told shelf.new) (H.moment shelf.old) (H.moment shelf.new) (H.images shelf.old) (H.images shelf.new)
        name.now area 1 body.now result }
    ensures cause { HasPubCause (H.faults shelf.old) (H.faults shelf.new) name.now result 1 1 }
    ensures worn { result ≡ Err PubErr.WornOut → ⊥ }
{
    stage(shelf, name, area, 1, body, 1)
}

/// Opens the gate of an area.
pub fn open_gate<H: Shelf>(shelf: &mut H, name: &[u8], area: Area) -> Result<(), PubErr>
    ensures stage { Stage (H.told shelf.old) (H.told shelf.new) (H.moment shelf.old) (H.moment shelf.new) (H.images shelf.old) (H.images shelf.new)
        name.now area 0 (165 ∷ []) result }
    ensures cause { HasPubCause (H.faults shelf.old) (H.faults shelf.new) name.now result 2 2 }
    ensures worn { result ≡ Err PubErr.WornOut → ⊥ }
{
    stage(shelf, name, area, 0, &[0xa5], 2)
}

// Closes a gate that isn't closed.
fn shut<H: Shelf>(shelf: &mut H, name: &[u8], area: Area, door: Door) -> Result<(), PubErr>
    ensures closes { Closes (H.told shelf.old) (H.told shelf.new) (H.moment shelf.old) (H.moment shelf.new) (H.images shelf.old) (H.images shelf.new)
        name.now area door result }
    ensures cause { HasPubCause (H.faults shelf.old) (H.faults shelf.new) name.now result (first_stage door) 0 }
    ensures worn { result ≡ Err PubErr.WornOut → ⊥ }
{
    match door {
        Door::Closed => Ok(()),
        Door::Absent => close_gate(shelf, name, area),
        Door::Opened => close_gate(shelf, name, area),
    }
}

/// The three stages, one after another.
pub fn run_stages<H: Shelf>(
    shelf: &mut H,
    name: &[u8],
    area: Area,
    door: Door,
    body: &[u8],
) -> Result<(), PubErr>
    requires { length body.now ≤ 4194303 }
    ensures runs { Runs (H.told shelf.old) (H.told shelf.new) (H.moment shelf.old) (H.moment shelf.new) (H.images shelf.old) (H.images shelf.new)
        name.now area door body.now result }
    ensures cause { HasPubCause (H.faults shelf.old) (H.faults shelf.new) name.now result (first_stage door) 2 }
    ensures worn { result ≡ Err PubErr.WornOut → ⊥ }
{
    shut(shelf, name, area, door)?;
    fill(shelf, name, area, body)?;
    open_gate(shelf, name, area)
}
