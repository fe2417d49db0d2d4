// A unit is published.
ghost use Rattle.std.specs.Prelude.{◌≡◌, ◌↔◌, ◌+◌, ◌-◌, ◌^◌, IfOk, OnOk, OnErr, Err};
ghost use Rattle.unit_set.specs.Slot.{slot_text};
ghost use Rattle.publish.specs.Causes.{HasPubCause};
ghost use Rattle.publish.specs.Crash.{Fits, Publication};
ghost use Rattle.publish.specs.Gates.{first_stage};
ghost use Rattle.publish.specs.Rewriting.{Rewrites, free_door, standing_by};

use crate::area::{Standing, body, free_area};
use crate::gates::{PubErr, run_stages};
use shelf_model::Shelf;
use std::alloc::Global;
use unit_set::Unit;

/// Publishes a unit into the area of its slot that is not held, and answers the number of stages, 3. After a fault or want
/// of memory the standing is not used again.
pub fn publish<H: Shelf>(
    alloc: Global,
    shelf: &mut H,
    unit: &Unit,
    standing: &mut Standing,
) -> Result<u8, PubErr>
    requires { Fits (H.told shelf.old) (H.images shelf.old) (H.moment shelf.old) unit.now.slot standing.old }
    ensures areas { Rewrites (H.told shelf.old) (H.told shelf.new) unit.now standing.old result }
    ensures publication { Publication (H.told shelf.old) (H.told shelf.new) (H.moment shelf.old) (H.moment shelf.new) (H.images shelf.old) (H.images shelf.new)
        standing.old standing.new unit.now result }
    ensures stages { IfOk result (λ n. n ≡ 3) }
    ensures seq { OnOk result (standing.new.seq ≡ standing.old.seq + 1) }
    ensures standing { standing.new ≡ standing_by result standing.old }
    ensures kept { OnErr result (standing.new ≡ standing.old) }
    ensures worn { (result ≡ Err PubErr.WornOut) ↔ (standing.old.seq ≡ 2 ^ 64 - 1) }
    ensures uncalled { result ≡ Err PubErr.WornOut → shelf.new ≡ shelf.old }
    ensures cause { HasPubCause (H.faults shelf.old) (H.faults shelf.new) (slot_text unit.now.slot) result (first_stage (free_door standing.old)) 2 }
{
    if standing.seq == u64::MAX {
        return Err(PubErr::WornOut);
    }
    let seq = standing.seq + 1;
    let name = unit.slot().text(alloc)?;
    let bytes = body(alloc, seq, unit)?;
    let area = free_area(standing.held);
    let door = standing.door(area);
    run_stages(shelf, name.items(), area, door, &bytes)?;
    standing.advance(area, seq);
    Ok(3)
}
