//! What holds of verdicts and of what areas hold, as contracts, and what publications one after another come to.
ghost use Rattle.std.specs.Prelude.{◌≡◌, ◌+◌, ◌∷◌, [], Some, OnOk};
ghost use Rattle.publish.specs.Verdict.{held};
ghost use Rattle.publish.specs.Crash.{ForBoth, Fits, as_next};
ghost use Rattle.publish.specs.History.{Follows};
ghost use Rattle.publish.specs.Laws.{VerdictsAreOne, FineHasEdition, EditionsAreFound, PublicationsAreRead};

use crate::{PubErr, Standing, publish};
use shelf_model::Shelf;
use std::alloc::Global;
use unit_set::Unit;

/// Publishes two units of a slot. At each moment a crash leaves the one found or one of these, and never one of a lesser seq than
/// before.
pub fn publish_two<H: Shelf>(
    alloc: Global,
    shelf: &mut H,
    first: &Unit,
    second: &Unit,
    standing: &mut Standing,
) -> Result<u8, PubErr>
    requires fits { Fits (H.told shelf.old) (H.images shelf.old) (H.moment shelf.old) first.now.slot standing.old }
    requires same { second.now.slot ≡ first.now.slot }
    ensures history { ForBoth (H.told shelf.old) first.now.slot (λ a b. Follows (H.images shelf.new) (H.moment shelf.old) (H.moment shelf.new) first.now.slot
        (held first.now.slot a b ∷ as_next (standing.old.seq + 1) first.now ∷ as_next (standing.old.seq + 2) second.now ∷ [])) }
{
    publish(alloc, shelf, first, standing)?;
    publish(alloc, shelf, second, standing)
}

/// An area has one verdict.
pub fn verdicts_are_one()
    ensures { VerdictsAreOne }
{}

/// An area has the verdict `Fine` exactly where it has an edition: a unit of the slot, with a seq.
pub fn fine_has_edition()
    ensures { FineHasEdition }
{}

/// The edition by which the held area is picked is the one that the area has.
pub fn editions_are_found()
    ensures { EditionsAreFound }
{}

/// A unit that is published is read, whatever stood in the area before.
pub fn publications_are_read()
    ensures { PublicationsAreRead }
{}
