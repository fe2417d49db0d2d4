// What is due is published, and the registry is told.
ghost use Rattle.std.specs.Prelude.{◌≡◌, ◌≢◌, ◌↔◌, ◌+◌, ◌-◌, ◌^◌, ◌<◌, ℕ, true, false, length, Err, Some, None, IfOk, OnOk, OnErr};
ghost use Rattle.publish.specs.Crash.{Fits, ForBoth};
ghost use Rattle.publish.specs.Verdict.{held};
ghost use Rattle.registry.specs.Opening.{slot_at};
ghost use Rattle.registry.specs.State.{due_slot};
ghost use Rattle.registry.specs.Registry.{slot_of};
ghost use Rattle.registry.specs.History.{Adds, MayAnswer, state_of};
ghost use Rattle.std.specs.List.{AllByRecursion};
ghost use Rattle.publisher.specs.Loads.{NoneFalls};
ghost use Rattle.publisher.specs.Serving.{AreCaused, AreDistinct, Grew, Publishes, added, last_seq, seqs_all, seqs_of, standing_at};
ghost use Rattle.publisher.specs.Areas.{AreToldAs, KeepsStrangers, OnlyPublishes, Rewriting};
ghost use Rattle.publisher.specs.Folder.{HoldsBehind, HoldsNow, IsSound, KeepsOthers, Survives};
ghost use Rattle.publisher.specs.Leg.{Serves, Tells, Wrote, answer_to};
ghost use Rattle.publisher.specs.Going.{Ends, Whole};

use publish::{Pub, PubErr, PubFault, Standing, publish};
use registry::laws::dues_may_be_answered;
use registry::{Due, Registry};
use shelf_model::Shelf;
use std::alloc::{AllocError, Global};
use unit_set::Unit;

// What is to be published.
#[derive(Clone, Copy)]
pub struct Order {
    slot: u32,
    age: u32,
    version: u32,
}

// Publishes the unit of a slot.
fn write<H: Shelf>(
    alloc: Global,
    shelf: &mut H,
    standings: &mut [Standing],
    slot: u32,
    unit: &Unit,
) -> Result<u8, PubErr>
    requires there { slot < length standings.old }
    requires fits { Fits (H.told shelf.old) (H.images shelf.old) (H.moment shelf.old) unit.now.slot (standing_at standings.old slot) }
    ensures { Wrote (H.told shelf.old) (H.told shelf.new) (H.moment shelf.old) (H.moment shelf.new) (H.images shelf.old) (H.images shelf.new)
        (H.faults shelf.old) (H.faults shelf.new) standings.old standings.new slot unit.now result }
{
    let standing = &mut standings[slot as usize];
    publish(alloc, shelf, unit, standing)
}

// How the publication of an order from this seq on is told. There is none where memory ran out.
fn told_as(order: Order, seq: u64, outcome: Result<u8, PubErr>) -> Result<Pub, AllocError>
    requires { (outcome ≡ Err PubErr.WornOut) ↔ (seq ≡ last_seq) }
    ensures slot { IfOk result (λ p. p.slot ≡ order.slot) }
    ensures age { IfOk result (λ p. p.age ≡ order.age) }
    ensures version { IfOk result (λ p. p.version ≡ order.version) }
    ensures tells { IfOk result (Tells seq outcome) }
    ensures err { OnErr result (outcome ≡ Err PubErr.Memory) }
{
    let (seq, stages, fault) = match outcome {
        Ok(stages) => (seq + 1, stages, None),
        Err(PubErr::ShelfFault { stages }) => (seq + 1, stages, Some(PubFault::Shelf)),
        Err(PubErr::WornOut) => (seq, 0, Some(PubFault::WornOut)),
        Err(PubErr::Memory) => return Err(AllocError),
    };
    Ok(Pub {
        slot: order.slot,
        age: order.age,
        version: order.version,
        seq,
        stages,
        fault,
    })
}

// Answers the registry.
fn answer(registry: &mut Registry, publication: &Pub)
    requires { MayAnswer (state_of registry.old) publication.now.slot }
    ensures { Adds registry.old (answer_to publication.now.fault publication.now) registry.new }
{
    match publication.fault {
        None => registry.acked(publication.slot, publication.age, publication.version),
        Some(_) => registry.failed(publication.slot),
    }
}

// Publishes what was due, and answers the registry.
fn publish_due<H: Shelf>(
    alloc: Global,
    registry: &mut Registry,
    shelf: &mut H,
    standings: &mut [Standing],
    order: Order,
    unit: &Unit,
) -> Result<Pub, AllocError>
    requires may { MayAnswer (state_of registry.old) order.slot }
    requires there { order.slot < length standings.old }
    requires fits { Fits (H.told shelf.old) (H.images shelf.old) (H.moment shelf.old) unit.now.slot (standing_at standings.old order.slot) }
    ensures { Serves registry.old registry.new (H.told shelf.old) (H.told shelf.new) (H.moment shelf.old) (H.moment shelf.new) (H.images shelf.old) (H.images shelf.new)
        (H.faults shelf.old) (H.faults shelf.new) standings.old standings.new order.slot order.age order.version unit.now result }
{
    let seq = standings[order.slot as usize].seq;
    let outcome = write(alloc, shelf, standings, order.slot, unit);
    let publication = told_as(order, seq, outcome)?;
    answer(registry, &publication);
    Ok(publication)
}

// Publishes what is due, until nothing is. Each publication leaves one slot fewer due.
fn serve_all<H: Shelf>(
    alloc: Global,
    registry: &mut Registry,
    shelf: &mut H,
    standings: &mut [Standing],
) -> Result<Vec<Pub>, AllocError>
    requires standings { length standings.old ≡ length registry.old.opening.slots }
    requires names { AreDistinct registry.old.opening }
    requires fits { (k : ℕ) → k < length registry.old.opening.slots → (slot_of (state_of registry.old) k).shut ≡ false →
        Fits (H.told shelf.old) (H.images shelf.old) (H.moment shelf.old) (slot_at registry.old.opening k) (standing_at standings.old k) }
    ensures ends { Ends registry.old registry.new standings.old (H.told shelf.old) (H.told shelf.new) (H.moment shelf.old) (H.moment shelf.new) (H.images shelf.new)
        (H.faults shelf.old) (H.faults shelf.new) }
    ensures whole { IfOk result (λ v. Whole registry.old registry.new standings.old standings.new (H.told shelf.old) (H.told shelf.new) (H.moment shelf.old) (H.moment shelf.new)
        (H.images shelf.new) (H.faults shelf.old) (H.faults shelf.new) v.items) }
{
    dues_may_be_answered();
    let mut served = Vec::new(alloc);
    for _ in 0..registry.slot_count() {
        let Due::Slot {
            slot,
            age,
            version,
            unit,
        } = registry.due()?
        else {
            return Ok(served);
        };
        let order = Order { slot, age, version };
        served.push(publish_due(alloc, registry, shelf, standings, order, &unit)?)?;
    }
    Ok(served)
}

/// Publishes what a registry says is due, until nothing is, and tells it how each publication came out. The standings are
/// those of the registry's slots, in order. Where memory ran out, what was due last may not be answered; nothing of the
/// registry or the standings is to be used for another call then.
pub fn serve<H: Shelf>(
    alloc: Global,
    registry: &mut Registry,
    shelf: &mut H,
    standings: &mut [Standing],
) -> Result<Vec<Pub>, AllocError>
    requires standings { length standings.old ≡ length registry.old.opening.slots }
    requires names { AreDistinct registry.old.opening }
    requires fits { (k : ℕ) → k < length registry.old.opening.slots → (slot_of (state_of registry.old) k).shut ≡ false →
        Fits (H.told shelf.old) (H.images shelf.old) (H.moment shelf.old) (slot_at registry.old.opening k) (standing_at standings.old k) }
    // Whatever it answers.
    ensures grew { Grew registry.old registry.new }
    ensures counts { NoneFalls (H.faults shelf.old) (H.faults shelf.new) }
    ensures others { KeepsOthers registry.old.opening (added registry.old registry.new) (H.told shelf.old) (H.told shelf.new) }
    ensures strangers { KeepsStrangers registry.old.opening.slots (H.told shelf.old) (H.told shelf.new) }
    ensures only { OnlyPublishes registry.old.opening.slots (H.told shelf.old) (H.told shelf.new) }
    ensures areas { Rewriting registry.old.opening (state_of registry.old) (added registry.old registry.new) standings.old (H.told shelf.old) (H.told shelf.new) }
    ensures crash { (k : ℕ) → k < length registry.old.opening.slots → (slot_of (state_of registry.old) k).shut ≡ false →
        ForBoth (H.told shelf.old) (slot_at registry.old.opening k) (λ a b. Survives (H.images shelf.new) (H.moment shelf.old) (H.moment shelf.new)
        registry.old.opening (state_of registry.old) k (added registry.old registry.new) (held (slot_at registry.old.opening k) a b)) }
    // After Ok.
    ensures served { IfOk result (λ v. Publishes (seqs_of standings.old) (added registry.old registry.new) v.items) }
    ensures faults { IfOk result (λ v. AreCaused registry.old.opening (H.faults shelf.old) (H.faults shelf.new) v.items) }
    ensures none_due { OnOk result (due_slot (state_of registry.new) ≡ None) }
    ensures folder { IfOk result (λ v. (k : ℕ) → k < length registry.old.opening.slots → AllByRecursion (IsSound k) v.items →
        ForBoth (H.told shelf.old) (slot_at registry.old.opening k) (λ a b. HoldsNow (H.told shelf.new) (slot_at registry.old.opening k)
        (HoldsBehind registry.old.opening (state_of registry.old) k (added registry.old registry.new) (held (slot_at registry.old.opening k) a b)))) }
    // The same publications are told.
    ensures written { IfOk result (λ v. (r : Rewriting registry.old.opening (state_of registry.old) (added registry.old registry.new) standings.old
        (H.told shelf.old) (H.told shelf.new)) × AreToldAs r.all v.items) }
    ensures seqs { OnOk result (seqs_of standings.new ≡ seqs_all (added registry.old registry.new) (seqs_of standings.old)) }
    ensures fits { OnOk result ((k : ℕ) → k < length registry.old.opening.slots → (slot_of (state_of registry.new) k).shut ≡ false →
        Fits (H.told shelf.new) (H.images shelf.new) (H.moment shelf.new) (slot_at registry.old.opening k) (standing_at standings.new k)) }
{
    serve_all(alloc, registry, shelf, standings)
}
