// The whole run.
ghost use Rattle.std.specs.Prelude.{◌≡◌, ◌≤◌, List, ℕ, [], false, length, map, IfOk};
ghost use Rattle.std.specs.List.{All};
ghost use Rattle.elf_map.specs.Program.{texts_of};
ghost use Rattle.manifest.specs.Manifest.{module_names};
ghost use Rattle.slot_list.specs.Laws.{AreDistinct};
ghost use Rattle.registry.specs.declared.entry.Entry.TheVariants.{Finish};
ghost use Rattle.registry.specs.History.{Adds, state_of};
ghost use Rattle.whole_run.specs.Job.{job_of, slots_in_job};
ghost use Rattle.whole_run.specs.Shelf.{ChangesOnly, seen_of};
ghost use Rattle.whole_run.specs.Whole.{IsWhole};
ghost use Rattle.whole_run.specs.Crew.{HaveRun};

use crate::crew::Crew;
use crate::start::{Start, begin};
use crate::whole::Whole;
use cc_base::Blob;
use elf_map::Elf;
use guest_loop::Ran;
use guest_rounds::run_rounds;
use manifest::{GuestRow, Manifest};
use publisher::serve;
use registry::Registry;
use shelf_model::Shelf;
use slot_list::laws::modules_have_own_names;
use std::alloc::{AllocError, Global};
use unit_set::SlotName;

/// Runs all guests of a manifest, by rising round and in order within a round, and then publishes what is due. `elfs` has the
/// program of each of its files, `inputs` what each of its guests may read, which is empty where it has no input, and `slots`
/// are the slots of this run. A slot on which the shelf fails is shut, and the rest goes on. The only error is want of memory.
pub fn run_whole<H: Shelf>(
    alloc: Global,
    manifest: &Manifest,
    elfs: Vec<Elf>,
    inputs: &[Blob],
    slots: Vec<SlotName>,
    shelf: &mut H,
) -> Result<Whole, AllocError>
    requires elfs { length elfs.items ≡ length manifest.now.files }
    requires inputs { length inputs.now ≡ length manifest.now.guests }
    requires slots { slots.items ≡ slots_in_job (job_of manifest.now elfs.items inputs.now) }
    requires few { length slots.items ≤ 64 }
    ensures whole { IfOk result (λ w. IsWhole (job_of manifest.now elfs.items inputs.now) (seen_of H.told H.faults shelf.old shelf.new) w) }
    // Whatever it answers.
    ensures areas { ChangesOnly (slots_in_job (job_of manifest.now elfs.items inputs.now)) (H.told shelf.old) (H.told shelf.new) }
    ensures never_falls { (n : List ℕ) → H.faults shelf.old n ≤ H.faults shelf.new n }
{
    modules_have_own_names(manifest);
    let Start {
        loads,
        mut standings,
        mut registry,
    } = begin(alloc, manifest, &elfs, slots, shelf)?;
    let rans = run_guests(alloc, manifest, elfs, inputs, &mut registry)?;
    finish(&mut registry);
    let served = serve(alloc, &mut registry, shelf, &mut standings)?;
    Ok(Whole {
        loads,
        rans,
        journal: registry.into_journal(),
        served,
    })
}

// All guests are done.
fn finish(registry: &mut Registry)
    requires { (state_of registry.old).finished ≡ false }
    ensures { Adds registry.old Finish registry.new }
{
    registry.finish();
}

// Runs all guests.
fn run_guests(
    alloc: Global,
    manifest: &Manifest,
    elfs: Vec<Elf>,
    inputs: &[Blob],
    registry: &mut Registry,
) -> Result<Vec<Ran>, AllocError>
    requires inputs { length inputs.now ≡ length manifest.now.guests }
    requires names { AreDistinct (module_names manifest.now.modules) }
    requires empty { registry.old.journal ≡ [] }
    requires slots { registry.old.opening.slots ≡ slots_in_job (job_of manifest.now elfs.items inputs.now) }
    requires modules { length registry.old.opening.modules ≡ length manifest.now.modules }
    requires codes { registry.old.opening.codes ≡ map texts_of elfs.items }
    ensures { IfOk result (λ rans. HaveRun (job_of manifest.now elfs.items inputs.now) registry.old registry.new rans.items) }
{
    let mut crew = Crew::of(alloc, manifest, elfs, inputs)?;
    let rounds = rounds_of(alloc, manifest.guests())?;
    run_rounds(alloc, registry, &rounds, &mut crew)
}

// The round of each guest.
fn rounds_of(alloc: Global, guests: &[GuestRow]) -> Result<Vec<u8>, AllocError>
    ensures rounds { IfOk result (λ v. v.items ≡ map (λ g. g.round) guests.now) }
    ensures few { IfOk result (λ v. All (λ round. round ≤ 15) v.items) }
{
    let mut rounds = Vec::new(alloc);
    for guest in guests {
        rounds.push(guest.round)?;
    }
    Ok(rounds)
}
