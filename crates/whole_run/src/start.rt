// The registry of a run, made from what its shelf holds.
ghost use Rattle.std.specs.Prelude.{◌≡◌, ◌≤◌, ◌<◌, List, ℕ, length, map, IfOk};
ghost use Rattle.std.specs.List.{All};
ghost use Rattle.elf_map.specs.Program.{texts_of};
ghost use Rattle.shelf_model.specs.Shelf.{TellsSame};
ghost use Rattle.manifest.specs.Manifest.{module_names};
ghost use Rattle.unit_set.specs.Slot.{slot_text};
ghost use Rattle.slot_list.specs.Slots.{slots_of};
ghost use Rattle.slot_list.specs.Laws.{AreDistinct};
ghost use Rattle.publisher.specs.Loads.{NoneFalls};
ghost use Rattle.whole_run.specs.Job.{job_of};
ghost use Rattle.whole_run.specs.Shelf.{seen_of};
ghost use Rattle.whole_run.specs.Start.{IsStart};

use elf_map::Elf;
use manifest::Manifest;
use publish::{Loaded, Standing};
use publisher::{Loads, load_all};
use registry::{FileCodes, Opening, Registry};
use shelf_model::Shelf;
use slot_list::laws::{slots_differ, spellings_differ};
use std::alloc::{AllocError, Global};
use unit_set::SlotName;

/// A run of which no guest ran yet: how each slot was loaded, what is known of its areas, and the registry.
#[derive(Drop)]
pub struct Start {
    pub loads: Vec<Loaded>,
    pub standings: Vec<Standing>,
    pub registry: Registry,
}

/// Loads the slots, and makes the registry from what they hold.
pub fn begin<H: Shelf>(
    alloc: Global,
    manifest: &Manifest,
    elfs: &[Elf],
    slots: Vec<SlotName>,
    shelf: &mut H,
) -> Result<Start, AllocError>
    requires elfs { length elfs.now ≡ length manifest.now.files }
    requires slots { slots.items ≡ slots_of manifest.now.modules manifest.now.guests elfs.now }
    requires few { length slots.items ≤ 64 }
    requires names { AreDistinct (module_names manifest.now.modules) }
    ensures told { TellsSame (H.told shelf.old) (H.told shelf.new) }
    ensures counts { NoneFalls (H.faults shelf.old) (H.faults shelf.new) }
    // Whatever its guests may read.
    ensures starts { IfOk result (λ s. (inputs : List (List ℕ)) → IsStart (job_of manifest.now elfs.now inputs) (seen_of H.told H.faults shelf.old shelf.new)
        (H.moment shelf.new) (H.images shelf.new) s.loads.items s.standings.items s.registry) }
{
    slots_differ();
    are_apart(&slots);
    let Loads {
        loaded,
        found,
        shut,
        standings,
    } = load_all(alloc, shelf, &slots)?;
    let opening = Opening {
        slots,
        found,
        shut,
        modules: files_of(alloc, manifest)?,
        codes: codes_of(alloc, elfs)?,
    };
    Ok(Start {
        loads: loaded,
        standings,
        registry: Registry::new(alloc, opening)?,
    })
}

// Slots that differ are spelled in different ways, since each is spelled as a slot is.
fn are_apart(slots: &[SlotName])
    requires { AreDistinct slots.now }
    ensures { AreDistinct (map slot_text slots.now) }
{
    spellings_differ();
    for slot in slots {
        let _ = &slot.seg;
    }
}

// The number of each module's file.
fn files_of(alloc: Global, manifest: &Manifest) -> Result<Vec<u32>, AllocError>
    ensures files { IfOk result (λ v. v.items ≡ map (λ m. m.file) manifest.now.modules) }
    ensures there { IfOk result (λ v. All (λ file. file < length manifest.now.files) v.items) }
    ensures few { length manifest.now.files ≤ 32 }
{
    let _ = manifest.files();
    let modules = manifest.modules();
    let mut files = Vec::new(alloc);
    for module in modules {
        files.push(module.file)?;
    }
    Ok(files)
}

// The executable segments of each file.
fn codes_of(alloc: Global, elfs: &[Elf]) -> Result<Vec<FileCodes>, AllocError>
    ensures { IfOk result (λ v. v.items ≡ map texts_of elfs.now) }
{
    let mut codes = Vec::new(alloc);
    for elf in elfs {
        codes.push(codes_in(alloc, elf)?)?;
    }
    Ok(codes)
}

// The executable segments of a file. Their bytes are shared, not copied.
fn codes_in(alloc: Global, elf: &Elf) -> Result<FileCodes, AllocError>
    ensures { IfOk result (λ codes. codes ≡ texts_of elf.now) }
{
    let mut codes = Vec::new(alloc);
    for seg in 0..elf.code_count() {
        codes.push(elf.code(seg)?)?;
    }
    Ok(FileCodes::from_vec(codes))
}
