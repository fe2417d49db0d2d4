// All that comes before the guests run.
ghost use Rattle.std.specs.Prelude.{◌≡◌, ◌≢◌, ◌≤◌, ℕ, List, Some, None, Err, true, length, All, IfOk, IfErr};
ghost use Rattle.manifest.specs.Names.{is_file_name};
ghost use Rattle.manifest.specs.Manifest.{manifest_of, module_names};
ghost use Rattle.elf_map.specs.Elf.{elf_of};
ghost use Rattle.slot_list.specs.Laws.{AreDistinct};
ghost use Rattle.slot_list.specs.Slots.{slots_of};
ghost use Rattle.host.specs.Answer.{Comes, Refuses};
ghost use Rattle.host.specs.Outcome.{given, input_names, limited, listed, programs_of, taken};
ghost use Rattle.host.specs.Reading.{Gives, ReadsBoth, ReadsFail};
ghost use Rattle.host.specs.Seen.{source_of};
ghost use Rattle.host.specs.Prepared.{IsReady, plan_in};
ghost use Rattle.host.specs.Words.{order_of};

use crate::reading::{read_all, read_file};
use crate::words::{Order, order_of};
use cc_base::{Blob, Name};
use elf_map::{Elf, ElfErr};
use host_text::Cause;
use manifest::{GuestRow, Manifest, ManifestErr};
use outside::Files;
use slot_list::{SlotsErr, slots_of};
use std::alloc::{AllocError, Global};
use unit_set::SlotName;

/// The most bytes of a manifest, of a file and of an input.
const MOST_MANIFEST: u32 = 1_048_576;

const MOST_FILE: u32 = 4_194_304;

const MOST_INPUT: u32 = 1_048_576;

/// A run that may begin: what the words ask, the manifest, the programs of its files, what each of its guests may read, and
/// its slots.
#[derive(Drop)]
pub struct Prepared<'a> {
    pub order: Order<'a>,
    pub manifest: Manifest,
    pub elfs: Vec<Elf>,
    pub inputs: Vec<Blob>,
    pub slots: Vec<SlotName>,
}

/// Reads what the words name.
pub fn prepare<'a, F: Files>(
    alloc: Global,
    words: &'a [String],
    files: &mut F,
) -> Result<Prepared<'a>, Cause>
    ensures done { IfOk result (λ p. Comes words.now (source_of F.content F.faults files.old files.new) (plan_in p)) }
    ensures ready { IfOk result IsReady }
    ensures refused { IfErr result (λ cause. cause ≢ Cause.Memory → Refuses words.now (source_of F.content F.faults files.old files.new) cause) }
    ensures words { order_of words.now ≡ None → result ≡ Err Cause.Words }
{
    let Some(order) = order_of(words) else {
        return Err(Cause::Words);
    };
    let text = read_file(alloc, order.file, MOST_MANIFEST, files)?;
    let manifest = manifest_in(alloc, text.items())?;
    let (contents, read) = read_contents(alloc, &manifest, files)?;
    let elfs = elfs_in(alloc, manifest.files(), &contents)?;
    let slots = slots_in(alloc, &manifest, &elfs)?;
    let inputs = given(alloc, manifest.guests(), read)?;
    Ok(Prepared {
        order,
        manifest,
        elfs,
        inputs,
        slots,
    })
}

// What a text says as a manifest.
fn manifest_in(alloc: Global, text: &[u8]) -> Result<Manifest, Cause>
    ensures { Gives (λ m. m) (listed (manifest_of text.now)) result }
{
    match Manifest::read(alloc, text) {
        Ok(manifest) => Ok(manifest),
        Err(ManifestErr::Memory) => Err(Cause::Memory),
        Err(e) => Err(Cause::Manifest(e)),
    }
}

// Reads the files of a manifest, and then the inputs of its guests.
fn read_contents<F: Files>(
    alloc: Global,
    manifest: &Manifest,
    files: &mut F,
) -> Result<(Vec<Blob>, Vec<Blob>), Cause>
    ensures read { IfOk result (λ both. ReadsBoth (source_of F.content F.faults files.old files.new) manifest.now.files (input_names manifest.now.guests) both.0.items both.1.items) }
    ensures failed { IfErr result (λ cause. cause ≢ Cause.Memory → ReadsFail (source_of F.content F.faults files.old files.new) manifest.now.files (input_names manifest.now.guests) cause) }
    ensures kept { (n : List ℕ) → F.content files.new n ≡ F.content files.old n }
    ensures never_falls { (n : List ℕ) → F.faults files.old n ≤ F.faults files.new n }
{
    let contents = read_all(alloc, manifest.files(), MOST_FILE, files)?;
    let names = input_names(alloc, manifest.guests())?;
    let read = read_all(alloc, &names, MOST_INPUT, files)?;
    Ok((contents, read))
}

// The names of the inputs that guests have, in order.
fn input_names(alloc: Global, guests: &[GuestRow]) -> Result<Vec<Name>, AllocError>
    ensures names { IfOk result (λ names. names.items ≡ input_names guests.now) }
    ensures spelled { IfOk result (λ names. All (λ n. is_file_name n ≡ true) names.items) }
{
    let mut names = Vec::new(alloc);
    for guest in guests {
        if let Some(name) = &guest.input {
            names.push(name.copy(alloc)?)?;
        }
    }
    Ok(names)
}

// For each guest what was read of its input, which is nothing where it has none.
fn given(alloc: Global, guests: &[GuestRow], read: Vec<Blob>) -> Result<Vec<Blob>, AllocError>
    ensures { IfOk result (λ inputs. inputs.items ≡ given guests.now read.items) }
{
    let mut inputs = Vec::new(alloc);
    let mut rest = read.into_iter();
    for guest in guests {
        let next = if guest.input.is_some() {
            rest.next()
        } else {
            None
        };
        inputs.push(next.unwrap_or_else(|| Blob::from_vec(Vec::new(alloc))))?;
    }
    Ok(inputs)
}

// The programs of the files, or the first that is refused.
fn elfs_in(alloc: Global, names: &[Name], contents: &[Blob]) -> Result<Vec<Elf>, Cause>
    requires { length names.now ≡ length contents.now }
    ensures gives { Gives (λ elfs. elfs.items) (programs_of names.now contents.now) result }
    ensures count { IfOk result (λ elfs. length elfs.items ≡ length names.now) }
{
    let mut elfs = Vec::new(alloc);
    for (i, name) in names.iter().enumerate() {
        elfs.push(elf_in(alloc, name, contents[i].items())?)?;
    }
    Ok(elfs)
}

// The program of a file, or why it is refused.
fn elf_in(alloc: Global, name: &Name, bytes: &[u8]) -> Result<Elf, Cause>
    ensures { Gives (λ elf. elf) (taken name.now (elf_of bytes.now)) result }
{
    match Elf::read(alloc, bytes) {
        Ok(elf) => Ok(elf),
        Err(ElfErr::Memory) => Err(Cause::Memory),
        Err(e) => Err(Cause::Elf(name.copy(alloc)?, e)),
    }
}

// The slots of the run, or how many there are where these are too many.
fn slots_in(alloc: Global, manifest: &Manifest, elfs: &[Elf]) -> Result<Vec<SlotName>, Cause>
    ensures { Gives (λ slots. slots.items) (limited (slots_of manifest.now.modules manifest.now.guests elfs.now)) result }
{
    match slots_of(alloc, manifest.modules(), manifest.guests(), elfs) {
        Ok(slots) => Ok(slots),
        Err(SlotsErr::TooMany(count)) => Err(Cause::Slots(count)),
        Err(SlotsErr::Memory) => Err(Cause::Memory),
    }
}
