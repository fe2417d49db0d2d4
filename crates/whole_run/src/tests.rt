use super::run_whole;
use super::whole::Whole;
use cc_base::Blob;
use elf_map::Elf;
use guest_loop::Counts;
use manifest::Manifest;
use plain_machine::End;
use publish::{Loaded, Pub};
use shelf_model::{Area, MemShelf, Shelf};
use slot_list::slots_of;
use std::alloc::Global;
use std::test::Fail;

const ONE_GUEST: &str = r#"
files = ["p.elf"]
[[module]]
name = "main"
file = "p.elf"
[[guest]]
name = "g"
module = "main"
"#;

// A file with fixed addresses and two instructions, by which a guest exits.
fn file(alloc: Global) -> Result<Elf, Fail> {
    let mut bytes = Vec::from_slice(alloc, &[0x7f, 0x45, 0x4c, 0x46, 1, 1, 1, 0])?;
    bytes.extend_from_slice(&[0; 8])?;
    bytes.extend_from_slice(&[2, 0, 0xf3, 0, 1, 0, 0, 0])?;
    for number in [0x1_0000u32, 52, 0, 0] {
        bytes.extend_from_slice(&number.to_le_bytes())?;
    }
    bytes.extend_from_slice(&[52, 0, 32, 0, 1, 0, 0, 0, 0, 0, 0, 0])?;
    for number in [1, 84, 0x1_0000, 0, 8, 8, 5, 4] {
        bytes.extend_from_slice(&u32::to_le_bytes(number))?;
    }
    for word in [0x05d0_0893u32, 0x0000_0073] {
        bytes.extend_from_slice(&word.to_le_bytes())?;
    }
    let elf = Elf::read(alloc, &bytes).ok();
    Ok(elf.ok_or("no file")?)
}

fn manifest(alloc: Global) -> Result<Manifest, Fail> {
    match Manifest::read(alloc, ONE_GUEST.as_bytes()) {
        Ok(manifest) => Ok(manifest),
        Err(_) => Err("refused".into()),
    }
}

// A run of the manifest's guests, which read nothing, over its one file.
fn run<H: Shelf>(alloc: Global, shelf: &mut H) -> Result<Whole, Fail> {
    let manifest = manifest(alloc)?;
    let elfs = vec![in alloc; file(alloc)?]?;
    let inputs = [Blob::of(alloc, &[])?];
    let slots = slots_of(alloc, manifest.modules(), manifest.guests(), &elfs).ok();
    let slots = slots.ok_or("too many")?;
    if elfs.len() != manifest.files().len() || manifest.guests().len() != 1 {
        return Err("other files".into());
    }
    Ok(run_whole(alloc, &manifest, elfs, &inputs, slots, shelf)?)
}

// How the one guest ended, and its counts.
fn ended(whole: &Whole) -> Result<(End, [u64; 4]), Fail> {
    match whole.rans.as_slice() {
        [ran] => Ok((ran.end.end, counts(ran.end.counts))),
        _ => Err("no guest".into()),
    }
}

fn counts(counts: Counts) -> [u64; 4] {
    [counts.blocks, counts.reused, counts.built, counts.linked]
}

#[test]
fn what_a_guest_built_is_published_once(rt: HostRuntime) -> Result<(), Fail> {
    let alloc = rt.alloc();
    let mut shelf = MemShelf::new(alloc);
    let first = run(alloc, &mut shelf)?;
    assert_eq!(rt; ended(&first)?, (End::Exit(0), [1, 0, 1, 0]));
    let published = Pub {
        slot: 0,
        age: 0,
        version: 1,
        seq: 1,
        stages: 3,
        fault: None,
    };
    assert_eq!(rt; first.served.as_slice(), [published].as_slice());
    assert_eq!(rt; first.journal.len(), 7);
    let second = run(alloc, &mut shelf)?;
    assert_eq!(rt; ended(&second)?, (End::Exit(0), [1, 1, 0, 0]));
    let (area, seq) = (Area::A, 1);
    assert_eq!(rt;
        second.loads.as_slice(),
        [Loaded::Held { area, seq }].as_slice()
    );
    assert_eq!(rt; second.served.len(), 0);
    assert_eq!(rt; second.journal.len(), 4);
    Ok(())
}
