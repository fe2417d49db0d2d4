// Runs through the top call, and what the plain interpreter prints of them.
use crate::files::{one_guest, words};
use cc_base::Blob;
use elf_map::Elf;
use guest_loop::{Counts, GuestEnd, Ran};
use host::host;
use host_text::text_of;
use manifest::{GuestRow, Manifest};
use outside::{MemFiles, MemSink};
use plain_run::{Module, Setup, interpret};
use shelf_model::MemShelf;
use std::alloc::Global;
use std::process::Abort;
use std::test::Fail;

// The text of the run without counts, as the interpreter gives it.
fn interpreted(alloc: Global, manifest: &[u8], file: &[u8], input: &[u8]) -> Result<Vec<u8>, Fail> {
    let Ok(manifest) = Manifest::read(alloc, manifest) else {
        return Err(Fail::from("the manifest is refused"));
    };
    let mut elfs = Vec::new(alloc);
    elfs.push(Elf::read(alloc, file)?)?;
    let ([module], [guest]) = (manifest.modules(), manifest.guests()) else {
        return Err(Fail::from("more than one guest"));
    };
    if module.file > 0 {
        return Err(Fail::from("more than one file"));
    }
    let placed = Module {
        base: module.base,
        file: module.file,
    };
    let plain = interpret(alloc, &elfs, placed, &setup(guest, Blob::of(alloc, input)?))?;
    let end = GuestEnd {
        name: guest.name.copy(alloc)?,
        end: plain.end,
        maps: plain.maps,
        legs: Vec::new(alloc),
        counts: NONE,
        taken: Vec::new(alloc),
    };
    let ran = Ran {
        end,
        output: plain.output,
        report: plain.report,
    };
    Ok(text_of(alloc, &ran, false)?)
}

// What a guest of a manifest is run with.
fn setup(guest: &GuestRow, input: Blob) -> Setup {
    Setup {
        isa: guest.isa,
        tool: guest.tool,
        max: guest.max,
        fuel: guest.fuel,
        stack: guest.stack,
        input,
    }
}

// No counts, since the interpreter keeps no blocks.
const NONE: Counts = Counts {
    blocks: 0,
    reused: 0,
    built: 0,
    linked: 0,
};

// What the run of m.toml prints on these files.
fn printed(alloc: Global, manifest: &[u8], file: &[u8], input: &[u8]) -> Result<Vec<u8>, Fail> {
    let mut files = MemFiles::new(alloc);
    files.put("m.toml", manifest)?;
    files.put("p.elf", file)?;
    files.put("in", input)?;
    let mut out = MemSink::new(alloc, 4000)?;
    let words = words(alloc, &["run", "m.toml"])?;
    host(
        alloc,
        &words,
        &mut files,
        &mut MemShelf::new(alloc),
        &mut out,
    );
    Ok(Vec::from_slice(alloc, out.bytes())?)
}

/// The run of this file under these keys, where the file `in` is a byte 00, prints what the interpreter gives.
pub fn agrees(
    rt: &impl Abort,
    alloc: Global,
    name: &str,
    keys: &str,
    file: &[u8],
) -> Result<(), Fail> {
    let manifest = one_guest(alloc, keys)?;
    let printed = printed(alloc, manifest.as_bytes(), file, b"\0")?;
    let plain = interpreted(alloc, manifest.as_bytes(), file, b"\0")?;
    assert_eq!(rt; printed, plain, "{name}");
    Ok(())
}
