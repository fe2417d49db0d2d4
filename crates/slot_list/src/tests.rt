ghost use Rattle.std.specs.Prelude.{◌≤◌, length};

use super::laws::{modules_have_own_names, recipes_are_listed, segments_are_numbered};
use super::*;
use elf_map::Elf;
use manifest::{GuestRow, Manifest};
use std::alloc::Global;
use std::test::Fail;
use unit_set::SlotName;

const TWO_MODULES: &str = r#"
files = ["p.elf"]
[[module]]
name = "main"
file = "p.elf"
[[module]]
name = "lib_2"
file = "p.elf"
base = 2097152
[[guest]]
name = "g1"
module = "main"
[[guest]]
name = "g2"
module = "lib_2"
isa = "im"
tool = "memory"
max = 8
[[guest]]
name = "g3"
module = "lib_2"
"#;

const EIGHT_SLOTS: &[u8] = b"main.0.00000000.blocks.32
main.0.00000000.memory.08.im
main.1.00000000.blocks.32
main.1.00000000.memory.08.im
lib_2.0.00200000.blocks.32
lib_2.0.00200000.memory.08.im
lib_2.1.00200000.blocks.32
lib_2.1.00200000.memory.08.im
";

fn manifest(alloc: Global, text: &str) -> Result<Manifest, Fail> {
    let manifest = Manifest::read(alloc, text.as_bytes()).ok();
    Ok(manifest.ok_or("refused")?)
}

// A file with an executable segment of eight bytes at each of these addresses.
fn file(alloc: Global, addresses: &[u32]) -> Result<Elf, Fail> {
    let mut bytes = Vec::from_slice(alloc, &[0x7f, 0x45, 0x4c, 0x46, 1, 1, 1, 0])?;
    bytes.extend_from_slice(&[0; 8])?;
    bytes.extend_from_slice(&[3, 0, 0xf3, 0, 1, 0, 0, 0])?;
    for number in [0u32, 52, 0, 0] {
        bytes.extend_from_slice(&number.to_le_bytes())?;
    }
    bytes.extend_from_slice(&[52, 0, 32, 0])?;
    bytes.push(u8::try_from(addresses.len()).unwrap_or(0))?;
    bytes.extend_from_slice(&[0; 7])?;
    for address in addresses {
        for number in [1, 0, *address, 0, 0, 8, 5, 4] {
            bytes.extend_from_slice(&number.to_le_bytes())?;
        }
    }
    let elf = Elf::read(alloc, &bytes).ok();
    Ok(elf.ok_or("no file")?)
}

fn texts(alloc: Global, slots: &[SlotName]) -> Result<Vec<u8>, Fail> {
    let mut text = Vec::new(alloc);
    for slot in slots {
        text.extend_from_slice(slot.text(alloc)?.items())?;
        text.extend_from_slice(b"\n")?;
    }
    Ok(text)
}

// The number of the slot of a segment of the first file and a guest.
fn number(
    alloc: Global,
    guests: &[GuestRow],
    elfs: &[Elf],
    module: u32,
    seg: u8,
    guest: usize,
) -> Result<u32, Fail>
    requires { length guests.now ≤ 64 }
{
    recipes_are_listed();
    segments_are_numbered();
    if module >= 32 || guest >= guests.len() || elfs.is_empty() {
        return Err("out of range".into());
    }
    if seg >= elfs[0].code_count() {
        return Err("no segment".into());
    }
    let layout = SlotLayout::of(alloc, guests, elfs)?;
    let recipe = recipe_of(&guests[guest]);
    Ok(slot_number(&layout, module, seg, recipe))
}

#[test]
fn slots_stand_by_module_then_segment_then_first_use(rt: HostRuntime) -> Result<(), Fail> {
    let alloc = rt.alloc();
    let manifest = manifest(alloc, TWO_MODULES)?;
    let elfs = vec![in alloc; file(alloc, &[0x1_0000, 0x2_0000])?, file(alloc, &[])?]?;
    let (modules, guests) = (manifest.modules(), manifest.guests());
    modules_have_own_names(&manifest);
    let Ok(slots) = slots_of(alloc, modules, guests, &elfs) else {
        return Err("too many".into());
    };
    assert_eq!(rt; texts(alloc, &slots)?.as_slice(), EIGHT_SLOTS);
    assert_eq!(rt; number(alloc, guests, &elfs, 0, 1, 2)?, 2);
    assert_eq!(rt; number(alloc, guests, &elfs, 1, 0, 1)?, 5);
    Ok(())
}

#[test]
fn without_an_executable_segment_there_is_no_slot(rt: HostRuntime) -> Result<(), Fail> {
    let alloc = rt.alloc();
    let manifest = manifest(alloc, TWO_MODULES)?;
    let elfs = vec![in alloc; file(alloc, &[])?]?;
    let slots = slots_of(alloc, manifest.modules(), manifest.guests(), &elfs);
    assert_eq!(rt; slots.ok().map(|s| s.len()), Some(0));
    Ok(())
}

// A manifest of 32 modules, and of as many guests as there are tools here.
fn many(alloc: Global, tools: &[&str]) -> Result<Manifest, Fail> {
    let mut text = String::new(alloc);
    text.push_str("files = [\"p.elf\"]\n")?;
    for i in 0..32u8 {
        writeln!(text, "[[module]]\nname = \"m{i}\"\nfile = \"p.elf\"")?;
    }
    for tool in tools {
        writeln!(
            text,
            "[[guest]]\nname = \"{tool}\"\nmodule = \"m0\"\ntool = \"{tool}\""
        )?;
    }
    manifest(alloc, text.as_str())
}

#[test]
fn over_64_slots_are_too_many(rt: HostRuntime) -> Result<(), Fail> {
    let alloc = rt.alloc();
    let elfs = vec![in alloc; file(alloc, &[0x1_0000])?]?;
    let two = many(alloc, &["blocks", "calls"])?;
    let slots = slots_of(alloc, two.modules(), two.guests(), &elfs);
    assert_eq!(rt; slots.ok().map(|s| s.len()), Some(64));
    let three = many(alloc, &["blocks", "calls", "memory"])?;
    let slots = slots_of(alloc, three.modules(), three.guests(), &elfs);
    assert_eq!(rt; slots.err(), Some(SlotsErr::TooMany(96)));
    Ok(())
}
