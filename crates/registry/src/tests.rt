ghost use Rattle.std.specs.Prelude.{◌≡◌, true, IfOk, OnOk};
ghost use Rattle.unit_set.specs.Held.{IsFreshFor};
ghost use Rattle.registry.specs.History.{MayAttach, IsOpening};

use super::laws::{attached_is_held, dues_may_be_answered, merges_keep};
use super::*;
use cc_base::{Blob, CodeView, FileCode};
use fragment::{Exit, Fragment, Probe, same_as_built};
use probe_tools::ProbeKind;
use std::alloc::Global;
use std::sync::Arc;
use std::test::Fail;
use unit_set::{SlotName, Unit};

// The segment of a file with these eight bytes.
fn code(alloc: Global, bytes: [u8; 8]) -> Result<FileCodes, Fail> {
    let code = FileCode {
        vaddr: 0x1_0000,
        fixed: true,
        bytes: Arc::new(alloc, Blob::of(alloc, &bytes)?)?,
    };
    Ok(FileCodes::from_vec(vec![in alloc; code]?))
}

// One slot without a unit, and a module that is the first of two files, which differ in their last instruction.
fn opening(alloc: Global) -> Result<Opening, Fail>
    ensures { IfOk result (λ o. IsOpening o) }
{
    let slot = SlotName::read(alloc, b"main.0.00000000.blocks.16").ok();
    let exits = code(alloc, [0x93, 8, 0xd0, 5, 0x73, 0, 0, 0])?;
    let breaks = code(alloc, [0x93, 8, 0xd0, 5, 0x73, 0, 0x10, 0])?;
    let none: Option<Arc<Unit>> = None;
    Ok(Opening {
        slots: vec![in alloc; slot.ok_or("no name")?]?,
        found: vec![in alloc; none]?,
        shut: vec![in alloc; false]?,
        modules: vec![in alloc; 0]?,
        codes: vec![in alloc; exits, breaks]?,
    })
}

// The block of both instructions of a file, with its last word and exit.
fn block(alloc: Global, last: u32, exit: Exit) -> Result<Fragment, Fail> {
    let begin = Probe {
        place: 0,
        kind: ProbeKind::Block,
    };
    let words = [0x05d0_0893, last];
    Ok(Fragment::of(alloc, 0x1_0000, &words, &[begin], &[exit])?)
}

// Whether the block is the one that the unit has at its address.
fn is_fresh(unit: &Unit, block: &Fragment) -> bool
    ensures { result ≡ true → IsFreshFor unit.now.slot unit.now.image block.now }
{
    let (slot, image) = (unit.slot(), unit.image());
    let code = CodeView {
        start: image.start,
        bytes: image.bytes.items(),
    };
    same_as_built(block, code, slot.isa, slot.tool, slot.max)
}

// A guest attaches a file, hands in a block, and lets the unit go: it tells the version that it got, how many addresses the
// unit had, and what came of the merge.
fn visit(
    registry: &mut Registry,
    guest: u32,
    file: u32,
    block: Fragment,
) -> Result<(u32, u32, Merged), Fail>
    requires { MayAttach registry.old.opening 0 file }
    ensures { OnOk result (registry.new.opening ≡ registry.old.opening) }
{
    attached_is_held();
    merges_keep();
    if registry.slot_count() == 0 {
        return Err("no slot".into());
    }
    let attached = registry.attach(guest, 0, file)?;
    if !is_fresh(&attached.unit, &block) {
        return Err("not fresh".into());
    }
    let merged = registry.merge(guest, 0, attached.age, &[block])?;
    registry.detach(guest, 0, attached.age);
    Ok((attached.version, attached.unit.len(), merged))
}

// What is due is told as published: its number, age and version, and how many addresses its unit has.
fn publish(registry: &mut Registry) -> Result<Option<(u32, u32, u32, u32)>, Fail> {
    dues_may_be_answered();
    let Due::Slot {
        slot,
        age,
        version,
        unit,
    } = registry.due()?
    else {
        return Ok(None);
    };
    registry.acked(slot, age, version);
    Ok(Some((slot, age, version, unit.len())))
}

// A guest exits at the end of the first file, and the second file breaks there.
fn visit_first(
    alloc: Global,
    registry: &mut Registry,
    guest: u32,
) -> Result<(u32, u32, Merged), Fail>
    requires { MayAttach registry.old.opening 0 0 }
    ensures { OnOk result (registry.new.opening ≡ registry.old.opening) }
{
    visit(
        registry,
        guest,
        0,
        block(alloc, 0x0000_0073, Exit::Asks(0x1_0008))?,
    )
}

// Two guests visit the first file, and then one the other, whose image is another; what is due is published.
fn visit_all(alloc: Global, registry: &mut Registry) -> Result<(), Fail>
    requires first { MayAttach registry.old.opening 0 0 }
    requires second { MayAttach registry.old.opening 0 1 }
{
    let first = visit_first(alloc, registry, 0)?;
    let again = visit_first(alloc, registry, 1)?;
    if first != (0, 0, Merged::Version(1)) || again != (1, 1, Merged::Version(1)) {
        return Err("another version".into());
    }
    let other = visit(registry, 2, 1, block(alloc, 0x0010_0073, Exit::Stop)?)?;
    if other != (0, 0, Merged::Version(1)) || publish(registry)? != Some((0, 1, 1, 1)) {
        return Err("not a generation of its own".into());
    }
    Ok(())
}

// What the first module's file is; none where there is no such module.
fn files(registry: &mut Registry) -> Result<[Option<u32>; 2], Fail> {
    Ok([registry.map(0, 0)?, registry.map(0, 1)?])
}

// What comes of making a module be a file: where both are there, where the module is not, and where the file is not.
fn replace_all(registry: &mut Registry) -> Result<[Replaced; 3], Fail> {
    Ok([
        registry.replace(0, 0, 1)?,
        registry.replace(0, 1, 0)?,
        registry.replace(0, 0, 2)?,
    ])
}

#[test]
fn a_module_is_the_file_that_it_was_made(rt: HostRuntime) -> Result<(), Fail> {
    let alloc = rt.alloc();
    let mut registry = Registry::new(alloc, opening(alloc)?)?;
    assert_eq!(rt; files(&mut registry)?, [Some(0), None]);
    let replies = [Replaced::Yes, Replaced::NoSuchModule, Replaced::NoSuchFile];
    assert_eq!(rt; replace_all(&mut registry)?, replies);
    assert_eq!(rt; files(&mut registry)?, [Some(1), None]);
    registry.finish();
    registry.finish();
    assert_eq!(rt; registry.journal().len(), 8);
    Ok(())
}

#[test]
fn guests_share_the_units_of_their_images(rt: HostRuntime) -> Result<(), Fail> {
    let alloc = rt.alloc();
    let opening = opening(alloc)?;
    assert_eq!(rt; opening.file_count(), 2);
    if !may_attach(&opening, 0, 0) || !may_attach(&opening, 0, 1) {
        return Err("no segment".into());
    }
    let mut registry = Registry::new(alloc, opening)?;
    visit_all(alloc, &mut registry)?;
    assert_eq!(rt; publish(&mut registry)?, None);
    assert_eq!(rt; registry.into_journal().len(), 11);
    Ok(())
}
