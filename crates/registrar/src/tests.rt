ghost use Rattle.std.specs.Prelude.{◌≡◌, true, IfOk, OnOk};
ghost use Rattle.std.specs.Arc.{arc_value};
ghost use Rattle.unit_set.specs.Held.{IsFreshFor};
ghost use Rattle.registry.specs.History.{MayAttach, IsOpening};
ghost use Rattle.registrar.specs.Calls.{AreCovered};

use super::*;
use crate::laws::{attached_is_held, covered_stays, held_stays};
use cc_base::{Blob, CodeView, FileCode};
use fragment::{Exit, Fragment, Probe, same_as_built};
use probe_tools::ProbeKind;
use registry::{FileCodes, Merged, Opening, Registry, Replaced, may_attach};
use std::alloc::Global;
use std::sync::Arc;
use std::test::Fail;
use unit_set::{SlotName, Unit};

// The segment of a file with these eight bytes.
fn code(alloc: Global, bytes: [u8; 8]) -> Result<FileCodes, Fail> {
    let code = FileCode {
        vaddr: 0x1_0000,
        fixed: true,
        bytes: Arc::new(alloc, Blob::of(alloc, &bytes)?)?,
    };
    Ok(FileCodes::from_vec(vec![in alloc; code]?))
}

// One slot without a unit, and a module that is the first of two files, which differ in their last instruction.
fn opening(alloc: Global) -> Result<Opening, Fail>
    ensures { IfOk result (λ o. IsOpening o) }
{
    let slot = SlotName::read(alloc, b"main.0.00000000.blocks.16").ok();
    let exits = code(alloc, [0x93, 8, 0xd0, 5, 0x73, 0, 0, 0])?;
    let breaks = code(alloc, [0x93, 8, 0xd0, 5, 0x73, 0, 0x10, 0])?;
    let none: Option<Arc<Unit>> = None;
    Ok(Opening {
        slots: vec![in alloc; slot.ok_or("no name")?]?,
        found: vec![in alloc; none]?,
        shut: vec![in alloc; false]?,
        modules: vec![in alloc; 0]?,
        codes: vec![in alloc; exits, breaks]?,
    })
}

// The block of both instructions of the first file.
fn block(alloc: Global) -> Result<Fragment, Fail> {
    let begin = Probe {
        place: 0,
        kind: ProbeKind::Block,
    };
    let words = [0x05d0_0893, 0x0000_0073];
    let exits = [Exit::Asks(0x1_0008)];
    Ok(Fragment::of(alloc, 0x1_0000, &words, &[begin], &exits)?)
}

// Whether the block is the one that the unit has at its address.
fn is_fresh(unit: &Unit, block: &Fragment) -> bool
    ensures { result ≡ true → IsFreshFor unit.now.slot unit.now.image block.now }
{
    let (slot, image) = (unit.slot(), unit.image());
    let code = CodeView {
        start: image.start,
        bytes: image.bytes.items(),
    };
    same_as_built(block, code, slot.isa, slot.tool, slot.max)
}

// What the first module's file is; none where there is no such module.
fn files<R: Registrar>(registrar: &mut R) -> Result<[Option<u32>; 2], Fail> {
    Ok([registrar.map(0, 0)?, registrar.map(0, 1)?])
}

// What comes of making a module be a file: where both are there, where the module is not, and where the file is not.
fn replace_all<R: Registrar>(registrar: &mut R) -> Result<[Replaced; 3], Fail> {
    Ok([
        registrar.replace(0, 0, 1)?,
        registrar.replace(0, 1, 0)?,
        registrar.replace(0, 0, 2)?,
    ])
}

// A guest attaches the first file, hands in a block, and lets the unit go: it tells the version that it got, how many
// addresses the unit had, and what came of the merge.
fn visit<R: Registrar>(
    registrar: &mut R,
    guest: u32,
    block: Fragment,
) -> Result<(u32, u32, Merged), Fail>
    requires may { MayAttach (R.holder registrar.old).opening 0 0 }
    requires covered { AreCovered (R.holder registrar.old).own }
    ensures opening { OnOk result ((R.holder registrar.new).opening ≡ (R.holder registrar.old).opening) }
    ensures covered { OnOk result (AreCovered (R.holder registrar.new).own) }
{
    attached_is_held();
    held_stays();
    covered_stays();
    let attached = registrar.attach(guest, 0, 0)?;
    if !is_fresh(&attached.unit, &block) {
        return Err("not fresh".into());
    }
    let merged = registrar.merge(guest, 0, attached.age, &[block])?;
    registrar.detach(guest, 0, attached.age);
    Ok((attached.version, attached.unit.len(), merged))
}

#[test]
fn a_module_is_told_by_its_file(rt: HostRuntime) -> Result<(), Fail> {
    let mut registry = Registry::new(rt.alloc(), opening(rt.alloc())?)?;
    assert_eq!(rt; files(&mut registry)?, [Some(0), None]);
    Ok(())
}

#[test]
fn a_module_becomes_another_file(rt: HostRuntime) -> Result<(), Fail> {
    let mut registry = Registry::new(rt.alloc(), opening(rt.alloc())?)?;
    let replies = [Replaced::Yes, Replaced::NoSuchModule, Replaced::NoSuchFile];
    assert_eq!(rt; replace_all(&mut registry)?, replies);
    assert_eq!(rt; files(&mut registry)?, [Some(1), None]);
    Ok(())
}

#[test]
fn a_block_is_handed_in_for_what_was_attached(rt: HostRuntime) -> Result<(), Fail> {
    let alloc = rt.alloc();
    let opening = opening(alloc)?;
    if !may_attach(&opening, 0, 0) {
        return Err("no segment".into());
    }
    let mut registry = Registry::new(alloc, opening)?;
    let first = visit(&mut registry, 0, block(alloc)?)?;
    let again = visit(&mut registry, 1, block(alloc)?)?;
    assert_eq!(rt; first, (0, 0, Merged::Version(1)));
    assert_eq!(rt; again, (1, 1, Merged::Version(1)));
    assert_eq!(rt; registry.journal().len(), 6);
    Ok(())
}
