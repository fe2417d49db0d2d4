use super::*;
use cc_base::CodeView;
use fragment::{Exit, Fragment, Probe, same_as_built};
use probe_tools::ProbeKind;
use std::alloc::Global;
use std::test::Fail;
use unit_format::{read_unit, write_unit};
use unit_set::{Joined, SlotName, Unit};

// The unit of `two-instructions` with its one block, in version 1.
const ONE: [u8; 68] = [
    0x43, 0x43, 0x55, 0x31, 0x19, 0x6d, 0x61, 0x69, 0x6e, 0x2e, 0x30, 0x2e, 0x30, 0x30, 0x30, 0x30,
    0x30, 0x30, 0x30, 0x30, 0x2e, 0x62, 0x6c, 0x6f, 0x63, 0x6b, 0x73, 0x2e, 0x31, 0x36, 0x00, 0x00,
    0x01, 0x00, 0x08, 0x00, 0x00, 0x00, 0x93, 0x08, 0xd0, 0x05, 0x73, 0x00, 0x00, 0x00, 0x01, 0x00,
    0x00, 0x00, 0x00, 0x00, 0x01, 0x00, 0x02, 0x01, 0x00, 0x00, 0x01, 0x02, 0x08, 0x00, 0x01, 0x00,
    0xff, 0xff, 0xff, 0xff,
];

// The same in version 2.
const TWO: [u8; 71] = [
    0x43, 0x43, 0x55, 0x32, 0x00, 0x19, 0x6d, 0x61, 0x69, 0x6e, 0x2e, 0x30, 0x2e, 0x30, 0x30, 0x30,
    0x30, 0x30, 0x30, 0x30, 0x30, 0x2e, 0x62, 0x6c, 0x6f, 0x63, 0x6b, 0x73, 0x2e, 0x31, 0x36, 0x00,
    0x00, 0x01, 0x00, 0x08, 0x00, 0x00, 0x00, 0x93, 0x08, 0xd0, 0x05, 0x73, 0x00, 0x00, 0x00, 0x01,
    0x00, 0x00, 0x00, 0x00, 0x00, 0x01, 0x00, 0x02, 0x00, 0x01, 0x00, 0x00, 0x00, 0x01, 0x02, 0x08,
    0x00, 0x01, 0x00, 0xff, 0xff, 0xff, 0xff,
];

// A unit of RV32IM whose block ends at a MUL, as it would in a unit of RV32I.
const MUL: [u8; 86] = [
    0x43, 0x43, 0x55, 0x32, 0x01, 0x1c, 0x6d, 0x61, 0x69, 0x6e, 0x2e, 0x30, 0x2e, 0x30, 0x30, 0x30,
    0x30, 0x30, 0x30, 0x30, 0x30, 0x2e, 0x62, 0x6c, 0x6f, 0x63, 0x6b, 0x73, 0x2e, 0x31, 0x36, 0x2e,
    0x69, 0x6d, 0x00, 0x00, 0x01, 0x00, 0x14, 0x00, 0x00, 0x00, 0x93, 0x02, 0x60, 0x00, 0x13, 0x03,
    0x70, 0x00, 0x33, 0x85, 0x62, 0x02, 0x93, 0x08, 0xd0, 0x05, 0x73, 0x00, 0x00, 0x00, 0x01, 0x00,
    0x00, 0x00, 0x00, 0x00, 0x01, 0x00, 0x03, 0x00, 0x01, 0x00, 0x00, 0x00, 0x01, 0x03, 0x00, 0x00,
    0x00, 0x00, 0xff, 0xff, 0xff, 0xff,
];

fn slot_of(alloc: Global, name: &[u8]) -> Result<SlotName, Fail> {
    Ok(SlotName::read(alloc, name).ok().ok_or("no name")?)
}

// Why a text is not admitted.
fn refusal(alloc: Global, text: &[u8], slot: &SlotName) -> Option<AdmitErr> {
    let Ok(raw) = read_unit(alloc, text) else {
        return Some(AdmitErr::Memory);
    };
    match admit(alloc, raw, slot) {
        Ok(_) => None,
        Err(e) => Some(e),
    }
}

// The unit of a text.
fn admitted(alloc: Global, text: &[u8], slot: &SlotName) -> Result<Unit, Fail> {
    let raw = read_unit(alloc, text).ok().ok_or("not read")?;
    Ok(admit(alloc, raw, slot).ok().ok_or("not admitted")?)
}

// What is written of the unit of a text.
fn written(alloc: Global, text: &[u8], slot: &SlotName) -> Result<Vec<u8>, Fail> {
    let unit = admitted(alloc, text, slot)?;
    let mut out = Vec::new(alloc);
    write_unit(&unit, &mut out)?;
    Ok(out)
}

#[test]
fn both_versions_are_admitted(rt: HostRuntime) -> Result<(), Fail> {
    let alloc = rt.alloc();
    let slot = slot_of(alloc, b"main.0.00000000.blocks.16")?;
    assert_eq!(rt; written(alloc, &ONE, &slot)?.as_slice(), TWO.as_slice());
    assert_eq!(rt; written(alloc, &TWO, &slot)?.as_slice(), TWO.as_slice());
    Ok(())
}

// The text with this byte at each place from `from` to `last`.
fn changed(
    alloc: Global,
    text: &[u8],
    from: usize,
    last: usize,
    byte: u8,
) -> Result<Vec<u8>, Fail> {
    let mut out = Vec::new(alloc);
    for (i, b) in text.iter().enumerate() {
        out.push(if from <= i && i <= last { byte } else { *b })?;
    }
    Ok(out)
}

#[test]
fn damaged_area_bytes(rt: HostRuntime) -> Result<(), Fail> {
    let alloc = rt.alloc();
    let slot = slot_of(alloc, b"main.0.00000000.blocks.16")?;
    let stale = Some(AdmitErr::NotFresh(0x1_0000));
    for (at, byte, want) in [
        (5, 0x6e, Some(AdmitErr::Foreign)),
        (38, 0x13, None),
        (54, 1, stale),
        (56, 1, stale),
        (57, 1, stale),
        (60, 0xc, stale),
    ] {
        let text = changed(alloc, &ONE, at, at, byte)?;
        assert_eq!(rt; refusal(alloc, &text, &slot), want, "at {at}");
    }
    Ok(())
}

#[test]
fn damaged_area(rt: HostRuntime) -> Result<(), Fail> {
    let alloc = rt.alloc();
    let slot = slot_of(alloc, b"main.0.00000000.blocks.16")?;
    let text = changed(alloc, &ONE, 64, 67, 0)?;
    let want = Some(AdmitErr::BadLink(0x1_0000, 0));
    assert_eq!(rt; refusal(alloc, &text, &slot), want);
    Ok(())
}

#[test]
fn im_unit_not_fresh(rt: HostRuntime) -> Result<(), Fail> {
    let alloc = rt.alloc();
    let slot = slot_of(alloc, b"main.0.00000000.blocks.16.im")?;
    let want = Some(AdmitErr::NotFresh(0x1_0000));
    assert_eq!(rt; refusal(alloc, &MUL, &slot), want);
    Ok(())
}

// One jump to the next word, with its link, in version 2.
fn push_jump(out: &mut Vec<u8>, addr: u32, link: u32) -> Result<(), Fail> {
    out.extend_from_slice(&addr.to_le_bytes())?;
    out.extend_from_slice(&[1, 0, 1, 0, 0, 0, 1, 0])?;
    out.extend_from_slice(&addr.wrapping_add(4).to_le_bytes())?;
    out.extend_from_slice(&link.to_le_bytes())?;
    Ok(())
}

// A text with the first 16,384 addresses of an image of 16,385 such jumps.
fn full_text(alloc: Global) -> Result<Vec<u8>, Fail> {
    let mut out = Vec::new(alloc);
    out.extend_from_slice(b"CCU2")?;
    out.extend_from_slice(&[0, 25])?;
    out.extend_from_slice(b"main.0.00000000.blocks.16")?;
    out.extend_from_slice(&0x1_0000_u32.to_le_bytes())?;
    out.extend_from_slice(&65_540_u32.to_le_bytes())?;
    for _ in 0..16_385_u32 {
        out.extend_from_slice(&[0x6f, 0, 0x40, 0])?;
    }
    out.extend_from_slice(&16_384_u32.to_le_bytes())?;
    for i in 0..16_383_u32 {
        push_jump(&mut out, 0x1_0000 + 4 * i, i + 1)?;
    }
    push_jump(&mut out, 0x1_fffc, 0xffff_ffff)?;
    Ok(out)
}

// The unit with one fragment more; none where it is not fresh.
fn join_one(alloc: Global, unit: &Unit, frag: Fragment) -> Result<Option<Joined>, Fail> {
    let slot = unit.slot();
    let image = unit.image();
    let code = CodeView {
        start: image.start,
        bytes: image.bytes.items(),
    };
    if !same_as_built(&frag, code, slot.isa, slot.tool, slot.max) {
        return Ok(None);
    }
    Ok(Some(unit.join(alloc, &[frag])?))
}

fn last_jump(alloc: Global) -> Result<Fragment, Fail> {
    let begin = Probe {
        place: 0,
        kind: ProbeKind::Block,
    };
    let exits = [Exit::Direct(0x2_0004)];
    Ok(Fragment::of(alloc, 0x2_0000, &[0x0040_006f], &[begin], &exits)?)
}

#[test]
fn full_unit(rt: HostRuntime) -> Result<(), Fail> {
    let alloc = rt.alloc();
    let slot = slot_of(alloc, b"main.0.00000000.blocks.16")?;
    let unit = admitted(alloc, &full_text(alloc)?, &slot)?;
    assert_eq!(rt; unit.len(), 16_384);
    match join_one(alloc, &unit, last_jump(alloc)?)? {
        Some(Joined::Full(n)) => assert_eq!(rt; n, 16_385),
        _ => assert!(rt; false, "it is not full"),
    }
    Ok(())
}
