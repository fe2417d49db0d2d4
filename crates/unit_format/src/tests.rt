use super::*;
use cc_base::{Blob, CodeView, Image};
use fragment::{Exit, Fragment, Probe, same_as_built};
use probe_tools::ProbeKind;
use std::alloc::Global;
use std::sync::Arc;
use std::test::Fail;
use unit_set::{Joined, SlotName, Unit};

// The unit of `two-instructions` with its one block, in version 1.
const ONE: [u8; 68] = [
    0x43, 0x43, 0x55, 0x31, 0x19, 0x6d, 0x61, 0x69, 0x6e, 0x2e, 0x30, 0x2e, 0x30, 0x30, 0x30, 0x30,
    0x30, 0x30, 0x30, 0x30, 0x2e, 0x62, 0x6c, 0x6f, 0x63, 0x6b, 0x73, 0x2e, 0x31, 0x36, 0x00, 0x00,
    0x01, 0x00, 0x08, 0x00, 0x00, 0x00, 0x93, 0x08, 0xd0, 0x05, 0x73, 0x00, 0x00, 0x00, 0x01, 0x00,
    0x00, 0x00, 0x00, 0x00, 0x01, 0x00, 0x02, 0x01, 0x00, 0x00, 0x01, 0x02, 0x08, 0x00, 0x01, 0x00,
    0xff, 0xff, 0xff, 0xff,
];

// The same in version 2.
const TWO: [u8; 71] = [
    0x43, 0x43, 0x55, 0x32, 0x00, 0x19, 0x6d, 0x61, 0x69, 0x6e, 0x2e, 0x30, 0x2e, 0x30, 0x30, 0x30,
    0x30, 0x30, 0x30, 0x30, 0x30, 0x2e, 0x62, 0x6c, 0x6f, 0x63, 0x6b, 0x73, 0x2e, 0x31, 0x36, 0x00,
    0x00, 0x01, 0x00, 0x08, 0x00, 0x00, 0x00, 0x93, 0x08, 0xd0, 0x05, 0x73, 0x00, 0x00, 0x00, 0x01,
    0x00, 0x00, 0x00, 0x00, 0x00, 0x01, 0x00, 0x02, 0x00, 0x01, 0x00, 0x00, 0x00, 0x01, 0x02, 0x08,
    0x00, 0x01, 0x00, 0xff, 0xff, 0xff, 0xff,
];

// Why a text is refused.
fn refusal(alloc: Global, text: &[u8]) -> Option<TextErr> {
    match read_unit(alloc, text) {
        Ok(_) => None,
        Err(e) => Some(e),
    }
}

// Whether a text is read as the unit of `two-instructions`.
fn is_read(alloc: Global, text: &[u8]) -> Result<bool, Fail> {
    let Ok(raw) = read_unit(alloc, text) else {
        return Ok(false);
    };
    let name = raw.slot().text(alloc)?;
    let [only] = raw.frags() else {
        return Ok(false);
    };
    let frag = only.frag();
    Ok(
        name.items() == b"main.0.00000000.blocks.16".as_slice()
            && raw.image().start == 0x1_0000
            && raw.image().bytes.items() == [0x93, 8, 0xd0, 5, 0x73, 0, 0, 0].as_slice()
            && frag.addr() == 0x1_0000
            && frag.words() == [0x05d0_0893, 0x0000_0073].as_slice()
            && frag.probes().len() == 1
            && frag.exits() == [Exit::Asks(0x1_0008)].as_slice()
            && only.links() == [0xffff_ffff].as_slice(),
    )
}

#[test]
fn both_versions_are_read(rt: HostRuntime) -> Result<(), Fail> {
    let alloc = rt.alloc();
    assert!(rt; is_read(alloc, &ONE)?);
    assert!(rt; is_read(alloc, &TWO)?);
    Ok(())
}

// The text with this byte at a place.
fn changed(alloc: Global, text: &[u8], at: usize, byte: u8) -> Result<Vec<u8>, Fail> {
    let mut out = Vec::new(alloc);
    for (i, b) in text.iter().enumerate() {
        out.push(if i == at { byte } else { *b })?;
    }
    Ok(out)
}

#[test]
fn damaged_area_bytes(rt: HostRuntime) -> Result<(), Fail> {
    let alloc = rt.alloc();
    for (at, byte, want) in [
        (0, 0x44, TextErr::Magic),
        (4, 0, TextErr::Name),
        (34, 0, TextErr::Count),
        (46, 0, TextErr::Trailing),
        (46, 2, TextErr::Short),
        (50, 2, TextErr::Field(0)),
        (50, 4, TextErr::Field(0)),
        (54, 0x41, TextErr::Field(0)),
        (55, 0, TextErr::Field(0)),
        (56, 2, TextErr::Field(0)),
        (59, 3, TextErr::Field(0)),
    ] {
        let text = changed(alloc, &ONE, at, byte)?;
        assert_eq!(rt; refusal(alloc, &text), Some(want), "at {at}");
    }
    Ok(())
}

#[test]
fn short_area(rt: HostRuntime) {
    let alloc = rt.alloc();
    assert_eq!(rt; refusal(alloc, &ONE[..67]), Some(TextErr::Short));
    assert_eq!(rt; refusal(alloc, &TWO[..4]), Some(TextErr::Short));
    assert_eq!(rt; refusal(alloc, b""), Some(TextErr::Short));
}

#[test]
fn bad_isa_byte(rt: HostRuntime) {
    let alloc = rt.alloc();
    let mut text = TWO;
    text[4] = 2;
    assert_eq!(rt; refusal(alloc, &text), Some(TextErr::Isa));
    text[4] = 1;
    assert_eq!(rt; refusal(alloc, &text), Some(TextErr::Name));
}

// The unit with one fragment more.
fn grown(alloc: Global, unit: &Unit, frag: Fragment) -> Result<Unit, Fail> {
    let slot = unit.slot();
    let image = unit.image();
    let code = CodeView {
        start: image.start,
        bytes: image.bytes.items(),
    };
    if !same_as_built(&frag, code, slot.isa, slot.tool, slot.max) {
        return Err("not fresh".into());
    }
    match unit.join(alloc, &[frag])? {
        Joined::New(unit) => Ok(unit),
        _ => Err("nothing new".into()),
    }
}

fn image(alloc: Global) -> Result<Image, Fail> {
    let bytes = [0x93, 8, 0xd0, 5, 0x73, 0, 0, 0];
    Ok(Image {
        start: 0x1_0000,
        bytes: Arc::new(alloc, Blob::of(alloc, &bytes)?)?,
    })
}

fn block(alloc: Global) -> Result<Fragment, Fail> {
    let begin = Probe {
        place: 0,
        kind: ProbeKind::Block,
    };
    let words = [0x05d0_0893, 0x0000_0073];
    let exits = [Exit::Asks(0x1_0008)];
    Ok(Fragment::of(alloc, 0x1_0000, &words, &[begin], &exits)?)
}

fn name(alloc: Global) -> Result<SlotName, Fail> {
    let slot = SlotName::read(alloc, b"main.0.00000000.blocks.16").ok();
    Ok(slot.ok_or("no name")?)
}

fn two_instructions(alloc: Global) -> Result<Unit, Fail> {
    let none = Unit::empty(alloc, name(alloc)?, image(alloc)?);
    grown(alloc, &none, block(alloc)?)
}

#[test]
fn a_unit_is_written_in_version_2(rt: HostRuntime) -> Result<(), Fail> {
    let alloc = rt.alloc();
    let unit = two_instructions(alloc)?;
    let mut text = Vec::new(alloc);
    write_unit(&unit, &mut text)?;
    assert_eq!(rt; text.as_slice(), TWO.as_slice());
    assert_eq!(rt; text_len(&unit), 71);
    Ok(())
}
