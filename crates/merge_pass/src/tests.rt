use super::*;
use cc_base::{Blob, Image};
use fragment::Fragment;
use std::alloc::{AllocError, Global};
use std::sync::Arc;
use std::test::Fail;
use unit_set::{SlotName, Unit};

const FIRST: u32 = 0x1_0000;

// JAL x0, 4, twice.
const WORD: u32 = 0x0040_006f;

const BYTES: [u8; 8] = [0x6f, 0x00, 0x40, 0x00, 0x6f, 0x00, 0x40, 0x00];

fn segment(alloc: Global) -> Result<Attached, Fail> {
    let slot = SlotName::read(alloc, b"main.0.00000000.blocks.16").ok();
    let image = Image {
        start: FIRST,
        bytes: Arc::new(alloc, Blob::of(alloc, &BYTES)?)?,
    };
    let unit = Arc::new(alloc, Unit::empty(alloc, slot.ok_or("no name")?, image))?;
    Ok(Attached::of(alloc, &unit)?)
}

fn block(alloc: Global, addr: u32, word: u32) -> Result<Fragment, AllocError> {
    Fragment::of(alloc, addr, &[word], &[], &[])
}

#[test]
fn blocks_of_the_image_are_wanted_once(rt: HostRuntime) -> Result<(), Fail> {
    let alloc = rt.alloc();
    let mut segments = Segments::new(alloc);
    segments.insert(5, segment(alloc)?)?;
    segments.insert(8, segment(alloc)?)?;
    segments.mark(5, &[FIRST])?;
    let Some(one) = segments.get(5) else {
        panic!(rt; "no segment");
    };
    assert_eq!(rt; one.offered_count(), 1);
    // it was offered; it is of the image; its word isn't; it is behind it; its word is cut
    for (addr, word, want) in [
        (FIRST, WORD, false),
        (FIRST + 4, WORD, true),
        (FIRST + 4, 0x0040_00ef, false),
        (FIRST + 8, WORD, false),
        (FIRST + 6, 0x0000_0040, false),
    ] {
        assert_eq!(rt; one.wants(&block(alloc, addr, word)?), want, "{addr:08X}");
    }
    segments.remove_module(1);
    assert_eq!(rt; segments.numbers(alloc)?.as_slice(), [8].as_slice());
    assert_eq!(rt; segments.images(alloc)?.len(), 1);
    Ok(())
}
