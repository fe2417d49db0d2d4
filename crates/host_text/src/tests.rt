use crate::{Cause, print, refuse, status_of, text_of, texts_of};
use cc_base::{Blob, Name};
use elf_map::ElfErr;
use guest_loop::{Counts, GuestEnd, Ran};
use manifest::ManifestErr;
use outside::{FuseSink, MemSink};
use plain_machine::End;
use probe_tools::{Event, Tool};
use report::Report;
use std::test::Fail;

#[test]
fn a_refusal_is_one_line(rt: HostRuntime) -> Result<(), Fail> {
    let alloc = rt.alloc();
    let mut out = MemSink::new(alloc, 100)?;
    let elf = Cause::Elf(Name::of(alloc, b"p.elf")?, ElfErr::Segment(3));
    let manifest = Cause::Manifest(ManifestErr::Range(Name::of(alloc, b"guest.0.max")?));
    assert_eq!(&rt; refuse(&mut out, &elf), Ok(()));
    assert_eq!(&rt; refuse(&mut out, &manifest), Ok(()));
    assert_eq!(&rt; refuse(&mut out, &Cause::Slots(96)), Ok(()));
    assert_eq!(&rt; print(&mut out, b"end"), Ok(()));
    let lines = b"error elf p.elf segment 3\nerror manifest range guest.0.max\nerror slots 96\nend";
    assert_eq!(&rt; out.bytes(), lines.as_slice());
    assert_eq!(&rt; status_of(&elf), 5);
    assert_eq!(&rt; status_of(&manifest), 3);
    assert_eq!(&rt; status_of(&Cause::Shelf(0)), 8);
    Ok(())
}

#[test]
fn a_line_that_fails_leaves_a_front(rt: HostRuntime) -> Result<(), Fail> {
    let alloc = rt.alloc();
    let mut out = FuseSink::new(alloc, 100, vec![in alloc; 2]?, 8)?;
    let cause = Cause::Long(Name::of(alloc, b"in")?);
    assert_eq!(&rt; refuse(&mut out, &cause).is_err(), true);
    assert_eq!(&rt; out.bytes(), b"error fi".as_slice());
    Ok(())
}

#[test]
fn the_counts_stand_behind_the_rows_where_they_are_asked_for(rt: HostRuntime) -> Result<(), Fail> {
    let alloc = rt.alloc();
    let mut report = Report::new(alloc, Tool::Blocks);
    report.add(&Event::Block { at: 0x1_0000 })?;
    let end = GuestEnd {
        name: Name::of(alloc, b"g1")?,
        end: End::Exit(7),
        maps: Vec::new(alloc),
        legs: Vec::new(alloc),
        counts: Counts {
            blocks: 21,
            reused: 3,
            built: 2,
            linked: 14,
        },
        taken: Vec::new(alloc),
    };
    let output = Blob::of(alloc, b"hi")?;
    let ran = Ran {
        end,
        output,
        report,
    };
    let plain = b"guest g1 exit 7\noutput 2\nhi\nreport blocks 1\n00010000 1\n";
    assert_eq!(&rt; text_of(alloc, &ran, false)?.as_slice(), plain.as_slice());
    let mut text = Vec::from_slice(alloc, plain)?;
    text.extend_from_slice(b"counts blocks 21 reused 3 built 2 linked 14\n")?;
    assert_eq!(&rt; texts_of(alloc, std::slice::from_ref(&ran), true)?, text);
    Ok(())
}
