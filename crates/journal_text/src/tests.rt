use crate::{first_fault, push_journal, push_shut};
use cc_base::{Addrs, Name};
use publish::{Loaded, Pub, PubFault, Verdict};
use registry::{Entry, Merged, Replaced};
use shelf_model::Area;
use std::alloc::Global;
use std::test::Fail;
use unit_set::SlotName;

fn slot(alloc: Global, text: &[u8]) -> Result<SlotName, Fail> {
    let slot = SlotName::read(alloc, text).ok();
    Ok(slot.ok_or("no name")?)
}

fn guests(alloc: Global) -> Result<Vec<Name>, Fail> {
    Ok(vec![in alloc; Name::of(alloc, b"g1")?, Name::of(alloc, b"g-2")?]?)
}

fn slots(alloc: Global) -> Result<Vec<SlotName>, Fail> {
    let main = slot(alloc, b"main.0.00000000.blocks.16")?;
    let lib = slot(alloc, b"lib.1.00200000.memory.64.im")?;
    Ok(vec![in alloc; main, lib]?)
}

// What guests ask of files, and the answers.
fn of_files(alloc: Global) -> Result<Vec<Entry>, Fail> {
    let replaced = |module: u32, file: u32, reply: Replaced| Entry::Replace {
        guest: 1,
        module,
        file,
        reply,
    };
    Ok(vec![in alloc;
        Entry::Map {
            guest: 0,
            module: 0,
            file: Some(1)
        },
        Entry::Map {
            guest: 1,
            module: 7,
            file: None
        },
        replaced(0, 1, Replaced::Yes),
        replaced(9, 0, Replaced::NoSuchModule),
        replaced(0, 9, Replaced::NoSuchFile),
    ]?)
}

// What guests ask of units, and the answers.
fn of_units(alloc: Global) -> Result<Vec<Entry>, Fail> {
    Ok(vec![in alloc;
        Entry::Attach {
            guest: 0,
            slot: 1,
            file: 3,
            age: 2,
            version: 4_294_967_295
        },
        Entry::Merge {
            guest: 0,
            slot: 1,
            age: 2,
            addrs: Addrs::of(alloc, &[0x1_0000, 0x1_0010])?,
            reply: Merged::Version(6),
        },
        Entry::Merge {
            guest: 0,
            slot: 1,
            age: 2,
            addrs: Addrs::of(alloc, &[0x1_0004])?,
            reply: Merged::UnitFull(16_385),
        },
        Entry::Detach {
            guest: 0,
            slot: 1,
            age: 2
        },
    ]?)
}

// What is published, and the end.
fn of_publications(alloc: Global) -> Result<Vec<Entry>, Fail> {
    Ok(vec![in alloc;
        Entry::Due {
            slot: 0,
            age: 1,
            version: 2
        },
        Entry::Acked {
            slot: 0,
            age: 1,
            version: 2
        },
        Entry::Failed { slot: 0 },
        Entry::Finish,
    ]?)
}

fn printed(alloc: Global, journal: &[Entry]) -> Result<Vec<u8>, Fail> {
    let mut text = Vec::from_slice(alloc, b"(")?;
    push_journal(alloc, &mut text, &guests(alloc)?, &slots(alloc)?, journal)?;
    Ok(text)
}

#[test]
fn what_is_asked_of_files_is_told(rt: HostRuntime) -> Result<(), Fail> {
    let alloc = rt.alloc();
    let text = printed(alloc, &of_files(alloc)?)?;
    let want =
        b"(journal 5\nmap g1 0 1\nmap g-2 7 none\nreplace g-2 0 1 yes\nreplace g-2 9 0 no-module\nreplace g-2 0 9 no-file\n";
    assert_eq!(rt; text.as_slice(), want.as_slice());
    Ok(())
}

#[test]
fn what_is_asked_of_units_is_told(rt: HostRuntime) -> Result<(), Fail> {
    let alloc = rt.alloc();
    let text = printed(alloc, &of_units(alloc)?)?;
    let want =
        b"(journal 4\nattach g1 lib.1.00200000.memory.64.im 3 2 4294967295\nmerge g1 lib.1.00200000.memory.64.im 2 2 version 6\nmerge g1 lib.1.00200000.memory.64.im 2 1 full 16385\ndetach g1 lib.1.00200000.memory.64.im 2\n";
    assert_eq!(rt; text.as_slice(), want.as_slice());
    Ok(())
}

#[test]
fn what_is_published_is_told(rt: HostRuntime) -> Result<(), Fail> {
    let alloc = rt.alloc();
    let text = printed(alloc, &of_publications(alloc)?)?;
    let want =
        b"(journal 4\ndue main.0.00000000.blocks.16 1 2\nacked main.0.00000000.blocks.16 1 2\nfailed main.0.00000000.blocks.16\nfinish\n";
    assert_eq!(rt; text.as_slice(), want.as_slice());
    Ok(())
}

const HELD: Loaded = Loaded::Held {
    area: Area::A,
    seq: 1,
};

const NOTHING: Loaded = Loaded::Nothing {
    a: Verdict::Empty,
    b: Verdict::Closed,
};

fn publication(slot: u32, fault: Option<PubFault>) -> Pub {
    Pub {
        slot,
        age: 0,
        version: 1,
        seq: 2,
        stages: 0,
        fault,
    }
}

fn told_shut(alloc: Global, loads: &[Loaded], served: &[Pub]) -> Result<Vec<u8>, Fail> {
    let mut text = Vec::new(alloc);
    let slots = slots(alloc)?;
    if slots.len() != 2 {
        return Err("other slots".into());
    }
    push_shut(alloc, &mut text, &slots, loads, served)?;
    Ok(text)
}

#[test]
fn slots_that_a_fault_has_shut_are_told(rt: HostRuntime) -> Result<(), Fail> {
    let alloc = rt.alloc();
    let fine = publication(0, None);
    let broken = publication(1, Some(PubFault::Shelf));
    let worn = publication(1, Some(PubFault::WornOut));
    let text = told_shut(alloc, &[Loaded::Unread, NOTHING], &[worn])?;
    let want = b"shut main.0.00000000.blocks.16 shelf\nshut lib.1.00200000.memory.64.im worn\n";
    assert_eq!(rt; text.as_slice(), want.as_slice());
    let text = told_shut(alloc, &[HELD, NOTHING], &[fine, broken])?;
    let want = b"shut lib.1.00200000.memory.64.im shelf\n";
    assert_eq!(rt; text.as_slice(), want.as_slice());
    Ok(())
}

#[test]
fn the_first_fault_of_the_shelf_is_found(rt: HostRuntime) {
    let broken = publication(1, Some(PubFault::Shelf));
    let worn = publication(0, Some(PubFault::WornOut));
    assert_eq!(rt; first_fault(&[HELD, NOTHING], &[worn]), None);
    assert_eq!(rt; first_fault(&[HELD, NOTHING], &[worn, broken]), Some(1));
    assert_eq!(rt;
        first_fault(&[Loaded::Unread, NOTHING], &[worn, broken]),
        Some(0)
    );
}
