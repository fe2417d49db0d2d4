use super::*;
use fragment::{Exit, Fragment};
use std::alloc::{AllocError, Global};
use std::test::Fail;
use unit_set::Shared;

const AT: u32 = 0x1_0000;

const NEXT: u32 = 0x1_0004;

// JAL x0, 4.
fn block(alloc: Global, addr: u32) -> Result<Fragment, AllocError> {
    Fragment::of(alloc, addr, &[0x0040_006f], &[], &[Exit::Direct(NEXT)])
}

#[test]
fn places_are_taken_and_freed(rt: HostRuntime) -> Result<(), Fail> {
    let alloc = rt.alloc();
    let mut table = FragTable::new(alloc);
    let first = table.room()?;
    table.take(first, Held::own(block(alloc, AT)?))?;
    let second = table.room()?;
    assert!(rt; first != second);
    table.take(second, Held::of(Shared::keep(alloc, block(alloc, NEXT)?)?))?;
    assert_eq!(rt; table.find(AT), Some(first));
    assert_eq!(rt; table.find(NEXT), Some(second));
    assert!(rt; !table.slots.is_shared(first) && table.slots.is_shared(second));
    assert!(rt; table.slots.lies_at(second, NEXT) && !table.slots.lies_at(first, NEXT));
    table.drop_at(AT, first);
    assert_eq!(rt; table.find(AT), None);
    assert!(rt; table.at(first).is_none());
    let Some(held) = table.at(second) else {
        panic!(rt; "the other block went");
    };
    assert_eq!(rt; held.block().addr(), NEXT);
    // the place that is free is given out again
    assert_eq!(rt; table.room()?, first);
    Ok(())
}
