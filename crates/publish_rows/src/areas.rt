// What publications make of areas.
ghost use Rattle.std.specs.Prelude.{◌≡◌};

use crate::shelves::{NAME, NEW, OLD, TWO, bytes_of, find, renew, unit_of, with_area};
use publish::laws::publish_two;
use publish::{LoadErr, Loaded, PubErr, Verdict, close_gate, fill, load, open_gate};
use shelf_model::{Area, MemShelf, Shelf};
use std::alloc::Global;
use std::test::Fail;
use unit_set::Unit;

#[test]
fn first_publication(rt: HostRuntime) -> Result<(), Fail> {
    let alloc = rt.alloc();
    let unit = unit_of(alloc, &TWO)?;
    let mut shelf = MemShelf::new(alloc);
    let (a, b) = (Verdict::Empty, Verdict::Empty);
    assert_eq!(rt; find(alloc, &mut shelf)?.loaded(), Loaded::Nothing { a, b });
    assert_eq!(rt; renew(alloc, &mut shelf, &unit), Ok(Ok(3)));
    assert_eq!(rt; bytes_of(&mut shelf, Area::A)?.as_slice(), TWO.as_slice());
    assert_eq!(rt; bytes_of(&mut shelf, Area::B)?.len(), 0);
    let (area, seq) = (Area::A, 1);
    assert_eq!(rt;
        find(alloc, &mut shelf)?.loaded(),
        Loaded::Held { area, seq }
    );
    Ok(())
}

#[test]
fn the_three_stages(rt: HostRuntime) -> Result<(), Fail> {
    let mut shelf = with_area(rt.alloc(), Area::A, &[0xa5, 7, 7, 7, 7])?;
    assert_eq!(rt; close_gate(&mut shelf, NAME, Area::A), Ok(()));
    assert_eq!(rt; fill(&mut shelf, NAME, Area::A, &[1, 2, 3]), Ok(()));
    let closed = [0, 1, 2, 3, 7];
    assert_eq!(rt;
        bytes_of(&mut shelf, Area::A)?.as_slice(),
        closed.as_slice()
    );
    assert_eq!(rt; open_gate(&mut shelf, NAME, Area::A), Ok(()));
    let opened = [0xa5, 1, 2, 3, 7];
    assert_eq!(rt;
        bytes_of(&mut shelf, Area::A)?.as_slice(),
        opened.as_slice()
    );
    Ok(())
}

// How a load and then two publications come out.
fn renew_twice<H: Shelf>(
    alloc: Global,
    shelf: &mut H,
    first: &Unit,
    second: &Unit,
) -> Result<Result<u8, PubErr>, LoadErr>
    requires { second.now.slot ≡ first.now.slot }
{
    let mut standing = load(alloc, shelf, first.slot())?.standing;
    Ok(publish_two(alloc, shelf, first, second, &mut standing))
}

#[test]
fn two_publications(rt: HostRuntime) -> Result<(), Fail> {
    let alloc = rt.alloc();
    let mut shelf = MemShelf::new(alloc);
    let first = unit_of(alloc, &OLD)?;
    let second = unit_of(alloc, &NEW)?;
    if !second.slot().is(first.slot()) {
        return Err("two slots".into());
    }
    assert_eq!(rt; renew_twice(alloc, &mut shelf, &first, &second), Ok(Ok(3)));
    assert_eq!(rt; bytes_of(&mut shelf, Area::B)?.as_slice(), NEW.as_slice());
    Ok(())
}
