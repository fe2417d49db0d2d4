ghost use Rattle.std.specs.Prelude.{◌≡◌, ◌<◌, ◌≤◌, OnOk};

use super::Links;
use cc_base::Steps;
use std::alloc::AllocError;
use std::marker::Brand;
use std::process::Abort;
use std::sync::ledger::{Blank, Ledger};
use std::test::Fail;

// Links an exit that is not linked.
fn links_to(rt: &impl Abort, links: &mut Links, from: u32, exit: u8, to: u32)
    requires exit { exit < 2 }
    requires from { from < links.old.places }
    requires to { to < links.old.places }
    ensures { links.new.places ≡ links.old.places }
{
    match links.follow(from, exit) {
        None => links.link(from, exit, to),
        Some(_) => panic!(rt; "the exit is linked"),
    }
    assert_eq!(rt; links.follow(from, exit), Some(to));
}

// Unlinks what leads to the place, and counts for any ledger.
fn unlinks<L: Ledger>(links: &mut Links, to: u32, blank: Blank)
    requires name { blank.name ≡ L.name }
    requires parts { blank.parts ≡ L.parts }
    requires some { 0 < blank.parts }
    ensures { links.new.places ≡ links.old.places }
{
    let mut steps = Steps::<L>::of(blank);
    links.unlink_into(to, &mut steps);
}

// There is room for more places.
fn grows(links: &mut Links, places: u32) -> Result<(), AllocError>
    requires { links.old.places ≤ places }
    ensures { OnOk result (links.new.places ≡ places) }
{
    links.in_range();
    links.resize(places)
}

#[test]
fn exits_are_linked_and_unlinked(rt: HostRuntime) -> Result<(), Fail> {
    let mut links = Links::new(rt.alloc(), 3)?;
    links_to(&rt, &mut links, 0, 0, 1);
    links_to(&rt, &mut links, 0, 1, 2);
    links_to(&rt, &mut links, 1, 1, 1);
    links_to(&rt, &mut links, 2, 0, 1);
    unlinks::<Brand>(&mut links, 1, Blank::new(1));
    assert_eq!(rt; links.follow(0, 0), None);
    assert_eq!(rt; links.follow(0, 1), Some(2));
    assert_eq!(rt; links.follow(1, 1), None);
    assert_eq!(rt; links.follow(2, 0), None);
    links_to(&rt, &mut links, 2, 1, 0);
    links.unlink_from(0);
    assert_eq!(rt; links.follow(0, 1), None);
    assert_eq!(rt; links.follow(2, 1), Some(0));
    links.clear();
    assert_eq!(rt; links.follow(2, 1), None);
    Ok(())
}

#[test]
fn more_places_keep_the_links(rt: HostRuntime) -> Result<(), Fail> {
    let mut links = Links::new(rt.alloc(), 2)?;
    links_to(&rt, &mut links, 0, 1, 1);
    links_to(&rt, &mut links, 1, 0, 1);
    assert_eq!(rt; links.follow(0, 2), None);
    grows(&mut links, 4)?;
    links_to(&rt, &mut links, 3, 1, 0);
    assert_eq!(rt; links.follow(0, 1), Some(1));
    assert_eq!(rt; links.follow(1, 0), Some(1));
    assert_eq!(rt; links.follow(4, 0), None);
    Ok(())
}
