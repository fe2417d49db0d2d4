// What the book does with links.
ghost use Rattle.std.specs.Prelude.{◌≡◌, ◌<◌, ◌≤◌, ◌+◌, ◌*◌, ◌/◌, ◌==◌, ◌||◌, ℕ, Some, None, cond, OnOk};
ghost use Rattle.code_book.specs.Tables.{is_value, leads};

use cc_base::Steps;
use exit_links::Links;
use std::alloc::AllocError;
use std::marker::Brand;
use std::sync::ledger::{Blank, Ledger};

/// The most places.
const MOST: u32 = 1 << 30;

// The place that an exit leads to.
#[inline]
pub(crate) fn follow(links: &Links, from: u32, exit: u8) -> Option<u32>
    requires { exit < 2 }
    ensures { result ≡ leads links.now (2 * from + exit) }
{
    links.follow(from, exit)
}

// The exit leads to a place, and nowhere else.
pub(crate) fn link(links: &mut Links, from: u32, exit: u8, to: u32)
    requires exit { exit < 2 }
    requires from { from < links.old.places }
    requires to { to < links.old.places }
    ensures leads { (x : ℕ) → leads links.new x ≡ cond (x == 2 * from + exit) (Some to) (leads links.old x) }
    ensures places { links.new.places ≡ links.old.places }
{
    links.link(from, exit, to);
}

// No exit of the place is linked, and none leads to it. It takes no memory.
pub(crate) fn unlink(links: &mut Links, place: u32)
    ensures leads { (x : ℕ) → leads links.new x ≡ cond ((x / 2 == place) || is_value (leads links.old x) place) None (leads links.old x) }
    ensures places { links.new.places ≡ links.old.places }
{
    unlink_counting::<Brand>(links, place, Blank::new(1));
}

// The same. Nobody asks how many pairs went.
fn unlink_counting<L: Ledger>(links: &mut Links, place: u32, blank: Blank)
    requires name { blank.name ≡ L.name }
    requires parts { blank.parts ≡ L.parts }
    requires owned { 0 < blank.parts }
    ensures leads { (x : ℕ) → leads links.new x ≡ cond ((x / 2 == place) || is_value (leads links.old x) place) None (leads links.old x) }
    ensures places { links.new.places ≡ links.old.places }
{
    let mut steps = Steps::<L>::of(blank);
    links.unlink_from(place);
    links.unlink_into(place, &mut steps);
}

// There is room for a place. What is linked stays so. The room doubles, so that it seldom grows.
pub(crate) fn grow(links: &mut Links, place: u32) -> Result<(), AllocError>
    requires { place < 1073741824 }
    ensures leads { (x : ℕ) → leads links.new x ≡ leads links.old x }
    ensures longer { links.old.places ≤ links.new.places }
    ensures room { OnOk result (place < links.new.places) }
{
    links.in_range();
    let places = links.places();
    if place < places {
        return Ok(());
    }
    let wanted = (place + 1).max(places.saturating_mul(2).min(MOST));
    links.resize(wanted)
}
