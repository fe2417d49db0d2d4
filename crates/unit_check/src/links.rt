// Whether links are the defined ones.
ghost use Rattle.std.specs.Prelude.{◌≡◌, ◌≤◌, ◌<◌, length, MatchOption, IfOk};
ghost use Rattle.std.specs.List.{All};
ghost use Rattle.unit_set.specs.Sets.{IsRising};
ghost use Rattle.unit_format.specs.Units.{links_at};
ghost use Rattle.unit_check.specs.First.{IsFirstOther};
ghost use Rattle.unit_check.specs.Admission.{HasLinks, IsFirstBad, addresses_in};
ghost use Rattle.unit_check.specs.Shape.{HasLinkEach};

use fragment::Exit;
use std::alloc::{AllocError, Global};
use unit_format::number_of;
use unit_set::{RawFrag, link_at};

/// The addresses.
pub fn addresses_in(alloc: Global, frags: &[RawFrag]) -> Result<Vec<u32>, AllocError>
    ensures { IfOk result (λ v. v.items ≡ addresses_in frags.now) }
{
    let mut addrs = Vec::new(alloc);
    for f in frags {
        addrs.push(f.frag().addr())?;
    }
    Ok(addrs)
}

/// The first exit whose link is not the defined one.
fn bad_exit(addrs: &[u32], exits: &[Exit], links: &[u32]) -> Option<u8>
    requires rises { IsRising addrs.now }
    requires few { length addrs.now ≤ 16384 }
    requires each { length links.now ≡ length exits.now }
    requires two { length exits.now ≤ 2 }
    ensures { MatchOption result (links.now ≡ links_at addrs.now exits.now) (λ exit. IsFirstOther links.now (links_at addrs.now exits.now) exit) }
{
    for i in 0..exits.len() {
        if links[i] != number_of(link_at(addrs, exits[i])) {
            return Some(i as u8);
        }
    }
    None
}

/// The first link that is not the defined one, by address and exit.
pub fn first_bad(addrs: &[u32], frags: &[RawFrag]) -> Option<(u32, u8)>
    requires rises { IsRising addrs.now }
    requires few { length addrs.now ≤ 16384 }
    requires each { All HasLinkEach frags.now }
    ensures { MatchOption result (All (HasLinks addrs.now) frags.now) (λ bad. IsFirstBad addrs.now frags.now bad.0 bad.1) }
{
    for f in frags {
        if let Some(exit) = bad_exit(addrs, f.frag().exits(), f.links()) {
            return Some((f.frag().addr(), exit));
        }
    }
    None
}
