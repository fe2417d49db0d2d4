ghost use Rattle.std.specs.Prelude.{◌≡◌, ◌+◌, ◌<◌, ◌≤◌, [], length, slice_index_or, true, false, not, IfOk, IfSome, IfNone};
ghost use Rattle.std.specs.List.{All, list_any};
ghost use Rattle.fragment.specs.Parts.{Parts};
ghost use Rattle.unit_set.specs.Sets.{has, IsRising};
ghost use Rattle.unit_set.specs.Held.{Held, IsFreshFor, IsHeld, addresses, link_at, link_in, link_of, place_in};

use crate::merge::{addresses_of, merged};
use crate::shared::Shared;
use crate::slot::SlotName;
use crate::union::{has_addr, place_of};
use cc_base::Image;
use fragment::{Exit, Fragment};
use std::alloc::{AllocError, Global};
use std::marker::Model;
use std::sync::Arc;

/// A unit: a slot, an image, and the fragments built there, rising by address. Links are not kept, but found.
#[derive(Drop)]
pub struct Unit {
    slot: SlotName,
    image: Image,
    addrs: Vec<u32>,
    frags: Vec<Shared>,
}

impl Model for Unit {
    ghost use Rattle.std.specs.Prelude.{◌≡◌};
    ghost use Rattle.unit_set.specs.Held.{Held, IsHeld, addresses};

    ghost Value = { Held };

    ghost view = { λ u. record { slot = u.slot; image = u.image; frags = u.frags.items } };

    ghost invariant = { λ u. (u.addrs.items ≡ addresses u.frags.items) × IsHeld u.slot u.image u.frags.items };
}

/// What a join answers.
#[derive(Drop)]
pub enum Joined {
    /// The union.
    New(Unit),
    /// Nothing is new.
    Same,
    /// The union has so many addresses, which is over 16,384.
    Full(u32),
}

impl Unit {
    ghost use Rattle.unit_set.specs.Join.{adds, Joins};

    /// The unit of this slot and image that has no address yet.
    pub fn empty(alloc: Global, slot: SlotName, image: Image) -> Unit
        ensures { result ≡ record { slot = slot; image = image; frags = [] } }
    {
        Unit {
            slot,
            image,
            addrs: Vec::new(alloc),
            frags: Vec::new(alloc),
        }
    }

    /// The unit with these fragments, which are kept.
    pub fn of(
        alloc: Global,
        slot: SlotName,
        image: Image,
        addrs: Vec<u32>,
        frags: Vec<Fragment>,
    ) -> Result<Unit, AllocError>
        requires addresses { addrs.items ≡ addresses frags.items }
        requires held { IsHeld slot image frags.items }
        ensures { IfOk result (λ u. u ≡ record { slot = slot; image = image; frags = frags.items }) }
    {
        let frags = shared(alloc, frags)?;
        Ok(Unit {
            slot,
            image,
            addrs,
            frags,
        })
    }

    /// Its slot.
    pub fn slot(&self) -> &SlotName
        ensures { result.now ≡ self.now.slot }
    {
        &self.slot
    }

    /// Its image.
    pub fn image(&self) -> &Image
        ensures { result.now ≡ self.now.image }
    {
        &self.image
    }

    /// Its fragments.
    pub fn frags(&self) -> &[Shared]
        ensures frags { result.now ≡ self.now.frags }
        ensures fresh { All (IsFreshFor self.now.slot self.now.image) result.now }
        ensures few { length result.now ≤ 16384 }
    {
        let _: &Unit = self;
        &self.frags
    }

    /// How many they are.
    pub fn len(&self) -> u32
        ensures { result ≡ length self.now.frags }
    {
        let _: &Unit = self;
        self.frags.len() as u32
    }

    /// Their addresses.
    pub fn addrs(&self) -> &[u32]
        ensures addresses { result.now ≡ addresses self.now.frags }
        ensures rises { IsRising result.now }
        ensures few { length result.now ≤ 16384 }
    {
        let _: &Unit = self;
        &self.addrs
    }

    /// The place of an address.
    pub fn find(&self, addr: u32) -> Option<u32>
        ensures some { IfSome result (λ k. (k < length self.now.frags) × ((d : Parts) → (slice_index_or self.now.frags k d).address ≡ addr)) }
        ensures none { IfNone result (has addr (addresses self.now.frags) ≡ false) }
        ensures place { result ≡ place_in self.now.frags addr }
    {
        place_of(self.addrs(), addr)
    }

    /// Whether it has a fragment at an address.
    pub fn has(&self, addr: u32) -> bool
        ensures { result ≡ has addr (addresses self.now.frags) }
    {
        has_addr(self.addrs(), addr)
    }

    /// The fragment at a place.
    pub fn fragment(&self, pos: u32) -> &Fragment
        requires { pos < length self.now.frags }
        ensures { result.now ≡ slice_index_or self.now.frags pos result.now }
    {
        let _: &Unit = self;
        self.frags[pos as usize].fragment()
    }

    /// The link of exit number `exit` of the fragment at a place, as `link_of` has it; none where there is no such exit.
    pub fn link(&self, pos: u32, exit: u8) -> Option<u32>
        requires { pos < length self.now.frags }
        ensures { (d : Parts) → result ≡ link_of self.now.frags (slice_index_or self.now.frags pos d).exits exit }
    {
        let exit = self.fragment(pos).exits().get(usize::from(exit))?;
        self.link_of(*exit)
    }

    /// The link of an exit: the place of the fragment at its target, where it is Direct and the unit has the target.
    pub fn link_of(&self, exit: Exit) -> Option<u32>
        ensures { result ≡ link_in self.now.frags exit }
    {
        link_at(self.addrs(), exit)
    }

    /// Whether one of them stands at an address that the unit has not.
    fn adds(&self, added: &[Fragment]) -> bool
        ensures { result ≡ adds self.now added.now }
    {
        any_new(self.addrs(), added)
    }

    /// The union with these fragments, which rise by address. Those that are there already are shared.
    pub fn join(&self, alloc: Global, added: &[Fragment]) -> Result<Joined, AllocError>
        requires fresh { All (IsFreshFor self.now.slot self.now.image) added.now }
        requires rises { IsRising (addresses added.now) }
        requires room { length added.now ≤ 1073741824 }
        ensures { IfOk result (λ j. Joins self.now added.now j) }
    {
        if !self.adds(added) {
            return Ok(Joined::Same);
        }
        let b = addresses_of(alloc, added)?;
        let (addrs, frags) = merged(alloc, self.addrs(), &b, self.frags(), added)?;
        if addrs.len() > 16_384 {
            return Ok(Joined::Full(addrs.len() as u32));
        }
        let slot = self.slot().copy(alloc)?;
        let image = share_image(self.image())?;
        Ok(Joined::New(Unit {
            slot,
            image,
            addrs,
            frags,
        }))
    }
}

/// The link of an exit: the place of its target, where it is Direct and the target is one of the addresses.
pub fn link_at(addrs: &[u32], exit: Exit) -> Option<u32>
    requires rises { IsRising addrs.now }
    requires few { length addrs.now ≤ 16384 }
    ensures { result ≡ link_at addrs.now exit }
{
    match exit {
        Exit::Direct(target) => place_of(addrs, target),
        Exit::Indirect => None,
        Exit::Asks(_) => None,
        Exit::Stop => None,
    }
}

fn shared(alloc: Global, frags: Vec<Fragment>) -> Result<Vec<Shared>, AllocError>
    ensures { IfOk result (λ v. v.items ≡ frags.items) }
{
    let mut all = Vec::new(alloc);
    for f in frags {
        all.push(Shared::keep(alloc, f)?)?;
    }
    Ok(all)
}

/// The same image; its bytes are shared.
fn share_image(image: &Image) -> Result<Image, AllocError>
    ensures { IfOk result (λ i. i ≡ image.now) }
{
    Ok(Image {
        start: image.start,
        bytes: Arc::try_clone(&image.bytes)?,
    })
}

fn any_new(addrs: &[u32], added: &[Fragment]) -> bool
    requires rises { IsRising addrs.now }
    requires few { length addrs.now ≤ 16384 }
    ensures { result ≡ list_any (λ f. not (has f.address addrs.now)) added.now }
{
    added.iter().any(|f| !has_addr(addrs, f.addr()))
}
