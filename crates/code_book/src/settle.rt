// A block that was built begins.
ghost use Rattle.std.specs.Prelude.{◌≡◌, ◌<◌, ◌≤◌, ◌+◌, ◌*◌, ℕ, Some, None, true, false, cond, get_or, length, IfOk, OnOk, OnErr};
ghost use Rattle.std.specs.FinMap as fin;
ghost use Rattle.block_ledger.specs.Ledger.{begun, counted, found, is_live};
ghost use Rattle.code_book.specs.Book.{IsShort};
ghost use Rattle.code_book.specs.View.{ledger_of};

use crate::code_book::CodeBook;
use crate::exits::grow;
use frag_table::Held;
use fragment::Fragment;
use std::alloc::AllocError;

impl CodeBook {
    // A free place, with room for its exits.
    pub(crate) fn reserve(&mut self) -> Result<u32, AllocError>
        ensures ledger { ledger_of self.new ≡ ledger_of self.old }
        ensures counts { self.new.counts ≡ self.old.counts }
        ensures free { IfOk result (λ p. get_or self.new.places.slots p None ≡ None) }
        ensures within { IfOk result (λ p. p < length self.new.places.slots) }
        ensures wide { IfOk result (λ p. p < self.new.links.places) }
    {
        let place = self.places.room()?;
        grow(&mut self.links, place)?;
        Ok(place)
    }

    // The block comes to lie in a free place.
    fn settle(&mut self, place: u32, block: Fragment) -> Result<(), AllocError>
        requires absent { is_live (ledger_of self.old) block.address ≡ false }
        requires short { IsShort block }
        requires free { get_or self.old.places.slots place None ≡ None }
        requires within { place < length self.old.places.slots }
        requires wide { place < self.old.links.places }
        requires few { self.old.counts.blocks < 18446744073709551615 }
        ensures ledger { OnOk result (ledger_of self.new ≡ found block (counted (ledger_of self.old))) }
        ensures place { OnOk result (fin.get self.new.places.index block.address ≡ Some place) }
        ensures linked { OnOk result (self.new.counts.linked < self.new.counts.blocks) }
        ensures few { self.new.counts.blocks ≤ 18446744073709551615 }
        ensures err { OnErr result (ledger_of self.new ≡ ledger_of self.old) }
    {
        let addr = block.addr();
        let len = 4 * block.words().len() as u32;
        self.covers.cover(addr, len)?;
        if let Err(e) = self.places.take(place, Held::own(block)) {
            self.covers.uncover(addr);
            return Err(e);
        }
        self.here = here_now(self.here, self.block == addr, place);
        self.own += 1;
        self.counts.blocks += 1;
        self.counts.built += 1;
        Ok(())
    }

    /// A block that was built for it begins.
    pub fn begin_new(&mut self, block: Fragment) -> Result<(), AllocError>
        requires absent { is_live (ledger_of self.old) block.address ≡ false }
        requires short { IsShort block }
        requires few { self.old.counts.blocks < 18446744073709551615 }
        ensures ok { OnOk result (ledger_of self.new ≡ begun block (ledger_of self.old)) }
        ensures err { OnErr result (ledger_of self.new ≡ ledger_of self.old) }
    {
        let place = self.reserve()?;
        let addr = block.addr();
        self.settle(place, block)?;
        let next = self.next_place();
        self.link_to(next, addr, place);
        self.stand_at(addr, place);
        list(&mut self.owned, addr);
        Ok(())
    }
}

/// The most addresses of own blocks that are listed.
const MOST_LISTED: usize = 131_072;

// The address is listed. Where the list is long, as of a guest that writes its own code, it begins anew.
fn list(owned: &mut Vec<u32>, addr: u32) {
    if owned.len() >= MOST_LISTED {
        owned.clear();
    }
    let _ = owned.push(addr);
}

// The place of the block begun last, which may be this one.
pub(crate) fn here_now(here: Option<u32>, same: bool, place: u32) -> Option<u32>
    ensures { result ≡ cond same (Some place) here }
{
    if same { Some(place) } else { here }
}
