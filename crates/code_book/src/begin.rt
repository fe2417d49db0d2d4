// A block begins.
ghost use Rattle.std.specs.Prelude.{◌≡◌, ◌<◌, ◌≤◌, ◌+◌, ℕ, Some, None, true, false, IfSome, cond};
ghost use Rattle.std.specs.FinMap as fin;
ghost use Rattle.fragment.specs.Parts.{Parts};
ghost use Rattle.block_ledger.specs.Ledger.{begun, is_live, left_by, linked_by, counted};
ghost use Rattle.code_book.specs.Book.{gone_on, next_of};
ghost use Rattle.code_book.specs.Tables.{and_then, is_shared_in};
ghost use Rattle.code_book.specs.View.{book_of, ledger_of};

use crate::code_book::CodeBook;
use crate::exits::{follow, link};

impl CodeBook {
    /// How the block begun last was left.
    pub fn leave_by(&mut self, exit: Option<u8>)
        requires { IfSome exit (λ e. e < 2) }
        ensures { ledger_of self.new ≡ left_by exit (ledger_of self.old) }
    {
        self.left = exit;
    }

    // Where the exit leads by which the block before was left.
    #[inline]
    pub(crate) fn next_place(&self) -> Option<u32>
        ensures { result ≡ next_of (book_of self.now) }
    {
        let Some(from) = self.here else {
            return None;
        };
        let Some(exit) = self.left else {
            return None;
        };
        follow(&self.links, from, exit)
    }

    // The place of the block at an address. Where it lies in the place given, it is found without a search.
    #[inline]
    fn place_for(&self, next: Option<u32>, addr: u32) -> Option<u32>
        ensures { result ≡ fin.get self.now.places.index addr }
    {
        if let Some(place) = next
            && self.places.slots.lies_at(place, addr)
        {
            return Some(place);
        }
        self.places.find(addr)
    }

    // A block more begins, of an attached unit or not.
    fn count(&mut self, shared: bool)
        requires { self.old.counts.blocks < 18446744073709551615 }
        ensures ledger { ledger_of self.new ≡ record (ledger_of self.old) { counts = record { blocks = self.old.counts.blocks + 1; reused = self.old.counts.reused + cond shared 1 0; built = self.old.counts.built; linked = self.old.counts.linked } } }
        ensures places { self.new.places ≡ self.old.places }
        ensures linked { self.new.counts.linked < self.new.counts.blocks }
        ensures few { self.new.counts.blocks ≤ 18446744073709551615 }
        ensures next { next_of (book_of self.new) ≡ next_of (book_of self.old) }
    {
        self.counts.blocks += 1;
        self.counts.reused += if shared { 1 } else { 0 };
    }

    // The exit by which the block before was left leads to the address, which has this place. Before it led to `next`.
    pub(crate) fn link_to(&mut self, next: Option<u32>, addr: u32, place: u32)
        requires next { next ≡ next_of (book_of self.old) }
        requires place { fin.get self.old.places.index addr ≡ Some place }
        requires linked { self.old.counts.linked < self.old.counts.blocks }
        requires few { self.old.counts.blocks ≤ 18446744073709551615 }
        ensures ledger { ledger_of self.new ≡ linked_by (ledger_of self.old).left addr (ledger_of self.old) }
        ensures places { self.new.places ≡ self.old.places }
    {
        let Some(from) = self.here else {
            return;
        };
        let Some(exit) = self.left else {
            return;
        };
        if next.is_some() {
            self.counts.linked += 1;
        } else {
            link(&mut self.links, from, exit, place);
        }
    }

    // The block at the address, which has this place, is the one begun last.
    pub(crate) fn stand_at(&mut self, addr: u32, place: u32)
        requires { fin.get self.old.places.index addr ≡ Some place }
        ensures { ledger_of self.new ≡ record (ledger_of self.old) { block = addr; left = None } }
    {
        self.block = addr;
        self.here = Some(place);
        self.left = None;
    }

    /// The block at the address begins, where it is live. It takes no memory.
    pub fn begin_live(&mut self, addr: u32) -> bool
        requires { self.old.counts.blocks < 18446744073709551615 }
        ensures live { result ≡ is_live (ledger_of self.old) addr }
        ensures begun { result ≡ true → (f : Parts) → f.address ≡ addr → ledger_of self.new ≡ begun f (ledger_of self.old) }
        ensures same { result ≡ false → ledger_of self.new ≡ ledger_of self.old }
    {
        let next = self.next_place();
        let Some(place) = self.place_for(next, addr) else {
            return false;
        };
        let shared = self.places.slots.is_shared(place);
        self.count(shared);
        self.link_to(next, addr, place);
        self.stand_at(addr, place);
        true
    }
}
