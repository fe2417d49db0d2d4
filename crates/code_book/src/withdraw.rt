// Bytes are written: the blocks that meet them go.
ghost use Rattle.std.specs.Prelude.{◌≡◌, ◌==◌, ◌<◌, ◌-◌, cond, not, true, false, None};
ghost use Rattle.std.specs.FinMap as fin;
ghost use Rattle.block_ledger.specs.Ledger.{only, is_live, is_private, flushed, written};
ghost use Rattle.code_book.specs.Book.{outside, spared};
ghost use Rattle.code_book.specs.View.{ledger_of};

use crate::code_book::CodeBook;
use crate::exits::unlink;
use cc_base::Span;

/// All addresses that a block can have.
pub(crate) const EVERYWHERE: Span = Span {
    start: 0,
    len: u32::MAX,
};

impl CodeBook {
    /// Bytes were written: the blocks that meet the span go. It takes no memory.
    pub fn write_span(&mut self, span: Span)
        ensures { ledger_of self.new ≡ written span (ledger_of self.old) }
    {
        let mut from = 0;
        while let Some(addr) = self.covers.first_meeting(span, from) {
            self.withdraw(addr);
            from = addr + 1;
        }
    }

    /// The private blocks go, and it is forgotten how the block begun last was left. It takes no memory, and costs what the
    /// pool holds where the list of own blocks misses none.
    pub fn withdraw_own(&mut self)
        ensures { ledger_of self.new ≡ flushed (ledger_of self.old) }
    {
        self.withdraw_listed();
        self.withdraw_rest();
        self.leave_by(None);
    }

    // The private blocks that are listed go.
    fn withdraw_listed(&mut self)
        ensures { spared (ledger_of self.new) ≡ spared (ledger_of self.old) }
    {
        while let Some(addr) = self.owned.pop() {
            if self.own_at(addr).is_some() {
                self.withdraw(addr);
            }
        }
    }

    // The other private blocks go, if there are any.
    fn withdraw_rest(&mut self)
        ensures { ledger_of self.new ≡ spared (ledger_of self.old) }
    {
        if self.own == 0 {
            return;
        }
        let mut from = 0;
        while let Some(addr) = self.covers.first_meeting(EVERYWHERE, from) {
            if self.is_own(addr) {
                self.withdraw(addr);
            }
            from = addr + 1;
        }
    }

    /// A region of code goes: the blocks that begin in it go. It takes no memory.
    pub fn withdraw_region(&mut self, region: Span)
        ensures { ledger_of self.new ≡ only (outside region) (ledger_of self.old) }
    {
        let end = region.start + region.len;
        let mut from = region.start;
        while let Some(addr) = self.covers.first_meeting(EVERYWHERE, from) {
            if addr >= end {
                return;
            }
            self.withdraw(addr);
            from = addr + 1;
        }
    }

    // Whether the live block at the address is the process's own.
    pub(crate) fn is_own(&self, addr: u32) -> bool
        requires { is_live (ledger_of self.now) addr ≡ true }
        ensures { result ≡ is_private (ledger_of self.now) addr }
    {
        match self.places.find(addr) {
            Some(place) => !self.places.slots.is_shared(place),
            None => false,
        }
    }

    /// The block at the address goes, with all links from it and to it.
    pub(crate) fn withdraw(&mut self, addr: u32)
        requires { is_live (ledger_of self.old) addr ≡ true }
        ensures ledger { ledger_of self.new ≡ only (λ a. not (a == addr)) (ledger_of self.old) }
        ensures covers { self.new.covers ≡ fin.remove self.old.covers addr }
        ensures owned { self.new.owned ≡ self.old.owned }
    {
        let Some(place) = self.places.find(addr) else {
            return;
        };
        let shared = self.places.slots.is_shared(place);
        unlink(&mut self.links, place);
        self.places.drop_at(addr, place);
        self.covers.uncover(addr);
        self.own = own_left(self.own, shared);
        self.here = here_left(self.here, self.block == addr);
    }
}

// How many blocks of its own are left.
fn own_left(own: u64, shared: bool) -> u64
    requires { shared ≡ false → 0 < own }
    ensures { result ≡ cond shared own (own - 1) }
{
    if shared { own } else { own - 1 }
}

// The place of the block begun last, unless it is gone.
fn here_left(here: Option<u32>, gone: bool) -> Option<u32>
    ensures { result ≡ cond gone None here }
{
    if gone { None } else { here }
}
