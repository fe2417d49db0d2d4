// The links.
ghost use Rattle.std.specs.Prelude.{◌≡◌, ◌<◌, ◌≤◌, ◌+◌, ◌*◌, ◌/◌, ℕ, Some, None, true, false, not, length, IfOk, OnOk, OnErr};
ghost use Rattle.std.specs.FinMap as fin;
ghost use Rattle.exit_links.specs.Linked.{exit_number, target_of, linked, leads_to};
ghost use Rattle.exit_links.specs.Leads.{leads, pairs_of};

use crate::hung::{cut, cut_all, in_range, lead, moved, take_to, target, unlinked};
use cc_base::Steps;
use in_lists::InLists;
use std::alloc::{AllocError, Global};
use std::marker::Model;
use std::sync::ledger::Ledger;

/// For each exit of a place the place that it leads to. A place has the exits 0 and 1.
///
/// Exit e of place p has the number 2 * p + e, and hangs in the list of its target, so that those that lead to a place are found without a search.
#[derive(Drop)]
pub struct Links {
    alloc: Global,
    lists: InLists,
    places: u32,
}

impl Model for Links {
    ghost use Rattle.exit_links.specs.Linked.{Linked, linked_code};

    ghost Value = { Linked };

    ghost coded = { linked_code };

    ghost use Rattle.exit_links.specs.View.{view_of, IsSized};

    ghost view = { view_of };

    ghost invariant = { IsSized };
}

// How many exits so many places have, if they can be numbered.
fn exits_of(places: u32) -> Result<u32, AllocError>
    ensures { IfOk result (λ exits. exits ≡ 2 * places) }
{
    match places.checked_mul(2) {
        Some(exits) => Ok(exits),
        None => Err(AllocError),
    }
}

impl Links {
    /// Places numbered from 0, of which no exit is linked. The only error is want of memory, which more than 2,147,483,647 places always meet.
    pub fn new(alloc: Global, places: u32) -> Result<Links, AllocError>
        ensures { IfOk result (λ l. l ≡ linked places fin.empty) }
    {
        let lists = unlinked(alloc, exits_of(places)?, places)?;
        Ok(Links {
            alloc,
            lists,
            places,
        })
    }

    /// How many places there are.
    pub fn places(&self) -> u32
        ensures { result ≡ self.now.places }
    {
        self.places
    }

    /// Tells that each exit that is linked, and its target, are of places below the number of places. It does nothing.
    pub fn in_range(&self)
        ensures { (x q : ℕ) → fin.get self.now.pairs x ≡ Some q → (x / 2 < self.now.places) × (q < self.now.places) }
    {
        in_range(&self.lists);
    }

    /// There are so many places. Each exit leads where it did. The only error is want of memory.
    pub fn resize(&mut self, places: u32) -> Result<(), AllocError>
        requires { (x q : ℕ) → fin.get self.old.pairs x ≡ Some q → (x / 2 < places) × (q < places) }
        ensures ok { OnOk result (self.new ≡ linked places self.old.pairs) }
        ensures err { OnErr result (self.new ≡ self.old) }
    {
        let exits = exits_of(places)?;
        self.lists = moved(self.alloc, &self.lists, 2 * self.places, exits, places)?;
        self.places = places;
        Ok(())
    }

    /// The place that the exit leads to.
    pub fn follow(&self, from: u32, exit: u8) -> Option<u32>
        ensures { result ≡ target_of self.now from exit }
    {
        in_range(&self.lists);
        if exit > 1 || from >= self.places {
            return None;
        }
        target(&self.lists, 2 * from + exit as u32)
    }

    /// The exit leads to the place, wherever it led before.
    pub fn link(&mut self, from: u32, exit: u8, to: u32)
        requires exit { exit < 2 }
        requires from { from < self.old.places }
        requires to { to < self.old.places }
        ensures { self.new ≡ linked self.old.places (fin.insert self.old.pairs (exit_number from exit) to) }
    {
        lead(&mut self.lists, 2 * from + exit as u32, to);
    }

    /// No exit leads to the place. Each that did is a step.
    pub fn unlink_into<L: Ledger>(&mut self, to: u32, steps: &mut Steps<L>)
        ensures pairs { self.new ≡ linked self.old.places (fin.retain_keys self.old.pairs (λ x. not (leads_to (fin.get self.old.pairs x) to))) }
        ensures steps { steps.new + fin.len self.new.pairs ≡ steps.old + fin.len self.old.pairs }
    {
        in_range(&self.lists);
        if to < self.places {
            empty(&mut self.lists, to, steps);
        }
    }

    /// No exit of the place is linked.
    pub fn unlink_from(&mut self, from: u32)
        ensures { self.new ≡ linked self.old.places (fin.remove (fin.remove self.old.pairs (exit_number from 0)) (exit_number from 1)) }
    {
        in_range(&self.lists);
        if from < self.places {
            cut(&mut self.lists, 2 * from);
            cut(&mut self.lists, 2 * from + 1);
        }
    }

    /// No exit is linked.
    pub fn clear(&mut self)
        ensures { self.new ≡ linked self.old.places fin.empty }
    {
        cut_all(&mut self.lists);
    }
}

// No exit leads to the place. Each that did is a step.
fn empty<L: Ledger>(lists: &mut InLists, to: u32, steps: &mut Steps<L>)
    requires { to < length lists.old.lists }
    ensures others { (x : ℕ) → leads_to (leads lists.old x) to ≡ false → leads lists.new x ≡ leads lists.old x }
    ensures gone { (x : ℕ) → leads_to (leads lists.old x) to ≡ true → leads lists.new x ≡ None }
    ensures exits { lists.new.exits ≡ lists.old.exits }
    ensures heads { length lists.new.lists ≡ length lists.old.lists }
    ensures steps { steps.new + fin.len (pairs_of lists.new) ≡ steps.old + fin.len (pairs_of lists.old) }
{
    while let Some(_exit) = take_to(lists, to) {
        steps.tick();
    }
}
