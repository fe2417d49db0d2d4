// What the links do with the lists of exits.
ghost use Rattle.std.specs.Prelude.{◌≡◌, ◌<◌, ◌≤◌, ◌==◌, ℕ, Some, None, cond, length, IfOk, IfSome, IfNone};
ghost use Rattle.exit_links.specs.Leads.{leads};

use in_lists::InLists;
use std::alloc::{AllocError, Global};

// Tells that each exit that leads on, and the place where it leads, are numbered.
pub(crate) fn in_range(lists: &InLists)
    ensures { (x q : ℕ) → leads lists.now x ≡ Some q → (x < lists.now.exits) × (q < length lists.now.lists) }
{
    lists.each_in_one_list();
}

// The place that the exit leads to.
pub(crate) fn target(lists: &InLists, exit: u32) -> Option<u32>
    requires { exit < lists.now.exits }
    ensures { result ≡ leads lists.now exit }
{
    lists.each_in_one_list();
    lists.head_of(exit)
}

// The exit leads to the place.
pub(crate) fn hang(lists: &mut InLists, exit: u32, to: u32)
    requires free { leads lists.old exit ≡ None }
    requires exit { exit < lists.old.exits }
    requires to { to < length lists.old.lists }
    ensures leads { (x : ℕ) → leads lists.new x ≡ cond (x == exit) (Some to) (leads lists.old x) }
    ensures exits { lists.new.exits ≡ lists.old.exits }
    ensures heads { length lists.new.lists ≡ length lists.old.lists }
{
    lists.each_in_one_list();
    lists.put(exit, to);
    lists.each_in_one_list();
}

// The exit leads to the place, and nowhere else.
pub(crate) fn lead(lists: &mut InLists, exit: u32, to: u32)
    requires exit { exit < lists.old.exits }
    requires to { to < length lists.old.lists }
    ensures leads { (x : ℕ) → leads lists.new x ≡ cond (x == exit) (Some to) (leads lists.old x) }
    ensures exits { lists.new.exits ≡ lists.old.exits }
    ensures heads { length lists.new.lists ≡ length lists.old.lists }
{
    cut(lists, exit);
    hang(lists, exit, to);
}

// The exit leads nowhere.
pub(crate) fn cut(lists: &mut InLists, exit: u32)
    requires { exit < lists.old.exits }
    ensures leads { (x : ℕ) → leads lists.new x ≡ cond (x == exit) None (leads lists.old x) }
    ensures exits { lists.new.exits ≡ lists.old.exits }
    ensures heads { length lists.new.lists ≡ length lists.old.lists }
{
    if target(lists, exit).is_some() {
        cut_linked(lists, exit);
    }
}

fn cut_linked(lists: &mut InLists, exit: u32)
    requires { (h : ℕ) × (leads lists.old exit ≡ Some h) }
    ensures leads { (x : ℕ) → leads lists.new x ≡ cond (x == exit) None (leads lists.old x) }
    ensures exits { lists.new.exits ≡ lists.old.exits }
    ensures heads { length lists.new.lists ≡ length lists.old.lists }
{
    lists.each_in_one_list();
    lists.cut(exit);
    lists.each_in_one_list();
}

// Some exit that led to the place leads nowhere, if there was one.
pub(crate) fn take_to(lists: &mut InLists, to: u32) -> Option<u32>
    requires { to < length lists.old.lists }
    ensures none { IfNone result ((x : ℕ) → leads lists.old x ≡ Some to → ⊥) }
    ensures kept { IfNone result ((x : ℕ) → leads lists.new x ≡ leads lists.old x) }
    ensures led { IfSome result (λ exit. leads lists.old exit ≡ Some to) }
    ensures leads { IfSome result (λ exit. (x : ℕ) → leads lists.new x ≡ cond (x == exit) None (leads lists.old x)) }
    ensures exits { lists.new.exits ≡ lists.old.exits }
    ensures heads { length lists.new.lists ≡ length lists.old.lists }
{
    lists.each_in_one_list();
    let first = lists.take_first(to);
    lists.each_in_one_list();
    first
}

// Lists of these sizes, where no exit leads on.
pub(crate) fn unlinked(alloc: Global, exits: u32, heads: u32) -> Result<InLists, AllocError>
    ensures leads { IfOk result (λ v. (x : ℕ) → leads v x ≡ None) }
    ensures exits { IfOk result (λ v. v.exits ≡ exits) }
    ensures heads { IfOk result (λ v. length v.lists ≡ heads) }
{
    InLists::new(alloc, exits, heads)
}

// No exit leads on.
pub(crate) fn cut_all(lists: &mut InLists)
    ensures leads { (x : ℕ) → leads lists.new x ≡ None }
    ensures exits { lists.new.exits ≡ lists.old.exits }
    ensures heads { length lists.new.lists ≡ length lists.old.lists }
{
    lists.clear();
}

// Lists of these sizes, where each exit leads where it did.
pub(crate) fn moved(
    alloc: Global,
    lists: &InLists,
    old: u32,
    exits: u32,
    heads: u32,
) -> Result<InLists, AllocError>
    requires old { lists.now.exits ≡ old }
    requires fits { (x q : ℕ) → leads lists.now x ≡ Some q → (x < exits) × (q < heads) }
    ensures leads { IfOk result (λ v. (x : ℕ) → leads v x ≡ leads lists.now x) }
    ensures exits { IfOk result (λ v. v.exits ≡ exits) }
    ensures heads { IfOk result (λ v. length v.lists ≡ heads) }
{
    let mut new = unlinked(alloc, exits, heads)?;
    in_range(lists);
    for exit in 0..old.min(exits) {
        if let Some(to) = target(lists, exit) {
            hang(&mut new, exit, to);
        }
    }
    Ok(new)
}
