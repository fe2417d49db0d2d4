// The guests, in rounds.
ghost use Rattle.std.specs.Prelude.{◌≡◌, ◌<◌, ◌≤◌, ◌+◌, ◌^◌, ℕ, length, [], IfOk, OnOk, OnErr};
ghost use Rattle.std.specs.List.{All, filter_map as present};
ghost use Rattle.registry.specs.Registry.{opened, told_all};
ghost use Rattle.registry.specs.History.{state_of};
ghost use Rattle.registry.specs.Laws.{AreLetGo};
ghost use Rattle.guest_rounds.specs.Rounds.{last_round, AreCalls, AreFree, AreTold, HasRun, HaveRun};

use crate::guests::Guests;
use registry::Registry;
use std::alloc::{AllocError, Global};

/// Runs every guest once, by rising round, and in order within a round. `rounds` has the round of each, 15 at most. It
/// answers what is told of each, in the order of their numbers. Where memory is wanting, some of them ran, in this order.
pub fn run_rounds<G: Guests>(
    alloc: Global,
    registry: &mut Registry,
    rounds: &[u8],
    guests: &mut G,
) -> Result<Vec<G::Ran>, AllocError>
    requires empty { registry.old.journal ≡ [] }
    requires few { length rounds.now < 2 ^ 32 }
    requires rounds { All (λ round. round ≤ last_round) rounds.now }
    requires may { (g : ℕ) → g < length rounds.now → G.may_run (G.plan guests.old) registry.old.opening g }
    ensures one_each { IfOk result (λ answers. length answers.items ≡ length rounds.now) }
    ensures told { IfOk result (λ answers. AreTold (G.tells (G.plan guests.old)) (told_all registry.old.opening (opened registry.old.opening) registry.new.journal) answers.items) }
    ensures calls { AreCalls rounds.now registry.old.opening registry.new }
    ensures let_go { OnOk result (AreLetGo registry.new.journal) }
    ensures free { OnOk result (AreFree (state_of registry.new)) }
    ensures kept { G.plan guests.new ≡ G.plan guests.old }
{
    let mut answers = none_each(alloc, rounds.len())?;
    for round in 0..16 {
        run_round(registry, rounds, round, guests, &mut answers)?;
    }
    let _ = registry.journal();
    all_of(alloc, answers)
}

// Runs the guests of a round.
fn run_round<G: Guests>(
    registry: &mut Registry,
    rounds: &[u8],
    round: u8,
    guests: &mut G,
    answers: &mut Vec<Option<G::Ran>>,
) -> Result<(), AllocError>
    requires few { length rounds.now < 2 ^ 32 }
    requires may { (g : ℕ) → g < length rounds.now → G.may_run (G.plan guests.old) registry.old.opening g }
    requires ran { HaveRun (G.tells (G.plan guests.old)) rounds.now (HasRun rounds.now round 0) registry.old.opening registry.old answers.old.items }
    ensures ok { OnOk result (HaveRun (G.tells (G.plan guests.old)) rounds.now (HasRun rounds.now (round + 1) 0) registry.old.opening registry.new answers.new.items) }
    ensures err { OnErr result (AreCalls rounds.now registry.old.opening registry.new) }
    ensures kept { G.plan guests.new ≡ G.plan guests.old }
{
    for guest in 0..rounds.len() {
        run_at(registry, rounds, round, guest, guests, answers)?;
    }
    Ok(())
}

// Runs a guest where it is of the round, and puts down its answer.
fn run_at<G: Guests>(
    registry: &mut Registry,
    rounds: &[u8],
    round: u8,
    guest: usize,
    guests: &mut G,
    answers: &mut Vec<Option<G::Ran>>,
) -> Result<(), AllocError>
    requires there { guest < length rounds.now }
    requires few { length rounds.now < 2 ^ 32 }
    requires may { G.may_run (G.plan guests.old) registry.old.opening guest }
    requires ran { HaveRun (G.tells (G.plan guests.old)) rounds.now (HasRun rounds.now round guest) registry.old.opening registry.old answers.old.items }
    ensures ok { OnOk result (HaveRun (G.tells (G.plan guests.old)) rounds.now (HasRun rounds.now round (guest + 1)) registry.old.opening registry.new answers.new.items) }
    ensures err { OnErr result (AreCalls rounds.now registry.old.opening registry.new) }
    ensures kept { G.plan guests.new ≡ G.plan guests.old }
{
    if rounds[guest] != round {
        return Ok(());
    }
    let ran = guests.run(guest as u32, registry)?;
    answers[guest] = Some(ran);
    Ok(())
}

// No answer for each of some guests.
fn none_each<T: Drop>(alloc: Global, count: usize) -> Result<Vec<Option<T>>, AllocError>
    ensures { IfOk result (λ none. length none.items ≡ count) }
{
    let mut none = Vec::new(alloc);
    for _ in 0..count {
        none.push(None)?;
    }
    Ok(none)
}

// The answers that are there.
fn all_of<T: Drop>(alloc: Global, answers: Vec<Option<T>>) -> Result<Vec<T>, AllocError>
    ensures { IfOk result (λ all. all.items ≡ present (λ answer. answer) answers.items) }
{
    let mut all = Vec::new(alloc);
    for answer in answers {
        if let Some(ran) = answer {
            all.push(ran)?;
        }
    }
    Ok(all)
}
