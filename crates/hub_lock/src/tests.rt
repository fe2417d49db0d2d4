// A counter with a journal, which two threads move by seats that are split and joined.
ghost use Rattle.std.specs.Prelude.{◌≡◌, ℕ, List, ◌+◌, ◌<◌, [], ◌∷◌, ◌++◌, true, false, IfOk, OnOk, OnErr};
ghost use Rattle.std.specs.Thread.{IsSync};
ghost use Rattle.hub_lock.specs.Merge.{IsMerged};
ghost use Rattle.hub_lock.specs.Moves.{ups, downs};
ghost use Rattle.hub_lock.specs.Seats.{own_entries, Adds, Sees};
ghost use Rattle.hub_lock.specs.declared.tests.Move.{Move};

use crate::{Held, Kept, Seat, Turn, one_has_the_turn};
use std::alloc::{AllocError, Global};
use std::sync::Wait;
use std::test::Fail;
use std::thread;
use std::thread::Threads;

// Who moved the counter by one, and whether it went up.
#[derive(Clone, Copy, Debug, PartialEq)]
struct Move {
    by: u8,
    up: bool,
}

#[derive(Drop)]
struct Counter {
    count: usize,
    journal: Vec<Move>,
    ghost counted: { count + downs journal.items (λ m. m.up) ≡ ups journal.items (λ m. m.up) },
}

impl Kept for Counter {
    ghost use Rattle.std.proofs.Common.{le_refl};
    ghost use Rattle.hub_lock.specs.Moves.{IsCovered, IsCovered-merged};

    type Opening = ();

    type Entry = Move;

    ghost opening = { λ _. tt };

    ghost journal = { λ c. c.journal.items };

    ghost rule = { λ es. IsCovered es (λ m. m.up) };

    ghost empty = { le_refl 0 };

    ghost merged = { IsCovered-merged (λ m. m.up) };
}

impl Counter {
    fn new(alloc: Global) -> Counter
        ensures { result.journal.items ≡ [] }
    {
        Counter {
            count: 0,
            journal: Vec::new(alloc),
        }
    }

    fn go(&mut self, step: Move) -> Result<(), AllocError>
        requires { step.up ≡ false → downs self.old.journal.items (λ m. m.up) < ups self.old.journal.items (λ m. m.up) }
        ensures ok { OnOk result (self.new.journal.items ≡ self.old.journal.items ++ step ∷ []) }
        ensures err { OnErr result (self.new.journal.items ≡ self.old.journal.items) }
    {
        self.journal.push(step)?;
        let moves = self.journal.len();
        prove!(self.count < moves);
        if step.up {
            self.count += 1;
        } else {
            self.count -= 1;
        }
        Ok(())
    }
}

// One move, in a turn of the seat's. A seat that went up more often than down may go down, whatever other seats do.
fn go<R: Wait>(
    rt: &R,
    turn: &Turn<Counter>,
    seat: &mut Seat<Counter>,
    step: Move,
) -> Result<(), AllocError>
    requires turn { seat.old.turn ≡ turn.now }
    requires outside { seat.old.inside ≡ false }
    requires may { step.up ≡ false → downs (own_entries seat.old) (λ m. m.up) < ups (own_entries seat.old) (λ m. m.up) }
    ensures ok { OnOk result ((before : List Move) × Adds seat.old before step seat.new) }
    ensures err { OnErr result (Sees seat.old seat.new) }
{
    let Held { value: mut counter } = turn.enter(rt, seat);
    let result = counter.go(step);
    turn.leave(seat, Held { value: counter }, result.is_ok());
    result
}

// What one thread does: it goes up twice, and down.
#[derive(Clone, Copy)]
struct Plan {
    up: Move,
    down: Move,
    ghost kinds: { (up.up ≡ true) × (down.up ≡ false) },
}

fn plan_of(by: u8) -> Plan {
    Plan {
        up: Move { by, up: true },
        down: Move { by, up: false },
    }
}

fn work<R: Wait>(
    rt: &R,
    turn: &Turn<Counter>,
    mut seat: Seat<Counter>,
    plan: Plan,
) -> Result<Seat<Counter>, AllocError>
    requires turn { seat.turn ≡ turn.now }
    requires outside { seat.inside ≡ false }
    requires new { own_entries seat ≡ [] }
    ensures seat { IfOk result (λ s. (s.turn ≡ turn.now) × (s.inside ≡ false) × (s.parts ≡ seat.parts)) }
    ensures did { IfOk result (λ s. own_entries s ≡ plan.up ∷ plan.up ∷ plan.down ∷ []) }
{
    go(rt, turn, &mut seat, plan.up)?;
    go(rt, turn, &mut seat, plan.up)?;
    go(rt, turn, &mut seat, plan.down)?;
    Ok(seat)
}

// Two threads work on one counter. Its journal is what both did, and each of the two agrees with it on the order of its own moves.
fn share<R: Threads + Wait + Sync>(
    rt: &R,
    alloc: Global,
    first: Plan,
    second: Plan,
) -> Result<Counter, AllocError>
    ensures { IfOk result (λ c. IsMerged c.journal.items (first.up ∷ first.up ∷ first.down ∷ []) (second.up ∷ second.up ∷ second.down ∷ [])) }
{
    let (turn, mut seat) = Turn::start(alloc, Counter::new(alloc))?;
    let one = turn.split(&mut seat);
    let other = turn.split(&mut seat);
    let shared = &turn;
    let (one, other) = thread::join(
        rt,
        move ||
            requires { (one.turn ≡ shared.now) × (one.inside ≡ false) × (own_entries one ≡ []) }
            ensures { IfOk result (λ s. (s.turn ≡ shared.entry.now) × (s.inside ≡ false) × (s.parts ≡ one.parts) × (own_entries s ≡ first.up ∷ first.up ∷ first.down ∷ [])) }
        { work(rt, shared, one, first) },
        move ||
            requires { (other.turn ≡ shared.now) × (other.inside ≡ false) × (own_entries other ≡ []) }
            ensures { IfOk result (λ s. (s.turn ≡ shared.entry.now) × (s.inside ≡ false) × (s.parts ≡ other.parts) × (own_entries s ≡ second.up ∷ second.up ∷ second.down ∷ [])) }
        { work(rt, shared, other, second) },
    );
    turn.join(&mut seat, one?);
    turn.join(&mut seat, other?);
    Ok(turn.close(seat))
}

#[test]
fn two_threads_agree_on_one_history(rt: HostRuntime) -> Result<(), Fail> {
    let (first, second) = (plan_of(1), plan_of(2));
    let counter = share(&rt, rt.alloc(), first, second)?;
    assert_eq!(rt; counter.count, 2);
    assert_eq!(rt; counter.journal.len(), 6);
    for plan in [first, second] {
        let mut moves = Vec::new(rt.alloc());
        for step in &counter.journal {
            if step.by == plan.up.by {
                moves.push(*step)?;
            }
        }
        assert_eq!(rt; moves.as_slice(), [plan.up, plan.up, plan.down].as_slice());
    }
    Ok(())
}

#[test]
fn a_turn_that_adds_nothing_keeps_the_journal(rt: HostRuntime) -> Result<(), Fail> {
    let (turn, mut seat) = Turn::start(rt.alloc(), Counter::new(rt.alloc()))?;
    let held = turn.enter(&rt, &mut seat);
    assert_eq!(rt; held.value.count, 0);
    turn.leave(&mut seat, held, false);
    seat.facts();
    one_has_the_turn::<Counter>();
    assert_eq!(rt; turn.close(seat).journal.len(), 0);
    Ok(())
}

// Takes the turn again and again, and adds nothing.
fn pass_by<R: Wait>(
    rt: &R,
    turn: &Turn<Counter>,
    mut seat: Seat<Counter>,
    times: u32,
) -> Seat<Counter>
    requires turn { seat.turn ≡ turn.now }
    requires outside { seat.inside ≡ false }
    ensures { (result.turn ≡ turn.now) × (result.inside ≡ false) × (result.parts ≡ seat.parts) }
{
    for _ in 0..times {
        let held = turn.enter(rt, &mut seat);
        turn.leave(&mut seat, held, false);
    }
    seat
}

// Two threads that take the turn again and again.
fn pair<R: Threads + Wait + Sync>(
    rt: &R,
    turn: &Turn<Counter>,
    one: Seat<Counter>,
    other: Seat<Counter>,
) -> (Seat<Counter>, Seat<Counter>)
    requires turn { (one.turn ≡ turn.now) × (other.turn ≡ turn.now) }
    requires outside { (one.inside ≡ false) × (other.inside ≡ false) }
    ensures one { (result.0.turn ≡ turn.now) × (result.0.inside ≡ false) × (result.0.parts ≡ one.parts) }
    ensures other { (result.1.turn ≡ turn.now) × (result.1.inside ≡ false) × (result.1.parts ≡ other.parts) }
{
    thread::join(
        rt,
        move ||
            requires { (one.turn ≡ turn.now) × (one.inside ≡ false) }
            ensures { (result.turn ≡ turn.entry.now) × (result.inside ≡ false) × (result.parts ≡ one.parts) }
        { pass_by(rt, turn, one, 3000) },
        move ||
            requires { (other.turn ≡ turn.now) × (other.inside ≡ false) }
            ensures { (result.turn ≡ turn.entry.now) × (result.inside ≡ false) × (result.parts ≡ other.parts) }
        { pass_by(rt, turn, other, 3000) },
    )
}

// Three of them: a wake of one is not enough.
fn crowd<R: Threads + Wait + Sync>(rt: &R, alloc: Global) -> Result<Counter, AllocError> {
    let (turn, mut seat) = Turn::start(alloc, Counter::new(alloc))?;
    let one = turn.split(&mut seat);
    let two = turn.split(&mut seat);
    let three = turn.split(&mut seat);
    let shared = &turn;
    let (one, (two, three)) = thread::join(
        rt,
        move ||
            requires { (one.turn ≡ shared.now) × (one.inside ≡ false) }
            ensures { (result.turn ≡ shared.entry.now) × (result.inside ≡ false) × (result.parts ≡ one.parts) }
        { pass_by(rt, shared, one, 3000) },
        move ||
            requires { IsSync R.row × (two.turn ≡ shared.now) × (three.turn ≡ shared.now) × (two.inside ≡ false) × (three.inside ≡ false) }
            ensures two { (result.0.turn ≡ shared.entry.now) × (result.0.inside ≡ false) × (result.0.parts ≡ two.parts) }
            ensures three { (result.1.turn ≡ shared.entry.now) × (result.1.inside ≡ false) × (result.1.parts ≡ three.parts) }
        { pair(rt, shared, two, three) },
    );
    turn.join(&mut seat, one);
    turn.join(&mut seat, two);
    turn.join(&mut seat, three);
    Ok(turn.close(seat))
}

#[test]
fn seats_that_wait_are_woken(rt: HostRuntime) -> Result<(), Fail> {
    assert_eq!(rt; crowd(&rt, rt.alloc())?.journal.len(), 0);
    Ok(())
}
