// How one guest is run.
ghost use Rattle.std.specs.Prelude.{◌≡◌, ℕ, List, false, IfOk, OnErr};
ghost use Rattle.registry.specs.Opening.{Opening};
ghost use Rattle.registry.specs.Registry.{Told};
ghost use Rattle.registry.specs.History.{state_of};
ghost use Rattle.registry.specs.Laws.{AreLetGo};
ghost use Rattle.guest_rounds.specs.Calls.{CallsSome, Visits};

use registry::Registry;
use std::alloc::AllocError;

/// Guests, by their numbers, each of which can be run over a registry that it is lent.
pub trait Guests {
    /// What is told of a guest that ran.
    type Ran: Drop;

    /// What the guests are run by. It stays the same.
    type Plan;

    ghost plan: { Self → Self.Plan };

    // The guest of this number may run over a registry that was made from this.
    ghost may_run: { Self.Plan → Opening → ℕ → Type 0 };

    // What is told of the guest of this number is right for its own entries, in order, each with what it was handed.
    ghost tells: { Self.Plan → ℕ → List Told → Self.Ran → Type 0 };

    /// Runs a guest to its end: all entries that it makes are of its number, and it lets go what it attached. Where memory is
    /// wanting it has made some entries.
    fn run(&mut self, guest: u32, registry: &mut Registry) -> Result<Self::Ran, AllocError>
        requires may { may_run (plan self.old) registry.old.opening guest }
        requires let_go { AreLetGo registry.old.journal }
        requires unfinished { (state_of registry.old).finished ≡ false }
        ensures ok { IfOk result (λ ran. Visits guest registry.old registry.new (λ own. tells (plan self.old) guest own ran)) }
        ensures err { OnErr result (CallsSome guest registry.old registry.new) }
        ensures kept { plan self.new ≡ plan self.old };
}
