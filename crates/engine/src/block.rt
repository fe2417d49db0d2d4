// Runs a block.
ghost use Rattle.std.specs.Prelude.{◌≡◌, ◌%◌, ◌<◌, ◌+◌, ◌-◌, ◌^◌, ℕ, length, IfOk, OnOk, OnErr};
ghost use Rattle.probe_tools.specs.Rows.{count_at};
ghost use Rattle.plain_machine.specs.Io.{Io};
ghost use Rattle.plain_machine.specs.Events.{events};
ghost use Rattle.engine.specs.Words.{last_exit, leaving, marks_before};
ghost use Rattle.engine.specs.Seeing.{WantsRow, with_events};
ghost use Rattle.engine.specs.Standing.{CodeAfter, SameRegions, StandsIn, state};
ghost use Rattle.engine.specs.Runs.{RunsBlock};

use crate::probing::{kind_at, probe_count, see};
use cc_base::Span;
use fragment::{Exit, Fragment};
use guest_mem::Mem;
use plain_machine::{Cpu, Done, Kind};
use report::Report;
use rv_exec::exec;
use std::alloc::AllocError;

/// How a block was left.
#[derive(Clone, Copy, Debug, PartialEq, Eq)]
pub enum Left {
    /// Its last word was done, or control was transferred: by the exit of this number. A branch is left by exit 0 where
    /// its comparison held, and else by exit 1; a JALR by exit 0.
    Exit(u8),
    /// It calls the system; the call is still to be done.
    Asked,
    /// A store met an executable region. It stands before `Exit` and `Fuel`.
    Touched(Span),
    /// An instruction could not be done.
    Fault(Kind),
    /// There was no fuel for a further word.
    Fuel,
}

/// Runs the words of a block that is fresh in the region at the program counter, and counts what its probes see. `fuel`
/// is the number of instructions that may be done, and sinks by one with each; a call of the system counts as done. An
/// error comes only where an event has no row; then the words before it were done.
pub fn run_block(
    f: &Fragment,
    cpu: &mut Cpu,
    mem: &mut Mem,
    report: &mut Report,
    fuel: &mut u64,
) -> Result<Left, AllocError>
    requires begins { cpu.old.pc ≡ f.now.address }
    requires fresh { StandsIn mem.old cpu.old.isa report.old.tool (length f.now.words) f.now }
    requires fuel { 0 < fuel.old }
    requires small { (key : ℕ) → count_at report.old.counts key + fuel.old < 2 ^ 64 }
    ensures runs { IfOk result (λ left. (max : ℕ) (io : Io) → 0 < max → StandsIn mem.old cpu.old.isa report.old.tool max f.now →
        RunsBlock max f.now (fuel.old - fuel.new) fuel.old (state cpu.old mem.old io) left fuel.new (state cpu.new mem.new io)) }
    ensures report { OnOk result ((io : Io) → report.new ≡ with_events (events report.old.tool (marks_before f.now.words (state cpu.old mem.old io) (fuel.old - fuel.new))) report.old) }
    ensures wants { OnErr result ((io : Io) → WantsRow f.now (fuel.old - fuel.new) (state cpu.old mem.old io) (state cpu.new mem.new io) report.old report.new) }
    ensures code { IfOk result (λ left. CodeAfter left mem.old mem.new) }
    ensures regions { SameRegions mem.old mem.new }
    ensures isa { cpu.new.isa ≡ cpu.old.isa }
    ensures aligned { cpu.new.pc % 4 ≡ 0 }
    ensures less { OnOk result (fuel.new < fuel.old) }
    ensures small { (key : ℕ) → count_at report.new.counts key + fuel.new < 2 ^ 64 }
{
    let words = f.words();
    let probes = f.probes();
    let mut rest = *fuel;
    let mut next = 0;
    'block: for (place, word) in words.iter().enumerate() {
        if rest == 0 {
            *fuel = rest;
            return Ok(Left::Fuel);
        }
        let kind = kind_at(probes, next, place);
        if let Err(e) = see(report, kind, cpu, *word) {
            *fuel = rest;
            return Err(e);
        }
        next += probe_count(kind);
        rest -= 1;
        let done = exec(cpu, mem, *word);
        if let Some(left) = leaving(done) {
            *fuel = rest;
            return Ok(left);
        }
    }
    *fuel = rest;
    Ok(Left::Exit(last_exit(f.exits())))
}

// The exit behind the last word.
fn last_exit(exits: &[Exit]) -> u8
    ensures { result ≡ last_exit exits.now }
{
    if exits.len() == 2 { 1 } else { 0 }
}

// How a word leaves its block, if it does.
#[inline(always)]
fn leaving(done: Done) -> Option<Left>
    ensures { result ≡ leaving done }
{
    match done {
        Done::Next => None,
        Done::Taken => Some(Left::Exit(0)),
        Done::Asked => Some(Left::Asked),
        Done::Touched(span) => Some(Left::Touched(span)),
        Done::Fault(kind) => Some(Left::Fault(kind)),
    }
}
