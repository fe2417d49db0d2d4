// A guest runs and is answered, until it is at its end.
ghost use Rattle.std.specs.Prelude.{◌≡◌, ◌<◌, [], true, false, length, Some, IfOk, OnOk};
ghost use Rattle.std.specs.FinMap as fin;
ghost use Rattle.guest_proc.specs.Kept.{StopsWell, process_of, scheme_of};
ghost use Rattle.module_laws.specs.Hosted.{IsBare};
ghost use Rattle.guest_answers.specs.Entries.{AreEven, Grows};
ghost use Rattle.guest_answers.specs.Plan.{Fits, caller_of, setting_of};
ghost use Rattle.guest_answers.specs.Desk.{IsBuiltBy, IsKept, desk_of};
ghost use Rattle.guest_loop.specs.Run.{RunsFar, RunsOut, RunsWhole, end_in, is_full};

use block_book::Book;
use cc_base::Steps;
use guest_answers::{Desk, Plan, answer_stop, begin, close, make_room};
use guest_proc::Stop;
use plain_machine::End;
use registrar::Registrar;
use std::alloc::AllocError;
use std::sync::ledger::Ledger;

/// Runs a guest from its start to its end; then it lets all its units go. A program that can't be entered is unplaced.
pub fn run_whole<B: Book, L: Ledger, R: Registrar>(
    plan: &Plan,
    module: u32,
    desk: &mut Desk<B>,
    steps: &mut Steps<L>,
    registrar: &mut R,
) -> Result<End, AllocError>
    requires fits { Fits plan.now (caller_of plan.now desk.old.number desk.old.recipe) (R.holder registrar.old).opening }
    requires built { IsBuiltBy (caller_of plan.now desk.old.number desk.old.recipe) (scheme_of desk.old.guest.at desk.old.guest.limits) (process_of desk.old.guest.at (B.ledger desk.old.guest.book)) }
    requires known { «module» < length plan.now.modules }
    requires bare { IsBare (process_of desk.old.guest.at (B.ledger desk.old.guest.book)) }
    requires even { AreEven (R.holder registrar.old).own }
    requires none { desk.old.ages ≡ fin.empty }
    requires first { desk.old.guest.entered ≡ false }
    ensures whole { IfOk result (RunsWhole (setting_of plan.now) (scheme_of desk.old.guest.at desk.old.guest.limits) (caller_of plan.now desk.old.number desk.old.recipe) «module» (desk_of (process_of desk.old.guest.at (B.ledger desk.old.guest.book)) (R.holder registrar.old).own desk.old.ages desk.old.files.items desk.old.marks.items) (desk_of (process_of desk.new.guest.at (B.ledger desk.new.guest.book)) (R.holder registrar.new).own desk.new.ages desk.new.files.items desk.new.marks.items)) }
    ensures even { OnOk result (AreEven (R.holder registrar.new).own) }
    ensures caller { caller_of plan.now desk.new.number desk.new.recipe ≡ caller_of plan.now desk.old.number desk.old.recipe }
    ensures opening { (R.holder registrar.new).opening ≡ (R.holder registrar.old).opening }
    ensures scheme { scheme_of desk.new.guest.at desk.new.guest.limits ≡ scheme_of desk.old.guest.at desk.old.guest.limits }
    ensures grows { Grows desk.old.number (R.holder registrar.old) (R.holder registrar.new) }
{
    if !begin(plan, module, desk, registrar)? {
        return Ok(End::Unplaced);
    }
    let end = run_out(plan, desk, steps, registrar)?;
    close(plan, desk, registrar)?;
    Ok(end)
}

// Runs it to its end.
fn run_out<B: Book, L: Ledger, R: Registrar>(
    plan: &Plan,
    desk: &mut Desk<B>,
    steps: &mut Steps<L>,
    registrar: &mut R,
) -> Result<End, AllocError>
    requires fits { Fits plan.now (caller_of plan.now desk.old.number desk.old.recipe) (R.holder registrar.old).opening }
    requires built { IsBuiltBy (caller_of plan.now desk.old.number desk.old.recipe) (scheme_of desk.old.guest.at desk.old.guest.limits) (process_of desk.old.guest.at (B.ledger desk.old.guest.book)) }
    requires kept { IsKept plan.now (caller_of plan.now desk.old.number desk.old.recipe) [] (desk_of (process_of desk.old.guest.at (B.ledger desk.old.guest.book)) (R.holder registrar.old).own desk.old.ages desk.old.files.items desk.old.marks.items) }
    requires run { desk.old.guest.entered ≡ true }
    ensures out { IfOk result (RunsOut (setting_of plan.now) (scheme_of desk.old.guest.at desk.old.guest.limits) (caller_of plan.now desk.old.number desk.old.recipe) (desk_of (process_of desk.old.guest.at (B.ledger desk.old.guest.book)) (R.holder registrar.old).own desk.old.ages desk.old.files.items desk.old.marks.items) (desk_of (process_of desk.new.guest.at (B.ledger desk.new.guest.book)) (R.holder registrar.new).own desk.new.ages desk.new.files.items desk.new.marks.items)) }
    ensures kept { OnOk result (IsKept plan.now (caller_of plan.now desk.old.number desk.old.recipe) [] (desk_of (process_of desk.new.guest.at (B.ledger desk.new.guest.book)) (R.holder registrar.new).own desk.new.ages desk.new.files.items desk.new.marks.items)) }
    ensures built { OnOk result (IsBuiltBy (caller_of plan.now desk.old.number desk.old.recipe) (scheme_of desk.old.guest.at desk.old.guest.limits) (process_of desk.new.guest.at (B.ledger desk.new.guest.book))) }
    ensures caller { caller_of plan.now desk.new.number desk.new.recipe ≡ caller_of plan.now desk.old.number desk.old.recipe }
    ensures opening { (R.holder registrar.new).opening ≡ (R.holder registrar.old).opening }
    ensures scheme { scheme_of desk.new.guest.at desk.new.guest.limits ≡ scheme_of desk.old.guest.at desk.old.guest.limits }
    ensures grows { Grows desk.old.number (R.holder registrar.old) (R.holder registrar.new) }
{
    loop {
        let stop = run_on(plan, desk, steps, registrar)?;
        if let Some(end) = end_in(stop) {
            return Ok(end);
        }
        answer_stop(plan, stop, desk, registrar)?;
    }
}

// Runs on until a stop, and makes room wherever the pool is full.
fn run_on<B: Book, L: Ledger, R: Registrar>(
    plan: &Plan,
    desk: &mut Desk<B>,
    steps: &mut Steps<L>,
    registrar: &mut R,
) -> Result<Stop, AllocError>
    requires fits { Fits plan.now (caller_of plan.now desk.old.number desk.old.recipe) (R.holder registrar.old).opening }
    requires built { IsBuiltBy (caller_of plan.now desk.old.number desk.old.recipe) (scheme_of desk.old.guest.at desk.old.guest.limits) (process_of desk.old.guest.at (B.ledger desk.old.guest.book)) }
    requires kept { IsKept plan.now (caller_of plan.now desk.old.number desk.old.recipe) [] (desk_of (process_of desk.old.guest.at (B.ledger desk.old.guest.book)) (R.holder registrar.old).own desk.old.ages desk.old.files.items desk.old.marks.items) }
    ensures far { IfOk result (RunsFar (scheme_of desk.old.guest.at desk.old.guest.limits) (caller_of plan.now desk.old.number desk.old.recipe) (desk_of (process_of desk.old.guest.at (B.ledger desk.old.guest.book)) (R.holder registrar.old).own desk.old.ages desk.old.files.items desk.old.marks.items) (desk_of (process_of desk.new.guest.at (B.ledger desk.new.guest.book)) (R.holder registrar.new).own desk.new.ages desk.new.files.items desk.new.marks.items)) }
    ensures full { IfOk result (λ stop. is_full stop ≡ false) }
    ensures asks { IfOk result (λ stop. StopsWell (Some stop) desk.new.guest.at.io) }
    ensures kept { OnOk result (IsKept plan.now (caller_of plan.now desk.old.number desk.old.recipe) [] (desk_of (process_of desk.new.guest.at (B.ledger desk.new.guest.book)) (R.holder registrar.new).own desk.new.ages desk.new.files.items desk.new.marks.items)) }
    ensures built { OnOk result (IsBuiltBy (caller_of plan.now desk.old.number desk.old.recipe) (scheme_of desk.old.guest.at desk.old.guest.limits) (process_of desk.new.guest.at (B.ledger desk.new.guest.book))) }
    ensures caller { caller_of plan.now desk.new.number desk.new.recipe ≡ caller_of plan.now desk.old.number desk.old.recipe }
    ensures opening { (R.holder registrar.new).opening ≡ (R.holder registrar.old).opening }
    ensures scheme { scheme_of desk.new.guest.at desk.new.guest.limits ≡ scheme_of desk.old.guest.at desk.old.guest.limits }
    ensures entered { desk.new.guest.entered ≡ desk.old.guest.entered }
    ensures grows { Grows desk.old.number (R.holder registrar.old) (R.holder registrar.new) }
{
    loop {
        let stop = desk.guest.run(steps)?;
        if !is_full(stop) {
            return Ok(stop);
        }
        desk.guest.kept();
        make_room(plan, desk, registrar)?;
    }
}

// Whether the pool is full.
fn is_full(stop: Stop) -> bool
    ensures { result ≡ is_full stop }
{
    match stop {
        Stop::PoolFull => true,
        Stop::Ended(_) => false,
        Stop::Map(_) => false,
        Stop::Unmap(_) => false,
        Stop::Replace(_, _) => false,
    }
}

// The end, where the guest is there.
fn end_in(stop: Stop) -> Option<End>
    ensures { result ≡ end_in stop }
{
    match stop {
        Stop::Ended(end) => Some(end),
        Stop::PoolFull => None,
        Stop::Map(_) => None,
        Stop::Unmap(_) => None,
        Stop::Replace(_, _) => None,
    }
}
