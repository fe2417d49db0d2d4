// The answers to a guest's calls on modules.
ghost use Rattle.std.specs.Prelude.{◌≡◌, ◌<◌, ◌-◌, ◌^◌, [], OnOk};
ghost use Rattle.plain_machine.specs.Machine.{Replaces};
ghost use Rattle.plain_machine.specs.declared.io.Asked.TheVariants as asked;
ghost use Rattle.guest_proc.specs.Kept.{process_of, scheme_of};
ghost use Rattle.guest_answers.specs.Plan.{Fits, caller_of, setting_of};
ghost use Rattle.guest_answers.specs.Desk.{KeepsBut, desk_of};
ghost use Rattle.guest_answers.specs.Answer.{Answers, result_of};
ghost use Rattle.guest_answers.specs.Entries.{Grows};

use crate::desk::{Desk, mark};
use crate::plan::Plan;
use block_book::Book;
use registrar::Registrar;
use registry::Replaced;
use std::alloc::AllocError;

/// Answers a call that makes a module be another file from the next time that it is mapped.
pub fn replace<B: Book, R: Registrar>(
    plan: &Plan,
    number: u32,
    file: u32,
    desk: &mut Desk<B>,
    registrar: &mut R,
) -> Result<(), AllocError>
    requires { Fits plan.now (caller_of plan.now desk.old.number desk.old.recipe) (R.holder registrar.old).opening }
    ensures answers { OnOk result (Answers (setting_of plan.now) (scheme_of desk.old.guest.at desk.old.guest.limits) (caller_of plan.now desk.old.number desk.old.recipe) (desk_of (process_of desk.old.guest.at (B.ledger desk.old.guest.book)) (R.holder registrar.old).own desk.old.ages desk.old.files.items desk.old.marks.items) (desk_of (process_of desk.new.guest.at (B.ledger desk.new.guest.book)) (R.holder registrar.new).own desk.new.ages desk.new.files.items desk.new.marks.items) (asked.Replace number file) (Replaces number file (process_of desk.old.guest.at (B.ledger desk.old.guest.book)).state)) }
    ensures kept { OnOk result (KeepsBut plan.now (caller_of plan.now desk.old.number desk.old.recipe) [] (desk_of (process_of desk.old.guest.at (B.ledger desk.old.guest.book)) (R.holder registrar.old).own desk.old.ages desk.old.files.items desk.old.marks.items) (desk_of (process_of desk.new.guest.at (B.ledger desk.new.guest.book)) (R.holder registrar.new).own desk.new.ages desk.new.files.items desk.new.marks.items)) }
    ensures caller { caller_of plan.now desk.new.number desk.new.recipe ≡ caller_of plan.now desk.old.number desk.old.recipe }
    ensures opening { (R.holder registrar.new).opening ≡ (R.holder registrar.old).opening }
    ensures grows { Grows desk.old.number (R.holder registrar.old) (R.holder registrar.new) }
    ensures scheme { scheme_of desk.new.guest.at desk.new.guest.limits ≡ scheme_of desk.old.guest.at desk.old.guest.limits }
    ensures entered { desk.new.guest.entered ≡ desk.old.guest.entered }
{
    let _ = plan.modules.len();
    mark(&desk.guest, &mut desk.marks)?;
    let reply = registrar.replace(desk.number, number, file)?;
    desk.guest.answer(result_of(reply));
    Ok(())
}

// The result that the guest gets.
fn result_of(reply: Replaced) -> u32
    ensures { result ≡ result_of reply }
{
    match reply {
        Replaced::Yes => 0,
        Replaced::NoSuchModule => minus(22),
        Replaced::NoSuchFile => minus(22),
    }
}

// A negative result.
pub(crate) fn minus(n: u32) -> u32
    requires { 0 < n }
    ensures { result ≡ 2 ^ 32 - n }
{
    u32::MAX - n + 1
}
