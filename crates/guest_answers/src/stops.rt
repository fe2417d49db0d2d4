// The stops of a guest are answered.
ghost use Rattle.std.specs.Prelude.{◌≡◌, [], true, Some, OnOk};
ghost use Rattle.guest_proc.specs.Kept.{StopsWell, process_of, scheme_of};
ghost use Rattle.guest_answers.specs.Plan.{Fits, caller_of, setting_of};
ghost use Rattle.guest_answers.specs.Desk.{IsBuiltBy, IsKept, desk_of};
ghost use Rattle.guest_answers.specs.Answer.{RepliesTo, is_call};
ghost use Rattle.guest_answers.specs.Entries.{Grows};

use crate::answer::replace;
use crate::come::map;
use crate::desk::Desk;
use crate::leave::unmap;
use crate::plan::Plan;
use block_book::Book;
use guest_proc::Stop;
use plain_machine::End;
use registrar::Registrar;
use std::alloc::AllocError;

/// Answers a stop at a call on modules.
pub fn answer_stop<B: Book, R: Registrar>(
    plan: &Plan,
    stop: Stop,
    desk: &mut Desk<B>,
    registrar: &mut R,
) -> Result<(), AllocError>
    requires fits { Fits plan.now (caller_of plan.now desk.old.number desk.old.recipe) (R.holder registrar.old).opening }
    requires built { IsBuiltBy (caller_of plan.now desk.old.number desk.old.recipe) (scheme_of desk.old.guest.at desk.old.guest.limits) (process_of desk.old.guest.at (B.ledger desk.old.guest.book)) }
    requires kept { IsKept plan.now (caller_of plan.now desk.old.number desk.old.recipe) [] (desk_of (process_of desk.old.guest.at (B.ledger desk.old.guest.book)) (R.holder registrar.old).own desk.old.ages desk.old.files.items desk.old.marks.items) }
    requires run { desk.old.guest.entered ≡ true }
    requires asks { StopsWell (Some stop) desk.old.guest.at.io }
    requires call { is_call stop ≡ true }
    ensures replies { OnOk result (RepliesTo (setting_of plan.now) (scheme_of desk.old.guest.at desk.old.guest.limits) (caller_of plan.now desk.old.number desk.old.recipe) (desk_of (process_of desk.old.guest.at (B.ledger desk.old.guest.book)) (R.holder registrar.old).own desk.old.ages desk.old.files.items desk.old.marks.items) (desk_of (process_of desk.new.guest.at (B.ledger desk.new.guest.book)) (R.holder registrar.new).own desk.new.ages desk.new.files.items desk.new.marks.items) stop) }
    ensures kept { OnOk result (IsKept plan.now (caller_of plan.now desk.old.number desk.old.recipe) [] (desk_of (process_of desk.new.guest.at (B.ledger desk.new.guest.book)) (R.holder registrar.new).own desk.new.ages desk.new.files.items desk.new.marks.items)) }
    ensures caller { caller_of plan.now desk.new.number desk.new.recipe ≡ caller_of plan.now desk.old.number desk.old.recipe }
    ensures opening { (R.holder registrar.new).opening ≡ (R.holder registrar.old).opening }
    ensures grows { Grows desk.old.number (R.holder registrar.old) (R.holder registrar.new) }
    ensures scheme { scheme_of desk.new.guest.at desk.new.guest.limits ≡ scheme_of desk.old.guest.at desk.old.guest.limits }
    ensures entered { OnOk result (desk.new.guest.entered ≡ true) }
{
    match stop {
        Stop::Ended(end) => {
            let _: End = end;
            unreachable!()
        }
        Stop::PoolFull => unreachable!(),
        Stop::Map(number) => map(plan, number, desk, registrar),
        Stop::Unmap(number) => unmap(plan, number, desk, registrar),
        Stop::Replace(number, file) => replace(plan, number, file, desk, registrar),
    }
}
