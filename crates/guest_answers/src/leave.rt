// A module goes.
ghost use Rattle.std.specs.Prelude.{◌≡◌, ◌<◌, [], true, length, slice_get, Some, OnOk, IfOk};
ghost use Rattle.plain_machine.specs.Calls.{is_mapped};
ghost use Rattle.plain_machine.specs.Machine.{Unmaps, base_at};
ghost use Rattle.plain_machine.specs.declared.io.Asked.TheVariants as asked;
ghost use Rattle.block_ledger.specs.Requests.{segments_of};
ghost use Rattle.guest_proc.specs.Kept.{process_of, scheme_of};
ghost use Rattle.guest_answers.specs.Plan.{Fits, caller_of, setting_of};
ghost use Rattle.guest_answers.specs.Desk.{IsBuiltBy, IsKept, desk_of};
ghost use Rattle.guest_answers.specs.Answer.{Answers};
ghost use Rattle.guest_answers.specs.Entries.{Grows};

use crate::desk::Desk;
use crate::part::part_all;
use crate::plan::{Plan, base_of, elf_of};
use block_book::Book;
use guest_proc::Proc;
use registrar::Registrar;
use std::alloc::AllocError;

/// Answers a call that unmaps a module: its units are let go one after the other, each offered its candidates before, and
/// then the module goes.
pub fn unmap<B: Book, R: Registrar>(
    plan: &Plan,
    number: u32,
    desk: &mut Desk<B>,
    registrar: &mut R,
) -> Result<(), AllocError>
    requires fits { Fits plan.now (caller_of plan.now desk.old.number desk.old.recipe) (R.holder registrar.old).opening }
    requires built { IsBuiltBy (caller_of plan.now desk.old.number desk.old.recipe) (scheme_of desk.old.guest.at desk.old.guest.limits) (process_of desk.old.guest.at (B.ledger desk.old.guest.book)) }
    requires kept { IsKept plan.now (caller_of plan.now desk.old.number desk.old.recipe) [] (desk_of (process_of desk.old.guest.at (B.ledger desk.old.guest.book)) (R.holder registrar.old).own desk.old.ages desk.old.files.items desk.old.marks.items) }
    requires asks { is_mapped desk.old.guest.at.io number ≡ true }
    ensures answers { OnOk result (Answers (setting_of plan.now) (scheme_of desk.old.guest.at desk.old.guest.limits) (caller_of plan.now desk.old.number desk.old.recipe) (desk_of (process_of desk.old.guest.at (B.ledger desk.old.guest.book)) (R.holder registrar.old).own desk.old.ages desk.old.files.items desk.old.marks.items) (desk_of (process_of desk.new.guest.at (B.ledger desk.new.guest.book)) (R.holder registrar.new).own desk.new.ages desk.new.files.items desk.new.marks.items) (asked.Unmap number) (Unmaps number (process_of desk.old.guest.at (B.ledger desk.old.guest.book)).state)) }
    ensures kept { OnOk result (IsKept plan.now (caller_of plan.now desk.old.number desk.old.recipe) [] (desk_of (process_of desk.new.guest.at (B.ledger desk.new.guest.book)) (R.holder registrar.new).own desk.new.ages desk.new.files.items desk.new.marks.items)) }
    ensures caller { caller_of plan.now desk.new.number desk.new.recipe ≡ caller_of plan.now desk.old.number desk.old.recipe }
    ensures opening { (R.holder registrar.new).opening ≡ (R.holder registrar.old).opening }
    ensures grows { Grows desk.old.number (R.holder registrar.old) (R.holder registrar.new) }
    ensures scheme { scheme_of desk.new.guest.at desk.new.guest.limits ≡ scheme_of desk.old.guest.at desk.old.guest.limits }
    ensures entered { desk.new.guest.entered ≡ desk.old.guest.entered }
{
    let Some(file) = desk.guest.at.io.file_of(number) else {
        unreachable!()
    };
    let numbers = segments_of(&desk.guest, number)?;
    part_all(plan, &numbers, desk, registrar)?;
    let base = base_of(plan, number);
    desk.guest.unplace(number, elf_of(plan, file), base);
    desk.guest.answer(0);
    Ok(())
}

// The numbers of the attached segments of a module, in rising order.
fn segments_of<B: Book>(guest: &Proc<B>, module: u32) -> Result<Vec<u32>, AllocError>
    ensures { IfOk result (λ numbers. numbers.items ≡ segments_of «module» (B.ledger guest.now.book)) }
{
    let mut numbers = guest.segments()?;
    numbers.retain(|number| *number / 4 == module);
    Ok(numbers)
}
