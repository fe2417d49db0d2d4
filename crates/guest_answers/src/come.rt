// A module comes.
ghost use Rattle.std.specs.Prelude.{◌≡◌, ◌<◌, [], true, false, length, OnOk};
ghost use Rattle.plain_machine.specs.Calls.{is_mapped};
ghost use Rattle.plain_machine.specs.Machine.{Maps};
ghost use Rattle.plain_machine.specs.declared.io.Asked.TheVariants as asked;
ghost use Rattle.guest_proc.specs.Kept.{process_of, scheme_of};
ghost use Rattle.guest_answers.specs.Plan.{Fits, caller_of, setting_of};
ghost use Rattle.guest_answers.specs.Desk.{IsBuiltBy, IsKept, desk_of};
ghost use Rattle.guest_answers.specs.Answer.{Answers};
ghost use Rattle.guest_answers.specs.Entries.{Grows};

use crate::answer::minus;
use crate::attach::attach_all;
use crate::desk::{Desk, mark};
use crate::plan::{Plan, base_of, elf_of};
use block_book::Book;
use registrar::Registrar;
use std::alloc::AllocError;

/// Answers a call that maps a module: its file is placed and its units are attached, or it is refused; and so is a number
/// that is no module's.
pub fn map<B: Book, R: Registrar>(
    plan: &Plan,
    number: u32,
    desk: &mut Desk<B>,
    registrar: &mut R,
) -> Result<(), AllocError>
    requires fits { Fits plan.now (caller_of plan.now desk.old.number desk.old.recipe) (R.holder registrar.old).opening }
    requires built { IsBuiltBy (caller_of plan.now desk.old.number desk.old.recipe) (scheme_of desk.old.guest.at desk.old.guest.limits) (process_of desk.old.guest.at (B.ledger desk.old.guest.book)) }
    requires kept { IsKept plan.now (caller_of plan.now desk.old.number desk.old.recipe) [] (desk_of (process_of desk.old.guest.at (B.ledger desk.old.guest.book)) (R.holder registrar.old).own desk.old.ages desk.old.files.items desk.old.marks.items) }
    requires run { desk.old.guest.entered ≡ true }
    requires asks { is_mapped desk.old.guest.at.io number ≡ false }
    ensures answers { OnOk result (Answers (setting_of plan.now) (scheme_of desk.old.guest.at desk.old.guest.limits) (caller_of plan.now desk.old.number desk.old.recipe) (desk_of (process_of desk.old.guest.at (B.ledger desk.old.guest.book)) (R.holder registrar.old).own desk.old.ages desk.old.files.items desk.old.marks.items) (desk_of (process_of desk.new.guest.at (B.ledger desk.new.guest.book)) (R.holder registrar.new).own desk.new.ages desk.new.files.items desk.new.marks.items) (asked.Map number) (Maps number (process_of desk.old.guest.at (B.ledger desk.old.guest.book)).state)) }
    ensures kept { OnOk result (IsKept plan.now (caller_of plan.now desk.old.number desk.old.recipe) [] (desk_of (process_of desk.new.guest.at (B.ledger desk.new.guest.book)) (R.holder registrar.new).own desk.new.ages desk.new.files.items desk.new.marks.items)) }
    ensures caller { caller_of plan.now desk.new.number desk.new.recipe ≡ caller_of plan.now desk.old.number desk.old.recipe }
    ensures opening { (R.holder registrar.new).opening ≡ (R.holder registrar.old).opening }
    ensures grows { Grows desk.old.number (R.holder registrar.old) (R.holder registrar.new) }
    ensures scheme { scheme_of desk.new.guest.at desk.new.guest.limits ≡ scheme_of desk.old.guest.at desk.old.guest.limits }
    ensures entered { OnOk result (desk.new.guest.entered ≡ true) }
{
    mark(&desk.guest, &mut desk.marks)?;
    let Some(file) = registrar.map(desk.number, number)? else {
        desk.guest.answer(minus(22));
        return Ok(());
    };
    desk.files.push(file)?;
    let (elf, base) = (elf_of(plan, file), base_of(plan, number));
    if !desk.guest.place(number, file, elf, base)? {
        desk.guest.answer(minus(12));
        return Ok(());
    }
    desk.guest.kept();
    attach_all(plan, number, file, elf, base, desk, registrar)?;
    desk.guest.answer(0);
    Ok(())
}
