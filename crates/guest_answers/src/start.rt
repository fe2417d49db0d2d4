// The start of a guest.
ghost use Rattle.std.specs.Prelude.{◌≡◌, ◌<◌, [], true, false, length, IfOk};
ghost use Rattle.std.specs.FinMap as fin;
ghost use Rattle.guest_proc.specs.Kept.{process_of, scheme_of};
ghost use Rattle.module_laws.specs.Hosted.{IsBare};
ghost use Rattle.guest_answers.specs.Plan.{Fits, caller_of};
ghost use Rattle.guest_answers.specs.Desk.{IsBuiltBy, IsKept, desk_of};
ghost use Rattle.guest_answers.specs.Entries.{AreEven, Grows};
ghost use Rattle.guest_answers.specs.Begin.{Starts};

use crate::attach::attach_all;
use crate::desk::{Desk, mark};
use crate::plan::{Plan, base_of, elf_of};
use block_book::Book;
use registrar::Registrar;
use std::alloc::AllocError;

/// Places and enters the program of a guest, which is this module, from the file that the registrar tells, and attaches its
/// units; false where it cannot be entered.
pub fn begin<B: Book, R: Registrar>(
    plan: &Plan,
    number: u32,
    desk: &mut Desk<B>,
    registrar: &mut R,
) -> Result<bool, AllocError>
    requires fits { Fits plan.now (caller_of plan.now desk.old.number desk.old.recipe) (R.holder registrar.old).opening }
    requires built { IsBuiltBy (caller_of plan.now desk.old.number desk.old.recipe) (scheme_of desk.old.guest.at desk.old.guest.limits) (process_of desk.old.guest.at (B.ledger desk.old.guest.book)) }
    requires known { number < length plan.now.modules }
    requires bare { IsBare (process_of desk.old.guest.at (B.ledger desk.old.guest.book)) }
    requires even { AreEven (R.holder registrar.old).own }
    requires none { desk.old.ages ≡ fin.empty }
    requires first { desk.old.guest.entered ≡ false }
    ensures starts { IfOk result (Starts plan.now (scheme_of desk.old.guest.at desk.old.guest.limits) (caller_of plan.now desk.old.number desk.old.recipe) number (desk_of (process_of desk.old.guest.at (B.ledger desk.old.guest.book)) (R.holder registrar.old).own desk.old.ages desk.old.files.items desk.old.marks.items) (desk_of (process_of desk.new.guest.at (B.ledger desk.new.guest.book)) (R.holder registrar.new).own desk.new.ages desk.new.files.items desk.new.marks.items)) }
    ensures kept { IfOk result (λ begun. begun ≡ true → IsKept plan.now (caller_of plan.now desk.old.number desk.old.recipe) [] (desk_of (process_of desk.new.guest.at (B.ledger desk.new.guest.book)) (R.holder registrar.new).own desk.new.ages desk.new.files.items desk.new.marks.items)) }
    ensures entered { IfOk result (λ begun. begun ≡ true → desk.new.guest.entered ≡ true) }
    ensures even { IfOk result (λ begun. begun ≡ false → AreEven (R.holder registrar.new).own) }
    ensures caller { caller_of plan.now desk.new.number desk.new.recipe ≡ caller_of plan.now desk.old.number desk.old.recipe }
    ensures opening { (R.holder registrar.new).opening ≡ (R.holder registrar.old).opening }
    ensures grows { Grows desk.old.number (R.holder registrar.old) (R.holder registrar.new) }
    ensures scheme { scheme_of desk.new.guest.at desk.new.guest.limits ≡ scheme_of desk.old.guest.at desk.old.guest.limits }
{
    mark(&desk.guest, &mut desk.marks)?;
    let Some(file) = registrar.map(desk.number, number)? else {
        unreachable!()
    };
    desk.files.push(file)?;
    let (elf, base) = (elf_of(plan, file), base_of(plan, number));
    if !desk.guest.place(number, file, elf, base)? {
        return Ok(false);
    }
    desk.guest.kept();
    attach_all(plan, number, file, elf, base, desk, registrar)?;
    Ok(true)
}
