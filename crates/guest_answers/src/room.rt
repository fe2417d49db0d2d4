// Room is made where the pool is full.
ghost use Rattle.std.specs.Prelude.{◌≡◌, [], true, OnOk, IsErr};
ghost use Rattle.guest_proc.specs.Kept.{process_of, scheme_of};
ghost use Rattle.map_laws.specs.Room.{room_made, roomy};
ghost use Rattle.guest_answers.specs.Plan.{Fits, caller_of};
ghost use Rattle.guest_answers.specs.Desk.{IsBuiltBy, IsKept, desk_of};
ghost use Rattle.guest_answers.specs.Makes.{MakesQuietly};
ghost use Rattle.guest_answers.specs.Room.{AreAttached, OffersAll};
ghost use Rattle.guest_answers.specs.Entries.{Grows};

use crate::desk::Desk;
use crate::offer::offer_one;
use crate::plan::Plan;
use block_book::Book;
use registrar::Registrar;
use std::alloc::AllocError;

/// Offers the candidates of each attached segment to its unit, in rising order, and empties the private blocks.
pub fn make_room<B: Book, R: Registrar>(
    plan: &Plan,
    desk: &mut Desk<B>,
    registrar: &mut R,
) -> Result<(), AllocError>
    requires fits { Fits plan.now (caller_of plan.now desk.old.number desk.old.recipe) (R.holder registrar.old).opening }
    requires built { IsBuiltBy (caller_of plan.now desk.old.number desk.old.recipe) (scheme_of desk.old.guest.at desk.old.guest.limits) (process_of desk.old.guest.at (B.ledger desk.old.guest.book)) }
    requires kept { IsKept plan.now (caller_of plan.now desk.old.number desk.old.recipe) [] (desk_of (process_of desk.old.guest.at (B.ledger desk.old.guest.book)) (R.holder registrar.old).own desk.old.ages desk.old.files.items desk.old.marks.items) }
    ensures makes { OnOk result (MakesQuietly (caller_of plan.now desk.old.number desk.old.recipe) (room_made (process_of desk.old.guest.at (B.ledger desk.old.guest.book))) (desk_of (process_of desk.old.guest.at (B.ledger desk.old.guest.book)) (R.holder registrar.old).own desk.old.ages desk.old.files.items desk.old.marks.items) (desk_of (process_of desk.new.guest.at (B.ledger desk.new.guest.book)) (R.holder registrar.new).own desk.new.ages desk.new.files.items desk.new.marks.items)) }
    ensures room { OnOk result (process_of desk.new.guest.at (B.ledger desk.new.guest.book) ≡ roomy (process_of desk.old.guest.at (B.ledger desk.old.guest.book))) }
    ensures kept { OnOk result (IsKept plan.now (caller_of plan.now desk.old.number desk.old.recipe) [] (desk_of (process_of desk.new.guest.at (B.ledger desk.new.guest.book)) (R.holder registrar.new).own desk.new.ages desk.new.files.items desk.new.marks.items)) }
    ensures caller { caller_of plan.now desk.new.number desk.new.recipe ≡ caller_of plan.now desk.old.number desk.old.recipe }
    ensures opening { (R.holder registrar.new).opening ≡ (R.holder registrar.old).opening }
    ensures grows { Grows desk.old.number (R.holder registrar.old) (R.holder registrar.new) }
    ensures scheme { scheme_of desk.new.guest.at desk.new.guest.limits ≡ scheme_of desk.old.guest.at desk.old.guest.limits }
    ensures entered { desk.new.guest.entered ≡ desk.old.guest.entered }
    ensures after { desk.old.guest.spent ≡ true → IsErr result }
{
    let numbers = desk.guest.segments()?;
    offer_all(plan, &numbers, desk, registrar)?;
    desk.guest.flush();
    Ok(())
}

// Offers the candidates of these segments to their units.
fn offer_all<B: Book, R: Registrar>(
    plan: &Plan,
    numbers: &[u32],
    desk: &mut Desk<B>,
    registrar: &mut R,
) -> Result<(), AllocError>
    requires fits { Fits plan.now (caller_of plan.now desk.old.number desk.old.recipe) (R.holder registrar.old).opening }
    requires built { IsBuiltBy (caller_of plan.now desk.old.number desk.old.recipe) (scheme_of desk.old.guest.at desk.old.guest.limits) (process_of desk.old.guest.at (B.ledger desk.old.guest.book)) }
    requires kept { IsKept plan.now (caller_of plan.now desk.old.number desk.old.recipe) [] (desk_of (process_of desk.old.guest.at (B.ledger desk.old.guest.book)) (R.holder registrar.old).own desk.old.ages desk.old.files.items desk.old.marks.items) }
    requires attached { AreAttached numbers.now (B.ledger desk.old.guest.book) }
    ensures offers { OnOk result (OffersAll (caller_of plan.now desk.old.number desk.old.recipe) numbers.now (desk_of (process_of desk.old.guest.at (B.ledger desk.old.guest.book)) (R.holder registrar.old).own desk.old.ages desk.old.files.items desk.old.marks.items) (desk_of (process_of desk.new.guest.at (B.ledger desk.new.guest.book)) (R.holder registrar.new).own desk.new.ages desk.new.files.items desk.new.marks.items)) }
    ensures kept { OnOk result (IsKept plan.now (caller_of plan.now desk.old.number desk.old.recipe) [] (desk_of (process_of desk.new.guest.at (B.ledger desk.new.guest.book)) (R.holder registrar.new).own desk.new.ages desk.new.files.items desk.new.marks.items)) }
    ensures caller { caller_of plan.now desk.new.number desk.new.recipe ≡ caller_of plan.now desk.old.number desk.old.recipe }
    ensures opening { (R.holder registrar.new).opening ≡ (R.holder registrar.old).opening }
    ensures grows { Grows desk.old.number (R.holder registrar.old) (R.holder registrar.new) }
    ensures scheme { scheme_of desk.new.guest.at desk.new.guest.limits ≡ scheme_of desk.old.guest.at desk.old.guest.limits }
    ensures entered { desk.new.guest.entered ≡ desk.old.guest.entered }
{
    for number in numbers {
        offer_one(plan, *number, desk, registrar)?;
    }
    Ok(())
}
