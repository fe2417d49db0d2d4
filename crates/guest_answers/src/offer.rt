// Blocks are offered to a segment's unit, and the unit is let go.
ghost use Rattle.std.specs.Prelude.{◌≡◌, ℕ, List, ◌<◌, ◌≤◌, ◌/◌, ◌%◌, ◌∷◌, [], true, length, is_some, OnOk, IsErr};
ghost use Rattle.std.specs.FinMap as fin;
ghost use Rattle.std.specs.List.{All, Contains};
ghost use Rattle.cc_base.specs.Image.{Code};
ghost use Rattle.fragment.specs.Build.{IsFresh};
ghost use Rattle.unit_set.specs.Held.{addresses};
ghost use Rattle.unit_set.specs.Sets.{IsRising};
ghost use Rattle.block_ledger.specs.Requests.{LetsGo, asked_at, offer_some};
ghost use Rattle.guest_script.specs.Script.{IsSlotOf};
ghost use Rattle.guest_proc.specs.Kept.{image_at, process_of, scheme_of};
ghost use Rattle.guest_answers.specs.Plan.{Fits, caller_of};
ghost use Rattle.guest_answers.specs.Desk.{Holds, HoldsAt, IsBuiltBy, KeepsBut, MayHandIn, desk_of};
ghost use Rattle.guest_answers.specs.Makes.{MakesQuietly, OffersOne, PartsOne};
ghost use Rattle.guest_answers.specs.Entries.{Grows};

use crate::desk::{Desk, mark};
use crate::plan::Plan;
use block_book::Book;
use fragment::Fragment;
use registrar::Registrar;
use registry::Merged;
use slot_list::{Recipe, slot_number};
use std::alloc::AllocError;

/// The number of the slot of a segment.
pub fn slot_of(plan: &Plan, number: u32, recipe: Recipe) -> u32
    requires few { length plan.now.modules ≤ 32 }
    requires row { number / 4 < length plan.now.modules }
    requires seg { number % 4 < plan.now.layout.segs }
    requires listed { Contains plan.now.layout.recipes recipe }
    ensures { (guest : ℕ) → IsSlotOf (caller_of plan.now guest recipe) number result }
{
    slot_number(&plan.layout, number / 4, (number % 4) as u8, recipe)
}

// Hands blocks in, if there are any, for the unit of a segment, which is held.
fn hand_in<B: Book, R: Registrar>(
    plan: &Plan,
    number: u32,
    blocks: &[Fragment],
    desk: &mut Desk<B>,
    registrar: &mut R,
) -> Result<(), AllocError>
    requires fits { Fits plan.now (caller_of plan.now desk.old.number desk.old.recipe) (R.holder registrar.old).opening }
    requires may { MayHandIn plan.now (caller_of plan.now desk.old.number desk.old.recipe) number blocks.now (desk_of (process_of desk.old.guest.at (B.ledger desk.old.guest.book)) (R.holder registrar.old).own desk.old.ages desk.old.files.items desk.old.marks.items) }
    requires rises { IsRising (addresses blocks.now) }
    requires most { length blocks.now ≤ 16384 }
    ensures makes { OnOk result (MakesQuietly (caller_of plan.now desk.old.number desk.old.recipe) (offer_some number (addresses blocks.now) (B.ledger desk.old.guest.book).counts.blocks) (desk_of (process_of desk.old.guest.at (B.ledger desk.old.guest.book)) (R.holder registrar.old).own desk.old.ages desk.old.files.items desk.old.marks.items) (desk_of (process_of desk.new.guest.at (B.ledger desk.new.guest.book)) (R.holder registrar.new).own desk.new.ages desk.new.files.items desk.new.marks.items)) }
    ensures kept { OnOk result (KeepsBut plan.now (caller_of plan.now desk.old.number desk.old.recipe) [] (desk_of (process_of desk.old.guest.at (B.ledger desk.old.guest.book)) (R.holder registrar.old).own desk.old.ages desk.old.files.items desk.old.marks.items) (desk_of (process_of desk.new.guest.at (B.ledger desk.new.guest.book)) (R.holder registrar.new).own desk.new.ages desk.new.files.items desk.new.marks.items)) }
    ensures process { process_of desk.new.guest.at (B.ledger desk.new.guest.book) ≡ process_of desk.old.guest.at (B.ledger desk.old.guest.book) }
    ensures ages { desk.new.ages ≡ desk.old.ages }
    ensures caller { caller_of plan.now desk.new.number desk.new.recipe ≡ caller_of plan.now desk.old.number desk.old.recipe }
    ensures opening { (R.holder registrar.new).opening ≡ (R.holder registrar.old).opening }
    ensures grows { Grows desk.old.number (R.holder registrar.old) (R.holder registrar.new) }
    ensures scheme { scheme_of desk.new.guest.at desk.new.guest.limits ≡ scheme_of desk.old.guest.at desk.old.guest.limits }
    ensures entered { desk.new.guest.entered ≡ desk.old.guest.entered }
{
    if blocks.is_empty() {
        return Ok(());
    }
    let slot = slot_of(plan, number, desk.recipe);
    let Some(age) = desk.ages.get(number) else {
        unreachable!()
    };
    mark(&desk.guest, &mut desk.marks)?;
    let _: Merged = registrar.merge(desk.number, slot, age, blocks)?;
    Ok(())
}

/// Offers the candidates of an attached segment to its unit, if there are any. What is offered is merged into it.
pub fn offer_one<B: Book, R: Registrar>(
    plan: &Plan,
    number: u32,
    desk: &mut Desk<B>,
    registrar: &mut R,
) -> Result<(), AllocError>
    requires fits { Fits plan.now (caller_of plan.now desk.old.number desk.old.recipe) (R.holder registrar.old).opening }
    requires built { IsBuiltBy (caller_of plan.now desk.old.number desk.old.recipe) (scheme_of desk.old.guest.at desk.old.guest.limits) (process_of desk.old.guest.at (B.ledger desk.old.guest.book)) }
    requires attached { is_some (fin.get (B.ledger desk.old.guest.book).segments number) ≡ true }
    requires holds { HoldsAt plan.now (caller_of plan.now desk.old.number desk.old.recipe) number (desk_of (process_of desk.old.guest.at (B.ledger desk.old.guest.book)) (R.holder registrar.old).own desk.old.ages desk.old.files.items desk.old.marks.items) }
    ensures offers { OnOk result (OffersOne (caller_of plan.now desk.old.number desk.old.recipe) number (desk_of (process_of desk.old.guest.at (B.ledger desk.old.guest.book)) (R.holder registrar.old).own desk.old.ages desk.old.files.items desk.old.marks.items) (desk_of (process_of desk.new.guest.at (B.ledger desk.new.guest.book)) (R.holder registrar.new).own desk.new.ages desk.new.files.items desk.new.marks.items)) }
    ensures kept { OnOk result (KeepsBut plan.now (caller_of plan.now desk.old.number desk.old.recipe) [] (desk_of (process_of desk.old.guest.at (B.ledger desk.old.guest.book)) (R.holder registrar.old).own desk.old.ages desk.old.files.items desk.old.marks.items) (desk_of (process_of desk.new.guest.at (B.ledger desk.new.guest.book)) (R.holder registrar.new).own desk.new.ages desk.new.files.items desk.new.marks.items)) }
    ensures ages { desk.new.ages ≡ desk.old.ages }
    ensures caller { caller_of plan.now desk.new.number desk.new.recipe ≡ caller_of plan.now desk.old.number desk.old.recipe }
    ensures opening { (R.holder registrar.new).opening ≡ (R.holder registrar.old).opening }
    ensures grows { Grows desk.old.number (R.holder registrar.old) (R.holder registrar.new) }
    ensures scheme { scheme_of desk.new.guest.at desk.new.guest.limits ≡ scheme_of desk.old.guest.at desk.old.guest.limits }
    ensures entered { desk.new.guest.entered ≡ desk.old.guest.entered }
    ensures after { desk.old.guest.spent ≡ true → IsErr result }
{
    let blocks = desk.guest.offer(number / 4, (number % 4) as u8)?;
    hand_in(plan, number, &blocks, desk, registrar)
}

/// Offers the candidates of an attached segment to its unit, if there are any, and then lets the unit go.
pub fn part_one<B: Book, R: Registrar>(
    plan: &Plan,
    number: u32,
    desk: &mut Desk<B>,
    registrar: &mut R,
) -> Result<(), AllocError>
    requires fits { Fits plan.now (caller_of plan.now desk.old.number desk.old.recipe) (R.holder registrar.old).opening }
    requires built { IsBuiltBy (caller_of plan.now desk.old.number desk.old.recipe) (scheme_of desk.old.guest.at desk.old.guest.limits) (process_of desk.old.guest.at (B.ledger desk.old.guest.book)) }
    requires attached { is_some (fin.get (B.ledger desk.old.guest.book).segments number) ≡ true }
    requires holds { HoldsAt plan.now (caller_of plan.now desk.old.number desk.old.recipe) number (desk_of (process_of desk.old.guest.at (B.ledger desk.old.guest.book)) (R.holder registrar.old).own desk.old.ages desk.old.files.items desk.old.marks.items) }
    ensures parts { OnOk result (PartsOne (caller_of plan.now desk.old.number desk.old.recipe) number (desk_of (process_of desk.old.guest.at (B.ledger desk.old.guest.book)) (R.holder registrar.old).own desk.old.ages desk.old.files.items desk.old.marks.items) (desk_of (process_of desk.new.guest.at (B.ledger desk.new.guest.book)) (R.holder registrar.new).own desk.new.ages desk.new.files.items desk.new.marks.items)) }
    ensures kept { OnOk result (KeepsBut plan.now (caller_of plan.now desk.old.number desk.old.recipe) (number ∷ []) (desk_of (process_of desk.old.guest.at (B.ledger desk.old.guest.book)) (R.holder registrar.old).own desk.old.ages desk.old.files.items desk.old.marks.items) (desk_of (process_of desk.new.guest.at (B.ledger desk.new.guest.book)) (R.holder registrar.new).own desk.new.ages desk.new.files.items desk.new.marks.items)) }
    ensures ages { OnOk result (desk.new.ages ≡ fin.remove desk.old.ages number) }
    ensures caller { caller_of plan.now desk.new.number desk.new.recipe ≡ caller_of plan.now desk.old.number desk.old.recipe }
    ensures opening { (R.holder registrar.new).opening ≡ (R.holder registrar.old).opening }
    ensures grows { Grows desk.old.number (R.holder registrar.old) (R.holder registrar.new) }
    ensures scheme { scheme_of desk.new.guest.at desk.new.guest.limits ≡ scheme_of desk.old.guest.at desk.old.guest.limits }
    ensures entered { desk.new.guest.entered ≡ desk.old.guest.entered }
    ensures after { desk.old.guest.spent ≡ true → IsErr result }
{
    offer_one(plan, number, desk, registrar)?;
    let_go(plan, number, desk, registrar)
}

// Lets the unit of a segment go, which is held.
fn let_go<B: Book, R: Registrar>(
    plan: &Plan,
    number: u32,
    desk: &mut Desk<B>,
    registrar: &mut R,
) -> Result<(), AllocError>
    requires fits { Fits plan.now (caller_of plan.now desk.old.number desk.old.recipe) (R.holder registrar.old).opening }
    requires holds { (code : Code) × Holds plan.now (caller_of plan.now desk.old.number desk.old.recipe) number code (desk_of (process_of desk.old.guest.at (B.ledger desk.old.guest.book)) (R.holder registrar.old).own desk.old.ages desk.old.files.items desk.old.marks.items) }
    ensures makes { OnOk result (MakesQuietly (caller_of plan.now desk.old.number desk.old.recipe) (asked_at (B.ledger desk.old.guest.book).counts.blocks (LetsGo number) ∷ []) (desk_of (process_of desk.old.guest.at (B.ledger desk.old.guest.book)) (R.holder registrar.old).own desk.old.ages desk.old.files.items desk.old.marks.items) (desk_of (process_of desk.new.guest.at (B.ledger desk.new.guest.book)) (R.holder registrar.new).own desk.new.ages desk.new.files.items desk.new.marks.items)) }
    ensures kept { OnOk result (KeepsBut plan.now (caller_of plan.now desk.old.number desk.old.recipe) (number ∷ []) (desk_of (process_of desk.old.guest.at (B.ledger desk.old.guest.book)) (R.holder registrar.old).own desk.old.ages desk.old.files.items desk.old.marks.items) (desk_of (process_of desk.new.guest.at (B.ledger desk.new.guest.book)) (R.holder registrar.new).own desk.new.ages desk.new.files.items desk.new.marks.items)) }
    ensures process { process_of desk.new.guest.at (B.ledger desk.new.guest.book) ≡ process_of desk.old.guest.at (B.ledger desk.old.guest.book) }
    ensures ages { OnOk result (desk.new.ages ≡ fin.remove desk.old.ages number) }
    ensures caller { caller_of plan.now desk.new.number desk.new.recipe ≡ caller_of plan.now desk.old.number desk.old.recipe }
    ensures opening { (R.holder registrar.new).opening ≡ (R.holder registrar.old).opening }
    ensures grows { Grows desk.old.number (R.holder registrar.old) (R.holder registrar.new) }
    ensures scheme { scheme_of desk.new.guest.at desk.new.guest.limits ≡ scheme_of desk.old.guest.at desk.old.guest.limits }
    ensures entered { desk.new.guest.entered ≡ desk.old.guest.entered }
{
    let slot = slot_of(plan, number, desk.recipe);
    let Some(age) = desk.ages.get(number) else {
        unreachable!()
    };
    mark(&desk.guest, &mut desk.marks)?;
    registrar.detach(desk.number, slot, age);
    desk.ages.remove(number);
    Ok(())
}
