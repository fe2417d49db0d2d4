// The units of a module's segments are attached.
ghost use Rattle.std.specs.Prelude.{◌≡◌, ℕ, List, ◌<◌, ◌≤◌, ◌∷◌, [], true, drop, find, length, slice_get, Some, None, OnOk, IsErr};
ghost use Rattle.std.specs.FinMap as fin;
ghost use Rattle.plain_machine.specs.Calls.{is_module};
ghost use Rattle.plain_machine.specs.Machine.{base_at};
ghost use Rattle.plain_machine.specs.Program.{top_of};
ghost use Rattle.unit_set.specs.Held.{IsHeld};
ghost use Rattle.block_ledger.specs.Ledger.{segment_of};
ghost use Rattle.block_ledger.specs.Traced.{codes_of};
ghost use Rattle.region_laws.specs.Standing.{AreThere};
ghost use Rattle.registrar.specs.Calls.{AreCovered};
ghost use Rattle.guest_proc.specs.Kept.{process_of, scheme_of};
ghost use Rattle.guest_proc.specs.Maps.{AreClear};
ghost use Rattle.guest_answers.specs.Plan.{Fits, caller_of, setting_of};
ghost use Rattle.guest_answers.specs.Desk.{AreUnheld, HoldsAt, IsBuiltBy, IsKept, KeepsBut, desk_of};
ghost use Rattle.guest_answers.specs.Makes.{AreApart, AttachesAll, AttachesOne};
ghost use Rattle.guest_answers.specs.Entries.{Grows};

use crate::desk::{Desk, mark};
use crate::offer::slot_of;
use crate::plan::Plan;
use block_book::Book;
use cc_base::FileCode;
use code_book::laws::units_are_built;
use elf_map::Elf;
use registrar::Registrar;
use std::alloc::AllocError;
use unit_set::Unit;

/// Attaches the units of all executable segments of a module, one after the other, that is mapped from this file at this
/// base.
pub fn attach_all<B: Book, R: Registrar>(
    plan: &Plan,
    module: u32,
    file: u32,
    elf: &Elf,
    base: u32,
    desk: &mut Desk<B>,
    registrar: &mut R,
) -> Result<(), AllocError>
    requires fits { Fits plan.now (caller_of plan.now desk.old.number desk.old.recipe) (R.holder registrar.old).opening }
    requires built { IsBuiltBy (caller_of plan.now desk.old.number desk.old.recipe) (scheme_of desk.old.guest.at desk.old.guest.limits) (process_of desk.old.guest.at (B.ledger desk.old.guest.book)) }
    requires known { slice_get plan.now.elfs file ≡ Some elf.now }
    requires stands { base_at (setting_of plan.now) «module» ≡ Some base }
    requires top { top_of elf.now base ≤ 4294967295 }
    requires there { AreThere (codes_of elf.now base) desk.old.guest.at.mem }
    requires clear { AreClear (codes_of elf.now base) (B.ledger desk.old.guest.book) }
    requires apart { AreApart (codes_of elf.now base) }
    requires unheld { AreUnheld «module» desk.old.ages }
    requires mapped { find (is_module «module») (process_of desk.old.guest.at (B.ledger desk.old.guest.book)).state.io.mapped ≡ Some (record { «module» = «module»; file = file }) }
    ensures attaches { OnOk result (AttachesAll (scheme_of desk.old.guest.at desk.old.guest.limits) (caller_of plan.now desk.old.number desk.old.recipe) «module» file (codes_of elf.now base) (desk_of (process_of desk.old.guest.at (B.ledger desk.old.guest.book)) (R.holder registrar.old).own desk.old.ages desk.old.files.items desk.old.marks.items) (desk_of (process_of desk.new.guest.at (B.ledger desk.new.guest.book)) (R.holder registrar.new).own desk.new.ages desk.new.files.items desk.new.marks.items)) }
    ensures kept { OnOk result ((gone : List ℕ) → IsKept plan.now (caller_of plan.now desk.old.number desk.old.recipe) gone (desk_of (process_of desk.old.guest.at (B.ledger desk.old.guest.book)) (R.holder registrar.old).own desk.old.ages desk.old.files.items desk.old.marks.items) → IsKept plan.now (caller_of plan.now desk.old.number desk.old.recipe) gone (desk_of (process_of desk.new.guest.at (B.ledger desk.new.guest.book)) (R.holder registrar.new).own desk.new.ages desk.new.files.items desk.new.marks.items)) }
    ensures caller { caller_of plan.now desk.new.number desk.new.recipe ≡ caller_of plan.now desk.old.number desk.old.recipe }
    ensures opening { (R.holder registrar.new).opening ≡ (R.holder registrar.old).opening }
    ensures grows { Grows desk.old.number (R.holder registrar.old) (R.holder registrar.new) }
    ensures scheme { scheme_of desk.new.guest.at desk.new.guest.limits ≡ scheme_of desk.old.guest.at desk.old.guest.limits }
    ensures entered { desk.new.guest.entered ≡ desk.old.guest.entered }
{
    for seg in 0..elf.code_count() {
        attach_one(plan, module, seg, file, elf, base, desk, registrar)?;
    }
    Ok(())
}

/// Attaches the unit of an executable segment of a module that is mapped from this file at this base.
pub fn attach_one<B: Book, R: Registrar>(
    plan: &Plan,
    module: u32,
    seg: u8,
    file: u32,
    elf: &Elf,
    base: u32,
    desk: &mut Desk<B>,
    registrar: &mut R,
) -> Result<(), AllocError>
    requires fits { Fits plan.now (caller_of plan.now desk.old.number desk.old.recipe) (R.holder registrar.old).opening }
    requires built { IsBuiltBy (caller_of plan.now desk.old.number desk.old.recipe) (scheme_of desk.old.guest.at desk.old.guest.limits) (process_of desk.old.guest.at (B.ledger desk.old.guest.book)) }
    requires known { slice_get plan.now.elfs file ≡ Some elf.now }
    requires stands { base_at (setting_of plan.now) «module» ≡ Some base }
    requires seg { seg < 4 }
    requires within { seg < length (codes_of elf.now base) }
    requires top { top_of elf.now base ≤ 4294967295 }
    requires there { AreThere (drop seg (codes_of elf.now base)) desk.old.guest.at.mem }
    requires clear { AreClear (drop seg (codes_of elf.now base)) (B.ledger desk.old.guest.book) }
    requires unheld { fin.get desk.old.ages (segment_of «module» seg) ≡ None }
    requires mapped { find (is_module «module») (process_of desk.old.guest.at (B.ledger desk.old.guest.book)).state.io.mapped ≡ Some (record { «module» = «module»; file = file }) }
    ensures attaches { OnOk result (AttachesOne (scheme_of desk.old.guest.at desk.old.guest.limits) (caller_of plan.now desk.old.number desk.old.recipe) «module» seg file (codes_of elf.now base) (desk_of (process_of desk.old.guest.at (B.ledger desk.old.guest.book)) (R.holder registrar.old).own desk.old.ages desk.old.files.items desk.old.marks.items) (desk_of (process_of desk.new.guest.at (B.ledger desk.new.guest.book)) (R.holder registrar.new).own desk.new.ages desk.new.files.items desk.new.marks.items)) }
    ensures kept { OnOk result (KeepsBut plan.now (caller_of plan.now desk.old.number desk.old.recipe) (segment_of «module» seg ∷ []) (desk_of (process_of desk.old.guest.at (B.ledger desk.old.guest.book)) (R.holder registrar.old).own desk.old.ages desk.old.files.items desk.old.marks.items) (desk_of (process_of desk.new.guest.at (B.ledger desk.new.guest.book)) (R.holder registrar.new).own desk.new.ages desk.new.files.items desk.new.marks.items)) }
    ensures holds { AreCovered (R.holder registrar.old).own → OnOk result (HoldsAt plan.now (caller_of plan.now desk.old.number desk.old.recipe) (segment_of «module» seg) (desk_of (process_of desk.new.guest.at (B.ledger desk.new.guest.book)) (R.holder registrar.new).own desk.new.ages desk.new.files.items desk.new.marks.items)) }
    ensures caller { caller_of plan.now desk.new.number desk.new.recipe ≡ caller_of plan.now desk.old.number desk.old.recipe }
    ensures opening { (R.holder registrar.new).opening ≡ (R.holder registrar.old).opening }
    ensures grows { Grows desk.old.number (R.holder registrar.old) (R.holder registrar.new) }
    ensures scheme { scheme_of desk.new.guest.at desk.new.guest.limits ≡ scheme_of desk.old.guest.at desk.old.guest.limits }
    ensures entered { desk.new.guest.entered ≡ desk.old.guest.entered }
    ensures after { desk.old.guest.spent ≡ true → IsErr result }
{
    units_are_built();
    let number = number_of(module, seg);
    let slot = slot_of(plan, number, desk.recipe);
    // It tells that the segment ends at an address.
    let _: FileCode = elf.code(seg)?;
    mark(&desk.guest, &mut desk.marks)?;
    let attached = registrar.attach(desk.number, slot, file)?;
    is_held(&attached.unit);
    desk.ages.insert(number, attached.age)?;
    desk.guest.attach(module, seg, &attached.unit)
}

// The number of a segment.
fn number_of(module: u32, seg: u8) -> u32
    requires few { «module» < 1073741824 }
    requires seg { seg < 4 }
    ensures { result ≡ segment_of «module» seg }
{
    4 * module + u32::from(seg)
}

// What a unit keeps.
fn is_held(unit: &Unit)
    ensures { IsHeld unit.now.slot unit.now.image unit.now.frags }
{
    let _ = unit.frags();
    let _ = unit.addrs();
}
