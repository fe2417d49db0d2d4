// The guests run, and their text is made.
ghost use Rattle.std.specs.Prelude.{◌≡◌, ◌≤◌, length, map, IfOk};
ghost use Rattle.whole_run.specs.Job.{slots_in_job};
ghost use Rattle.whole_run.specs.Shelf.{ChangesOnly, seen_of};
ghost use Rattle.host.specs.Answer.{job_in, lists_of, run_text};
ghost use Rattle.host.specs.Prepared.{IsReady, plan_in};
ghost use Rattle.host.specs.Run.{IsRunOf};

use crate::prepare::Prepared;
use crate::words::Order;
use cc_base::{Blob, Name};
use guest_loop::{GuestEnd, Ran};
use host_text::texts_of;
use journal_text::{push_journal, push_shut};
use manifest::GuestRow;
use publish::{Loaded, Pub};
use registry::Entry;
use report::Report;
use shelf_model::Shelf;
use std::alloc::{AllocError, Global};
use std::marker::Model;
use unit_set::SlotName;
use whole_run::{Whole, run_whole};

/// What a run tells.
#[derive(Drop)]
pub struct Told {
    pub loads: Vec<Loaded>,
    pub guests: Vec<GuestEnd>,
    pub journal: Vec<Entry>,
    pub served: Vec<Pub>,
}

impl Model for Told {
    ghost use Rattle.host.specs.Answer.{Lists};

    ghost Value = { Lists };

    ghost view = { λ t. record { loads = t.loads.items; guests = t.guests.items; journal = t.journal.items; served = t.served.items } };
}

/// Runs all guests, and makes their text.
pub fn run<H: Shelf>(
    alloc: Global,
    prepared: Prepared<'_>,
    shelf: &mut H,
) -> Result<(Vec<u8>, Told), AllocError>
    requires { IsReady prepared }
    ensures run { IfOk result (λ both. IsRunOf (plan_in prepared.entry) (seen_of H.told H.faults shelf.old shelf.new) both.1 both.0.items) }
    ensures few { IfOk result (λ both. length both.1.loads ≤ 64) }
    ensures areas { ChangesOnly (slots_in_job (job_in (plan_in prepared.entry))) (H.told shelf.old) (H.told shelf.new) }
{
    let Prepared {
        order,
        manifest,
        elfs,
        inputs,
        slots,
    } = prepared;
    let again = copies(alloc, &slots)?;
    let whole = run_whole(alloc, &manifest, elfs, &inputs, slots, shelf)?;
    let text = text_of(alloc, order, manifest.guests(), &again, &whole)?;
    Ok((text, lists_of(alloc, whole)?))
}

// The text of a run.
fn text_of(
    alloc: Global,
    order: Order<'_>,
    guests: &[GuestRow],
    slots: &[SlotName],
    whole: &Whole,
) -> Result<Vec<u8>, AllocError>
    requires { length slots.now ≤ 64 }
    ensures { IfOk result (λ text. text.items ≡ run_text order.entry.counts order.entry.journal (map (λ g. g.name) guests.now) slots.now whole.now) }
{
    let mut text = texts_of(alloc, &whole.rans, order.counts)?;
    if order.journal {
        let names = names_of(alloc, guests)?;
        push_journal(alloc, &mut text, &names, slots, &whole.journal)?;
    }
    push_shut(alloc, &mut text, slots, &whole.loads, &whole.served)?;
    Ok(text)
}

// The slots a second time.
fn copies(alloc: Global, slots: &[SlotName]) -> Result<Vec<SlotName>, AllocError>
    ensures { IfOk result (λ copies. copies.items ≡ slots.now) }
{
    let mut copies = Vec::new(alloc);
    for slot in slots {
        copies.push(slot.copy(alloc)?)?;
    }
    Ok(copies)
}

// The names of guests, in order.
fn names_of(alloc: Global, guests: &[GuestRow]) -> Result<Vec<Name>, AllocError>
    ensures { IfOk result (λ names. names.items ≡ map (λ g. g.name) guests.now) }
{
    let mut names = Vec::new(alloc);
    for guest in guests {
        names.push(guest.name.copy(alloc)?)?;
    }
    Ok(names)
}

// What is told of a run, of its guests how they ended.
fn lists_of(alloc: Global, whole: Whole) -> Result<Told, AllocError>
    ensures { IfOk result (λ t. t ≡ lists_of whole) }
{
    let Whole {
        loads,
        rans,
        journal,
        served,
    } = whole;
    Ok(Told {
        loads,
        guests: ends_of(alloc, rans)?,
        journal,
        served,
    })
}

// How guests ended.
fn ends_of(alloc: Global, rans: Vec<Ran>) -> Result<Vec<GuestEnd>, AllocError>
    ensures { IfOk result (λ ends. ends.items ≡ map (λ ran. ran.end) rans.items) }
{
    let mut ends = Vec::new(alloc);
    for ran in rans {
        let Ran {
            end,
            output,
            report,
        } = ran;
        let _: (Blob, Report) = (output, report);
        ends.push(end)?;
    }
    Ok(ends)
}
