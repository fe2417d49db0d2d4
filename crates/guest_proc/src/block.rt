// One block of a process.
ghost use Rattle.std.specs.Prelude.{◌≡◌, IfOk, OnOk, OnErr};
ghost use Rattle.guest_proc.specs.Begun.{AreMade};
ghost use Rattle.guest_proc.specs.Kept.{IsReady, Keeps, StopsWell, process_of, scheme_of};
ghost use Rattle.guest_proc.specs.Process.{Advances, WantsMemory};

use crate::begin::begin;
use crate::call::call;
use crate::ready::run_ready;
use crate::running::{Limits, Running};
use crate::stop::{Ran, Stop};
use block_book::Book;
use block_build::Maker;
use cc_base::Steps;
use plain_machine::End;
use std::alloc::{AllocError, Global};
use std::sync::ledger::Ledger;

/// Runs one block, with the call at its end, if there is one, unless a stop comes before it. It answers the stop that comes
/// before the block or in it, if one does.
#[inline]
pub fn run_one_block<B: Book, M: Maker, L: Ledger>(
    alloc: Global,
    at: &mut Running,
    limits: Limits,
    book: &mut B,
    maker: &mut M,
    steps: &mut Steps<L>,
) -> Result<Option<Stop>, AllocError>
    requires ready { IsReady (scheme_of at.old limits) (process_of at.old (B.ledger book.old)) }
    ensures ran { IfOk result (Advances (scheme_of at.old limits) (process_of at.old (B.ledger book.old)) (process_of at.new (B.ledger book.new))) }
    ensures ready { OnOk result (IsReady (scheme_of at.new limits) (process_of at.new (B.ledger book.new))) }
    ensures keeps { OnOk result (Keeps (process_of at.old (B.ledger book.old)) (process_of at.new (B.ledger book.new))) }
    ensures asks { IfOk result (λ stop. StopsWell stop at.new.io) }
    ensures made { OnOk result (AreMade (B.ledger book.old).counts.built (B.ledger book.new).counts.built steps.old steps.new (M.taken maker.old) (M.taken maker.new)) }
    ensures wants { OnErr result (WantsMemory (scheme_of at.old limits) (process_of at.old (B.ledger book.old))) }
    ensures tool { at.new.report.tool ≡ at.old.report.tool }
{
    if at.fuel == 0 {
        return Ok(Some(Stop::Ended(End::Fuel)));
    }
    let tool = at.report.tool();
    let before = begin(alloc, &at.cpu, &at.mem, tool, limits, book, maker, steps)?;
    if let Some(stop) = before {
        return Ok(Some(stop));
    }
    match run_ready(
        &mut at.cpu,
        &mut at.mem,
        &mut at.report,
        &mut at.fuel,
        limits.max,
        book,
    )? {
        Ran::On => Ok(None),
        Ran::Ended(end) => Ok(Some(Stop::Ended(end))),
        Ran::Asks => call(&mut at.cpu, &mut at.mem, &mut at.io, book),
    }
}
