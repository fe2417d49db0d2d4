// A block that stands ready is run.
ghost use Rattle.std.specs.Prelude.{◌≡◌, ◌<◌, ◌≤◌, ◌+◌, ◌%◌, ◌^◌, ℕ, None, Some, IfOk, OnErr, IfSome};
ghost use Rattle.probe_tools.specs.Rows.{count_at};
ghost use Rattle.plain_machine.specs.Io.{Io};
ghost use Rattle.fragment.specs.Parts.{Parts};
ghost use Rattle.engine.specs.Standing.{SameRegions};
ghost use Rattle.block_ledger.specs.Ledger.{Ledger, view};
ghost use Rattle.block_ledger.specs.Traced.{Scheme, direct};
ghost use Rattle.guest_proc.specs.Begun.{BlockBegins};
ghost use Rattle.guest_proc.specs.Fresh.{AreFresh, AreMapped, SharesNoMore};
ghost use Rattle.guest_proc.specs.Process.{LacksRow, LeavesBy, RanBlock, process};

use crate::stop::Ran;
use block_book::Book;
use engine::{Left, run_block};
use fragment::Exit;
use guest_mem::Mem;
use plain_machine::{Cpu, End};
use report::Report;
use std::alloc::AllocError;

/// Runs the block at the program counter, which began last and stands ready, and tells the book how it was left. An error
/// comes only where one of its events has no row.
pub fn run_ready<B: Book>(
    cpu: &mut Cpu,
    mem: &mut Mem,
    report: &mut Report,
    fuel: &mut u64,
    max: u8,
    book: &mut B,
) -> Result<Ran, AllocError>
    requires some { 0 < max }
    requires aligned { cpu.old.pc % 4 ≡ 0 }
    requires fuel { 0 < fuel.old }
    requires small { (key : ℕ) → count_at report.old.counts key + fuel.old < 2 ^ 64 }
    requires fresh { AreFresh report.old.tool max cpu.old.isa mem.old (B.ledger book.old) }
    requires mapped { AreMapped mem.old (B.ledger book.old) }
    requires here { (B.ledger book.old).block ≡ cpu.old.pc }
    requires ready { (block : Parts) × (view (B.ledger book.old) cpu.old.pc ≡ Some block) }
    ensures ran { IfOk result (λ ran. (scheme : Scheme) (io : Io) (led : Ledger) (block : Parts) → scheme.tool ≡ report.old.tool → scheme.max ≡ max →
        view (B.ledger book.old) cpu.old.pc ≡ Some block → BlockBegins scheme block led (B.ledger book.old) →
        RanBlock scheme (process cpu.old mem.old io fuel.old report.old led) (process cpu.new mem.new io fuel.new report.new (B.ledger book.new)) ran) }
    ensures wants { OnErr result ((io : Io) → LacksRow (process cpu.old mem.old io fuel.old report.old (B.ledger book.old))) }
    ensures leaves { IfOk result (λ ran. (io : Io) → LeavesBy (process cpu.old mem.old io fuel.old report.old (B.ledger book.old)) ran) }
    ensures fresh { IfOk result (λ ran. AreFresh report.old.tool max cpu.new.isa mem.new (B.ledger book.new)) }
    ensures mapped { IfOk result (λ ran. AreMapped mem.new (B.ledger book.new)) }
    ensures shares { IfOk result (λ ran. SharesNoMore (B.ledger book.old) (B.ledger book.new)) }
    ensures regions { SameRegions mem.old mem.new }
    ensures segments { IfOk result (λ ran. (B.ledger book.new).segments ≡ (B.ledger book.old).segments) }
    ensures counts { IfOk result (λ ran. (B.ledger book.new).counts ≡ (B.ledger book.old).counts) }
    ensures aligned { cpu.new.pc % 4 ≡ 0 }
    ensures isa { cpu.new.isa ≡ cpu.old.isa }
    ensures less { IfOk result (λ ran. fuel.new < fuel.old) }
    ensures small { (key : ℕ) → count_at report.new.counts key + fuel.new < 2 ^ 64 }
    ensures tool { report.new.tool ≡ report.old.tool }
{
    mem.laws();
    let Some(block) = book.current() else {
        unreachable!()
    };
    let left = run_block(block, cpu, mem, report, fuel)?;
    match left {
        Left::Exit(e) => {
            let exit = direct(block.exits(), e);
            book.leave(exit);
            Ok(Ran::On)
        }
        Left::Touched(span) => {
            book.leave(None);
            book.write(span);
            Ok(Ran::On)
        }
        Left::Fuel => {
            book.leave(Some(0));
            Ok(Ran::On)
        }
        Left::Fault(kind) => {
            book.leave(None);
            Ok(Ran::Ended(End::Fault { kind, pc: cpu.pc }))
        }
        Left::Asked => {
            book.leave(None);
            Ok(Ran::Asks)
        }
    }
}

// The exit, if it is a direct one.
fn direct(exits: &[Exit], e: u8) -> Option<u8>
    ensures { result ≡ direct e exits.now }
{
    match exits.get(usize::from(e)) {
        Some(Exit::Direct(_)) => Some(e),
        _ => None,
    }
}
