// The begin of a block.
ghost use Rattle.std.specs.Prelude.{◌≡◌, ◌<◌, ◌≤◌, ◌+◌, ◌%◌, ℕ, None, Some, Ok, false, OnOk, OnErr, IfOk, IfNone, IfSome};
ghost use Rattle.plain_machine.specs.Memory.{fetched};
ghost use Rattle.block_build.specs.Making.{Makes};
ghost use Rattle.block_ledger.specs.Ledger.{is_live};
ghost use Rattle.guest_proc.specs.Fresh.{AreFresh, block_in};
ghost use Rattle.block_book.specs.Clauses.{IsShort};
ghost use Rattle.guest_proc.specs.Begun.{AreMade, HasBegun};
ghost use Rattle.guest_proc.specs.Process.{stop_at};

use crate::running::Limits;
use crate::stop::Stop;
use block_book::Book;
use block_build::Maker;
use cc_base::Steps;
use fragment::Fragment;
use guest_mem::Mem;
use plain_machine::{Cpu, End, Kind};
use probe_tools::Tool;
use std::alloc::{AllocError, Global};
use std::sync::ledger::Ledger;

/// Begins the block at the program counter, unless a stop comes before it. It is made where it is not live; one that is live
/// is found by its link, and then nothing else is looked up.
#[inline]
pub fn begin<B: Book, M: Maker, L: Ledger>(
    alloc: Global,
    cpu: &Cpu,
    mem: &Mem,
    tool: Tool,
    limits: Limits,
    book: &mut B,
    maker: &mut M,
    steps: &mut Steps<L>,
) -> Result<Option<Stop>, AllocError>
    requires aligned { cpu.now.pc % 4 ≡ 0 }
    requires fresh { AreFresh tool limits.max cpu.now.isa mem.now (B.ledger book.old) }
    requires few { (B.ledger book.old).counts.blocks < 18446744073709551615 }
    ensures stop { IfOk result (λ stop. stop ≡ stop_at limits.pool (B.ledger book.old) cpu.now.pc (fetched mem.now cpu.now.pc)) }
    ensures same { IfOk result (λ stop. IfSome stop (λ s. B.ledger book.new ≡ B.ledger book.old)) }
    ensures begun { IfOk result (λ stop. IfNone stop (HasBegun tool limits.max cpu.now.isa mem.now cpu.now.pc (B.ledger book.old) (B.ledger book.new))) }
    ensures made { OnOk result (AreMade (B.ledger book.old).counts.built (B.ledger book.new).counts.built steps.old steps.new (M.taken maker.old) (M.taken maker.new)) }
    ensures wants { OnErr result (is_live (B.ledger book.old) cpu.now.pc ≡ false) }
    ensures none { OnErr result (stop_at limits.pool (B.ledger book.old) cpu.now.pc (fetched mem.now cpu.now.pc) ≡ None) }
{
    if book.begin(cpu.pc) {
        mem.laws();
        return Ok(None);
    }
    if let Some(stop) = stop_before(cpu.pc, mem, limits.pool, book) {
        return Ok(Some(stop));
    }
    begin_new(alloc, cpu, mem, tool, limits, book, maker, steps)?;
    Ok(None)
}

/// The stop that comes before the block at pc begins, where there is fuel.
pub fn stop_before<B: Book>(pc: u32, mem: &Mem, pool: u32, book: &B) -> Option<Stop>
    ensures { result ≡ stop_at pool (B.ledger book.now) pc (fetched mem.now pc) }
{
    let Ok(_) = mem.fetch(pc) else {
        return Some(Stop::Ended(End::Fault {
            kind: Kind::Fetch,
            pc,
        }));
    };
    if book.wants_room(pool, pc) {
        Some(Stop::PoolFull)
    } else {
        None
    }
}

// Makes the block at the program counter, where a word is and none is live, and begins it.
#[inline(never)]
fn begin_new<B: Book, M: Maker, L: Ledger>(
    alloc: Global,
    cpu: &Cpu,
    mem: &Mem,
    tool: Tool,
    limits: Limits,
    book: &mut B,
    maker: &mut M,
    steps: &mut Steps<L>,
) -> Result<(), AllocError>
    requires aligned { cpu.now.pc % 4 ≡ 0 }
    requires fetched { (word : ℕ) × (fetched mem.now cpu.now.pc ≡ Ok word) }
    requires absent { is_live (B.ledger book.old) cpu.now.pc ≡ false }
    requires few { (B.ledger book.old).counts.blocks < 18446744073709551615 }
    ensures begun { OnOk result (HasBegun tool limits.max cpu.now.isa mem.now cpu.now.pc (B.ledger book.old) (B.ledger book.new)) }
    ensures made { OnOk result (AreMade (B.ledger book.old).counts.built (B.ledger book.new).counts.built steps.old steps.new (M.taken maker.old) (M.taken maker.new)) }
{
    let block = block_at(alloc, cpu, mem, tool, limits.max, maker, steps)?;
    book.begin_built(block)
}

// Makes the block at the program counter, where a word is.
fn block_at<M: Maker, L: Ledger>(
    alloc: Global,
    cpu: &Cpu,
    mem: &Mem,
    tool: Tool,
    max: u8,
    maker: &mut M,
    steps: &mut Steps<L>,
) -> Result<Fragment, AllocError>
    requires some { 0 < max }
    requires most { max ≤ 64 }
    requires aligned { cpu.now.pc % 4 ≡ 0 }
    requires fetched { (word : ℕ) × (fetched mem.now cpu.now.pc ≡ Ok word) }
    ensures fresh { IfOk result (λ block. block_in tool max cpu.now.isa mem.now cpu.now.pc ≡ Some block) }
    ensures made { IfOk result (λ block. Makes cpu.now.pc (Some block) steps.old steps.new (M.taken maker.old) (M.taken maker.new)) }
    ensures short { IfOk result (λ block. IsShort block) }
{
    let Some(code) = mem.code_at(cpu.pc) else {
        unreachable!()
    };
    let Some(block) = maker.make(alloc, code, cpu.pc, cpu.isa, tool, max, steps)? else {
        unreachable!()
    };
    Ok(block)
}
