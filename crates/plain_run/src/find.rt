// The word at the program counter, and the region that it is in.
ghost use Rattle.std.specs.Prelude.{◌≡◌, None, Some, Ok, IfSome};
ghost use Rattle.plain_machine.specs.Io.{Io};
ghost use Rattle.plain_machine.specs.Machine.{Unfetched, action};
ghost use Rattle.plain_machine.specs.Memory.{fetched, region_at};
ghost use Rattle.engine.specs.Standing.{state};
ghost use Rattle.plain_run.specs.Places.{LiesAt};

use cc_base::Span;
use guest_mem::Mem;
use plain_machine::Cpu;

/// A word, and where the region lies that it is in.
#[derive(Clone, Copy, Debug)]
pub struct Found {
    pub word: u32,
    pub region: Span,
}

/// The word at the program counter. There is none where it is not wholly in one executable region.
pub fn find(cpu: &Cpu, mem: &Mem) -> Option<Found>
    ensures none { result ≡ None → (io : Io) → action (state cpu.now mem.now io) ≡ Unfetched }
    ensures word { IfSome result (λ found. fetched mem.now cpu.now.pc ≡ Ok found.word) }
    ensures region { IfSome result (λ found. LiesAt (Some found.region) (region_at mem.now cpu.now.pc 4)) }
{
    let Ok(word) = mem.fetch(cpu.pc) else {
        return None;
    };
    let code = mem.code_at(cpu.pc)?;
    let region = Span {
        start: code.start,
        len: code.bytes.len() as u32,
    };
    Some(Found { word, region })
}
