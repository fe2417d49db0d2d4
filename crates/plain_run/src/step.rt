// One instruction of a guest.
ghost use Rattle.std.specs.Prelude.{◌≡◌, ◌<◌, ◌-◌, ◌∷◌, [], None, Option, IfOk};
ghost use Rattle.plain_machine.specs.Region.{Area};
ghost use Rattle.plain_run.specs.Plain.{one_module};
ghost use Rattle.plain_run.specs.Ready.{IsReady, state_of};
ghost use Rattle.plain_run.specs.Places.{LiesAt};
ghost use Rattle.plain_run.specs.Steps.{OneWord};

use crate::block::{OpenBlock, closes, room_after};
use crate::calls::answer;
use crate::events::count;
use crate::find::find;
use crate::guest::Setup;
use crate::process::Process;
use cc_base::Span;
use elf_map::Elf;
use plain_machine::{Done, End, Kind};
use rv_decode::decode;
use rv_exec::exec;
use std::alloc::AllocError;

/// Does the instruction at the program counter, with the answer to a call, and counts what the tool sees of it. It answers
/// the end where the guest ends.
pub fn step(
    elfs: &[Elf],
    base: u32,
    setup: &Setup,
    process: &mut Process,
    block: &mut OpenBlock,
    maps: &mut Vec<u32>,
) -> Result<Option<End>, AllocError>
    requires ready { IsReady elfs.now base setup.now.tool process.old }
    requires fuel { 0 < process.old.left }
    ensures steps { (place : Option Area) → LiesAt block.old.region place →
        IfOk result (OneWord (one_module elfs.now base) setup.now.tool setup.now.max block.old place (state_of process.old) block.new (state_of process.new)
        process.old.report.counts process.new.report.counts (process.old.file ∷ []) (process.new.file ∷ []) maps.old.items maps.new.items) }
    ensures spends { IfOk result (λ end. end ≡ None → process.new.left ≡ process.old.left - 1) }
    ensures ready { IfOk result (λ end. end ≡ None → IsReady elfs.now base setup.now.tool process.new) }
    ensures tool { IfOk result (λ end. process.new.report.tool ≡ setup.now.tool) }
{
    let pc = process.cpu.pc;
    let Some(found) = find(&process.cpu, &process.mem) else {
        return Ok(Some(End::Fault {
            kind: Kind::Fetch,
            pc,
        }));
    };
    let begins = block.is_left_at(pc);
    let ins = decode(found.word, process.cpu.isa);
    count(&mut process.report, &process.cpu, ins, begins)?;
    process.left -= 1;
    let done = exec(&mut process.cpu, &mut process.mem, found.word);
    block.room = room_after(setup.max, block.room, begins, closes(ins, &done));
    block.region = Some(found.region);
    match done {
        Done::Next => Ok(None),
        Done::Taken => Ok(None),
        Done::Touched(span) => {
            let _: Span = span;
            Ok(None)
        }
        Done::Fault(kind) => Ok(Some(End::Fault { kind, pc })),
        Done::Asked => answer(
            elfs,
            base,
            &mut process.cpu,
            &mut process.mem,
            &mut process.io,
            &mut process.file,
            maps,
        ),
    }
}
