// The whole run of a guest.
ghost use Rattle.std.specs.Prelude.{◌≡◌, ◌<◌, [], ◌∷◌, length, IfOk};
ghost use Rattle.std.specs.FinMap as fin;
ghost use Rattle.plain_machine.specs.Plain.{IsPlainRun};
ghost use Rattle.plain_run.specs.Plain.{one_module, guest_of};
ghost use Rattle.plain_run.specs.Runs.{RunsFrom};
ghost use Rattle.plain_run.specs.Ready.{IsReady, state_of};

use crate::block::OpenBlock;
use crate::guest::{Module, Ran, Setup};
use crate::process::{Process, start};
use crate::step::step;
use cc_base::Blob;
use elf_map::Elf;
use plain_machine::End;
use report::Report;
use std::alloc::{AllocError, Global};

/// Runs a guest that is alone, whose one module is one of these files, one instruction at a time. A call that makes the
/// module be another file holds from the next time that it is mapped. What is told of it is what is told of its run by
/// blocks.
pub fn interpret(
    alloc: Global,
    elfs: &[Elf],
    module: Module,
    setup: &Setup,
) -> Result<Ran, AllocError>
    requires { «module».file < length elfs.now }
    ensures plain { IfOk result (λ ran. IsPlainRun (one_module elfs.now «module».base) (guest_of setup.now) setup.now.tool setup.now.max («module».file ∷ []) ran.maps.items ran.end ran.output ran.report.counts) }
    ensures tool { IfOk result (λ ran. ran.report.tool ≡ setup.now.tool) }
{
    let mut maps = Vec::new(alloc);
    maps.push(module.file)?;
    match start(alloc, elfs, module, setup)? {
        None => Ok(Ran {
            end: End::Unplaced,
            maps,
            output: Blob::from_vec(Vec::new(alloc)),
            report: Report::new(alloc, setup.tool),
        }),
        Some(process) => run_from(elfs, module.base, setup, process, maps),
    }
}

// Runs on from a state.
fn run_from(
    elfs: &[Elf],
    base: u32,
    setup: &Setup,
    process: Process,
    maps: Vec<u32>,
) -> Result<Ran, AllocError>
    requires ready { IsReady elfs.now base setup.now.tool process }
    requires empty { process.report.counts ≡ fin.empty }
    ensures runs { IfOk result (λ ran. RunsFrom (one_module elfs.now base) setup.now.tool setup.now.max process.left (state_of process) (process.file ∷ []) maps.items ran.maps.items ran.end ran.output ran.report.counts) }
    ensures tool { IfOk result (λ ran. ran.report.tool ≡ setup.now.tool) }
{
    let mut process = process;
    let mut maps = maps;
    let mut block = OpenBlock {
        room: 0,
        region: None,
    };
    while process.left > 0 {
        let reached = step(elfs, base, setup, &mut process, &mut block, &mut maps)?;
        if let Some(end) = reached {
            return Ok(told(end, process, maps));
        }
    }
    Ok(told(End::Fuel, process, maps))
}

// What is told of a guest that is at its end.
fn told(end: End, process: Process, maps: Vec<u32>) -> Ran
    ensures { result ≡ record { end = end; maps = maps; output = process.io.output; report = process.report } }
{
    let Process { io, report, .. } = process;
    Ran {
        end,
        maps,
        output: io.into_output(),
        report,
    }
}
