// What the guest's tool sees before an instruction.
ghost use Rattle.std.specs.Prelude.{◌≡◌, ◌<◌, ◌+◌, ◌^◌, ℕ, OnOk};
ghost use Rattle.std.specs.Option.{option_to_list};
ghost use Rattle.rv_decode.specs.Registers.{NamesRegisters};
ghost use Rattle.probe_tools.specs.Rows.{count_at};
ghost use Rattle.plain_machine.specs.Events.{is_call, is_link, seen_at};
ghost use Rattle.engine.specs.Seeing.{with_events};

use engine::{event_of_access, event_of_call};
use plain_machine::Cpu;
use probe_tools::{Event, Tool};
use report::Report;
use rv_decode::Ins;
use std::alloc::AllocError;

/// Counts what the report's tool sees before an instruction, which begins a block or not.
pub fn count(report: &mut Report, cpu: &Cpu, ins: Ins, begins: bool) -> Result<(), AllocError>
    requires registers { NamesRegisters ins }
    requires small { (key : ℕ) → count_at report.old.counts key + 1 < 2 ^ 64 }
    ensures { OnOk result (report.new ≡ with_events (seen_at report.old.tool cpu.now begins ins) report.old) }
{
    let Some(event) = seen(report.tool(), cpu, ins, begins) else {
        return Ok(());
    };
    report.add(&event)
}

fn seen(tool: Tool, cpu: &Cpu, ins: Ins, begins: bool) -> Option<Event>
    requires { NamesRegisters ins }
    ensures { option_to_list result ≡ seen_at tool cpu.now begins ins }
{
    match tool {
        Tool::Blocks => {
            if begins {
                Some(Event::Block { at: cpu.pc })
            } else {
                None
            }
        }
        Tool::Calls => {
            if is_call(ins) {
                event_of_call(ins, cpu)
            } else {
                None
            }
        }
        Tool::Memory => event_of_access(ins, cpu),
    }
}

// A jump that leaves its return address in x1 or x5.
fn is_call(ins: Ins) -> bool
    ensures { result ≡ is_call ins }
{
    match ins {
        Ins::Jal { rd, .. } => is_link(rd),
        Ins::Jalr { rd, .. } => is_link(rd),
        _ => false,
    }
}

fn is_link(rd: u8) -> bool
    ensures { result ≡ is_link rd }
{
    rd == 1 || rd == 5
}
