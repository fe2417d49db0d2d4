ghost use Rattle.std.specs.Prelude.{ℕ, ◌≤◌, length, IfOk};
ghost use Rattle.probe_tools.specs.Rows.{count_at};

use super::*;
use probe_tools::{Event, Tool};
use std::alloc::{AllocError, Global};
use std::test::Fail;

fn counted(alloc: Global, tool: Tool, events: &[Event]) -> Result<Report, AllocError>
    requires { length events.now ≤ 1000 }
    ensures { IfOk result (λ r. (key : ℕ) → count_at r.counts key ≤ 1000) }
{
    let mut report = Report::new(alloc, tool);
    for event in events {
        report.add(event)?;
    }
    Ok(report)
}

#[test]
fn blocks_are_counted_by_address(rt: HostRuntime) -> Result<(), Fail> {
    let alloc = rt.alloc();
    let events = [
        Event::Block { at: 0x1_000c },
        Event::Block { at: 0x1_0000 },
        Event::Block { at: 0x1_000c },
    ];
    let report = counted(alloc, Tool::Blocks, &events)?;
    assert_eq!(rt; report.row_count(), 2);
    let mut text = Vec::new(alloc);
    report.write_text(alloc, &mut text)?;
    assert_eq!(rt; text.as_slice(), b"00010000 1\n0001000C 2\n".as_slice());
    Ok(())
}

#[test]
fn calls_are_counted_by_target(rt: HostRuntime) -> Result<(), Fail> {
    let alloc = rt.alloc();
    let events = [
        Event::Call {
            at: 0x1_0008,
            to: 0x1_00ac,
        },
        Event::Call {
            at: 0x1_0010,
            to: 0x1_00ac,
        },
    ];
    let report = counted(alloc, Tool::Calls, &events)?;
    let mut text = Vec::from_slice(alloc, b"report calls 1\n")?;
    report.write_text(alloc, &mut text)?;
    assert_eq!(rt; text.as_slice(), b"report calls 1\n000100AC 2\n".as_slice());
    Ok(())
}

#[test]
fn accesses_are_counted_by_line_loads_first(rt: HostRuntime) -> Result<(), Fail> {
    let alloc = rt.alloc();
    let access = |addr: u32, size: u8, store: bool| Event::Mem {
        at: 0x2_0000,
        addr,
        size,
        store,
    };
    let events = [
        access(0xffff_ffff, 1, true),
        access(0x1_000c, 4, true),
        access(0x1_0003, 4, false),
        access(0x1_003f, 1, false),
        access(0x1_0040, 2, false),
    ];
    let report = counted(alloc, Tool::Memory, &events)?;
    let mut text = Vec::new(alloc);
    report.write_text(alloc, &mut text)?;
    let want = b"00010000 load 2\n00010000 store 1\n00010040 load 1\nFFFFFFC0 store 1\n";
    assert_eq!(rt; text.as_slice(), want.as_slice());
    Ok(())
}

#[test]
fn a_row_rises_by_many(rt: HostRuntime) -> Result<(), Fail> {
    let alloc = rt.alloc();
    let event = Event::Block { at: 8 };
    let mut report = counted(alloc, Tool::Blocks, &[])?;
    let key = key_of(&event);
    report.add_many(key, 999_999_999)?;
    report.raise(key, 1);
    let mut text = Vec::new(alloc);
    report.write_text(alloc, &mut text)?;
    assert_eq!(rt; text.as_slice(), b"00000008 1000000000\n".as_slice());
    assert!(rt; report.tool() == Tool::Blocks);
    Ok(())
}

fn crosses_threads<T: Send>(_: &T) {}

#[test]
fn a_report_crosses_threads(rt: HostRuntime) {
    crosses_threads(&Report::new(rt.alloc(), Tool::Blocks));
}
