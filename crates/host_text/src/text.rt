// The printed text of a guest.
ghost use Rattle.std.specs.Prelude.{◌≡◌, ◌++◌, length, string_bytes, IfOk, OnOk};
ghost use Rattle.std.specs.List.{flat_map};
ghost use Rattle.std.specs.FinMap as fin;
ghost use Rattle.guest_loop.specs.Guest.{counts_of};
ghost use Rattle.host_text.specs.Text.{end_text, kind_text, tool_text, end_line, report_line, counts_line, text_of, text_in};

use guest_loop::{Counts, Ran};
use plain_machine::{End, Kind};
use probe_tools::Tool;
use report::{Report, push_hex};
use std::alloc::{AllocError, Global};

/// What a run prints of its guests, one behind the other.
pub fn texts_of(alloc: Global, rans: &[Ran], with_counts: bool) -> Result<Vec<u8>, AllocError>
    ensures { IfOk result (λ text. text.items ≡ flat_map (text_in with_counts) rans.now) }
{
    let mut text = Vec::new(alloc);
    for ran in rans {
        text.extend_from_slice(&text_of(alloc, ran, with_counts)?)?;
    }
    Ok(text)
}

/// What a run prints of a guest: how it ended, its output, its report, and what was counted of its blocks, where that is
/// asked for.
pub fn text_of(alloc: Global, ran: &Ran, with_counts: bool) -> Result<Vec<u8>, AllocError>
    ensures { IfOk result (λ text. text.items ≡ text_in with_counts ran.now) }
{
    let output = ran.output.items();
    let end = end_line(alloc, ran.end.end, output.len())?;
    let report = report_line(alloc, &ran.report)?;
    let mut text = Vec::from_slice(alloc, b"guest ")?;
    text.extend_from_slice(ran.end.name.items())?;
    text.extend_from_slice(end.as_bytes())?;
    text.extend_from_slice(output)?;
    text.extend_from_slice(report.as_bytes())?;
    ran.report.write_text(alloc, &mut text)?;
    if with_counts {
        text.extend_from_slice(counts_line(alloc, ran.end.counts)?.as_bytes())?;
    }
    Ok(text)
}

// What stands behind a guest's name: its end, and how many bytes it wrote.
#[tactic(auto, unfolding(crate::specs::Text::end_line))]
fn end_line(alloc: Global, end: End, count: usize) -> Result<String, AllocError>
    ensures { IfOk result (λ text. string_bytes text ≡ end_line end count) }
{
    let mut text = String::new(alloc);
    text.push_str(" ")?;
    push_end(&mut text, end)?;
    writeln!(text, "\noutput {count}")?;
    Ok(text)
}

#[tactic(auto, unfolding(crate::specs::Text::end_text))]
fn push_end(text: &mut String, end: End) -> Result<(), AllocError>
    ensures { OnOk result (string_bytes text.new ≡ string_bytes text.old ++ end_text end) }
{
    match end {
        End::Exit(status) => write!(text, "exit {status}"),
        End::Fault { kind, pc } => {
            text.push_str("fault ")?;
            text.push_str(kind_text(kind))?;
            text.push_str(" ")?;
            push_hex(text, pc)
        }
        End::Fuel => text.push_str("fuel"),
        End::Unplaced => text.push_str("unplaced"),
    }
}

fn kind_text(kind: Kind) -> &'static str
    ensures { result.now ≡ kind_text kind }
{
    match kind {
        Kind::Fetch => "fetch",
        Kind::Misaligned => "misaligned",
        Kind::Load => "load",
        Kind::Store => "store",
        Kind::Illegal => "illegal",
        Kind::Break => "break",
        Kind::Output => "output",
    }
}

// What stands between the output and the rows: its tool, and how many rows there are.
#[tactic(auto, unfolding(crate::specs::Text::report_line))]
fn report_line(alloc: Global, report: &Report) -> Result<String, AllocError>
    ensures { IfOk result (λ text. string_bytes text ≡ report_line report.now) }
{
    let mut text = String::new(alloc);
    text.push_str("\nreport ")?;
    text.push_str(tool_text(report.tool()))?;
    let count = report.row_count();
    writeln!(text, " {count}")?;
    Ok(text)
}

fn tool_text(tool: Tool) -> &'static str
    ensures { result.now ≡ tool_text tool }
{
    match tool {
        Tool::Blocks => "blocks",
        Tool::Calls => "calls",
        Tool::Memory => "memory",
    }
}

// What was counted of a guest's blocks.
#[tactic(auto, unfolding(crate::specs::Text::counts_line))]
fn counts_line(alloc: Global, counts: Counts) -> Result<String, AllocError>
    ensures { IfOk result (λ text. string_bytes text ≡ counts_line (counts_of counts)) }
{
    let Counts {
        blocks,
        reused,
        built,
        linked,
    } = counts;
    let mut text = String::new(alloc);
    writeln!(
        text,
        "counts blocks {blocks} reused {reused} built {built} linked {linked}"
    )?;
    Ok(text)
}
