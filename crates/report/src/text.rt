ghost use Rattle.std.specs.Prelude.{◌≡◌, ◌++◌, IfOk, OnOk, OnErr, string_bytes};
ghost use Rattle.std.specs.FinMap as fin;
ghost use Rattle.report.specs.Text.{hex, key_text, kind_text, report_text, row_text};

use crate::report::Report;
use probe_tools::Tool;
use std::alloc::{AllocError, Global};
use std::collections::BTreeMap;

impl Report {
    /// Appends its rows, rising by key, each as a line: `ADDRESS COUNT`, or for the tool `memory` `ADDRESS load COUNT` or
    /// `ADDRESS store COUNT`. An address has eight upper-case hexadecimal digits.
    pub fn write_text(&self, alloc: Global, out: &mut Vec<u8>) -> Result<(), AllocError>
        ensures ok { OnOk result (out.new.items ≡ out.old.items ++ report_text self.now) }
        ensures err { OnErr result (out.new.items ≡ out.old.items) }
    {
        let mut text = String::new(alloc);
        for (key, count) in &self.sorted(alloc)? {
            push_row(&mut text, self.tool(), *key, *count)?;
        }
        out.extend_from_slice(text.as_bytes())
    }

    // The counts in the order of their keys.
    fn sorted(&self, alloc: Global) -> Result<BTreeMap<u32, u64>, AllocError>
        ensures { IfOk result (λ rows. rows.entries ≡ fin.entries self.now.counts) }
    {
        let mut rows = BTreeMap::new(alloc);
        rows.extend(&self.counts)?;
        let _ = rows.len();
        Ok(rows)
    }
}

#[tactic(auto, unfolding(crate::specs::Text::row_text))]
fn push_row(text: &mut String, tool: Tool, key: u32, count: u64) -> Result<(), AllocError>
    ensures { OnOk result (string_bytes text.new ≡ string_bytes text.old ++ row_text tool (key, count)) }
{
    push_key(text, tool, key)?;
    writeln!(text, " {count}")
}

#[tactic(auto, unfolding(crate::specs::Text::key_text))]
fn push_key(text: &mut String, tool: Tool, key: u32) -> Result<(), AllocError>
    ensures { OnOk result (string_bytes text.new ≡ string_bytes text.old ++ key_text tool key) }
{
    match tool {
        Tool::Blocks => push_hex(text, key),
        Tool::Calls => push_hex(text, key),
        Tool::Memory => {
            push_hex(text, key - key % 2)?;
            text.push_str(kind_text(key % 2 == 1))
        }
    }
}

fn kind_text(store: bool) -> &'static str
    ensures { result.now ≡ kind_text store }
{
    if store { " store" } else { " load" }
}

/// Appends an address: eight upper-case hexadecimal digits.
pub fn push_hex(text: &mut String, n: u32) -> Result<(), AllocError>
    ensures { OnOk result (string_bytes text.new ≡ string_bytes text.old ++ hex n) }
{
    write!(text, "{n:08X}")
}
