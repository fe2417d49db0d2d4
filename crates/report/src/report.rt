ghost use Rattle.std.specs.Prelude.{◌≡◌, ℕ, ◌+◌, ◌<◌, ◌≤◌, ◌^◌, ◌++◌, [], ◌∷◌, List, IsOk, IsSome, OnOk, OnErr};
ghost use Rattle.std.specs.FinMap as fin;
ghost use Rattle.probe_tools.specs.declared.event.Event.{Event};
ghost use Rattle.probe_tools.specs.Rows.{AreRows, count_at, key_of, with_more};

use probe_tools::{Event, Tool};
use std::alloc::{AllocError, Global};
use std::collections::HashMap;
use std::marker::Model;

/// A tool, and for each key that occurred how often it did.
#[derive(Drop)]
pub struct Report {
    pub(crate) tool: Tool,
    pub(crate) counts: HashMap<u32, u64>,
}

impl Model for Report {
    ghost use Rattle.std.specs.FinMap as fin;
    ghost use Rattle.report.specs.Rows.{Rows, rows_code};

    ghost Value = { Rows };

    ghost coded = { rows_code };

    ghost view = { λ r. record { tool = r.tool; counts = fin.from_entries r.counts.entries } };
}

/// The key of an event's row: a block's address, a call's target, or the line of 64 bytes that an access is in, and one
/// more for a store.
#[inline]
pub fn key_of(event: &Event) -> u32
    ensures { result ≡ key_of event.now }
{
    match *event {
        Event::Block { at } => at,
        Event::Call { at: _, to } => to,
        Event::Mem {
            at: _,
            addr,
            size: _,
            store,
        } => addr - addr % 64 + u32::from(store),
    }
}

impl Report {
    /// A report with no rows. It takes no memory.
    pub fn new(alloc: Global, tool: Tool) -> Report
        ensures report { result ≡ record { tool = tool; counts = fin.empty } }
        ensures none { (key : ℕ) → count_at result.counts key ≡ 0 }
    {
        Report {
            tool,
            counts: HashMap::new(alloc),
        }
    }

    /// Its tool.
    #[inline]
    pub fn tool(&self) -> Tool
        ensures { result ≡ self.now.tool }
    {
        self.tool
    }

    /// How many rows it has.
    pub fn row_count(&self) -> usize
        ensures { result ≡ fin.len self.now.counts }
    {
        self.counts.len()
    }

    /// Counts an event. Where its key has a row this is one look-up, and takes no memory.
    #[inline]
    pub fn add(&mut self, event: &Event) -> Result<(), AllocError>
        requires { count_at self.old.counts (key_of event.now) + 1 < 2 ^ 64 }
        ensures ok { OnOk result (self.new ≡ record self.old { counts = with_more (key_of event.now) 1 self.old.counts }) }
        ensures err { OnErr result (self.new ≡ self.old) }
        ensures certain { IsSome (fin.get self.old.counts (key_of event.now)) → IsOk result }
        ensures small { OnOk result ((key : ℕ) → count_at self.new.counts key ≤ count_at self.old.counts key + 1) }
        // the rows of some events are those of these and this one
        ensures rows { OnOk result ((events : List Event) → AreRows events self.old.counts → AreRows (events ++ event.now ∷ []) self.new.counts) }
    {
        self.add_many(key_of(event), 1)
    }

    /// Counts n events of a key. Where it has a row this takes no memory.
    #[inline]
    pub fn add_many(&mut self, key: u32, n: u64) -> Result<(), AllocError>
        requires { count_at self.old.counts key + n < 2 ^ 64 }
        ensures ok { OnOk result (self.new ≡ record self.old { counts = with_more key n self.old.counts }) }
        ensures err { OnErr result (self.new ≡ self.old) }
        ensures certain { IsSome (fin.get self.old.counts key) → IsOk result }
    {
        if let Some(count) = self.counts.get_mut(&key) {
            *count += n;
            return Ok(());
        }
        self.counts.insert(key, n)?;
        Ok(())
    }

    /// Counts n events of a key that has a row. It takes no memory.
    #[inline]
    pub fn raise(&mut self, key: u32, n: u64)
        requires row { IsSome (fin.get self.old.counts key) }
        requires small { count_at self.old.counts key + n < 2 ^ 64 }
        ensures { self.new ≡ record self.old { counts = with_more key n self.old.counts } }
    {
        if let Some(count) = self.counts.get_mut(&key) {
            *count += n;
            return;
        }
    }
}
