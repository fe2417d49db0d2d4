// Live addresses, with the lengths of their blocks.
ghost use Rattle.std.specs.Prelude.{◌≡◌, ◌≤◌, ◌<◌, ◌+◌, ℕ, None, OnOk, OnErr};
ghost use Rattle.std.specs.FinMap as fin;
ghost use Rattle.code_writes.specs.Meeting.{Answers};

use crate::page::Block;
use crate::pages::{PAGE, Pages};
use cc_base::Span;
use std::alloc::{AllocError, Global};
use std::collections::BTreeMap;
use std::marker::Model;

/// Live addresses, each with the length of its block in bytes.
///
/// Each block stands in the lists of the pages of 256 bytes that it meets, which are one or two. So a write looks at the pages that it meets and at
/// no others.
#[derive(Drop)]
pub struct Covers {
    lens: BTreeMap<u32, u32>,
    pages: Pages,
}

impl Model for Covers {
    ghost use Rattle.std.specs.Prelude.{ℕ};
    ghost use Rattle.std.specs.Ordering.{nat_cmp};
    ghost use Rattle.std.specs.FinMap as fin;
    ghost use Rattle.std.specs.Coded.{coded_ℕ};

    ghost Value = { fin.FinMap nat_cmp ℕ };

    ghost coded = { fin.code coded_ℕ coded_ℕ };

    ghost use Rattle.std.specs.BTreeMap.{get};
    ghost use Rattle.code_writes.specs.Meeting.{AreShort};
    ghost use Rattle.code_writes.specs.Pages.{on_page};
    ghost use Rattle.code_writes.specs.Index.{IsIndex};

    ghost view = { λ a. fin.from_entries a.lens.entries };

    ghost invariant = { λ a. AreShort (get nat_cmp a.lens) × IsIndex (get nat_cmp a.lens) (on_page a.pages) };
}

impl Covers {
    /// No address is live.
    pub fn new(alloc: Global) -> Self
        ensures { result ≡ fin.empty }
    {
        Covers {
            lens: BTreeMap::new(alloc),
            pages: Pages::new(alloc),
        }
    }

    /// A block of this length is live there. The only error is want of memory.
    pub fn cover(&mut self, addr: u32, len: u32) -> Result<(), AllocError>
        requires absent { fin.get self.old addr ≡ None }
        requires some { 0 < len }
        requires short { len ≤ 256 }
        requires within { addr + len ≤ 4294967295 }
        ensures ok { OnOk result (self.new ≡ fin.insert self.old addr len) }
        ensures err { OnErr result (self.new ≡ self.old) }
    {
        let block = Block { addr, len };
        self.pages.add(block)?;
        if self.lens.insert(addr, len).is_err() {
            self.pages.cut(block);
            return Err(AllocError);
        }
        Ok(())
    }

    /// No block is live there. It takes no memory.
    pub fn uncover(&mut self, addr: u32)
        ensures { self.new ≡ fin.remove self.old addr }
    {
        if let Some(len) = self.lens.remove(&addr) {
            self.pages.cut(Block { addr, len });
        }
    }

    /// The first live address from `from` on whose block meets the span.
    pub fn first_meeting(&self, s: Span, from: u32) -> Option<u32>
        ensures { Answers (fin.get self.now) s.start s.len from result }
    {
        if s.len == 0 {
            return None;
        }
        let last = (s.start + (s.len - 1)) / PAGE;
        let mut page = s.start.max(from) / PAGE;
        while page <= last {
            let Some((held, first)) = self.pages.first_from(page, s, from) else {
                return None;
            };
            if held > last {
                return None;
            }
            if first.is_some() {
                return first;
            }
            page = held + 1;
        }
        None
    }
}
