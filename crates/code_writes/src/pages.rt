// The blocks of a process, by the pages of 256 bytes that they meet.
ghost use Rattle.std.specs.Prelude.{◌≡◌, ℕ, ◌+◌, ◌<◌, ◌≤◌, [], ◌∷◌, ◌++◌, cond, ◌==◌, false, IsTrue, OnOk, OnErr, IfSome, IfNone};
ghost use Rattle.code_writes.specs.Block.{passes, without, FirstIn, is_on};
ghost use Rattle.code_writes.specs.Pages.{on_page};

use crate::page::{Block, Page};
use cc_base::Span;
use std::alloc::{AllocError, Global};
use std::collections::BTreeMap;

/// How many bytes a page has.
pub const PAGE: u32 = 256;

/// A list of blocks for each page that has some.
#[derive(Drop)]
pub struct Pages {
    alloc: Global,
    lists: BTreeMap<u32, Page>,
}

impl Pages {
    /// No blocks.
    pub(crate) fn new(alloc: Global) -> Pages
        ensures { (p : ℕ) → on_page result p ≡ [] }
    {
        Pages {
            alloc,
            lists: BTreeMap::new(alloc),
        }
    }

    /// Adds the block to the pages that it meets, which are one or two. Want of memory leaves it in none.
    pub(crate) fn add(&mut self, block: Block) -> Result<(), AllocError>
        requires some { 0 < block.len }
        requires short { block.len ≤ 256 }
        requires within { block.addr + block.len ≤ 4294967295 }
        ensures ok { OnOk result ((p : ℕ) → on_page self.new p ≡ cond (is_on block.addr block.len p) (on_page self.old p ++ block ∷ []) (on_page self.old p)) }
        ensures err { OnErr result ((p : ℕ) → on_page self.new p ≡ cond (is_on block.addr block.len p) (without block.addr (on_page self.old p)) (on_page self.old p)) }
    {
        let added = self.add_to_each(block);
        if added.is_err() {
            self.cut(block);
        }
        added
    }

    /// Takes the block out of its pages. It takes no memory.
    pub(crate) fn cut(&mut self, block: Block)
        requires some { 0 < block.len }
        requires short { block.len ≤ 256 }
        requires within { block.addr + block.len ≤ 4294967295 }
        ensures { (p : ℕ) → on_page self.new p ≡ cond (is_on block.addr block.len p) (without block.addr (on_page self.old p)) (on_page self.old p) }
    {
        let first = block.addr / PAGE;
        let last = (block.addr + (block.len - 1)) / PAGE;
        self.cut_from(first, block.addr);
        if last > first {
            self.cut_from(last, block.addr);
        }
    }

    /// The first page from `low` on that has blocks, with the least address from `from` on of those that meet the span.
    pub(crate) fn first_from(&self, low: u32, s: Span, from: u32) -> Option<(u32, Option<u32>)>
        ensures none { IfNone result ((p : ℕ) → low ≤ p → on_page self.now p ≡ []) }
        ensures low { IfSome result (λ found. low ≤ found.0) }
        ensures passed { IfSome result (λ found. (p : ℕ) → low ≤ p → p < found.0 → on_page self.now p ≡ []) }
        ensures first { IfSome result (λ found. FirstIn (passes s.start s.len from) (on_page self.now found.0) found.1) }
    {
        match self.lists.range(low..).next() {
            None => None,
            Some((page, list)) => Some((*page, list.first(s, from))),
        }
    }

    // Adds the block to the pages that it meets, or at want of memory to the first or to none.
    fn add_to_each(&mut self, block: Block) -> Result<(), AllocError>
        requires some { 0 < block.len }
        requires short { block.len ≤ 256 }
        requires within { block.addr + block.len ≤ 4294967295 }
        ensures ok { OnOk result ((p : ℕ) → on_page self.new p ≡ cond (is_on block.addr block.len p) (on_page self.old p ++ block ∷ []) (on_page self.old p)) }
        ensures others { OnErr result ((p : ℕ) → is_on block.addr block.len p ≡ false → on_page self.new p ≡ on_page self.old p) }
        ensures err { OnErr result ((p : ℕ) → without block.addr (on_page self.new p) ≡ without block.addr (on_page self.old p)) }
    {
        let first = block.addr / PAGE;
        let last = (block.addr + (block.len - 1)) / PAGE;
        self.add_to(first, block)?;
        if last > first {
            self.add_to(last, block)?;
        }
        Ok(())
    }

    fn add_to(&mut self, page: u32, block: Block) -> Result<(), AllocError>
        ensures ok { OnOk result ((p : ℕ) → on_page self.new p ≡ cond (p == page) (on_page self.old p ++ block ∷ []) (on_page self.old p)) }
        ensures err { OnErr result ((p : ℕ) → on_page self.new p ≡ on_page self.old p) }
    {
        match self.lists.get_mut(&page) {
            Some(list) => list.add(block),
            None => self.add_page(page, block),
        }
    }

    // The first block of a page.
    fn add_page(&mut self, page: u32, block: Block) -> Result<(), AllocError>
        requires { on_page self.old page ≡ [] }
        ensures ok { OnOk result ((p : ℕ) → on_page self.new p ≡ cond (p == page) (on_page self.old p ++ block ∷ []) (on_page self.old p)) }
        ensures err { OnErr result ((p : ℕ) → on_page self.new p ≡ on_page self.old p) }
    {
        let mut list = Page::new(self.alloc);
        list.add(block)?;
        self.lists.insert(page, list)?;
        Ok(())
    }

    // A page that has no block left has no list.
    fn cut_from(&mut self, page: u32, addr: u32)
        ensures { (p : ℕ) → on_page self.new p ≡ cond (p == page) (without addr (on_page self.old p)) (on_page self.old p) }
    {
        if self.cut_is_last(page, addr) {
            self.lists.remove(&page);
        }
    }

    // Whether the list of the page is empty after the cut.
    fn cut_is_last(&mut self, page: u32, addr: u32) -> bool
        ensures cut { (p : ℕ) → on_page self.new p ≡ cond (p == page) (without addr (on_page self.old p)) (on_page self.old p) }
        ensures last { IsTrue result → on_page self.new page ≡ [] }
    {
        let Some(list) = self.lists.get_mut(&page) else {
            return false;
        };
        list.cut(addr);
        list.is_empty()
    }
}
