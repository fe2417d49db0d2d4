// The blocks that meet one page.
ghost use Rattle.std.specs.Prelude.{◌≡◌, [], ◌∷◌, ◌++◌, IsTrue, ◌↔◌, OnOk, OnErr};
ghost use Rattle.code_writes.specs.Block.{passes, without, FirstIn, least_of};

use cc_base::Span;
use std::alloc::{AllocError, Global};
use std::marker::Model;

/// A live block: its address and its length in bytes.
#[derive(Clone, Copy)]
pub struct Block {
    pub addr: u32,
    pub len: u32,
}

impl Block {
    // Whether it begins at `from` or behind, and has a byte in the span.
    fn is_met(self, s: Span, from: u32) -> bool
        ensures { result ≡ passes s.start s.len from self }
    {
        let start = self.addr.max(s.start);
        let end = (u64::from(self.addr) + u64::from(self.len)).min(u64::from(s.start + s.len));
        from <= self.addr && u64::from(start) < end
    }
}

/// Blocks in a row, in no order.
#[derive(Drop)]
pub struct Page {
    blocks: Vec<Block>,
}

impl Model for Page {
    ghost use Rattle.std.specs.Prelude.{List};
    ghost use Rattle.code_writes.specs.declared.page.Block.{Block};

    ghost Value = { List Block };

    ghost view = { λ p. p.blocks.items };
}

impl Page {
    /// No block.
    pub(crate) fn new(alloc: Global) -> Page
        ensures { result ≡ [] }
    {
        Page {
            blocks: Vec::new(alloc),
        }
    }

    pub(crate) fn is_empty(&self) -> bool
        ensures { IsTrue result ↔ (self.now ≡ []) }
    {
        self.blocks.is_empty()
    }

    /// One block more.
    pub(crate) fn add(&mut self, block: Block) -> Result<(), AllocError>
        ensures ok { OnOk result (self.new ≡ self.old ++ block ∷ []) }
        ensures err { OnErr result (self.new ≡ self.old) }
    {
        self.blocks.push(block)?;
        Ok(())
    }

    /// Takes out what begins at the address. It takes no memory.
    pub(crate) fn cut(&mut self, addr: u32)
        ensures { self.new ≡ without addr self.old }
    {
        self.blocks.retain(|block| block.addr != addr);
    }

    /// The least address from `from` on of a block that meets the span.
    pub(crate) fn first(&self, s: Span, from: u32) -> Option<u32>
        ensures { FirstIn (passes s.start s.len from) self.now result }
    {
        let mut first = None;
        for block in &self.blocks {
            if block.is_met(s, from) {
                first = Some(lesser(first, block.addr));
            }
        }
        first
    }
}

// The lesser of the two, where there is one to compare with.
fn lesser(first: Option<u32>, addr: u32) -> u32
    ensures { result ≡ least_of first addr }
{
    match first {
        None => addr,
        Some(other) => other.min(addr),
    }
}
