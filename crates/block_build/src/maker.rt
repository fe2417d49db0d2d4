// Sources of blocks.
ghost use Rattle.std.specs.Prelude.{◌≡◌, ℕ, ◌+◌, ◌<◌, ◌≤◌, List, [], IfOk, OnErr};
ghost use Rattle.fragment.specs.Build.{built};
ghost use Rattle.fragment.specs.View.{shown};
ghost use Rattle.block_build.specs.Making.{Makes};

use crate::builder::build;
use cc_base::{CodeView, Steps};
use fragment::Fragment;
use probe_tools::Tool;
use rv_decode::Isa;
use std::alloc::{AllocError, Global};
use std::sync::ledger::Ledger;

/// A source of blocks as they are built: it builds them, or takes them where they are already.
pub trait Maker {
    // From where blocks were taken: the address of each, and its index there.
    ghost taken: { Self → List (ℕ × ℕ) };

    /// The block at an address of a code, as `build` has it. Where there is one, either it was built and counts one step,
    /// or it was taken. After an `Err` nothing was counted or taken.
    fn make<L: Ledger>(
        &mut self,
        alloc: Global,
        code: CodeView<'_>,
        addr: u32,
        isa: Isa,
        tool: Tool,
        max: u8,
        steps: &mut Steps<L>,
    ) -> Result<Option<Fragment>, AllocError>
        requires some { 0 < max }
        requires most { max ≤ 64 }
        ensures built { IfOk result (λ block. block ≡ built (shown code.entry) addr isa tool max) }
        ensures counts { IfOk result (λ block. Makes addr block steps.old steps.new (taken self.old) (taken self.new)) }
        ensures err { OnErr result ((steps.new ≡ steps.old) × (taken self.new ≡ taken self.old)) };
}

/// The maker that builds each block, and takes none.
#[derive(Clone, Copy, Debug)]
pub struct PlainMaker;

impl Maker for PlainMaker {
    ghost taken = { λ _. [] };

    fn make<L: Ledger>(
        &mut self,
        alloc: Global,
        code: CodeView<'_>,
        addr: u32,
        isa: Isa,
        tool: Tool,
        max: u8,
        steps: &mut Steps<L>,
    ) -> Result<Option<Fragment>, AllocError> {
        build(alloc, code, addr, isa, tool, max, steps)
    }
}
