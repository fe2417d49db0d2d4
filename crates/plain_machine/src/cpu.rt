ghost use Rattle.std.specs.Prelude.{◌≡◌, ◌<◌, slice_index, replicate};
ghost use Rattle.plain_machine.specs.Registers.{with_register};

use crate::ends::Kind;
use cc_base::Span;
use rv_decode::Isa;
use std::marker::Model;

/// The 32 registers, of which number 0 reads 0 (the unprivileged manual, "Programmers' Model for Base Integer ISA").
#[derive(Clone, Copy, Debug, PartialEq, Eq)]
pub struct Regs {
    x: [u32; 32],
}

impl Model for Regs {
    ghost use Rattle.std.specs.Prelude.{◌≡◌, List, ℕ, slice_index};

    ghost Value = { List ℕ };

    ghost view = { λ r. r.x };

    ghost invariant = { λ r. slice_index r.x 0 ≡ 0 };

    ghost inverse = { λ xs. record { x = xs } };
}

impl Regs {
    /// All are 0.
    pub fn new() -> Regs
        ensures { result ≡ replicate 32 0 }
    {
        Regs { x: [0; 32] }
    }

    /// What the register reads.
    pub fn get(&self, r: u8) -> u32
        requires { r < 32 }
        ensures { result ≡ slice_index self.now r }
    {
        self.x[usize::from(r)]
    }

    /// Writes the register; number 0 stays 0.
    pub fn set(&mut self, r: u8, value: u32)
        requires { r < 32 }
        ensures { self.new ≡ with_register self.old r value }
    {
        if r != 0 {
            self.x[usize::from(r)] = value;
        }
    }
}

/// A processor: its program counter, instruction set and registers.
#[derive(Clone, Copy, Debug, PartialEq, Eq)]
pub struct Cpu {
    pub pc: u32,
    pub isa: Isa,
    pub regs: Regs,
}

/// What the step of a word did.
#[derive(Clone, Copy, Debug, PartialEq, Eq)]
pub enum Done {
    /// Control goes on behind it.
    Next,
    /// Control was transferred.
    Taken,
    /// It calls the system, and changed nothing.
    Asked,
    /// It stored these bytes, and met an executable region.
    Touched(Span),
    /// It could not be done, and changed nothing.
    Fault(Kind),
}
