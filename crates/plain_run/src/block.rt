// The block that is open: where it ends, and what it may still take.
ghost use Rattle.std.specs.Prelude.{◌≡◌, ◌||◌, ◌-◌, ◌≤◌, if◌then◌else◌, Option, Some};
ghost use Rattle.plain_machine.specs.Region.{Area};
ghost use Rattle.plain_machine.specs.Memory.{Memory};
ghost use Rattle.plain_machine.specs.Machine.{State};
ghost use Rattle.plain_machine.specs.Cut.{begins, ends_block, leaves, touched};
ghost use Rattle.plain_run.specs.Places.{LiesAt};

use cc_base::{Span, holds_word};
use fragment::ends_block;
use plain_machine::{Cpu, Done};
use rv_decode::Ins;

/// The block that is open: how many more instructions it may take, and where the region lies that the instruction
/// before is in, if there was one.
#[derive(Clone, Copy, Debug)]
pub struct OpenBlock {
    pub room: u8,
    pub region: Option<Span>,
}

impl OpenBlock {
    /// Whether the instruction at `pc` begins a block.
    pub fn is_left_at(&self, pc: u32) -> bool
        ensures { (place : Option Area) (s : State) → s.cpu.pc ≡ pc → LiesAt self.now.region place → result ≡ begins self.now.room place s }
    {
        self.room == 0 || leaves(self.region, pc)
    }
}

// Whether the instruction at `pc` is outside this region.
fn leaves(region: Option<Span>, pc: u32) -> bool
    ensures { (place : Option Area) (s : State) → s.cpu.pc ≡ pc → LiesAt region place → result ≡ leaves place s }
{
    match region {
        None => true,
        Some(region) => !holds_word(region, pc),
    }
}

/// How many more instructions a block of at most `max` may take behind one that begins it or not, and closes it or not.
pub fn room_after(max: u8, room: u8, begun: bool, closes: bool) -> u8
    ensures { result ≡ (if closes then 0 else (if begun then max - 1 else room - 1)) }
{
    if closes {
        0
    } else if begun {
        max.saturating_sub(1)
    } else {
        room.saturating_sub(1)
    }
}

/// Whether a block ends with this instruction, which did so.
pub fn closes(ins: Ins, done: &Done) -> bool
    ensures { (c : Cpu) (m : Memory) → result ≡ (ends_block ins || touched (done.now, c, m)) }
{
    ends_block(&ins) || is_touched(done)
}

// Whether it was a store into code.
fn is_touched(done: &Done) -> bool
    ensures { (c : Cpu) (m : Memory) → result ≡ touched (done.now, c, m) }
{
    match done {
        Done::Touched(_) => true,
        Done::Next => false,
        Done::Taken => false,
        Done::Asked => false,
        Done::Fault(_) => false,
    }
}
