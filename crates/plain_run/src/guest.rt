ghost use Rattle.std.specs.Prelude.{◌≤◌, ◌<◌};

use cc_base::Blob;
use plain_machine::End;
use probe_tools::Tool;
use report::Report;
use rv_decode::Isa;

/// What a guest is run with: its instruction set, its tool, the most instructions of a block, the most instructions that
/// are done, the size of its stack in bytes, and its input.
#[derive(Drop)]
pub struct Setup {
    pub isa: Isa,
    pub tool: Tool,
    pub max: u8,
    pub fuel: u64,
    pub stack: u32,
    pub input: Blob,
    ghost some_max: { 0 < max },
    ghost max_fits: { max ≤ 64 },
    ghost fuel_fits: { fuel ≤ 1000000000 },
    ghost some_stack: { 0 < stack },
    ghost stack_fits: { stack ≤ 1048576 },
}

/// The one module of a guest: where it is to stand, and the number of the file that it is at the start.
#[derive(Clone, Copy, Debug)]
pub struct Module {
    pub base: u32,
    pub file: u32,
}

/// What a run told: how it ended, the files that the guest's module was mapped from, in order, what it wrote, and its
/// report.
#[derive(Drop)]
pub struct Ran {
    pub end: End,
    pub maps: Vec<u32>,
    pub output: Blob,
    pub report: Report,
}
