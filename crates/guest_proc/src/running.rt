// What runs, its limits, and what a guest is run with.
ghost use Rattle.std.specs.Prelude.{◌<◌, ◌≤◌};

use cc_base::Blob;
use guest_calls::GuestIo;
use guest_mem::Mem;
use plain_machine::Cpu;
use probe_tools::Tool;
use report::Report;
use rv_decode::Isa;

/// A guest that runs: its processor, memory and calls, its report, and how many instructions may still be done.
#[derive(Drop)]
pub struct Running {
    pub cpu: Cpu,
    pub mem: Mem,
    pub io: GuestIo,
    pub report: Report,
    pub fuel: u64,
}

/// The most instructions of a block, and the most blocks of its own that a process keeps.
#[derive(Clone, Copy, Debug)]
pub struct Limits {
    pub max: u8,
    pub pool: u32,
    ghost some: { 0 < max },
    ghost most: { max ≤ 64 },
    ghost room: { 0 < pool },
}

/// What a guest is run with: its instruction set, its tool, the most instructions of a block, the most instructions that
/// are done, the most blocks of its own that it keeps, the size of its stack in bytes, and its input.
#[derive(Drop)]
pub struct Setup {
    pub isa: Isa,
    pub tool: Tool,
    pub max: u8,
    pub fuel: u64,
    pub pool: u32,
    pub stack: u32,
    pub input: Blob,
    ghost some_max: { 0 < max },
    ghost max_fits: { max ≤ 64 },
    ghost fuel_fits: { fuel ≤ 1000000000 },
    ghost some_pool: { 0 < pool },
    ghost some_stack: { 0 < stack },
    ghost stack_fits: { stack ≤ 1048576 },
}
