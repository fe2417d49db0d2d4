//! What a host reads from and writes to: files by name, and a sink. Each trait has meanings, which its contracts speak
//! of, and a count of faults; there are objects in memory, some of which fail calls by their number, and adapters over
//! the working folder and standard output. It stands on
//! `fault_counts`. What stands above uses the clauses of [`Files`] and
//! [`Sink`], and in tests those of the objects in memory.
#![tactic(auto)]

pub mod disk;
pub mod files;
pub mod sink;
#[cfg(test)]
mod tests;

ghost use Rattle.std.specs.Prelude.{◌↔◌, Contains, IsTrue};

pub use disk::{DiskFiles, StdSink};
pub use files::{FileErr, Files, FuseFiles, MemFiles};
pub use sink::{FuseSink, MemSink, Sink, SinkFailed};

// The call of this number is among those listed.
fn is_listed(calls: &[u32], call: u64) -> bool
    ensures { IsTrue result ↔ Contains calls.now call }
{
    calls.iter().any(|listed| u64::from(*listed) == call)
}
