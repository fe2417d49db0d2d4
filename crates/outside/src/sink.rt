// Where a text is written, piece by piece.
ghost use Rattle.std.specs.Prelude.{◌≡◌, ◌<◌, ◌≤◌, ◌-◌, ◌↔◌, ◌⊎◌, ℕ, List, [], Option, Some, take, length, min, Contains, IfOk, OnOk, OnErr, IsErr, vec_len, vec_capacity};
ghost use Rattle.fault_counts.specs.Counts.{Rose, one_more};
ghost use Rattle.outside.specs.Sink.{with_bytes};

use crate::is_listed;
use fault_counts::raised;
use std::alloc::{AllocError, Global};

/// A write that took nothing.
#[derive(Clone, Copy, Debug, PartialEq, Eq)]
pub struct SinkFailed;

/// What takes bytes.
pub trait Sink {
    /// The bytes so far, where that is told.
    ghost written: { Self → Option (List ℕ) };

    /// How often a write has failed.
    ghost faults: { Self → ℕ };

    /// Appends a front of the piece, and answers its length: one byte at least, unless the piece is empty.
    fn write(&mut self, piece: &[u8]) -> Result<usize, SinkFailed>
        ensures count { IfOk result (λ n. n ≤ length piece.now) }
        ensures some { IfOk result (λ n. 0 < length piece.now → 0 < n) }
        ensures appended { IfOk result (λ n. written self.new ≡ with_bytes (written self.old) (take n piece.now)) }
        ensures err { OnErr result (written self.new ≡ written self.old) }
        ensures failed { IsErr result → Rose (faults self.old) (faults self.new) }
        ensures never_falls { faults self.old ≤ faults self.new };
}

/// A sink in memory, which has room for so many bytes and fails where it is full.
#[derive(Drop)]
pub struct MemSink {
    bytes: Vec<u8>,
    room: u32,
    faults: u64,
    ghost within: { vec_len bytes ≤ room },
    ghost reserved: { room ≤ vec_capacity bytes },
}

impl MemSink {
    ghost use Rattle.outside.specs.MemSink.{sink_bytes, room_of, sink_faults};

    /// An empty sink. It reserves its room, so that no write takes memory.
    pub fn new(alloc: Global, room: u32) -> Result<Self, AllocError>
        ensures empty { IfOk result (λ sink. sink_bytes sink ≡ []) }
        ensures room { IfOk result (λ sink. room_of sink ≡ room) }
        ensures faults { IfOk result (λ sink. sink_faults sink ≡ 0) }
    {
        Ok(MemSink {
            bytes: Vec::with_capacity(alloc, room as usize)?,
            room,
            faults: 0,
        })
    }

    /// What was written.
    pub fn bytes(&self) -> &[u8]
        ensures { result.now ≡ sink_bytes self.now }
    {
        &self.bytes
    }
}

impl Sink for MemSink {
    ghost use Rattle.outside.specs.MemSink.{sink_bytes, room_of, sink_faults};

    ghost written = { λ sink. Some (sink_bytes sink) };

    ghost faults = { sink_faults };

    fn write(&mut self, piece: &[u8]) -> Result<usize, SinkFailed>
        ensures count { IfOk result (λ n. n ≤ length piece.now) }
        ensures some { IfOk result (λ n. 0 < length piece.now → 0 < n) }
        ensures appended { IfOk result (λ n. Some (sink_bytes self.new) ≡ with_bytes (Some (sink_bytes self.old)) (take n piece.now)) }
        ensures err { OnErr result (Some (sink_bytes self.new) ≡ Some (sink_bytes self.old)) }
        ensures failed { IsErr result → Rose (sink_faults self.old) (sink_faults self.new) }
        ensures never_falls { sink_faults self.old ≤ sink_faults self.new }

        // It takes what there is room for, and fails where there is none.
        ensures taken { IfOk result (λ n. n ≡ min (length piece.now) (room_of self.old - length (sink_bytes self.old))) }
        ensures full { IsErr result ↔ ((0 < length piece.now) × (room_of self.old ≤ length (sink_bytes self.old))) }
        ensures room { room_of self.new ≡ room_of self.old }
        ensures counted { OnErr result (sink_faults self.new ≡ one_more (sink_faults self.old)) }
        ensures uncounted { OnOk result (sink_faults self.new ≡ sink_faults self.old) }
    {
        let count = piece.len().min(self.room as usize - self.bytes.len());
        if count == 0 && !piece.is_empty() {
            self.faults = raised(self.faults);
            return Err(SinkFailed);
        }
        match self.bytes.extend_from_slice(&piece[..count]) {
            Ok(()) => Ok(count),
            Err(_) => unreachable!("the room is reserved"),
        }
    }
}

/// A sink in memory of which the listed calls of `write` fail, and which takes at most `most` bytes a call. The first
/// call has the number 1.
#[derive(Drop)]
pub struct FuseSink {
    sink: MemSink,
    fails: Vec<u32>,
    most: u32,
    calls: u64,
    ghost takes: { 0 < most },
}

impl FuseSink {
    ghost use Rattle.outside.specs.MemSink.{fuse_bytes, fuse_room, fuse_faults, listed_calls, calls_made, most_of};

    /// An empty sink with this room, and the numbers of the calls that fail, in any order.
    pub fn new(alloc: Global, room: u32, fails: Vec<u32>, most: u32) -> Result<Self, AllocError>
        requires { 0 < most }
        ensures empty { IfOk result (λ sink. fuse_bytes sink ≡ []) }
        ensures room { IfOk result (λ sink. fuse_room sink ≡ room) }
        ensures faults { IfOk result (λ sink. fuse_faults sink ≡ 0) }
        ensures listed { IfOk result (λ sink. listed_calls sink ≡ fails.items) }
        ensures calls { IfOk result (λ sink. calls_made sink ≡ 0) }
        ensures most { IfOk result (λ sink. most_of sink ≡ most) }
    {
        Ok(FuseSink {
            sink: MemSink::new(alloc, room)?,
            fails,
            most,
            calls: 0,
        })
    }

    /// What was written.
    pub fn bytes(&self) -> &[u8]
        ensures { result.now ≡ fuse_bytes self.now }
    {
        self.sink.bytes()
    }
}

impl Sink for FuseSink {
    ghost use Rattle.outside.specs.MemSink.{fuse_bytes, fuse_room, fuse_faults, listed_calls, calls_made, most_of};

    ghost written = { λ fuse. Some (fuse_bytes fuse) };

    ghost faults = { fuse_faults };

    fn write(&mut self, piece: &[u8]) -> Result<usize, SinkFailed>
        ensures count { IfOk result (λ n. n ≤ length piece.now) }
        ensures some { IfOk result (λ n. 0 < length piece.now → 0 < n) }
        ensures appended { IfOk result (λ n. Some (fuse_bytes self.new) ≡ with_bytes (Some (fuse_bytes self.old)) (take n piece.now)) }
        ensures err { OnErr result (Some (fuse_bytes self.new) ≡ Some (fuse_bytes self.old)) }
        ensures failed { IsErr result → Rose (fuse_faults self.old) (fuse_faults self.new) }
        ensures never_falls { fuse_faults self.old ≤ fuse_faults self.new }

        // It takes what the call may take and what there is room for. Just the listed calls and those without room fail, and
        // just they are counted.
        ensures calls { calls_made self.new ≡ one_more (calls_made self.old) }
        ensures same_list { listed_calls self.new ≡ listed_calls self.old }
        ensures same_most { most_of self.new ≡ most_of self.old }
        ensures room { fuse_room self.new ≡ fuse_room self.old }
        ensures taken { IfOk result (λ n. n ≡ min (min (length piece.now) (most_of self.old)) (fuse_room self.old - length (fuse_bytes self.old))) }
        ensures listed { IsErr result ↔ (Contains (listed_calls self.old) (calls_made self.new) ⊎ ((0 < length piece.now) × (fuse_room self.old ≤ length (fuse_bytes self.old)))) }
        ensures counted { OnErr result (fuse_faults self.new ≡ one_more (fuse_faults self.old)) }
        ensures uncounted { OnOk result (fuse_faults self.new ≡ fuse_faults self.old) }
    {
        self.calls = raised(self.calls);
        if is_listed(&self.fails, self.calls) {
            self.sink.faults = raised(self.sink.faults);
            return Err(SinkFailed);
        }
        let count = piece.len().min(self.most as usize);
        self.sink.write(&piece[..count])
    }
}
