// The system's files and its standard output. What they hold no clause says.
ghost use Rattle.std.specs.Prelude.{◌≡◌, ◌<◌, ◌≤◌, ℕ, List, Err, take, length, vec_len, IfOk, OnOk, OnErr, IsErr};
ghost use Rattle.fault_counts.specs.Counts.{Rose, one_more};
ghost use Rattle.outside.specs.Sink.{with_bytes};

use crate::files::{FileErr, Files};
use crate::sink::{Sink, SinkFailed};
use fault_counts::raised;
use std::alloc::Global;
use std::fs::File;
use std::io::{self, ErrorKind, Read, Write};
use std::rt;

/// The files of the working folder.
#[derive(Drop)]
pub struct DiskFiles<R: rt::Files + Drop> {
    rt: R,
    alloc: Global,
    faults: u64,
}

impl<R: rt::Files + Drop> DiskFiles<R> {
    ghost use Rattle.outside.specs.Adapters.{disk_faults};

    /// The files as the runtime opens them.
    pub fn new(rt: R, alloc: Global) -> Self
        ensures { disk_faults result ≡ 0 }
    {
        DiskFiles {
            rt,
            alloc,
            faults: 0,
        }
    }
}

// The bytes of a file, at most so many.
fn read_file<R: rt::Files>(
    rt: &R,
    alloc: Global,
    name: &str,
    limit: u32,
) -> Result<Vec<u8>, FileErr>
    ensures { IfOk result (λ read. vec_len read ≤ limit) }
{
    let Ok(mut file) = File::open(rt, name) else {
        return Err(FileErr::Failed);
    };
    let mut bytes = Vec::new(alloc);
    let mut buffer = [0u8; 4096];
    for _ in 0..u64::MAX {
        match file.read(&mut buffer) {
            Ok(0) => return Ok(bytes),
            Ok(count) => {
                if count > limit as usize - bytes.len() {
                    return Err(FileErr::TooLong);
                }
                bytes.extend_from_slice(&buffer[..count])?;
            }
            Err(e) if e.kind() == ErrorKind::Interrupted => {}
            Err(_) => return Err(FileErr::Failed),
        }
    }
    Err(FileErr::Failed)
}

impl<R: rt::Files + Drop> Files for DiskFiles<R> {
    ghost use Rattle.outside.specs.Told.{Untold, ForContent};
    ghost use Rattle.outside.specs.Adapters.{disk_faults};

    ghost content = { λ files name. Untold };

    ghost faults = { λ files name. disk_faults files };

    fn read(&mut self, name: &str, limit: u32) -> Result<Vec<u8>, FileErr>
        ensures bytes { IfOk result (λ read. ForContent Untold (λ bytes. read.items ≡ bytes)) }
        ensures within { IfOk result (λ read. vec_len read ≤ limit) }
        ensures too_long { result ≡ Err FileErr.TooLong → ForContent Untold (λ bytes. limit < length bytes) }
        ensures failed { result ≡ Err FileErr.Failed → Rose (disk_faults self.old) (disk_faults self.new) }
        ensures kept { (n : List ℕ) → Untold ≡ Untold }
        ensures never_falls { (n : List ℕ) → disk_faults self.old ≤ disk_faults self.new }

        // Just the reads that give no bytes are counted.
        ensures counted { OnErr result (disk_faults self.new ≡ one_more (disk_faults self.old)) }
        ensures uncounted { OnOk result (disk_faults self.new ≡ disk_faults self.old) }
    {
        let read = read_file(&self.rt, self.alloc, name, limit);
        if read.is_err() {
            self.faults = raised(self.faults);
        }
        read
    }
}

/// Standard output.
#[derive(Drop)]
pub struct StdSink<R: Print + Drop> {
    rt: R,
    faults: u64,
}

impl<R: Print + Drop> StdSink<R> {
    ghost use Rattle.outside.specs.Adapters.{output_faults};

    /// The output of the runtime.
    pub fn new(rt: R) -> Self
        ensures { output_faults result ≡ 0 }
    {
        StdSink { rt, faults: 0 }
    }
}

impl<R: Print + Drop> Sink for StdSink<R> {
    ghost use Rattle.outside.specs.Adapters.{untold, output_faults};

    ghost written = { λ sink. untold };

    ghost faults = { λ sink. output_faults sink };

    fn write(&mut self, piece: &[u8]) -> Result<usize, SinkFailed>
        ensures count { IfOk result (λ n. n ≤ length piece.now) }
        ensures some { IfOk result (λ n. 0 < length piece.now → 0 < n) }
        ensures appended { IfOk result (λ n. untold ≡ with_bytes untold (take n piece.now)) }
        ensures err { OnErr result (untold ≡ untold) }
        ensures failed { IsErr result → Rose (output_faults self.old) (output_faults self.new) }
        ensures never_falls { output_faults self.old ≤ output_faults self.new }

        // Just the writes that fail are counted.
        ensures counted { OnErr result (output_faults self.new ≡ one_more (output_faults self.old)) }
        ensures uncounted { OnOk result (output_faults self.new ≡ output_faults self.old) }
    {
        match io::writer(&self.rt).write(piece) {
            Ok(count) if count > 0 || piece.is_empty() => Ok(count),
            _ => {
                self.faults = raised(self.faults);
                Err(SinkFailed)
            }
        }
    }
}
