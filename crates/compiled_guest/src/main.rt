//! A run of a guest that gcc compiled, of some forty thousand bytes in two segments: `letters.elf` of the working folder
//! is run to its exit under the manifest `letters.toml`, over a cache folder in memory, and its text is written to standard
//! output.
//!
//! It stands on `host`, `outside` and `shelf_model`.
#![tactic(auto)]

ghost use Rattle.std.specs.Prelude.{◌≡◌, Some, codes, false, IfOk};
ghost use Rattle.host.specs.Words.{order_of};

use host::host;
use outside::{DiskFiles, StdSink};
use shelf_model::MemShelf;
use std::alloc::{AllocError, Global};
use std::process::ExitCode;

fn main(rt: HostRuntime) -> ExitCode {
    let alloc = rt.alloc();
    let Ok(words) = words(alloc) else {
        return ExitCode::from(6);
    };
    let mut files = DiskFiles::new(rt, alloc);
    let mut shelf = MemShelf::new(alloc);
    let mut out = StdSink::new(rt);
    let ended = host(alloc, &words, &mut files, &mut shelf, &mut out);
    ExitCode::from(ended.status)
}

// The words that have the host run the guest.
fn words(alloc: Global) -> Result<Vec<String>, AllocError>
    ensures { IfOk result (λ words. order_of words.items ≡ Some (record { file = codes "letters.toml"; counts = false; journal = false })) }
{
    let mut words = Vec::new(alloc);
    words.push(String::from_str(alloc, "run")?)?;
    words.push(String::from_str(alloc, "letters.toml")?)?;
    Ok(words)
}
