//! Runs the guests of a manifest: `cachehost run FILE`, with the options `--counts` and `--journal`, on the files of the working
//! folder, its folder `unit-cache` and standard output. The exit status is the host's. It stands on `host`, `outside` and
//! `shelf_model`, and on the clauses of `host::host` for the rest.
#![tactic(auto)]

use host::host;
use outside::{DiskFiles, StdSink};
use shelf_model::DiskShelf;
use std::alloc::Global;
use std::io::ErrorKind;
use std::process::ExitCode;
use std::rt::Env;
use std::{env, io};

/// The status where memory runs out before the host is called.
const NO_MEMORY: u8 = 6;

fn main(rt: HostRuntime) -> ExitCode {
    let alloc = rt.alloc();
    let words = match words_of(&rt, alloc) {
        Ok(words) => words,
        Err(error) if error.kind() == ErrorKind::OutOfMemory => {
            return ExitCode::from(NO_MEMORY);
        }
        // A word that is no text is in no command, and the host refuses the empty one.
        Err(_) => Vec::new(alloc),
    };
    let mut files = DiskFiles::new(rt, alloc);
    let mut shelf = DiskShelf::new(rt, alloc);
    let mut out = StdSink::new(rt);
    let ended = host(alloc, &words, &mut files, &mut shelf, &mut out);
    ExitCode::from(ended.status)
}

// The words after the program's name.
fn words_of(rt: &(impl Env + AllocGlobal), alloc: Global) -> io::Result<Vec<String>> {
    let mut words = Vec::new(alloc);
    for word in env::args(rt)?.skip(1) {
        words.push(word)?;
    }
    Ok(words)
}
