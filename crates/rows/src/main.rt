//! Worked rows of whole runs: each is told line by line on standard input (its files, what its shelf holds, which calls fail,
//! the words of its runs), and what comes of each run is written to standard output: the status, how each slot was loaded and
//! published, the text, and what the shelf then holds. `bench/rows` writes both, the second from the rules and not from a run.
//!
//! It stands on `host`, `outside` and `shelf_model`.
#![tactic(auto)]

mod parts;
mod stage;

use crate::stage::Stage;
use std::io::{self, BufRead, BufReader, Write};

fn main(rt: HostRuntime) -> io::Result<()> {
    let alloc = rt.alloc();
    let mut stage = Stage::new(alloc)?;
    for line in BufReader::new(alloc, rt.reader())?.lines(alloc) {
        let line = line?;
        let told = stage.follow(line.as_str())?;
        io::writer(&rt).write_all(&told)?;
    }
    Ok(())
}
