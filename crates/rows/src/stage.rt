// What a row's lines have made ready, and its runs.
use crate::parts::{bytes, first_word, no_line, number, numbers, words};
use host::{Cause, Ended, host};
use outside::{FuseFiles, FuseSink, MemFiles};
use shelf_model::{Area, FuseShelf, MemShelf, Shelf};
use std::alloc::{AllocError, Global};
use std::io;

// A file by its name.
#[derive(Drop)]
struct Named {
    name: String,
    bytes: Vec<u8>,
}

/// The files, the shelf and the sink of a row's next run.
#[derive(Drop)]
pub struct Stage {
    alloc: Global,
    files: Vec<Named>,
    // The reads that fail.
    unread: Vec<u32>,
    shelf: FuseShelf,
    // The most bytes that the sink takes by a call, and the calls that fail.
    most: u32,
    stuck: Vec<u32>,
}

// Room for each row's text.
const ROOM: u32 = 1_000_000;

// More writes than a row makes.
const ALL: u32 = 1_000_000;

impl Stage {
    /// No files, and an empty shelf.
    pub fn new(alloc: Global) -> Result<Self, AllocError> {
        Ok(Stage {
            alloc,
            files: Vec::new(alloc),
            unread: Vec::new(alloc),
            shelf: FuseShelf::listed(MemShelf::new(alloc), Vec::new(alloc)),
            most: ROOM,
            stuck: Vec::new(alloc),
        })
    }

    /// Does what a line says, and answers what is written of it.
    pub fn follow(&mut self, line: &str) -> io::Result<Vec<u8>> {
        let (verb, rest) = first_word(line);
        match verb {
            "host" => return self.run(line, rest),
            "shelf" => return self.show(rest),
            "row" => *self = Stage::new(self.alloc)?,
            _ => return self.prepare(verb, rest),
        }
        let head = format!(in self.alloc; "{line}\n")?;
        Ok(Vec::from_slice(self.alloc, head.as_bytes())?)
    }

    // Makes the next run ready: nothing is written of it.
    fn prepare(&mut self, verb: &str, rest: &str) -> io::Result<Vec<u8>> {
        let alloc = self.alloc;
        match verb {
            "line" => {
                let (name, text) = first_word(rest);
                self.append(name, text.as_bytes())?;
                self.append(name, b"\n")?;
            }
            "bytes" => {
                let (name, parts) = first_word(rest);
                self.append(name, &bytes(alloc, parts)?)?;
            }
            "area" => self.put(rest)?,
            "unread" => self.unread = numbers(alloc, rest)?,
            "faults" => self.shelf = FuseShelf::listed(self.left(ALL)?, numbers(alloc, rest)?),
            "crash" => self.shelf = FuseShelf::listed(self.left(number(rest)?)?, Vec::new(alloc)),
            "sink" => {
                let (most, stuck) = first_word(rest);
                self.most = number(most)?;
                self.stuck = numbers(alloc, stuck)?;
            }
            "" | "#" => {}
            _ => return Err(no_line()),
        }
        Ok(Vec::new(alloc))
    }

    // The shelf behind a crash that leaves this many writes since a sync.
    fn left(&self, writes: u32) -> Result<MemShelf, AllocError> {
        self.shelf.shelf().crash(writes)
    }

    // Appends to a file.
    fn append(&mut self, name: &str, bytes: &[u8]) -> Result<(), AllocError> {
        for file in &mut self.files {
            if file.name.as_str() == name {
                return file.bytes.extend_from_slice(bytes);
            }
        }
        let name = String::from_str(self.alloc, name)?;
        let bytes = Vec::from_slice(self.alloc, bytes)?;
        self.files.push(Named { name, bytes })?;
        Ok(())
    }

    // Puts bytes into an area of a slot.
    fn put(&mut self, rest: &str) -> io::Result<()> {
        let (slot, rest) = first_word(rest);
        let (area, parts) = first_word(rest);
        let area = match area {
            "a" => Area::A,
            "b" => Area::B,
            _ => return Err(no_line()),
        };
        let mut shelf = self.left(ALL)?;
        shelf.put(slot.as_bytes(), area, &bytes(self.alloc, parts)?)?;
        self.shelf = FuseShelf::listed(shelf, Vec::new(self.alloc));
        Ok(())
    }

    // The files as a run reads them.
    fn mem_files(&self) -> Result<MemFiles, AllocError> {
        let mut files = MemFiles::new(self.alloc);
        for file in &self.files {
            files.put(file.name.as_str(), &file.bytes)?;
        }
        Ok(files)
    }

    // Makes the run of these words, and tells of it.
    fn run(&mut self, line: &str, rest: &str) -> io::Result<Vec<u8>> {
        let alloc = self.alloc;
        let words = words(alloc, rest)?;
        let mut files = FuseFiles::new(self.mem_files()?, self.unread.clone()?);
        let mut sink = FuseSink::new(alloc, ROOM, self.stuck.clone()?, self.most.max(1))?;
        let ended = host(alloc, &words, &mut files, &mut self.shelf, &mut sink);
        let mut told = Vec::new(alloc);
        let head = head(alloc, line, &ended)?;
        told.extend_from_slice(head.as_bytes())?;
        let text = sink.bytes();
        let length = format!(in alloc; "text {}\n", text.len())?;
        told.extend_from_slice(length.as_bytes())?;
        told.extend_from_slice(text)?;
        told.extend_from_slice(b"end\n")?;
        Ok(told)
    }

    // What both areas of a slot hold.
    fn show(&mut self, slot: &str) -> io::Result<Vec<u8>> {
        let alloc = self.alloc;
        let mut told = Vec::new(alloc);
        for (name, area) in [("a", Area::A), ("b", Area::B)] {
            let Ok(bytes) = self.shelf.read(slot.as_bytes(), area, 4_194_304) else {
                return Err(no_line());
            };
            let digits = hex::encode(alloc, bytes)?;
            let line = format!(in alloc; "shelf {slot} {name} {digits}\n")?;
            told.extend_from_slice(line.as_bytes())?;
        }
        Ok(told)
    }
}

// The words of a run, its status, the slot that is told where the shelf failed, and how slots were loaded and published.
fn head(alloc: Global, line: &str, ended: &Ended) -> Result<String, AllocError> {
    let Ended {
        status,
        loads,
        served,
        ..
    } = ended;
    let mut text = format!(in alloc; "{line}\nstatus {status}\n")?;
    if let Cause::Shelf(slot) = ended.cause {
        write!(text, "fault {slot}\n")?;
    }
    for loaded in loads {
        write!(text, "load {loaded:?}\n")?;
    }
    for publication in served {
        write!(text, "served {publication:?}\n")?;
    }
    Ok(text)
}
