// A folder of the system. What it holds no clause says.
ghost use Rattle.std.specs.Prelude.{◌≡◌, ◌+◌, ◌<◌, ◌≤◌, ◌↔◌, ℕ, List, Some, None, Err, IsTrue, IfOk, OnOk, OnErr, length, vec_len};
ghost use Rattle.fault_counts.specs.Counts.{Rose, one_more};
ghost use Rattle.shelf_model.specs.Names.{IsNameByte, IsFileName, ending, path_of};
ghost use Rattle.shelf_model.specs.Shelf.{written, Torn, Elapses, Rests, Stands, TellsOthers, TellsSame, Leaves, WhereTold};

use crate::shelf::{Area, Shelf, ShelfErr};
use fault_counts::raised;
use std::alloc::Global;
use std::fs::{self, File, OpenFile, OpenOptions};
use std::io::{self, ErrorKind, Read, Seek, SeekFrom, Write};
use std::rt;

const FOLDER: &str = "unit-cache";

/// The area files of the folder `unit-cache` in the working folder: a name's two are `NAME.a` and `NAME.b`. A name is
/// of lower-case letters, digits, the letters A to F, `_`, `-` and `.`, and not empty, `.` or `..`; every call on
/// another one fails. So does every call where such a path is there and is no regular file: a link is not followed. The
/// folder itself may be a link.
#[derive(Drop)]
pub struct DiskShelf<R: rt::Files + Drop> {
    rt: R,
    alloc: Global,
    // the working folder was synced
    rooted: bool,
    faults: u64,
}

impl<R: rt::Files + Drop> DiskShelf<R> {
    ghost use Rattle.shelf_model.specs.DiskShelf.{disk_faults};

    /// The folder as the runtime opens it. It is made by the first write, and not here.
    pub fn new(rt: R, alloc: Global) -> Self
        ensures { disk_faults result ≡ 0 }
    {
        DiskShelf {
            rt,
            alloc,
            rooted: false,
            faults: 0,
        }
    }
}

// The byte may stand in a name.
fn is_name_byte(byte: u8) -> bool
    ensures { IsTrue result ↔ IsNameByte byte }
{
    matches!(byte, b'a'..=b'z' | b'0'..=b'9' | b'A'..=b'F' | b'_' | b'-' | b'.')
}

// The name is one of a file in the folder.
fn is_file_name(name: &[u8]) -> bool
    ensures { IsTrue result ↔ IsFileName name.now }
{
    if name.is_empty() || name == b".".as_slice() || name == b"..".as_slice() {
        return false;
    }
    name.iter().all(|byte| is_name_byte(*byte))
}

// The ending of an area's file.
fn ending_of(area: Area) -> &'static str
    ensures { result.now ≡ ending area }
{
    match area {
        Area::A => ".a",
        Area::B => ".b",
    }
}

// The path of an area's file.
fn area_path(alloc: Global, name: &[u8], area: Area) -> Result<String, ShelfErr>
    ensures named { IfOk result (λ path. IsFileName name.now) }
    ensures path { IfOk result (λ path. path.bytes.items ≡ path_of name.now area) }
    ensures limit { result ≡ Err ShelfErr.TooLong → ⊥ }
{
    if !is_file_name(name) {
        return Err(ShelfErr::Failed);
    }
    let Ok(text) = str::from_utf8(name) else {
        return Err(ShelfErr::Failed);
    };
    let mut path = String::from_str(alloc, FOLDER)?;
    path.push_str("/")?;
    path.push_str(text)?;
    path.push_str(ending_of(area))?;
    Ok(path)
}

// Whether a file is there. What is no regular file, as a link, a FIFO, a device or a folder, is an error, and is not opened.
fn is_there<R: rt::Files>(rt: &R, path: &str) -> io::Result<bool> {
    match fs::symlink_metadata(rt, path) {
        Ok(found) if found.is_file() => Ok(true),
        Ok(_) => Err(io::Error::from(ErrorKind::InvalidInput)),
        Err(e) if e.kind() == ErrorKind::NotFound => Ok(false),
        Err(e) => Err(e),
    }
}

// Opens a file to be read; none where it is absent.
fn open_to_read<R: rt::Files>(rt: &R, path: &str) -> io::Result<Option<R::File>> {
    if !is_there(rt, path)? {
        return Ok(None);
    }
    Ok(Some(File::open(rt, path)?))
}

// The bytes of a file, at most so many; none where it is absent.
fn read_file<R: rt::Files>(
    rt: &R,
    alloc: Global,
    path: &str,
    limit: u32,
) -> Result<Vec<u8>, ShelfErr>
    ensures { IfOk result (λ read. vec_len read ≤ limit) }
{
    let mut bytes = Vec::new(alloc);
    let Ok(opened) = open_to_read(rt, path) else {
        return Err(ShelfErr::Failed);
    };
    let Some(mut file) = opened else {
        return Ok(bytes);
    };
    let mut buffer = [0u8; 4096];
    for _ in 0..u64::MAX {
        match file.read(&mut buffer) {
            Ok(0) => return Ok(bytes),
            Ok(count) => {
                if count > limit as usize - bytes.len() {
                    return Err(ShelfErr::TooLong);
                }
                bytes.extend_from_slice(&buffer[..count])?;
            }
            Err(e) if e.kind() == ErrorKind::Interrupted => {}
            Err(_) => return Err(ShelfErr::Failed),
        }
    }
    Err(ShelfErr::Failed)
}

// Opens a file to be written, with what it has. Where it is absent it is made, and the folder too.
fn open_to_write<R: rt::Files>(rt: &R, path: &str) -> io::Result<R::File> {
    let mut options = OpenOptions::new();
    options.write(true).create(true);
    match options.open(rt, path) {
        Err(e) if e.kind() == ErrorKind::NotFound => {}
        opened => return opened,
    }
    match fs::create_dir(rt, FOLDER) {
        Err(e) if e.kind() != ErrorKind::AlreadyExists => return Err(e),
        _ => {}
    }
    options.open(rt, path)
}

// Writes bytes into a file, which keeps all others, with zeros in a gap before them.
fn write_file<R: rt::Files>(rt: &R, path: &str, at: u32, bytes: &[u8]) -> io::Result<()> {
    let _ = is_there(rt, path)?;
    let mut file = open_to_write(rt, path)?;
    if bytes.is_empty() && file.metadata()?.len() < u64::from(at) {
        return file.set_len(u64::from(at));
    }
    file.seek(SeekFrom::Start(u64::from(at)))?;
    file.write_all(bytes)
}

// Syncs a folder.
fn sync_folder<R: rt::Files>(rt: &R, path: &str) -> io::Result<()> {
    File::open(rt, path)?.sync_all()
}

// Syncs a file and its folder, and the working folder too unless that is done. Whether that is done now. An absent file
// is left absent.
fn sync_file<R: rt::Files>(rt: &R, path: &str, rooted: bool) -> io::Result<bool> {
    let Some(file) = open_to_read(rt, path)? else {
        return Ok(rooted);
    };
    file.sync_all()?;
    sync_folder(rt, FOLDER)?;
    if !rooted {
        sync_folder(rt, ".")?;
    }
    Ok(true)
}

impl<R: rt::Files + Drop> DiskShelf<R> {
    fn read_area(&self, name: &[u8], area: Area, limit: u32) -> Result<Vec<u8>, ShelfErr>
        ensures named { IfOk result (λ read. IsFileName name.now) }
        ensures within { IfOk result (λ read. vec_len read ≤ limit) }
    {
        let path = area_path(self.alloc, name, area)?;
        read_file(&self.rt, self.alloc, path.as_str(), limit)
    }

    fn write_area(&self, name: &[u8], area: Area, at: u32, bytes: &[u8]) -> Result<(), ShelfErr>
        ensures named { IfOk result (λ done. IsFileName name.now) }
        ensures limit { result ≡ Err ShelfErr.TooLong → ⊥ }
    {
        let path = area_path(self.alloc, name, area)?;
        match write_file(&self.rt, path.as_str(), at, bytes) {
            Ok(()) => Ok(()),
            Err(_) => Err(ShelfErr::Failed),
        }
    }

    fn sync_area(&mut self, name: &[u8], area: Area) -> Result<(), ShelfErr>
        ensures named { IfOk result (λ done. IsFileName name.now) }
        ensures limit { result ≡ Err ShelfErr.TooLong → ⊥ }
        ensures faults { self.new.faults ≡ self.old.faults }
    {
        let path = area_path(self.alloc, name, area)?;
        match sync_file(&self.rt, path.as_str(), self.rooted) {
            Ok(rooted) => {
                self.rooted = rooted;
                Ok(())
            }
            Err(_) => Err(ShelfErr::Failed),
        }
    }
}

impl<R: rt::Files + Drop> Shelf for DiskShelf<R> {
    ghost use Rattle.shelf_model.specs.DiskShelf.{disk_faults, nothing_told, any_image};

    ghost told = { λ shelf. nothing_told };

    ghost moment = { λ shelf. 0 };

    ghost images = { λ shelf. any_image };

    ghost faults = { λ shelf name. disk_faults shelf };

    fn read(&mut self, name: &[u8], area: Area, limit: u32) -> Result<Vec<u8>, ShelfErr>
        ensures bytes { IfOk result (λ read. WhereTold (nothing_told name.now area) (λ bytes. read.items ≡ bytes)) }
        ensures within { IfOk result (λ read. vec_len read ≤ limit) }
        ensures too_long { result ≡ Err ShelfErr.TooLong → WhereTold (nothing_told name.now area) (λ bytes. limit < length bytes) }
        ensures told { TellsSame nothing_told nothing_told }
        ensures time { Stands 0 0 any_image any_image }
        ensures failed { result ≡ Err ShelfErr.Failed → Rose (disk_faults self.old) (disk_faults self.new) }
        ensures never_falls { (n : List ℕ) → disk_faults self.old ≤ disk_faults self.new }

        // Just the calls that answer an Err are counted. Only a file's name is answered.
        ensures counted { OnErr result (disk_faults self.new ≡ one_more (disk_faults self.old)) }
        ensures uncounted { OnOk result (disk_faults self.new ≡ disk_faults self.old) }
        ensures named { IfOk result (λ read. IsFileName name.now) }
    {
        let read = self.read_area(name, area, limit);
        if read.is_err() {
            self.faults = raised(self.faults);
        }
        read
    }

    fn write_at(&mut self, name: &[u8], area: Area, at: u32, bytes: &[u8]) -> Result<(), ShelfErr>
        requires { at + length bytes.now ≤ 4294967295 }
        ensures told { OnOk result (WhereTold (nothing_told name.now area) (λ before. nothing_told name.now area ≡ Some (written at bytes.now before))) }
        ensures broken { OnErr result (WhereTold (nothing_told name.now area)
            (λ before. (after : List ℕ) × (nothing_told name.now area ≡ Some after) × Torn at (length bytes.now) before after)) }
        ensures silent { nothing_told name.now area ≡ None → nothing_told name.now area ≡ None }
        ensures others { TellsOthers nothing_told nothing_told name.now area }
        ensures time { Elapses 0 0 any_image any_image name.now area (Torn at (length bytes.now)) }
        ensures memory_told { result ≡ Err ShelfErr.Memory → TellsSame nothing_told nothing_told }
        ensures memory_time { result ≡ Err ShelfErr.Memory → Stands 0 0 any_image any_image }
        ensures limit { result ≡ Err ShelfErr.TooLong → ⊥ }
        ensures failed { result ≡ Err ShelfErr.Failed → Rose (disk_faults self.old) (disk_faults self.new) }
        ensures never_falls { (n : List ℕ) → disk_faults self.old ≤ disk_faults self.new }

        // Just the calls that answer an Err are counted. Only a file's name is written.
        ensures counted { OnErr result (disk_faults self.new ≡ one_more (disk_faults self.old)) }
        ensures uncounted { OnOk result (disk_faults self.new ≡ disk_faults self.old) }
        ensures named { IfOk result (λ done. IsFileName name.now) }
    {
        let done = self.write_area(name, area, at, bytes);
        if done.is_err() {
            self.faults = raised(self.faults);
        }
        done
    }

    fn sync(&mut self, name: &[u8], area: Area) -> Result<(), ShelfErr>
        ensures settled { OnOk result (WhereTold (nothing_told name.now area) (Leaves any_image 0 name.now area)) }
        ensures told { TellsSame nothing_told nothing_told }
        ensures time { Rests 0 0 any_image any_image }
        ensures memory_time { result ≡ Err ShelfErr.Memory → Stands 0 0 any_image any_image }
        ensures limit { result ≡ Err ShelfErr.TooLong → ⊥ }
        ensures failed { result ≡ Err ShelfErr.Failed → Rose (disk_faults self.old) (disk_faults self.new) }
        ensures never_falls { (n : List ℕ) → disk_faults self.old ≤ disk_faults self.new }

        // Just the calls that answer an Err are counted. Only a file's name is synced.
        ensures counted { OnErr result (disk_faults self.new ≡ one_more (disk_faults self.old)) }
        ensures uncounted { OnOk result (disk_faults self.new ≡ disk_faults self.old) }
        ensures named { IfOk result (λ done. IsFileName name.now) }
    {
        let done = self.sync_area(name, area);
        if done.is_err() {
            self.faults = raised(self.faults);
        }
        done
    }
}
