// Reads of the files and of the input, one after the other.
ghost use Rattle.std.specs.Prelude.{◌≡◌, ◌≤◌, ℕ, List, true, All, IfOk, IfErr};
ghost use Rattle.std.specs.Str.{is_utf8};
ghost use Rattle.manifest.specs.Names.{is_file_name};
ghost use Rattle.host.specs.Outcome.{Agrees};
ghost use Rattle.host.specs.Reading.{AreRead, Fails};
ghost use Rattle.host.specs.Seen.{source_of};

use cc_base::{Blob, Name};
use host_text::Cause;
use outside::{FileErr, Files};
use std::alloc::Global;

/// The bytes of a file, or why there are none.
pub fn read_file<F: Files>(
    alloc: Global,
    name: &str,
    limit: u32,
    files: &mut F,
) -> Result<Blob, Cause>
    ensures agrees { Agrees (source_of F.content F.faults files.old files.new) limit name.now result }
    ensures kept { (n : List ℕ) → F.content files.new n ≡ F.content files.old n }
    ensures never_falls { (n : List ℕ) → F.faults files.old n ≤ F.faults files.new n }
{
    match files.read(name, limit) {
        Ok(bytes) => Ok(Blob::from_vec(bytes)),
        Err(FileErr::TooLong) => Err(Cause::Long(Name::of(alloc, name.as_bytes())?)),
        Err(FileErr::Failed) => Err(Cause::Unread(Name::of(alloc, name.as_bytes())?)),
        Err(FileErr::Memory) => Err(Cause::Memory),
    }
}

/// The bytes of these files, in order, or why one of them was not read.
pub fn read_all<F: Files>(
    alloc: Global,
    names: &[Name],
    limit: u32,
    files: &mut F,
) -> Result<Vec<Blob>, Cause>
    requires { All (λ n. is_file_name n ≡ true) names.now }
    ensures read { IfOk result (λ all. AreRead (source_of F.content F.faults files.old files.new) limit names.now all.items) }
    ensures failed { IfErr result (Fails (source_of F.content F.faults files.old files.new) limit names.now) }
    ensures kept { (n : List ℕ) → F.content files.new n ≡ F.content files.old n }
    ensures never_falls { (n : List ℕ) → F.faults files.old n ≤ F.faults files.new n }
{
    let mut all = Vec::new(alloc);
    for name in names {
        all.push(read_file(alloc, text_of(name), limit, files)?)?;
    }
    Ok(all)
}

// A name as a text.
fn text_of(name: &Name) -> &str
    requires { is_file_name name.now ≡ true }
    ensures { result.now ≡ name.now }
{
    match std::str::from_utf8(name.items()) {
        Ok(text) => text,
        Err(_) => unreachable!(),
    }
}
