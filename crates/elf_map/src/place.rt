ghost use Rattle.std.specs.Prelude.{◌≡◌, ◌≤◌, OnOk};
ghost use Rattle.plain_machine.specs.Program.{with_segments, without_segments, greatest_end};
ghost use Rattle.elf_map.specs.Results.{Places};

use crate::segment::FileSegment;
use guest_mem::Mem;
use plain_machine::MemErr;

/// Adds the segments, in order, or none of them.
pub fn place(segments: &[FileSegment], base: u32, mem: &mut Mem) -> Result<(), MemErr>
    ensures placed { Places mem.old (with_segments mem.old base segments.now) result mem.new }
    ensures ends { OnOk result (greatest_end base segments.now ≤ 4294967295) }
{
    let Some((first, rest)) = segments.split_first() else {
        return Ok(());
    };
    let Some(start) = first.start(base) else {
        return Err(MemErr::PastEnd);
    };
    first.add_to(start, mem)?;
    match place(rest, base, mem) {
        Ok(()) => Ok(()),
        Err(e) => {
            let _ = mem.remove(start);
            Err(e)
        }
    }
}

/// Takes the segments away.
pub fn unplace(segments: &[FileSegment], base: u32, mem: &mut Mem)
    requires { greatest_end base segments.now ≤ 4294967295 }
    ensures { mem.new ≡ without_segments mem.old base segments.now }
{
    if let Some((first, rest)) = segments.split_first() {
        if let Some(start) = first.start(base) {
            let _ = mem.remove(start);
        }
        unplace(rest, base, mem);
    }
}

/// The greatest of their ends.
pub fn greatest_end(segments: &[FileSegment], base: u32) -> u32
    requires { greatest_end base segments.now ≤ 4294967295 }
    ensures { result ≡ greatest_end base segments.now }
{
    match segments.split_first() {
        None => 0,
        Some((first, rest)) => first.end(base).max(greatest_end(rest, base)),
    }
}
