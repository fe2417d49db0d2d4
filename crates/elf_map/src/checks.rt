ghost use Rattle.std.specs.Prelude.{◌≡◌, ◌+◌, ◌*◌, ◌≤◌, ◌∷◌, [], length, true, None, OnOk};
ghost use Rattle.std.specs.List.{flat_map, list_all};
ghost use Rattle.elf_map.specs.Program.{texts_of};
ghost use Rattle.elf_map.specs.Elf.{file_rules, header_rules, headers, kind_rules, segment_rules, segments_of, count_rule, program_in, is_sound, first_failing};
ghost use Rattle.elf_map.specs.Results.{Tests};

use crate::error::ElfErr;
use crate::header::{Headers, ProgramHeader, u16_at, u32_at};

/// Tests all rules, in order.
pub fn check(file: &[u8]) -> Result<(), ElfErr>
    ensures rules { Tests (file_rules file.now) result }
    ensures header { OnOk result (first_failing (header_rules file.now) ≡ None) }
    ensures sound { OnOk result (list_all (is_sound (length file.now)) (headers file.now) ≡ true) }
    ensures few { OnOk result (length (texts_of (program_in file.now)) ≤ 4) }
{
    check_header(file)?;
    check_kinds(file)?;
    check_segments(file)?;
    check_count(file)
}

/// Tests the file's header, and that the program headers are in the file.
fn check_header(file: &[u8]) -> Result<(), ElfErr>
    ensures { Tests (header_rules file.now) result }
{
    if file.len() < 52 {
        return Err(ElfErr::Short);
    }
    if u32_at(file, 0) != 0x464c_457f {
        return Err(ElfErr::Magic);
    }
    if file[4] != 1 {
        return Err(ElfErr::Class);
    }
    if file[5] != 1 {
        return Err(ElfErr::Order);
    }
    if file[6] != 1 || u32_at(file, 20) != 1 {
        return Err(ElfErr::Version);
    }
    let kind = u16_at(file, 16);
    if kind != 2 && kind != 3 {
        return Err(ElfErr::FileKind);
    }
    if u16_at(file, 18) != 243 {
        return Err(ElfErr::Machine);
    }
    if u32_at(file, 36) % 2 != 0 {
        return Err(ElfErr::Compressed);
    }
    let count = u16_at(file, 44);
    if u16_at(file, 40) != 52 || count != 0 && u16_at(file, 42) != 32 {
        return Err(ElfErr::HeaderSize);
    }
    if count > 64 {
        return Err(ElfErr::TooManyHeaders);
    }
    if count != 0 && u64::from(u32_at(file, 28)) + 32 * u64::from(count) > file.len() as u64 {
        return Err(ElfErr::Table);
    }
    Ok(())
}

/// Tests the kinds of the program headers.
fn check_kinds(file: &[u8]) -> Result<(), ElfErr>
    requires { first_failing (header_rules file.now) ≡ None }
    ensures { Tests (flat_map kind_rules (headers file.now)) result }
{
    for header in Headers::of(file) {
        check_kind(&header)?;
    }
    Ok(())
}

fn check_kind(header: &ProgramHeader) -> Result<(), ElfErr>
    ensures { Tests (kind_rules header.now) result }
{
    match header.kind {
        3 => Err(ElfErr::Interp),
        2 => Err(ElfErr::Dynamic),
        7 => Err(ElfErr::Tls),
        _ => Ok(()),
    }
}

/// Tests that the segments are within the file, the addresses and the limits.
fn check_segments(file: &[u8]) -> Result<(), ElfErr>
    requires { first_failing (header_rules file.now) ≡ None }
    ensures rules { Tests (segment_rules (length file.now) 0 (headers file.now)) result }
    ensures sound { OnOk result (list_all (is_sound (length file.now)) (headers file.now) ≡ true) }
{
    let mut i = 0;
    for header in Headers::of(file) {
        if !header.is_sound(file.len()) {
            return Err(ElfErr::Segment(i));
        }
        i += 1;
    }
    Ok(())
}

/// Tests how many segments may be executed.
fn check_count(file: &[u8]) -> Result<(), ElfErr>
    requires { first_failing (header_rules file.now) ≡ None }
    ensures rule { Tests (count_rule (program_in file.now) ∷ []) result }
    ensures few { OnOk result (length (texts_of (program_in file.now)) ≤ 4) }
{
    let mut count: usize = 0;
    for header in Headers::of(file) {
        if header.is_mapped() && header.flags().execute {
            count += 1;
        }
    }
    if count > 4 {
        return Err(ElfErr::TooManyCode);
    }
    Ok(())
}
