ghost use Rattle.std.specs.Prelude.{◌≡◌, ◌+◌, ◌<◌, ℕ, ◌≤◌, length, slice_get, filter, true, Some, None, IfOk, OnOk};
ghost use Rattle.std.specs.List.{list_all, list_any};
ghost use Rattle.cc_base.specs.Image.{start_of};
ghost use Rattle.plain_machine.specs.Program.{base_of, runs_at, can_enter, entry_of, placed, unplaced, top_of, greatest_end};
ghost use Rattle.elf_map.specs.Program.{executes, spans_of, texts_of};
ghost use Rattle.elf_map.specs.Elf.{elf_of, headers, header_rules, first_failing, is_sound, segments_of};
ghost use Rattle.elf_map.specs.Results.{Reads, Places};

use crate::checks::check;
use crate::error::ElfErr;
use crate::header::{Headers, u16_at, u32_at};
use crate::place::{greatest_end, place, unplace};
use crate::segment::FileSegment;
use cc_base::{Blob, FileCode, Span};
use guest_mem::Mem;
use plain_machine::MemErr;
use std::alloc::{AllocError, Global};
use std::marker::Model;
use std::sync::Arc;

/// The program of an ELF file: whether its addresses are fixed, its entry, and its segments in the order of their
/// headers. At most four of these may be executed.
#[derive(Drop)]
pub struct Elf {
    fixed: bool,
    entry: u32,
    segments: Vec<FileSegment>,
}

impl Model for Elf {
    ghost use Rattle.std.specs.Prelude.{◌≤◌, length, filter};
    ghost use Rattle.plain_machine.specs.Program.{Program};
    ghost use Rattle.elf_map.specs.Program.{executes};

    ghost Value = { Program };

    ghost view = { λ e. record { fixed = e.fixed; entry = e.entry; segments = e.segments.items } };

    ghost invariant = { λ e. length (filter executes e.segments.items) ≤ 4 };
}

impl Elf {
    /// Reads a file, or answers the first rule that it breaks. `Memory` comes only for a file that breaks none.
    pub fn read(alloc: Global, bytes: &[u8]) -> Result<Elf, ElfErr>
        ensures { Reads (elf_of bytes.now) result }
    {
        check(bytes)?;
        let segments = segments_in(alloc, bytes)?;
        Ok(Elf {
            fixed: u16_at(bytes, 16) == 2,
            entry: u32_at(bytes, 24),
            segments,
        })
    }

    /// How many segments may be executed. They are numbered from 0, in the order of their headers.
    pub fn code_count(&self) -> u8
        ensures count { result ≡ length (texts_of self.now) }
        ensures few { result ≤ 4 }
    {
        count_code(&self.segments) as u8
    }

    /// The executable segment of this number. Its bytes are shared, not copied.
    pub fn code(&self, seg: u8) -> Result<FileCode, AllocError>
        requires { seg < length (texts_of self.now) }
        ensures code { IfOk result (λ code. slice_get (texts_of self.now) seg ≡ Some code) }
        ensures end { IfOk result (λ code. (base : ℕ) → start_of code base + length code.bytes ≤ top_of self.now base) }
    {
        code_at(&self.segments, seg).code(self.fixed)
    }

    /// Where the executable segment of this number lies at this base.
    pub fn code_span(&self, seg: u8, base: u32) -> Span
        requires seg { seg < length (texts_of self.now) }
        requires top { top_of self.now base ≤ 4294967295 }
        ensures { slice_get (spans_of self.now base) seg ≡ Some result }
    {
        code_at(&self.segments, seg).span(self.base(base))
    }

    /// The entry at this base, where it is an address, a multiple of four, and the start of a word in one executable
    /// segment.
    pub fn entry(&self, base: u32) -> Option<u32>
        ensures { result ≡ entry_of self.now base }
    {
        let base = self.base(base);
        let addr = base.checked_add(self.entry)?;
        if can_enter(&self.segments, base, addr) {
            Some(addr)
        } else {
            None
        }
    }

    /// Adds all segments to a memory, in the order of their headers, or none of them.
    pub fn place(&self, base: u32, mem: &mut Mem) -> Result<(), MemErr>
        ensures placed { Places mem.old (placed self.now base mem.old) result mem.new }
        ensures ends { OnOk result (top_of self.now base ≤ 4294967295) }
    {
        place(&self.segments, self.base(base), mem)
    }

    /// Takes the segments away that were placed at this base.
    pub fn unplace(&self, base: u32, mem: &mut Mem)
        requires { top_of self.now base ≤ 4294967295 }
        ensures { mem.new ≡ unplaced self.now base mem.old }
    {
        unplace(&self.segments, self.base(base), mem);
    }

    /// The greatest end of its segments at this base, 0 where it has none.
    pub fn top(&self, base: u32) -> u32
        requires { top_of self.now base ≤ 4294967295 }
        ensures { result ≡ top_of self.now base }
    {
        greatest_end(&self.segments, self.base(base))
    }

    /// Where it stands, if its module is to stand at this base.
    fn base(&self, base: u32) -> u32
        ensures { result ≡ base_of self.now base }
    {
        if self.fixed { 0 } else { base }
    }
}

/// The segments of a file that was tested.
fn segments_in(alloc: Global, file: &[u8]) -> Result<Vec<FileSegment>, AllocError>
    requires header { first_failing (header_rules file.now) ≡ None }
    requires sound { list_all (is_sound (length file.now)) (headers file.now) ≡ true }
    ensures { IfOk result (λ v. v.items ≡ segments_of file.now (headers file.now)) }
{
    let shared = Arc::new(alloc, Blob::of(alloc, file)?)?;
    let mut segments = Vec::new(alloc);
    for header in Headers::of(file) {
        if header.is_mapped() {
            segments.push(FileSegment::read(alloc, &shared, &header)?)?;
        }
    }
    Ok(segments)
}

/// Whether a word that may be executed stands there, with the segments at this base.
fn can_enter(segments: &[FileSegment], base: u32, addr: u32) -> bool
    ensures { result ≡ can_enter base segments.now addr }
{
    addr % 4 == 0 && any_runs_at(segments, base, addr)
}

fn any_runs_at(segments: &[FileSegment], base: u32, addr: u32) -> bool
    ensures { result ≡ list_any (runs_at base addr) segments.now }
{
    segments.iter().any(|s| s.runs_at(base, addr))
}

fn count_code(segments: &[FileSegment]) -> usize
    ensures { result ≡ length (filter executes segments.now) }
{
    segments.iter().filter(|s| s.executes()).count()
}

/// The executable segment of this number.
fn code_at(segments: &[FileSegment], seg: u8) -> &FileSegment
    requires { seg < length (filter executes segments.now) }
    ensures found { slice_get (filter executes segments.now) seg ≡ Some result.now }
    ensures executes { executes result.now ≡ true }
    ensures end { (base : ℕ) → base + result.now.vaddr + result.now.size ≤ greatest_end base segments.now }
{
    match segments.split_first() {
        None => unreachable!(),
        Some((first, rest)) => {
            if !first.executes() {
                code_at(rest, seg)
            } else if seg == 0 {
                first
            } else {
                code_at(rest, seg - 1)
            }
        }
    }
}
