ghost use Rattle.std.specs.Prelude.{◌≡◌, ◌+◌, ◌-◌, ◌<◌, ◌≤◌, ◌++◌, ◌∷◌, [], ◌↔◌, length, true, false, replicate, IfOk, IfSome, IsNone, OnOk, MatchResult};
ghost use Rattle.plain_machine.specs.Region.{region_of};
ghost use Rattle.plain_machine.specs.Memory.{refusal, others};
ghost use Rattle.plain_machine.specs.Program.{runs_at, area_of};
ghost use Rattle.guest_mem.specs.Results.{RefusedFor};
ghost use Rattle.elf_map.specs.Program.{executes, text_of};
ghost use Rattle.elf_map.specs.Elf.{flags_of, is_mapped, is_sound, segment_of};
ghost use Rattle.std.specs.Arc.{arc_value};

use crate::header::ProgramHeader;
use cc_base::{Blob, FileCode, Span};
use guest_mem::Mem;
use plain_machine::{Flags, MemErr};
use std::alloc::{AllocError, Global};
use std::marker::Model;
use std::sync::Arc;

/// A segment of a file, of `size` bytes. Those of the file are the `filled` bytes from `offset` on of the bytes kept:
/// an executable segment keeps all its bytes, the zeros behind them too, to be shared as they are; each other one shares
/// the bytes of the whole file.
#[derive(Drop)]
pub struct FileSegment {
    vaddr: u32,
    size: u32,
    flags: Flags,
    offset: u32,
    filled: u32,
    bytes: Arc<Blob>,
}

impl Model for FileSegment {
    ghost use Rattle.std.specs.Arc.{arc_value};
    ghost use Rattle.plain_machine.specs.Program.{Segment};
    ghost use Rattle.elf_map.specs.Program.{Keeps, bytes_from};

    ghost Value = { Segment };

    ghost view = { λ s. record { vaddr = s.vaddr; size = s.size; flags = s.flags; content = bytes_from s.offset s.filled (arc_value s.bytes) } };

    ghost invariant = { λ s. Keeps s.offset s.filled (arc_value s.bytes) (record { vaddr = s.vaddr; size = s.size; flags = s.flags; content = bytes_from s.offset s.filled (arc_value s.bytes) }) };
}

impl FileSegment {
    /// The segment of a program header of the file.
    pub fn read(
        alloc: Global,
        file: &Arc<Blob>,
        header: &ProgramHeader,
    ) -> Result<FileSegment, AllocError>
        requires mapped { is_mapped header.now ≡ true }
        requires sound { is_sound (length (arc_value file.now)) header.now ≡ true }
        ensures { IfOk result (λ s. s ≡ segment_of (arc_value file.now) header.now) }
    {
        if header.flags().execute {
            FileSegment::read_code(alloc, file.items(), header)
        } else {
            FileSegment::share(file, header)
        }
    }

    fn read_code(
        alloc: Global,
        file: &[u8],
        header: &ProgramHeader,
    ) -> Result<FileSegment, AllocError>
        requires mapped { is_mapped header.now ≡ true }
        requires sound { is_sound (length file.now) header.now ≡ true }
        ensures { IfOk result (λ s. s ≡ segment_of file.now header.now) }
    {
        let start = header.offset as usize;
        let content = &file[start..start + header.file_size as usize];
        let bytes = padded(alloc, content, header.memory_size)?;
        let bytes = Arc::new(alloc, Blob::from_vec(bytes))?;
        Ok(FileSegment {
            vaddr: header.vaddr,
            size: header.memory_size,
            flags: header.flags(),
            offset: 0,
            filled: header.file_size,
            bytes,
        })
    }

    fn share(file: &Arc<Blob>, header: &ProgramHeader) -> Result<FileSegment, AllocError>
        requires mapped { is_mapped header.now ≡ true }
        requires sound { is_sound (length (arc_value file.now)) header.now ≡ true }
        requires plain { (flags_of header.now.flags).execute ≡ false }
        ensures { IfOk result (λ s. s ≡ segment_of (arc_value file.now) header.now) }
    {
        let bytes = Arc::try_clone(file)?;
        Ok(FileSegment {
            vaddr: header.vaddr,
            size: header.memory_size,
            flags: header.flags(),
            offset: header.offset,
            filled: header.file_size,
            bytes,
        })
    }

    /// Where it starts at this base, if that is an address.
    pub fn start(&self, base: u32) -> Option<u32>
        ensures some { IfSome result (λ start. start ≡ base + self.now.vaddr) }
        ensures none { IsNone result ↔ (4294967295 < base + self.now.vaddr) }
    {
        base.checked_add(self.vaddr)
    }

    /// Its end at this base.
    pub fn end(&self, base: u32) -> u32
        requires { base + self.now.vaddr + self.now.size ≤ 4294967295 }
        ensures { result ≡ base + self.now.vaddr + self.now.size }
    {
        base + self.vaddr + self.size
    }

    /// Where it lies at this base.
    pub fn span(&self, base: u32) -> Span
        requires { base + self.now.vaddr + self.now.size ≤ 4294967295 }
        ensures span { result ≡ record { start = base + self.now.vaddr; len = self.now.size } }
        ensures len { length (area_of 0 self.now).bytes ≡ self.now.size }
    {
        Span {
            start: base + self.vaddr,
            len: self.size,
        }
    }

    /// Whether it may be executed.
    pub fn executes(&self) -> bool
        ensures { result ≡ executes self.now }
    {
        self.flags.execute
    }

    /// Whether it may be executed, and has the four bytes from `addr` on at this base.
    pub fn runs_at(&self, base: u32, addr: u32) -> bool
        ensures { result ≡ runs_at base addr self.now }
    {
        let start = u64::from(base) + u64::from(self.vaddr);
        let addr = u64::from(addr);
        self.flags.execute && start <= addr && addr + 4 <= start + u64::from(self.size)
    }

    /// Adds it to a memory.
    pub fn add_to(&self, start: u32, mem: &mut Mem) -> Result<(), MemErr>
        ensures refused { RefusedFor (refusal mem.old start self.now.size) result }
        ensures added { MatchResult result (λ _. mem.new ≡ mem.old ++ region_of start self.now.flags self.now.content self.now.size ∷ []) (λ _. mem.new ≡ mem.old) }
        ensures undone { OnOk result (others mem.new start ≡ mem.old) }
    {
        let from = self.offset as usize;
        let content = &self.bytes.items()[from..from + self.filled as usize];
        mem.add(start, self.flags, content, self.size)
    }

    /// Its bytes, which are shared.
    pub fn code(&self, fixed: bool) -> Result<FileCode, AllocError>
        requires { executes self.now ≡ true }
        ensures text { IfOk result (λ c. c ≡ text_of fixed self.now) }
        ensures len { IfOk result (λ c. length c.bytes ≡ self.now.size) }
    {
        let bytes = Arc::try_clone(&self.bytes)?;
        Ok(FileCode {
            vaddr: self.vaddr,
            fixed,
            bytes,
        })
    }
}

/// These bytes, and zeros behind them up to `len`.
fn padded(alloc: Global, first: &[u8], len: u32) -> Result<Vec<u8>, AllocError>
    requires { length first.now ≤ len }
    ensures { IfOk result (λ v. v.items ≡ first.now ++ replicate (len - length first.now) 0) }
{
    let mut bytes = Vec::from_slice(alloc, first)?;
    bytes.resize(len as usize, 0)?;
    Ok(bytes)
}
