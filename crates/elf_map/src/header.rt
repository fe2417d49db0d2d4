ghost use Rattle.std.specs.Prelude.{◌≡◌, ◌+◌, ◌≤◌, length, None};
ghost use Rattle.std.specs.Iterator.{YieldsFirst, item_count};
ghost use Rattle.elf_map.specs.Number.{number_at};
ghost use Rattle.elf_map.specs.Elf.{header_of, flags_of, is_mapped, is_sound, headers, header_rules, first_failing};

use byteorder::{ByteOrder, LittleEndian};
use plain_machine::Flags;
use std::marker::Model;

/// What is read of a program header (System V ABI, "Program Header").
#[derive(Clone, Copy, Debug)]
pub struct ProgramHeader {
    pub kind: u32,
    pub offset: u32,
    pub vaddr: u32,
    pub file_size: u32,
    pub memory_size: u32,
    pub flags: u32,
}

/// The number of two bytes.
pub fn u16_at(bytes: &[u8], at: usize) -> u16
    requires { at + 2 ≤ length bytes.now }
    ensures { result ≡ number_at 2 bytes.now at }
{
    LittleEndian::read_u16(&bytes[at..at + 2])
}

/// The number of four bytes.
pub fn u32_at(bytes: &[u8], at: usize) -> u32
    requires { at + 4 ≤ length bytes.now }
    ensures { result ≡ number_at 4 bytes.now at }
{
    LittleEndian::read_u32(&bytes[at..at + 4])
}

/// The program header that begins there.
pub fn header_at(file: &[u8], at: usize) -> ProgramHeader
    requires { at + 32 ≤ length file.now }
    ensures { result ≡ header_of file.now at }
{
    ProgramHeader {
        kind: u32_at(file, at),
        offset: u32_at(file, at + 4),
        vaddr: u32_at(file, at + 8),
        file_size: u32_at(file, at + 16),
        memory_size: u32_at(file, at + 20),
        flags: u32_at(file, at + 24),
    }
}

impl ProgramHeader {
    /// Whether it is PT_LOAD, and has bytes in memory.
    pub fn is_mapped(&self) -> bool
        ensures { result ≡ is_mapped self.now }
    {
        self.kind == 1 && self.memory_size > 0
    }

    /// Whether it is within a file of this length, the addresses and the limits, if it is PT_LOAD.
    pub fn is_sound(&self, file_len: usize) -> bool
        ensures { result ≡ is_sound file_len self.now }
    {
        let limit = if self.flags().execute {
            1_048_576
        } else {
            8_388_608
        };
        self.kind != 1
            || self.file_size <= self.memory_size
                && u64::from(self.offset) + u64::from(self.file_size) <= file_len as u64
                && u64::from(self.vaddr) + u64::from(self.memory_size) <= u64::from(u32::MAX)
                && self.memory_size <= limit
    }

    /// PF_R, PF_W and PF_X.
    pub fn flags(&self) -> Flags
        ensures { result ≡ flags_of self.now.flags }
    {
        Flags {
            read: self.flags / 4 % 2 == 1,
            write: self.flags / 2 % 2 == 1,
            execute: self.flags % 2 == 1,
        }
    }
}

/// The program headers of a file that are still to be read.
#[derive(Drop)]
pub struct Headers<'a> {
    file: &'a [u8],
    at: usize,
    count: usize,
}

impl<'a> Model for Headers<'a> {
    ghost use Rattle.std.specs.Prelude.{◌+◌, ◌*◌, ◌≤◌, length, List};
    ghost use Rattle.elf_map.specs.declared.header.ProgramHeader.{ProgramHeader};
    ghost use Rattle.elf_map.specs.Elf.{headers_from};

    ghost Value = { List ProgramHeader };

    ghost view = { λ h. headers_from h.file.now h.at h.count };

    ghost invariant = { λ h. h.at + 32 * h.count ≤ length h.file.now };
}

impl<'a> Headers<'a> {
    /// All of a file whose header is sound.
    pub fn of(file: &'a [u8]) -> Headers<'a>
        requires { first_failing (header_rules file.now) ≡ None }
        ensures all { result ≡ headers file.now }
        ensures few { length result ≤ 64 }
    {
        let count = usize::from(u16_at(file, 44));
        let at = if count == 0 {
            0
        } else {
            u32_at(file, 28) as usize
        };
        Headers { file, at, count }
    }
}

impl Iterator for Headers<'_> {
    type Item = ProgramHeader;

    ghost next_gives = { YieldsFirst (λ h. h) };

    ghost remaining = { item_count (λ h. h) };

    fn next(&mut self) -> Option<ProgramHeader> {
        if self.count == 0 {
            return None;
        }
        let header = header_at(self.file, self.at);
        self.at += 32;
        self.count -= 1;
        Some(header)
    }
}
