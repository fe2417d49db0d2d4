ghost use Rattle.std.specs.Prelude.{OnOk, ◌≡◌, ◌+◌, ◌≤◌, ◌<◌, ◌*◌, ◌^◌, IfOk, [], ◌∷◌, ◌++◌, length, MatchResult, MatchOption, position, option_copied, IfSome, IsTrue, find, not, ◌&&◌, Some, None, Ok, Err};
ghost use Rattle.std.specs.List.{list_any};
ghost use Rattle.plain_machine.specs.Region.{holds, meets, region_of};
ghost use Rattle.plain_machine.specs.Memory.{IsMemory, AreInRange, byte_count, refusal, size_of, loaded, fetched, region_at, stored, written, touches_code, code_at, has_code, read, region_from, starts_at, others, resized};
ghost use Rattle.guest_mem.specs.Results.{RefusedFor, Becomes, Shows, Copies};

use crate::access::CopyErr;
use crate::region::Region;
use cc_base::{CodeView, Span};
use plain_machine::{Access, Flags, MemErr, Size};
use std::alloc::{AllocError, AllocFailed, Global};
use std::marker::Model;

/// Disjoint regions of bytes, 8,388,608 bytes in all at most.
#[derive(Drop)]
pub struct Mem {
    alloc: Global,
    regions: Vec<Region>,
    total: usize,
    // The place of the region of the last store, which is tried first; any number will do.
    near: usize,
}

impl Model for Mem {
    ghost use Rattle.std.specs.Prelude.{◌≡◌};
    ghost use Rattle.plain_machine.specs.Memory.{Memory, IsMemory, byte_count};

    ghost Value = { Memory };

    ghost view = { λ m. m.regions.items };

    ghost invariant = { λ m. IsMemory m.regions.items × (m.total ≡ byte_count m.regions.items) };
}

impl Mem {
    pub fn new(alloc: Global) -> Mem
        ensures { result ≡ [] }
    {
        Mem {
            alloc,
            regions: Vec::new(alloc),
            total: 0,
            near: 0,
        }
    }

    /// Adds the bytes `first`, followed by zeros up to `len`.
    pub fn add(&mut self, start: u32, flags: Flags, first: &[u8], len: u32) -> Result<(), MemErr>
        requires fits { length first.now ≤ len }
        requires some { 0 < len }
        ensures refused { RefusedFor (refusal self.old start len) result }
        ensures added { MatchResult result (λ _. self.new ≡ self.old ++ region_of start flags first.now len ∷ []) (λ _. self.new ≡ self.old) }
        // To take the region away gives the memory back.
        ensures undone { OnOk result (others self.new start ≡ self.old) }
    {
        if len > u32::MAX - start {
            return Err(MemErr::PastEnd);
        }
        if meets_any(&self.regions, start, len) {
            return Err(MemErr::Overlap);
        }
        if self.total + len as usize > LIMIT {
            return Err(MemErr::OverLimit);
        }
        let region = Region::new(self.alloc, start, flags, first, len)?;
        self.regions.push(region)?;
        self.total += len as usize;
        Ok(())
    }

    /// The bytes from `addr` on as a number.
    pub fn load(&self, addr: u32, size: Size) -> Result<u32, Access>
        ensures value { result ≡ loaded self.now addr size }
        ensures below { IfOk result (λ n. n < 2 ^ (8 * size_of size)) }
    {
        let region = region_near(&self.regions, self.near, addr, size.bytes()).ok_or(
            Access::NotMapped,
        )?;
        if !region.flags.read {
            return Err(Access::NotAllowed);
        }
        Ok(region.number_at(addr, size))
    }

    /// The word at `addr`, to be executed.
    pub fn fetch(&self, addr: u32) -> Result<u32, Access>
        ensures value { result ≡ fetched self.now addr }
        ensures memory { IsMemory self.now }
    {
        let region = region_of_bytes(&self.regions, addr, 4).ok_or(Access::NotMapped)?;
        if !region.flags.execute {
            return Err(Access::NotAllowed);
        }
        Ok(region.number_at(addr, Size::Word))
    }

    /// Writes the lowest bytes of `value` from `addr` on. It answers whether they may be executed.
    pub fn store(&mut self, addr: u32, size: Size, value: u32) -> Result<bool, Access>
        ensures stored { Becomes self.old (stored self.old addr size value) result self.new }
        ensures code { IfOk result (λ met. met ≡ touches_code self.new addr (size_of size)) }
        ensures within { OnOk result (addr + size_of size ≤ 4294967295) }
    {
        let bytes = value.to_le_bytes();
        match size {
            Size::Byte => put(&mut self.regions, &mut self.near, addr, &bytes[..1]),
            Size::Half => put(&mut self.regions, &mut self.near, addr, &bytes[..2]),
            Size::Word => put(&mut self.regions, &mut self.near, addr, &bytes[..4]),
        }
    }

    /// Writes the bytes from `addr` on.
    pub fn copy_in(&mut self, addr: u32, bytes: &[u8]) -> Result<(), Access>
        requires { length bytes.now ≤ 4294967295 }
        ensures written { Becomes self.old (written self.old addr bytes.now) result self.new }
        ensures within { OnOk result (addr + length bytes.now ≤ 4294967295) }
    {
        match put(&mut self.regions, &mut self.near, addr, bytes) {
            Ok(_) => Ok(()),
            Err(e) => Err(e),
        }
    }

    /// The `len` bytes from `addr` on.
    pub fn bytes(&self, addr: u32, len: u32) -> Result<&[u8], Access>
        requires { 0 < len }
        ensures { MatchResult result (λ bytes. read self.now addr len ≡ Ok bytes.now) (λ e. read self.now addr len ≡ Err e) }
    {
        let Some(region) = region_of_bytes(&self.regions, addr, len) else {
            return Err(Access::NotMapped);
        };
        if !region.flags.read {
            return Err(Access::NotAllowed);
        }
        Ok(region.bytes_at(addr, len))
    }

    /// Appends the `len` bytes from `addr` on.
    pub fn copy_out(&self, addr: u32, len: u32, out: &mut Vec<u8>) -> Result<(), CopyErr>
        requires { 0 < len }
        ensures { Copies (read self.now addr len) result out.old.items out.new.items }
    {
        match self.bytes(addr, len) {
            Err(e) => Err(CopyErr::Access(e)),
            Ok(bytes) => match out.extend_from_slice(bytes) {
                Ok(()) => Ok(()),
                Err(_) => Err(CopyErr::Memory),
            },
        }
    }

    /// Takes away the region that starts there.
    pub fn remove(&mut self, start: u32) -> Result<(), MemErr>
        ensures answer { MatchOption (region_from self.old start) (result ≡ Err MemErr.NotMapped) (λ _. result ≡ Ok tt) }
        ensures rest { self.new ≡ others self.old start }
    {
        let Some(place) = place_from(&self.regions, start) else {
            return Err(MemErr::NotMapped);
        };
        let region = self.regions.remove(place);
        self.total -= region.len();
        Ok(())
    }

    /// Makes the region at `start` this long, with zeros for new bytes. Where there is none, one to
    /// be read and written is added; at length 0 it is taken away.
    pub fn resize(&mut self, start: u32, len: u32) -> Result<(), MemErr>
        ensures refused { RefusedFor (refusal (others self.old start) start len) result }
        ensures made { MatchResult result (λ _. self.new ≡ resized self.old start len) (λ _. self.new ≡ self.old) }
    {
        match place_from(&self.regions, start) {
            None => {
                if len == 0 {
                    Ok(())
                } else {
                    self.make(start, len)
                }
            }
            Some(place) => {
                if len == 0 {
                    self.remove(start)
                } else {
                    self.lengthen(place, start, len)
                }
            }
        }
    }

    fn make(&mut self, start: u32, len: u32) -> Result<(), MemErr>
        requires absent { region_from self.old start ≡ None }
        requires some { 0 < len }
        ensures refused { RefusedFor (refusal (others self.old start) start len) result }
        ensures made { MatchResult result (λ _. self.new ≡ resized self.old start len) (λ _. self.new ≡ self.old) }
    {
        let flags = Flags {
            read: true,
            write: true,
            execute: false,
        };
        self.add(start, flags, &[], len)
    }

    fn lengthen(&mut self, place: usize, start: u32, len: u32) -> Result<(), MemErr>
        requires at { position (starts_at start) self.old ≡ Some place }
        requires some { 0 < len }
        ensures refused { RefusedFor (refusal (others self.old start) start len) result }
        ensures made { MatchResult result (λ _. self.new ≡ resized self.old start len) (λ _. self.new ≡ self.old) }
    {
        if len > u32::MAX - start {
            return Err(MemErr::PastEnd);
        }
        if meets_other(&self.regions, start, len) {
            return Err(MemErr::Overlap);
        }
        let rest = rest_without(&self.regions, self.total, place, start);
        if rest + len as usize > LIMIT {
            return Err(MemErr::OverLimit);
        }
        let region = &mut self.regions[place];
        region.resize(len)?;
        self.total = rest + len as usize;
        Ok(())
    }

    /// What every memory keeps. It does nothing.
    pub fn laws(&self)
        ensures { IsMemory self.now }
    {
        let _ = &self.total;
    }

    /// Some of the bytes may be executed.
    pub fn touches_code(&self, s: Span) -> bool
        ensures { result ≡ touches_code self.now s.start s.len }
    {
        touches(&self.regions, s.start, s.len)
    }

    /// The executable region that has the byte at `addr`.
    pub fn code_at(&self, addr: u32) -> Option<CodeView<'_>>
        ensures shown { Shows result (code_at self.now addr) }
        ensures memory { IsMemory self.now }
    {
        let region = code_region(&self.regions, addr)?;
        Some(CodeView {
            start: region.start,
            bytes: &region.bytes,
        })
    }
}

const LIMIT: usize = 8_388_608;

fn meets_any(regions: &[Region], start: u32, len: u32) -> bool
    ensures { result ≡ list_any (meets start len) regions.now }
{
    regions.iter().any(|r| r.meets(start, len))
}

fn region_of_bytes(regions: &[Region], addr: u32, len: u32) -> Option<&Region>
    ensures found { option_copied result ≡ region_at regions.now addr len }
    ensures holds { IfSome result (λ r. IsTrue (holds addr len r.now)) }
{
    regions.iter().find(|r| r.holds(addr, len))
}

// The same, where this region is tried first.
#[inline(always)]
fn region_near(regions: &[Region], near: usize, addr: u32, len: u32) -> Option<&Region>
    requires memory { IsMemory regions.now }
    requires some { 0 < len }
    ensures found { option_copied result ≡ region_at regions.now addr len }
    ensures holds { IfSome result (λ r. IsTrue (holds addr len r.now)) }
{
    if near < regions.len() {
        let region = &regions[near];
        if region.holds(addr, len) {
            return Some(region);
        }
    }
    region_of_bytes(regions, addr, len)
}

// The place of the region that has the bytes, where this one is tried first.
#[inline(always)]
fn place_near(regions: &[Region], near: usize, addr: u32, len: u32) -> Option<usize>
    requires { IsMemory regions.now }
    ensures { result ≡ position (holds addr len) regions.now }
{
    if len > 0 && near < regions.len() && regions[near].holds(addr, len) {
        return Some(near);
    }
    place_of_bytes(regions, addr, len)
}

fn place_of_bytes(regions: &[Region], addr: u32, len: u32) -> Option<usize>
    ensures { result ≡ position (holds addr len) regions.now }
{
    regions.iter().position(|r| r.holds(addr, len))
}

// Writes the bytes, and answers whether they may be executed.
#[inline(always)]
fn put(regions: &mut Vec<Region>, near: &mut usize, addr: u32, bytes: &[u8]) -> Result<bool, Access>
    requires short { length bytes.now ≤ 4294967295 }
    requires memory { IsMemory regions.old.items }
    ensures becomes { Becomes regions.old.items (written regions.old.items addr bytes.now) result regions.new.items }
    ensures code { 0 < length bytes.now → IfOk result (λ met. met ≡ touches_code regions.new.items addr (length bytes.now)) }
    ensures within { OnOk result (addr + length bytes.now ≤ 4294967295) }
{
    let Some(place) = place_near(regions, *near, addr, bytes.len() as u32) else {
        return Err(Access::NotMapped);
    };
    let region = &mut regions[place];
    if !region.flags.write {
        return Err(Access::NotAllowed);
    }
    *near = place;
    let executed = region.flags.execute;
    region.put(addr, bytes);
    Ok(executed)
}

fn touches(regions: &[Region], addr: u32, len: u32) -> bool
    ensures { result ≡ list_any (has_code addr len) regions.now }
{
    regions.iter().any(|r| r.has_code(addr, len))
}

fn code_region(regions: &[Region], addr: u32) -> Option<&Region>
    ensures { option_copied result ≡ find (has_code addr 1) regions.now }
{
    regions.iter().find(|r| r.has_code(addr, 1))
}

fn place_from(regions: &[Region], start: u32) -> Option<usize>
    ensures { result ≡ position (starts_at start) regions.now }
{
    regions.iter().position(|r| r.starts_at(start))
}

/// Some of the bytes are in a region that starts elsewhere.
fn meets_other(regions: &[Region], start: u32, len: u32) -> bool
    requires { IsMemory regions.now }
    ensures { result ≡ list_any (meets start len) (others regions.now start) }
{
    any_is_met(regions, start, len)
}

fn any_is_met(regions: &[Region], start: u32, len: u32) -> bool
    ensures { result ≡ list_any (λ r. not (starts_at start r) && meets start len r) regions.now }
{
    regions.iter().any(|r| r.is_other_met(start, len))
}

/// How many bytes the other regions have.
fn rest_without(regions: &[Region], total: usize, place: usize, start: u32) -> usize
    requires total { total ≡ byte_count regions.now }
    requires at { position (starts_at start) regions.now ≡ Some place }
    ensures { result ≡ byte_count (others regions.now start) }
{
    let region = &regions[place];
    total - region.len()
}
