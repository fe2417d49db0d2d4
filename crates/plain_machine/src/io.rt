use cc_base::Span;

/// The addresses of the heap, from `start` up to `end`, which is not in it.
#[derive(Clone, Copy, Debug, PartialEq, Eq)]
pub struct Heap {
    pub start: u32,
    pub end: u32,
}

/// A module that is mapped, and the file that it was mapped from, by their numbers.
#[derive(Clone, Copy, Debug, PartialEq, Eq)]
pub struct Mapping {
    pub module: u32,
    pub file: u32,
}

/// What a system call comes to.
#[derive(Clone, Copy, Debug, PartialEq, Eq)]
pub enum Asked {
    /// Its result is in x10. The span is what a read wrote, where it met an executable region.
    Back(Option<Span>),
    /// The guest ends with this status.
    Exit(u8),
    /// This module is to be mapped.
    Map(u32),
    /// This module is to be unmapped.
    Unmap(u32),
    /// This module is to be this file.
    Replace(u32, u32),
    /// The output would pass its limit.
    OutputFull,
}
