ghost use Rattle.plain_machine.specs.declared.access.MemErr.TheVariants.{Memory};
ghost use Rattle.std.specs.Prelude.{◌≡◌};
ghost use Rattle.plain_machine.specs.Memory.{size_of};

use std::alloc::{AllocError, AllocFailed};
use thiserror::Error;

/// What may be done with the bytes of a region: PF_R, PF_W and PF_X of a program header.
#[derive(Clone, Copy, Debug, PartialEq, Eq)]
pub struct Flags {
    pub read: bool,
    pub write: bool,
    pub execute: bool,
}

/// How many bytes a load or a store moves: 1, 2 or 4.
#[derive(Clone, Copy, Debug, PartialEq, Eq)]
pub enum Size {
    Byte,
    Half,
    Word,
}

impl Size {
    /// The number of bytes.
    pub fn bytes(self) -> u32
        ensures { result ≡ size_of self }
    {
        match self {
            Size::Byte => 1,
            Size::Half => 2,
            Size::Word => 4,
        }
    }
}

/// Why bytes could not be reached.
#[derive(Clone, Copy, Debug, PartialEq, Eq)]
pub enum Access {
    /// They are not wholly in one region.
    NotMapped,
    /// The region's flags do not allow it.
    NotAllowed,
}

/// Why a region could not be added, removed or resized.
#[derive(Clone, Copy, Debug, PartialEq, Eq, Error)]
pub enum MemErr {
    /// It would have a byte in common with another region.
    #[error("overlap")]
    Overlap,
    /// All regions would have more than 8,388,608 bytes.
    #[error("overlimit")]
    OverLimit,
    /// It would end past the address 4,294,967,295.
    #[error("pastend")]
    PastEnd,
    /// No region starts there.
    #[error("notmapped")]
    NotMapped,
    /// The host has no memory left.
    #[error("memory")]
    Memory,
}

impl From<AllocError> for MemErr {
    ghost from_gives = { λ _ e. e ≡ Memory };

    fn from(_e: AllocError) -> MemErr {
        MemErr::Memory
    }
}

impl<T: Drop> From<AllocFailed<T>> for MemErr {
    ghost from_gives = { λ _ e. e ≡ Memory };

    fn from(_e: AllocFailed<T>) -> MemErr {
        MemErr::Memory
    }
}
