ghost use Rattle.std.specs.Prelude.{◌≡◌};
ghost use Rattle.elf_map.specs.declared.error.ElfErr.TheVariants.{Memory};

use std::alloc::AllocError;
use thiserror::Error;

/// Why a file is refused.
#[derive(Clone, Copy, Debug, PartialEq, Eq, Error)]
pub enum ElfErr {
    /// It has fewer bytes than a header.
    #[error("short")]
    Short,
    /// It does not begin with 7F 45 4C 46.
    #[error("magic")]
    Magic,
    /// It is not of 32 bits.
    #[error("class")]
    Class,
    /// It is not little endian.
    #[error("order")]
    Order,
    /// Its version is not 1.
    #[error("version")]
    Version,
    /// It is neither ET_EXEC nor ET_DYN.
    #[error("filekind")]
    FileKind,
    /// It is not for RISC-V.
    #[error("machine")]
    Machine,
    /// It has compressed instructions.
    #[error("compressed")]
    Compressed,
    /// Its header or its program headers have another size.
    #[error("headersize")]
    HeaderSize,
    /// It has more than 64 program headers.
    #[error("toomanyheaders")]
    TooManyHeaders,
    /// Its program headers go past its end.
    #[error("table")]
    Table,
    /// It asks for an interpreter.
    #[error("interp")]
    Interp,
    /// It is to be linked when it is loaded.
    #[error("dynamic")]
    Dynamic,
    /// It has thread-local storage.
    #[error("tls")]
    Tls,
    /// The segment of this program header is past the file, the addresses or the limits.
    #[error("segment {0}")]
    Segment(u16),
    /// More than four segments may be executed.
    #[error("toomanycode")]
    TooManyCode,
    /// The host has no memory left.
    #[error("memory")]
    Memory,
}

impl From<AllocError> for ElfErr {
    ghost from_gives = { λ _ e. e ≡ Memory };

    fn from(_e: AllocError) -> ElfErr {
        ElfErr::Memory
    }
}
