// Why a call of the host ended.
ghost use Rattle.std.specs.Prelude.{◌≡◌};
ghost use Rattle.host_text.specs.Refusals.{status_of};
ghost use Rattle.host_text.specs.declared.cause.Cause.TheVariants.{Memory};

use cc_base::Name;
use elf_map::ElfErr;
use manifest::ManifestErr;
use std::alloc::{AllocError, AllocFailed};

/// Why a call ended.
#[derive(Drop)]
pub enum Cause {
    /// Every guest exited.
    Done,
    /// A guest ended in another way.
    GuestEnded,
    /// The words are not `run FILE`, with options behind it or without.
    Words,
    /// FILE is no manifest, by this first failing rule.
    Manifest(ManifestErr),
    /// The file of this name could not be read.
    Unread(Name),
    /// The file of this name is too long.
    Long(Name),
    /// The file of this name is no ELF file that is taken, by this first failing rule.
    Elf(Name, ElfErr),
    /// So many slots arise, which are over 64.
    Slots(u32),
    /// Memory ran out.
    Memory,
    /// The text could not be written whole.
    Sink,
    /// The text is whole, and the shelf failed on this slot, the first such one, as it was loaded or published.
    Shelf(u32),
}

impl From<AllocError> for Cause {
    ghost from_gives = { λ _ e. e ≡ Memory };

    fn from(_: AllocError) -> Self {
        Cause::Memory
    }
}

impl<T: Drop> From<AllocFailed<T>> for Cause {
    ghost from_gives = { λ _ e. e ≡ Memory };

    fn from(_: AllocFailed<T>) -> Self {
        Cause::Memory
    }
}

/// The exit status of a cause.
pub fn status_of(cause: &Cause) -> u8
    ensures { result ≡ status_of cause.now }
{
    match cause {
        Cause::Done => 0,
        Cause::GuestEnded => 1,
        Cause::Words => 2,
        Cause::Manifest(_) => 3,
        Cause::Unread(_) | Cause::Long(_) => 4,
        Cause::Elf(_, _) | Cause::Slots(_) => 5,
        Cause::Memory => 6,
        Cause::Sink => 7,
        Cause::Shelf(_) => 8,
    }
}
