ghost use Rattle.std.specs.Prelude.{◌≡◌};
ghost use Rattle.manifest.specs.declared.error.ManifestErr.TheVariants.{Memory};

use cc_base::Name;
use std::alloc::{AllocError, AllocFailed};
use thiserror::Error;

/// Why a manifest is refused: the first rule that fails, with the path of its key, as `guest.0.fuel`. A table of a list
/// is named by its number, from 0; a list, and each item of `files`, by the list's own key.
#[derive(Debug, Drop, PartialEq, Error)]
pub enum ManifestErr {
    /// The bytes are not UTF-8, or no TOML.
    #[error("text")]
    Text,
    /// There is no such key.
    #[error("unknown {}", key_of(.0))]
    Unknown(Name),
    /// The key has to be there.
    #[error("missing {}", key_of(.0))]
    Missing(Name),
    /// The value is of another kind, or an item of the list is.
    #[error("kind {}", key_of(.0))]
    Kind(Name),
    /// The list is empty, or has too many items.
    #[error("many {}", key_of(.0))]
    TooMany(Name),
    /// The name is misspelled, or names nothing.
    #[error("name {}", key_of(.0))]
    BadName(Name),
    /// The number is not one of those that are taken.
    #[error("range {}", key_of(.0))]
    Range(Name),
    /// The name stands at an earlier key too.
    #[error("repeated {}", key_of(.0))]
    Repeated(Name),
    /// The host has no memory left.
    #[error("memory")]
    Memory,
}

// A key as text. Each is UTF-8, as the manifest is.
fn key_of(key: &Name) -> &str {
    std::str::from_utf8(key.items()).unwrap_or("")
}

impl From<AllocError> for ManifestErr {
    ghost from_gives = { λ _ e. e ≡ Memory };

    fn from(_e: AllocError) -> ManifestErr {
        ManifestErr::Memory
    }
}

impl<T: Drop> From<AllocFailed<T>> for ManifestErr {
    ghost from_gives = { λ _ e. e ≡ Memory };

    fn from(_e: AllocFailed<T>) -> ManifestErr {
        ManifestErr::Memory
    }
}
