ghost use Rattle.std.specs.Prelude.{◌≡◌, IfOk};
ghost use Rattle.manifest.specs.Keys.{path_of};

use cc_base::Name;
use std::alloc::{AllocError, Global};

/// The table that a key stands in.
#[derive(Clone, Copy, Debug, PartialEq, Eq)]
pub enum Place {
    /// The whole manifest.
    Top,
    /// The table of this number in the list `module`.
    Module(u32),
    /// The table of this number in the list `guest`.
    Guest(u32),
}

/// The path that names a key.
pub fn path(alloc: Global, place: Place, key: &str) -> Result<Name, AllocError>
    ensures { IfOk result (λ path. path ≡ path_of place key.now) }
{
    let text = match place {
        Place::Top => String::from_str(alloc, key)?,
        Place::Module(i) => format!(in alloc; "module.{i}.{key}")?,
        Place::Guest(i) => format!(in alloc; "guest.{i}.{key}")?,
    };
    Ok(Name::from_vec(text.into_bytes()))
}
