ghost use Rattle.std.specs.Prelude.{◌≡◌, ◌∷◌, [], codes};
ghost use Rattle.toml.specs.View.{table_view};
ghost use Rattle.manifest.specs.declared.path.Place.TheVariants as places;
ghost use Rattle.manifest.specs.Names.{is_among};
ghost use Rattle.manifest.specs.Keys.{keys_of, first_failing, unknown_rules};
ghost use Rattle.manifest.specs.Manifest.{Passes};

use crate::error::ManifestErr;
use crate::path::{Place, path};
use std::alloc::Global;
use toml::Table;

/// Tests that a table has no key but those that it may have.
#[tactic(auto, unfolding(crate::specs::Keys::unknown_rules))]
pub fn check_keys(alloc: Global, table: &Table, place: Place) -> Result<(), ManifestErr>
    ensures { Passes (first_failing (unknown_rules place (table_view table.now))) result }
{
    for (key, _) in table {
        if !is_known(place, key.as_str()) {
            return Err(ManifestErr::Unknown(path(alloc, place, key.as_str())?));
        }
    }
    Ok(())
}

fn is_known(place: Place, key: &str) -> bool
    ensures { result ≡ is_among key.now (keys_of place) }
{
    match place {
        Place::Top => is_top_key(key),
        Place::Module(_) => is_module_key(key),
        Place::Guest(_) => is_guest_key(key),
    }
}

fn is_top_key(key: &str) -> bool
    ensures { result ≡ is_among key.now (keys_of places.Top) }
{
    key == "files" || key == "module" || key == "guest"
}

fn is_module_key(key: &str) -> bool
    ensures { result ≡ is_among key.now (keys_of (places.Module 0)) }
{
    key == "name" || key == "file" || key == "base"
}

fn is_guest_key(key: &str) -> bool
    ensures { result ≡ is_among key.now (keys_of (places.Guest 0)) }
{
    key == "name"
        || key == "module"
        || key == "round"
        || key == "tool"
        || key == "isa"
        || key == "max"
        || key == "fuel"
        || key == "pool"
        || key == "stack"
        || key == "input"
}
