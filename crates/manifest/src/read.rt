ghost use Rattle.std.specs.Prelude.{◌≡◌, ◌≤◌, ◌<◌, true, length, All, IfSome, is_some};
ghost use Rattle.std.specs.Str.{is_utf8};
ghost use Rattle.toml.specs.Errors.{IsMemory};
ghost use Rattle.toml.specs.View.{table_view};
ghost use Rattle.manifest.specs.Names.{are_distinct, is_file_name};
ghost use Rattle.manifest.specs.Keys.{first_in};
ghost use Rattle.manifest.specs.Manifest.{Reads, Gives, manifest_of, manifest_rules, module_names, listing_of};

use crate::error::ManifestErr;
use crate::files::files_in;
use crate::guest::guests_in;
use crate::module::modules_in;
use crate::path::Place;
use crate::rows::{GuestRow, ModuleRow};
use crate::tables::check_keys;
use cc_base::Name;
use std::alloc::Global;
use std::marker::Model;
use toml::Table;

/// What a manifest says: 1 to 32 names of files, 1 to 32 modules, each with one of the files, and 1 to 64 guests, each
/// with one of the modules.
#[derive(Debug, Drop)]
pub struct Manifest {
    files: Vec<Name>,
    modules: Vec<ModuleRow>,
    guests: Vec<GuestRow>,
}

impl Model for Manifest {
    ghost use Rattle.manifest.specs.Entries.{Listing, IsListing};

    ghost Value = { Listing };

    ghost view = { λ m. record { files = m.files.items; modules = m.modules.items; guests = m.guests.items } };

    ghost invariant = { λ m. IsListing m.files.items m.modules.items m.guests.items };
}

impl Manifest {
    /// Reads a manifest, or answers the first rule that it breaks. The rules are tried in this order: the bytes are TOML;
    /// the keys of the whole that are unknown, the least first; `files`; `module` and its tables; `guest` and its tables.
    /// In a table of a list the unknown keys come first, and then the keys in the order of the row's fields. Of a key
    /// these are tried in order: `Missing`, `Kind`, `TooMany`, `BadName`, `Range`, `Repeated`.
    pub fn read(alloc: Global, bytes: &[u8]) -> Result<Manifest, ManifestErr>
        ensures { Gives result (manifest_of bytes.now) }
    {
        let Some(text) = text_of(bytes) else {
            return Err(ManifestErr::Text);
        };
        match toml::table_from_str(alloc, text) {
            Ok(table) => manifest_in(alloc, &table),
            Err(e) => Err(fault_of(e)),
        }
    }

    /// The names of the files, numbered from 0.
    pub fn files(&self) -> &[Name]
        ensures files { result.now ≡ self.now.files }
        ensures some { 1 ≤ length result.now }
        ensures few { length result.now ≤ 32 }
        ensures spelled { All (λ n. is_file_name n ≡ true) result.now }
    {
        &self.files
    }

    /// The modules, numbered from 0.
    pub fn modules(&self) -> &[ModuleRow]
        ensures modules { result.now ≡ self.now.modules }
        ensures some { 1 ≤ length result.now }
        ensures few { length result.now ≤ 32 }
        ensures files { All (λ m. m.file < length self.now.files) result.now }
        ensures own_names { are_distinct (module_names result.now) ≡ true }
    {
        &self.modules
    }

    /// The guests, numbered from 0.
    pub fn guests(&self) -> &[GuestRow]
        ensures guests { result.now ≡ self.now.guests }
        ensures some { 1 ≤ length result.now }
        ensures few { length result.now ≤ 64 }
        ensures modules { All (λ g. g.«module» < length self.now.modules) result.now }
    {
        &self.guests
    }
}

// What a document says.
fn manifest_in(alloc: Global, table: &Table) -> Result<Manifest, ManifestErr>
    ensures { Reads (λ m. m) (first_in (manifest_rules (table_view table.now))) (listing_of (table_view table.now)) result }
{
    check_keys(alloc, table, Place::Top)?;
    let files = files_in(alloc, table)?;
    let modules = modules_in(alloc, table, &files)?;
    let guests = guests_in(alloc, table, &modules.names)?;
    Ok(Manifest {
        files: files.to_names(alloc)?,
        modules: modules.rows,
        guests,
    })
}

// The bytes as text, where they are UTF-8.
fn text_of(bytes: &[u8]) -> Option<&str>
    ensures same { IfSome result (λ s. s.now ≡ bytes.now) }
    ensures test { is_some result ≡ is_utf8 bytes.now }
{
    std::str::from_utf8(bytes).ok()
}

// Want of memory, or a text that is no TOML.
fn fault_of(e: toml::de::Error) -> ManifestErr
    ensures memory { IsMemory e → result ≡ ManifestErr.Memory }
    ensures text { ¬ IsMemory e → result ≡ ManifestErr.Text }
{
    if e.is_memory() {
        ManifestErr::Memory
    } else {
        ManifestErr::Text
    }
}
