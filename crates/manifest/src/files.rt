ghost use Rattle.std.specs.Prelude.{◌≡◌, ◌≤◌, true, IfOk, length, codes, All, is_some};
ghost use Rattle.std.specs.List.{list_all};
ghost use Rattle.std.specs.Option.{ForSome};
ghost use Rattle.toml.specs.Data.{get_member};
ghost use Rattle.toml.specs.View.{view, items_view, table_view};
ghost use Rattle.manifest.specs.Names.{is_file_name, are_distinct};
ghost use Rattle.manifest.specs.Keys.{first_in, text_of};
ghost use Rattle.manifest.specs.Manifest.{Reads, files_at, files_rules, texts_in};

use crate::error::ManifestErr;
use crate::lists::{ItemKind, list_at};
use crate::name_table::NameTable;
use crate::names::is_file_name;
use crate::path::{Place, path};
use std::alloc::{AllocError, Global};
use toml::{Table, Value};

/// The names of the files.
#[tactic(auto, unfolding(crate::specs::Manifest::spelling_rules))]
pub fn files_in(alloc: Global, table: &Table) -> Result<NameTable, ManifestErr>
    ensures reads { let v = get_member (codes "files") (table_view table.now) in Reads (λ names. names) (first_in (files_rules v)) (files_at v) result }
    ensures some { IfOk result (λ names. 1 ≤ length names) }
    ensures few { IfOk result (λ names. length names ≤ 32) }
    ensures spelled { IfOk result (λ names. All (λ n. is_file_name n ≡ true) names) }
{
    let items = list_at(alloc, table, "files", ItemKind::Text, 32)?;
    if !are_file_names(items) {
        return Err(ManifestErr::BadName(path(alloc, Place::Top, "files")?));
    }
    match names_in(alloc, items)? {
        Some(names) => Ok(names),
        None => Err(ManifestErr::Repeated(path(alloc, Place::Top, "files")?)),
    }
}

// The texts of a list, unless one stands twice. What is no text has no bytes.
fn names_in(alloc: Global, items: &[Value]) -> Result<Option<NameTable>, AllocError>
    ensures distinct { IfOk result (λ names. is_some names ≡ are_distinct (texts_in (items_view items.now))) }
    ensures texts { IfOk result (λ found. ForSome found (λ names. names ≡ texts_in (items_view items.now))) }
    ensures length { IfOk result (λ found. ForSome found (λ names. length names ≡ length items.now)) }
{
    let mut names = NameTable::new(alloc);
    for value in items {
        if !names.add(alloc, text_of(value).as_bytes())? {
            return Ok(None);
        }
    }
    Ok(Some(names))
}

// Whether the texts of a list are names of files.
fn are_file_names(items: &[Value]) -> bool
    ensures { result ≡ list_all is_file_name (texts_in (items_view items.now)) }
{
    for value in items {
        if !is_file_name(text_of(value).as_bytes()) {
            return false;
        }
    }
    true
}

fn text_of(value: &Value) -> &str
    ensures { result.now ≡ text_of (view value.now) }
{
    match value.as_str() {
        Some(text) => text,
        None => "",
    }
}
