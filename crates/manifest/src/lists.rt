ghost use Rattle.std.specs.Prelude.{◌≡◌, ◌≤◌, ◌&&◌, nat_le, true, IfOk, length};
ghost use Rattle.std.specs.Bool.{OnTrue};
ghost use Rattle.toml.specs.Data.{get_member, as_str};
ghost use Rattle.toml.specs.View.{view, items_view, table_view};
ghost use Rattle.manifest.specs.Keys.{is_of, each_item, items_at, item_count, list_rules, first_failing};
ghost use Rattle.manifest.specs.Manifest.{Reads};

use crate::error::ManifestErr;
use crate::path::{Place, path};
use crate::texts::value_at;
use std::alloc::Global;
use toml::{Table, Value};

/// What the items of a list are to be.
#[derive(Clone, Copy, Debug, PartialEq, Eq)]
pub enum ItemKind {
    Text,
    Table,
}

/// The items of the list at a key: 1 to `most`, each of this kind.
#[tactic(auto, unfolding(crate::specs::Keys::list_rules))]
pub fn list_at<'a>(
    alloc: Global,
    table: &'a Table,
    key: &str,
    kind: ItemKind,
    most: usize,
) -> Result<&'a [Value], ManifestErr>
    ensures reads { Reads (λ a. items_view a.now) (first_failing (list_rules kind most key.now (get_member key.now (table_view table.now)))) (items_at (get_member key.now (table_view table.now))) result }
    ensures kind { IfOk result (λ a. each_item (is_of kind) (items_view a.now) ≡ true) }
    ensures some { IfOk result (λ a. 1 ≤ length a.now) }
    ensures few { IfOk result (λ a. length a.now ≤ most) }
{
    let Some(value) = value_at(table, key) else {
        return Err(ManifestErr::Missing(path(alloc, Place::Top, key)?));
    };
    let Some(items) = value.as_array() else {
        return Err(ManifestErr::Kind(path(alloc, Place::Top, key)?));
    };
    if !are_of(items, kind) {
        return Err(ManifestErr::Kind(path(alloc, Place::Top, key)?));
    }
    if !is_within(items, most) {
        return Err(ManifestErr::TooMany(path(alloc, Place::Top, key)?));
    }
    Ok(items)
}

// Whether each item is of this kind.
fn are_of(items: &[Value], kind: ItemKind) -> bool
    ensures { result ≡ each_item (is_of kind) (items_view items.now) }
{
    for value in items {
        if !is_of(value, kind) {
            return false;
        }
    }
    true
}

fn is_of(value: &Value, kind: ItemKind) -> bool
    ensures { result ≡ is_of kind (view value.now) }
{
    match kind {
        ItemKind::Text => value.is_str(),
        ItemKind::Table => value.is_table(),
    }
}

// Whether there are 1 to `most` items.
fn is_within(items: &[Value], most: usize) -> bool
    ensures within { result ≡ nat_le 1 (item_count (items_view items.now)) && nat_le (item_count (items_view items.now)) most }
    ensures some { OnTrue result (1 ≤ length items.now) }
    ensures few { OnTrue result (length items.now ≤ most) }
{
    1 <= items.len() && items.len() <= most
}
