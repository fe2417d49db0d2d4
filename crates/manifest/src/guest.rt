ghost use Rattle.std.specs.Prelude.{◌≡◌, ◌≤◌, ◌<◌, [], true, false, IfOk, length, codes, All};
ghost use Rattle.toml.specs.Data.{get_member};
ghost use Rattle.toml.specs.View.{items_view, table_view};
ghost use Rattle.manifest.specs.declared.lists.ItemKind.TheVariants as kinds;
ghost use Rattle.manifest.specs.Names.{is_among};
ghost use Rattle.manifest.specs.Keys.{each_item, is_of, first_failing, first_in, path_of, choice_rules, chosen};
ghost use Rattle.manifest.specs.Manifest.{Reads, guest_of, guest_names, guest_rules, guests_rules, guests_at, rows_in, rules_each};

use crate::error::ManifestErr;
use crate::lists::{ItemKind, list_at};
use crate::name_table::NameTable;
use crate::numbers::{Limits, number_at};
use crate::path::{Place, path};
use crate::rows::GuestRow;
use crate::tables::check_keys;
use crate::texts::{input_at, isa_at, new_name_at, text_at, tool_at};
use std::alloc::Global;
use toml::{Table, Value};

/// The guests, in order.
pub fn guests_in(
    alloc: Global,
    table: &Table,
    modules: &NameTable,
) -> Result<Vec<GuestRow>, ManifestErr>
    requires { length modules.now ≤ 32 }
    ensures reads { let v = get_member (codes "guest") (table_view table.now) in
        Reads (λ rows. rows.items) (first_in (guests_rules modules.now v)) (guests_at modules.now v) result }
    ensures some { IfOk result (λ rows. 1 ≤ length rows.items) }
    ensures few { IfOk result (λ rows. length rows.items ≤ 64) }
    ensures modules { IfOk result (λ rows. All (λ g. g.«module» < length modules.now) rows.items) }
{
    let items = list_at(alloc, table, "guest", ItemKind::Table, 64)?;
    rows_of(alloc, items, modules)
}

// The rows of tables, in order.
fn rows_of(
    alloc: Global,
    items: &[Value],
    modules: &NameTable,
) -> Result<Vec<GuestRow>, ManifestErr>
    requires modules { length modules.now ≤ 32 }
    requires few { length items.now ≤ 64 }
    requires tables { each_item (is_of kinds.Table) (items_view items.now) ≡ true }
    ensures reads { Reads (λ rows. rows.items) (first_in (rules_each (guest_of modules.now) (guest_rules modules.now) [] (items_view items.now)))
        (rows_in (guest_of modules.now) (items_view items.now)) result }
    ensures length { IfOk result (λ rows. length rows.items ≡ length items.now) }
    ensures modules { IfOk result (λ rows. All (λ g. g.«module» < length modules.now) rows.items) }
{
    let mut rows = Vec::new(alloc);
    let mut names = NameTable::new(alloc);
    for value in items {
        let Some(table) = value.as_table() else {
            unreachable!();
        };
        let row = guest_at(alloc, table, modules, &rows, &names)?;
        names.add(alloc, row.name.items())?;
        rows.push(row)?;
    }
    Ok(rows)
}

/// A guest, by its table, where these come before it, with these names.
fn guest_at(
    alloc: Global,
    table: &Table,
    modules: &NameTable,
    before: &[GuestRow],
    names: &NameTable,
) -> Result<GuestRow, ManifestErr>
    requires modules { length modules.now ≤ 32 }
    requires before { length before.now < 64 }
    requires named { names.now ≡ guest_names before.now }
    ensures reads { Reads (λ g. g) (first_in (guest_rules modules.now before.now (table_view table.now))) (guest_of modules.now (table_view table.now)) result }
    ensures within { IfOk result (λ g. g.«module» < length modules.now) }
    ensures new { IfOk result (λ g. is_among g.name (guest_names before.now) ≡ false) }
{
    let place = Place::Guest(before.len() as u32);
    check_keys(alloc, table, place)?;
    let name = new_name_at(alloc, table, place, names)?;
    let module = module_at(alloc, table, place, modules)?;
    let round = number_at(alloc, table, place, "round", limits(0, 15, 1), 0)?;
    let tool = tool_at(alloc, table, place)?;
    let isa = isa_at(alloc, table, place)?;
    let max = number_at(alloc, table, place, "max", limits(1, 64, 1), 32)?;
    let fuel = number_at(
        alloc,
        table,
        place,
        "fuel",
        limits(1, 1_000_000_000, 1),
        10_000_000,
    )?;
    let pool = number_at(alloc, table, place, "pool", limits(16, 65_536, 1), 4_096)?;
    let stack = number_at(
        alloc,
        table,
        place,
        "stack",
        limits(4_096, 1_048_576, 16),
        65_536,
    )?;
    let input = input_at(alloc, table, place)?;
    Ok(GuestRow {
        name,
        module,
        round: round as u8,
        tool,
        isa,
        max: max as u8,
        fuel: u64::from(fuel),
        pool,
        stack,
        input,
    })
}

fn limits(low: u32, high: u32, step: u32) -> Limits
    ensures { result ≡ record { low = low; high = high; step = step } }
{
    Limits { low, high, step }
}

// The number of its module.
#[tactic(auto, unfolding(crate::specs::Keys::choice_rules))]
fn module_at(
    alloc: Global,
    table: &Table,
    place: Place,
    modules: &NameTable,
) -> Result<u32, ManifestErr>
    requires { length modules.now ≤ 32 }
    ensures reads { let v = get_member (codes "module") (table_view table.now) in
        Reads (λ m. m) (first_failing (choice_rules modules.now (path_of place (codes "module")) v)) (chosen modules.now v) result }
    ensures within { IfOk result (λ m. m < length modules.now) }
{
    let text = text_at(alloc, table, place, "module")?;
    match modules.place_of(text.as_bytes()) {
        Some(module) => Ok(module as u32),
        None => Err(ManifestErr::BadName(path(alloc, place, "module")?)),
    }
}
