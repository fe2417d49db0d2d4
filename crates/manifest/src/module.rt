ghost use Rattle.std.specs.Prelude.{◌≡◌, ◌≤◌, ◌<◌, [], true, false, IfOk, length, codes, All};
ghost use Rattle.toml.specs.Data.{get_member};
ghost use Rattle.toml.specs.View.{items_view, table_view};
ghost use Rattle.manifest.specs.declared.lists.ItemKind.TheVariants as kinds;
ghost use Rattle.manifest.specs.Names.{are_distinct, is_among};
ghost use Rattle.manifest.specs.Keys.{each_item, is_of, first_failing, first_in, path_of, choice_rules, chosen};
ghost use Rattle.manifest.specs.Manifest.{Reads, module_of, module_names, module_rules, modules_rules, modules_at, rows_in, rules_each};

use crate::error::ManifestErr;
use crate::lists::{ItemKind, list_at};
use crate::name_table::NameTable;
use crate::numbers::{Limits, number_at};
use crate::path::{Place, path};
use crate::rows::ModuleRow;
use crate::tables::check_keys;
use crate::texts::{new_name_at, text_at};
use std::alloc::Global;
use toml::{Table, Value};

/// Modules in order, and their names. The number of a name is that of its module.
#[derive(Drop)]
pub struct Modules {
    pub rows: Vec<ModuleRow>,
    pub names: NameTable,
}

/// The modules, in order.
pub fn modules_in(alloc: Global, table: &Table, files: &NameTable) -> Result<Modules, ManifestErr>
    requires { length files.now ≤ 32 }
    ensures reads { let v = get_member (codes "module") (table_view table.now) in
        Reads (λ m. m.rows.items) (first_in (modules_rules files.now v)) (modules_at files.now v) result }
    ensures some { IfOk result (λ m. 1 ≤ length m.rows.items) }
    ensures few { IfOk result (λ m. length m.rows.items ≤ 32) }
    ensures files { IfOk result (λ m. All (λ row. row.file < length files.now) m.rows.items) }
    ensures named { IfOk result (λ m. m.names ≡ module_names m.rows.items) }
    ensures apart { IfOk result (λ m. are_distinct (module_names m.rows.items) ≡ true) }
{
    let items = list_at(alloc, table, "module", ItemKind::Table, 32)?;
    rows_of(alloc, items, files)
}

// The rows of tables, in order.
fn rows_of(alloc: Global, items: &[Value], files: &NameTable) -> Result<Modules, ManifestErr>
    requires files { length files.now ≤ 32 }
    requires few { length items.now ≤ 32 }
    requires tables { each_item (is_of kinds.Table) (items_view items.now) ≡ true }
    ensures reads { Reads (λ m. m.rows.items) (first_in (rules_each (module_of files.now) (module_rules files.now) [] (items_view items.now)))
        (rows_in (module_of files.now) (items_view items.now)) result }
    ensures length { IfOk result (λ m. length m.rows.items ≡ length items.now) }
    ensures files { IfOk result (λ m. All (λ row. row.file < length files.now) m.rows.items) }
    ensures named { IfOk result (λ m. m.names ≡ module_names m.rows.items) }
    ensures apart { IfOk result (λ m. are_distinct (module_names m.rows.items) ≡ true) }
{
    let mut rows = Vec::new(alloc);
    let mut names = NameTable::new(alloc);
    for value in items {
        let Some(table) = value.as_table() else {
            unreachable!();
        };
        let row = module_at(alloc, table, files, &rows, &names)?;
        names.add(alloc, row.name.items())?;
        rows.push(row)?;
    }
    Ok(Modules { rows, names })
}

/// A module, by its table, where these come before it, with these names.
fn module_at(
    alloc: Global,
    table: &Table,
    files: &NameTable,
    before: &[ModuleRow],
    names: &NameTable,
) -> Result<ModuleRow, ManifestErr>
    requires files { length files.now ≤ 32 }
    requires before { length before.now < 32 }
    requires named { names.now ≡ module_names before.now }
    ensures reads { Reads (λ m. m) (first_in (module_rules files.now before.now (table_view table.now))) (module_of files.now (table_view table.now)) result }
    ensures file { IfOk result (λ m. m.file < length files.now) }
    ensures new { IfOk result (λ m. is_among m.name (module_names before.now) ≡ false) }
{
    let place = Place::Module(before.len() as u32);
    check_keys(alloc, table, place)?;
    let name = new_name_at(alloc, table, place, names)?;
    let file = file_at(alloc, table, place, files)?;
    let limits = Limits {
        low: 0,
        high: 4_294_967_292,
        step: 4,
    };
    let base = number_at(alloc, table, place, "base", limits, 0)?;
    Ok(ModuleRow { name, file, base })
}

// The number of its file.
#[tactic(auto, unfolding(crate::specs::Keys::choice_rules))]
fn file_at(
    alloc: Global,
    table: &Table,
    place: Place,
    files: &NameTable,
) -> Result<u32, ManifestErr>
    requires { length files.now ≤ 32 }
    ensures reads { let v = get_member (codes "file") (table_view table.now) in
        Reads (λ f. f) (first_failing (choice_rules files.now (path_of place (codes "file")) v)) (chosen files.now v) result }
    ensures within { IfOk result (λ f. f < length files.now) }
{
    let text = text_at(alloc, table, place, "file")?;
    match files.place_of(text.as_bytes()) {
        Some(file) => Ok(file as u32),
        None => Err(ManifestErr::BadName(path(alloc, place, "file")?)),
    }
}
