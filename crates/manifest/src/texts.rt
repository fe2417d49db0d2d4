ghost use Rattle.std.specs.Prelude.{◌≡◌, ◌≢◌, ◌<◌, true, false, IfOk, OnOk, IfSome, length, map, option_map, is_some, codes};
ghost use Rattle.std.specs.Option.{ForSome};
ghost use Rattle.toml.specs.Data.{get_member, as_str};
ghost use Rattle.toml.specs.View.{view, table_view};
ghost use Rattle.rv_decode.specs.declared.ins.Isa.TheVariants as sets;
ghost use Rattle.probe_tools.specs.declared.tool.Tool.TheVariants as tools;
ghost use Rattle.manifest.specs.Names.{is_name, is_file_name, is_among};
ghost use Rattle.manifest.specs.Keys.{text_at, text_rules, name_rules, tool_of, isa_of, tool_rules, isa_rules, input_rules, meant, input_at, first_failing, path_of};
ghost use Rattle.manifest.specs.Manifest.{Reads};

use crate::error::ManifestErr;
use crate::name_table::NameTable;
use crate::names::{is_file_name, is_name};
use crate::path::{Place, path};
use cc_base::Name;
use probe_tools::Tool;
use rv_decode::Isa;
use std::alloc::Global;
use toml::{Table, Value};

/// The value at a key.
pub fn value_at<'a>(table: &'a Table, key: &str) -> Option<&'a Value>
    ensures { option_map (λ v. view v.now) result ≡ get_member key.now (table_view table.now) }
{
    table.get(key)
}

/// The text at a key.
pub fn text_at<'a>(
    alloc: Global,
    table: &'a Table,
    place: Place,
    key: &str,
) -> Result<&'a str, ManifestErr>
    ensures { Reads (λ s. s.now) (first_failing (text_rules (path_of place key.now) (get_member key.now (table_view table.now))))
        (text_at (get_member key.now (table_view table.now))) result }
{
    let Some(value) = value_at(table, key) else {
        return Err(ManifestErr::Missing(path(alloc, place, key)?));
    };
    match value.as_str() {
        Some(text) => Ok(text),
        None => Err(ManifestErr::Kind(path(alloc, place, key)?)),
    }
}

/// The name at the key `name`, which is none of these.
#[tactic(auto, unfolding(crate::specs::Keys::name_rules))]
pub fn new_name_at(
    alloc: Global,
    table: &Table,
    place: Place,
    before: &NameTable,
) -> Result<Name, ManifestErr>
    ensures reads { let v = get_member (codes "name") (table_view table.now) in
        Reads (λ n. n) (first_failing (name_rules before.now (path_of place (codes "name")) v)) (text_at v) result }
    ensures spelled { IfOk result (λ n. is_name n ≡ true) }
    ensures new { IfOk result (λ n. is_among n before.now ≡ false) }
{
    let text = text_at(alloc, table, place, "name")?;
    if !is_name(text.as_bytes()) {
        return Err(ManifestErr::BadName(path(alloc, place, "name")?));
    }
    if before.has(text.as_bytes()) {
        return Err(ManifestErr::Repeated(path(alloc, place, "name")?));
    }
    Ok(Name::of(alloc, text.as_bytes())?)
}

fn tool_of(text: &str) -> Option<Tool>
    ensures { result ≡ tool_of text.now }
{
    if text == "blocks" {
        Some(Tool::Blocks)
    } else if text == "calls" {
        Some(Tool::Calls)
    } else if text == "memory" {
        Some(Tool::Memory)
    } else {
        None
    }
}

fn isa_of(text: &str) -> Option<Isa>
    ensures { result ≡ isa_of text.now }
{
    if text == "i" {
        Some(Isa::I)
    } else if text == "im" {
        Some(Isa::Im)
    } else {
        None
    }
}

/// The tool at the key `tool`, or `blocks` where there is none.
#[tactic(auto, unfolding(crate::specs::Keys::optional_rules))]
pub fn tool_at(alloc: Global, table: &Table, place: Place) -> Result<Tool, ManifestErr>
    ensures { Reads (λ t. t) (first_failing (tool_rules (path_of place (codes "tool")) (get_member (codes "tool") (table_view table.now))))
        (meant tools.Blocks tool_of (get_member (codes "tool") (table_view table.now))) result }
{
    let Some(value) = value_at(table, "tool") else {
        return Ok(Tool::Blocks);
    };
    let Some(text) = value.as_str() else {
        return Err(ManifestErr::Kind(path(alloc, place, "tool")?));
    };
    match tool_of(text) {
        Some(tool) => Ok(tool),
        None => Err(ManifestErr::BadName(path(alloc, place, "tool")?)),
    }
}

/// The instruction set at the key `isa`, or RV32I where there is none.
#[tactic(auto, unfolding(crate::specs::Keys::optional_rules))]
pub fn isa_at(alloc: Global, table: &Table, place: Place) -> Result<Isa, ManifestErr>
    ensures { Reads (λ i. i) (first_failing (isa_rules (path_of place (codes "isa")) (get_member (codes "isa") (table_view table.now))))
        (meant sets.I isa_of (get_member (codes "isa") (table_view table.now))) result }
{
    let Some(value) = value_at(table, "isa") else {
        return Ok(Isa::I);
    };
    let Some(text) = value.as_str() else {
        return Err(ManifestErr::Kind(path(alloc, place, "isa")?));
    };
    match isa_of(text) {
        Some(isa) => Ok(isa),
        None => Err(ManifestErr::BadName(path(alloc, place, "isa")?)),
    }
}

/// The name of a file at the key `input`, if there is one.
#[tactic(auto, unfolding(crate::specs::Keys::optional_rules))]
pub fn input_at(alloc: Global, table: &Table, place: Place) -> Result<Option<Name>, ManifestErr>
    ensures reads { Reads (λ n. n) (first_failing (input_rules (path_of place (codes "input")) (get_member (codes "input") (table_view table.now))))
        (input_at (get_member (codes "input") (table_view table.now))) result }
    ensures spelled { IfOk result (λ input. ForSome input (λ n. is_file_name n ≡ true)) }
{
    let Some(value) = value_at(table, "input") else {
        return Ok(None);
    };
    let Some(text) = value.as_str() else {
        return Err(ManifestErr::Kind(path(alloc, place, "input")?));
    };
    if !is_file_name(text.as_bytes()) {
        return Err(ManifestErr::BadName(path(alloc, place, "input")?));
    }
    Ok(Some(Name::of(alloc, text.as_bytes())?))
}
