ghost use Rattle.std.specs.Prelude.{◌≡◌, ◌≢◌, ◌≤◌, ◌<◌, ◌%◌, IfOk, IfSome, None, is_some};
ghost use Rattle.toml.specs.Data.{get_member, as_integer};
ghost use Rattle.toml.specs.View.{view, table_view};
ghost use Rattle.manifest.specs.Keys.{fits, if_number, natural, number_at, number_rules, first_failing, path_of};
ghost use Rattle.manifest.specs.Manifest.{Reads};

use crate::error::ManifestErr;
use crate::path::{Place, path};
use crate::texts::value_at;
use std::alloc::Global;
use toml::{Table, Value};

/// Which numbers are taken: those from `low` to `high` that are multiples of `step`.
#[derive(Clone, Copy, Debug, PartialEq, Eq)]
pub struct Limits {
    pub low: u32,
    pub high: u32,
    pub step: u32,
}

/// The number at a key, or the default where there is none.
#[tactic(auto, unfolding(crate::specs::Keys::number_rules))]
pub fn number_at(
    alloc: Global,
    table: &Table,
    place: Place,
    key: &str,
    limits: Limits,
    default: u32,
) -> Result<u32, ManifestErr>
    requires step { 0 < limits.step }
    requires low { limits.low ≤ default }
    requires high { default ≤ limits.high }
    requires even { default % limits.step ≡ 0 }
    ensures reads { Reads (λ n. n) (first_failing (number_rules limits (path_of place key.now) (get_member key.now (table_view table.now)))) (number_at default (get_member key.now (table_view table.now))) result }
    ensures low { IfOk result (λ n. limits.low ≤ n) }
    ensures high { IfOk result (λ n. n ≤ limits.high) }
    ensures even { IfOk result (λ n. n % limits.step ≡ 0) }
{
    let Some(value) = value_at(table, key) else {
        return Ok(default);
    };
    let Some(number) = value.as_integer() else {
        return Err(ManifestErr::Kind(path(alloc, place, key)?));
    };
    match fitting(number, limits) {
        Some(n) => Ok(n),
        None => Err(ManifestErr::Range(path(alloc, place, key)?)),
    }
}

// The number, where it is one of those that are taken.
fn fitting(number: i64, limits: Limits) -> Option<u32>
    requires { 0 < limits.step }
    ensures taken { is_some result ≡ fits limits number }
    ensures number { IfSome result (λ n. natural (Some number) ≡ n) }
    ensures low { IfSome result (λ n. limits.low ≤ n) }
    ensures high { IfSome result (λ n. n ≤ limits.high) }
    ensures even { IfSome result (λ n. n % limits.step ≡ 0) }
{
    if number < 0 {
        return None;
    }
    let n = number.unsigned_abs();
    if n < u64::from(limits.low) || n > u64::from(limits.high) || n % u64::from(limits.step) != 0 {
        return None;
    }
    Some(n as u32)
}
