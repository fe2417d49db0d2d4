//! How often calls on the outside have failed: counts that never fall and stand still at their greatest value. It stands
//! on std alone. The crates of files, sinks and shelves use [`raised`], and all contracts on faults its definitions.
#![tactic(auto)]

ghost use Rattle.std.specs.Prelude.{◌≡◌, ◌≤◌};
ghost use Rattle.fault_counts.specs.Counts.{Rose, one_more};

/// The count after one more.
pub fn raised(count: u64) -> u64
    ensures value { result ≡ one_more count }
    ensures rose { Rose count result }
    ensures no_less { count ≤ result }
{
    count.saturating_add(1)
}
