//! All guests of a manifest, over the units of a cache folder: the slots are loaded, the guests run by rounds over one
//! registry, and what is due is published.
//!
//! It stands on `guest_loop`, `guest_rounds`, `registry` and `publisher`. The layer above uses: [`run_whole`] tells by one
//! journal what each guest came to, and what the folder holds (`IsWhole`).
#![tactic(auto)]

mod crew;
mod run;
mod start;
#[cfg(test)]
mod tests;
mod whole;

pub use run::run_whole;
pub use whole::Whole;
