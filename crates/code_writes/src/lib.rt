//! The live blocks of a process, by address, and which of them a write meets.
//!
//! It stands on `cc_base`. A layer above uses the contracts of [`Covers`], which see a map from live addresses to lengths. `page` has the blocks
//! that meet one page, `pages` all pages, and `covers` the map and the calls.
#![tactic(auto)]

mod covers;
mod page;
mod pages;
#[cfg(test)]
mod tests;

pub use covers::Covers;
