//! The builder of blocks.
//!
//! It stands on `fragment`. The layers above use: [`build`] gives the block that `built` is at an address of a code, and
//! counts it; [`Maker`] is any source of just these blocks, which counts them or tells from where it took them.
#![tactic(auto)]

mod builder;
mod maker;
#[cfg(test)]
mod tests;

pub use builder::build;
pub use maker::{Maker, PlainMaker};
