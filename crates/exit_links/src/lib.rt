//! Where the exits of blocks lead, by place.
//!
//! It stands on `cc_base` and on `in_lists`: each exit that is linked hangs in the list of the place that it leads to. `hung` has what is done with
//! these lists, `links` the calls. A layer above uses the contracts of [`Links`], which see a map from exits to places.
#![tactic(auto)]

mod hung;
mod links;
#[cfg(test)]
mod tests;

pub use links::Links;
