//! Lists of exits, one for each head, in one raw block of nodes.
//!
//! The crate stands on no other of this repository. `block` has the raw memory, `nodes` the list of nodes that lies there, and `lists` the calls.
//! A layer above uses the contracts of `InLists`, which see one list of exits for each head.
#![tactic(auto)]

mod block;
mod lists;
mod node;
mod nodes;
#[cfg(test)]
mod tests;

pub use lists::InLists;
