//! The book of a process: the ledger, as it is kept over a table of places, links, and lengths of live blocks.
//!
//! It stands on `block_book`, `block_ledger`, `frag_table`, `exit_links`, `code_writes`, `merge_pass` and `unit_set`. The
//! layer above uses that [`CodeBook`] meets the trait `Book`, each call of which is one thing that happens to the ledger.
#![tactic(auto)]

mod attach;
mod begin;
mod code_book;
mod exits;
mod find;
mod kept;
pub mod laws;
mod new;
mod offer;
mod own;
mod settle;
#[cfg(test)]
mod tests;
mod units;
mod unplace;
mod withdraw;

pub use code_book::CodeBook;
