//! A ticket turn round one value, on `atomic_table`.
//!
//! Seats take turns with the value. Its journal is one history: each seat has seen a beginning of it, and each entry is one seat's own.
//! The value's type implements [`Kept`], and a crate above uses the clauses of [`Turn`]'s calls, over what its holder sees of a [`Seat`].
//! [`one_has_the_turn`] says what the rule of the table keeps: one seat at a time has the turn.
//! No clause says that a seat which waits is ever served, or woken: a test shows that.
#![tactic(auto)]

mod kept;
mod laws;
mod rule;
mod turn;
mod view;

pub use kept::Kept;
pub use laws::one_has_the_turn;
pub use turn::{Held, Seat, Turn};
pub use view::{Stage, View};

#[cfg(test)]
mod tests;
