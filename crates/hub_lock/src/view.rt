// What a seat knows. These values exist in proofs alone.
use std::collections::LinkedList;

/// Where a seat stands, with its ticket.
pub enum Stage {
    Outside,
    Waits(u64),
    /// It has the turn, and slot 0 is out with it.
    Inside(u64),
    /// It has the turn, and has committed an entry.
    Added(u64),
}

/// `O` is the value's opening, `E` an entry of its journal.
pub struct View<O, E> {
    /// None where the seat was joined, and is spent.
    pub opening: Option<O>,
    pub seen: LinkedList<E>,
    /// The places of the journal that are the seat's own.
    pub own: LinkedList<u64>,
    pub parts: u64,
    pub stage: Stage,
    /// After a join the shorter of what the two had seen.
    pub told: LinkedList<E>,
}
