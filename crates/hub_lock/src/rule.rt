// The rule of the table, and what each kind of step tells.
use crate::kept::Kept;
use crate::view::View;
use atomic_table::{Join, Play, Split, TableRule};
use std::marker::PhantomData;
use std::snapshot::Snapshot;

/// The rule. `T` is the value under the turn, and the table's key is the value that was given to `start`.
pub struct Order<T> {
    marker: PhantomData<T>,
}

impl<T: Kept> TableRule<Option<T>, View<T::Opening, T::Entry>, Snapshot<T>> for Order<T> {
    ghost use Rattle.hub_lock.specs.Rule.{Orderly};
    ghost use Rattle.hub_lock.specs.Steps.{beginner};

    ghost holds = { λ key. Orderly T.opening T.journal T.rule (T.opening key.value) };

    ghost first = { λ key. beginner (T.opening key.value) };
}

/// Draw: word 1 goes to one more, by a compare_exchange, and the number found is the seat's ticket.
pub struct Draw;

impl<T, O, E> Play<Option<T>, View<O, E>> for Draw {
    ghost use Rattle.hub_lock.specs.Steps.{drew};

    ghost then = { drew };
}

/// Look: word 2 is loaded. Where it is the seat's ticket, slot 0 is out with the seat.
pub struct Look<T> {
    marker: PhantomData<T>,
}

impl<T: Kept> Play<Option<T>, View<T::Opening, T::Entry>> for Look<T> {
    ghost use Rattle.hub_lock.specs.Steps.{looked};

    ghost then = { looked T.opening T.journal T.rule };
}

/// Commit: word 0 goes to one more, and the new entry is the seat's own.
pub struct Commit<T> {
    marker: PhantomData<T>,
}

impl<T: Kept> Play<Option<T>, View<T::Opening, T::Entry>> for Commit<T> {
    ghost use Rattle.hub_lock.specs.Steps.{committed};

    ghost then = { committed T.journal };
}

/// Pass on: word 2 goes to one more, and slot 0 is home again.
pub struct PassOn;

impl<T, O, E> Play<Option<T>, View<O, E>> for PassOn {
    ghost use Rattle.hub_lock.specs.Steps.{passed};

    ghost then = { passed };
}

/// Split: a new seat gets one part.
pub struct SplitOff;

impl<O, E> Split<View<O, E>> for SplitOff {
    ghost use Rattle.hub_lock.specs.Steps.{left_with, parted};

    ghost left = { left_with };

    ghost right = { parted };
}

/// Join: one seat gets all that the other has.
pub struct TakeIn;

impl<O, E> Join<View<O, E>> for TakeIn {
    ghost use Rattle.hub_lock.specs.Steps.{joined, spent};

    ghost both = { joined };

    ghost spent = { spent };
}

/// Word 0 is loaded after a join, to learn how what both had seen and owned fits together.
pub struct CheckJoin;

impl<T, O, E> Play<Option<T>, View<O, E>> for CheckJoin {
    ghost use Rattle.hub_lock.specs.Steps.{checked};

    ghost then = { checked };
}
