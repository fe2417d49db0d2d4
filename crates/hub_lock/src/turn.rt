// The turn, its seats, and the value that a seat takes and gives.
ghost use Rattle.std.specs.Prelude.{◌≡◌, ℕ, ◌+◌, ◌<◌, ◌≤◌, [], ◌∷◌, ◌++◌, length, true, false, Some, IfOk, IsSome};
ghost use Rattle.atomic_table.specs.Seated.{TableId};
ghost use Rattle.hub_lock.specs.Places.{all_parts, times, between, mine, others, StartsWith, IsWithin};
ghost use Rattle.hub_lock.specs.Merge.{IsMerged};
ghost use Rattle.hub_lock.specs.Steps.{staged, IsOutside, Took, MayCommit, HasCommitted, IsSound};
ghost use Rattle.hub_lock.specs.Seats.{SeatState, seat_state, first_seat, one_part_less, split_from, both, inside_with, own_entries, MayLeave, Leaves};
ghost use Rattle.hub_lock.specs.declared.view.Stage.TheVariants.{Outside, Waits, Inside};

use crate::kept::Kept;
use crate::rule::{CheckJoin, Commit, Draw, Look, Order, PassOn, SplitOff, TakeIn};
use crate::view::View;
use atomic_table::{Refused, Table};
use std::alloc::{AllocError, Global};
use std::marker::Model;
use std::snapshot::Snapshot;
use std::sync::Wait;
use std::thread::yield_now;

// The words of the table: the length of the journal, the next ticket, and the ticket that is served.
const JOURNAL: usize = 0;

const NEXT: usize = 1;

const SERVING: usize = 2;

// A thread parks on the lower half of a word, which is the rest by this.
const HALF: u64 = 4_294_967_296;

// The one slot: it holds the value, or nothing while a seat is inside.
const VALUE: usize = 0;

type Pass<T> = atomic_table::Seat<Option<T>, View<<T as Kept>::Opening, <T as Kept>::Entry>>;

/// A ticket turn round one value. Contracts see which turn it is.
#[derive(Drop)]
pub struct Turn<T: Kept> {
    table: Table<Option<T>, View<T::Opening, T::Entry>, Snapshot<T>, Order<T>, Global>,
}

impl<T: Kept> Model for Turn<T> {
    ghost Value = { TableId };

    ghost view = { λ t. t.table.shared.table_id };

    ghost invariant = { λ t. (t.table.shared.table_id.words ≡ 3) × (t.table.shared.table_id.slots ≡ 1) };
}

/// A right to take turns. It has no bytes.
///
/// Contracts see its turn, the value's opening, what it has seen of the journal, which places of the journal are its own, its parts, and whether it is inside.
#[derive(Drop)]
pub struct Seat<T: Kept> {
    pass: Pass<T>,
}

impl<T: Kept> Model for Seat<T> {
    ghost Value = { SeatState T.Opening T.Entry };

    ghost view = { λ s. seat_state s.pass.table_id s.pass.me };

    ghost invariant = { λ s. IsSound s.pass.me };
}

impl<T: Kept> Seat<T> {
    /// Tells what holds of each seat at any time: it has the value's opening and a part, and has seen each entry that is its own.
    /// It does nothing, and a layer that is handed a seat calls it so that its proofs know.
    pub fn facts(&self)
        ensures opening { IsSome self.now.opening }
        ensures part { 0 < self.now.parts }
        ensures within { IsWithin self.now.seen self.now.own }
    {
        let _ = &self.pass;
    }
}

/// The value, while a seat has the turn.
#[derive(Drop)]
pub struct Held<T> {
    pub value: T,
}

impl<T: Kept> Turn<T> {
    /// A turn round the value, and its first seat, which has all 2^32 parts. The only error is want of memory.
    pub fn start(alloc: Global, value: T) -> Result<(Turn<T>, Seat<T>), AllocError>
        requires { T.journal value ≡ [] }
        ensures { IfOk result (λ t. t.1 ≡ first_seat t.0 (T.opening value)) }
    {
        let key = Snapshot::of(&value);
        let mut slots = Vec::with_capacity(alloc, 1)?;
        slots.push_reserved(Some(value));
        match Table::new(alloc, &[0, 0, 0], slots, &key) {
            Ok((table, pass)) => Ok((Turn { table }, Seat { pass })),
            Err(Refused { slots: _ }) => Err(AllocError),
        }
    }

    /// Moves one part to a new seat, which has seen as much and has no entry of its own.
    pub fn split(&self, seat: &mut Seat<T>) -> Seat<T>
        requires turn { seat.old.turn ≡ self.now }
        requires parts { 2 ≤ seat.old.parts }
        ensures kept { seat.new ≡ one_part_less seat.old }
        ensures given { result ≡ split_from seat.old }
    {
        let pass = self.table.shared.split_seat::<SplitOff>(&mut seat.pass);
        Seat { pass }
    }

    /// Takes in the other seat, with what it has seen, its own places and its parts.
    pub fn join(&self, seat: &mut Seat<T>, other: Seat<T>)
        requires turn { (seat.old.turn ≡ self.now) × (other.turn ≡ self.now) }
        requires outside { (seat.old.inside ≡ false) × (other.inside ≡ false) }
        ensures both { seat.new ≡ both seat.old other }

        // Each of the two had seen a beginning of what is now seen, and they shared no place.
        ensures later { StartsWith seat.new.seen seat.old.seen × StartsWith seat.new.seen other.seen }
        ensures apart { (p : ℕ) → times p seat.old.own + times p other.own ≤ 1 }
        ensures within { IsWithin seat.new.seen seat.new.own }

        // The places of each are still those of the same entries, and together these are its own.
        ensures kept { (mine seat.new.seen seat.old.own ≡ own_entries seat.old) × (mine seat.new.seen other.own ≡ own_entries other) }
        ensures entries { IsMerged (own_entries seat.new) (own_entries seat.old) (own_entries other) }
    {
        let Seat { pass } = other;
        self.table.shared.join_seat::<TakeIn>(&mut seat.pass, pass);
        self.table.shared.load::<CheckJoin>(&mut seat.pass, JOURNAL);
    }

    /// Waits for the turn, and takes the value. Its journal is what the seat has then seen.
    ///
    /// Once 2^64 - 1 tickets were drawn it waits for good.
    pub fn enter<R: Wait>(&self, rt: &R, seat: &mut Seat<T>) -> Held<T>
        requires turn { seat.old.turn ≡ self.now }
        requires outside { seat.old.inside ≡ false }
        ensures inside { seat.new ≡ inside_with seat.old (T.journal result.value) }
        ensures opening { seat.old.opening ≡ Some (T.opening result.value) }
        ensures later { StartsWith seat.new.seen seat.old.seen }
        ensures within { IsWithin seat.new.seen seat.new.own }

        // Its own entries are as before. They meet the rule, and so do those that are not its own.
        ensures entries { own_entries seat.new ≡ own_entries seat.old }
        ensures own_ruled { T.rule (own_entries seat.new) }
        ensures rest_ruled { T.rule (others seat.new.seen seat.new.own) }
    {
        let ticket = self.draw(rt, &mut seat.pass);
        self.look(rt, &mut seat.pass, ticket);
        let value = self
            .table
            .shared
            .exchange(&mut seat.pass, VALUE, None)
            .unwrap();
        Held { value }
    }

    /// Gives the value back, and the turn. `added` says that its journal has one entry more than when it was taken.
    pub fn leave(&self, seat: &mut Seat<T>, held: Held<T>, added: bool)
        requires turn { seat.old.turn ≡ self.now }
        requires inside { seat.old.inside ≡ true }
        requires opening { seat.old.opening ≡ Some (T.opening held.value) }
        requires may { MayLeave T.journal T.rule seat.old held.value added }
        ensures { Leaves T.journal seat.old held.value added seat.new }
    {
        let Held { value } = held;
        let what = Snapshot::of(&value);
        drop(
            self.table
                .shared
                .exchange(&mut seat.pass, VALUE, Some(value)),
        );
        self.commit(&mut seat.pass, &what, added);
        self.table
            .shared
            .fetch_add::<PassOn>(&mut seat.pass, SERVING, 1);
        self.table.shared.wake_all(SERVING);
    }

    /// Ends the turn, with the seat that has all parts and so is the only one left.
    /// The value's journal is what that seat has seen, and each of its places is the seat's own, once.
    pub fn close(self, seat: Seat<T>) -> T
        requires turn { seat.turn ≡ self }
        requires outside { seat.inside ≡ false }
        requires all { seat.parts ≡ all_parts }
        ensures opening { seat.opening ≡ Some (T.opening result) }
        ensures journal { T.journal result ≡ seat.seen }
        ensures own { (p : ℕ) → times p seat.own ≡ between p 0 (length seat.seen) }
        ensures entries { own_entries seat ≡ seat.seen }
    {
        let Turn { table } = self;
        let Seat { pass } = seat;
        let mut closed = table.close_with(pass);
        let value = closed.take(VALUE).unwrap();
        closed.free();
        value
    }

    // Draws a ticket. Where the last one was drawn it waits for good.
    fn draw<R: Wait>(&self, rt: &R, pass: &mut Pass<T>) -> u64
        requires own { pass.old.table_id ≡ self.now }
        requires outside { IsOutside pass.old.me }
        ensures own { pass.new.table_id ≡ pass.old.table_id }
        ensures drew { pass.new.me ≡ (staged pass.old.me.0 (Waits result), pass.old.me.1) }
    {
        for _ in rt.forever() {
            let next = self.table.shared.peek(NEXT);
            if next < u64::MAX {
                let found = self
                    .table
                    .shared
                    .compare_exchange::<Draw>(pass, NEXT, next, next + 1);
                if found == next {
                    return next;
                }
            }
            yield_now();
        }
        unreachable!()
    }

    // Waits until the ticket is served. The seat has then seen the whole journal, and slot 0 is out with it.
    fn look<R: Wait>(&self, rt: &R, pass: &mut Pass<T>, ticket: u64)
        requires own { pass.old.table_id ≡ self.now }
        requires waits { pass.old.me.0.stage ≡ Waits ticket }
        ensures own { pass.new.table_id ≡ pass.old.table_id }
        ensures took { Took T.opening T.journal T.rule pass.old.me ticket pass.new.me }
    {
        for _ in rt.forever() {
            let serving = self.table.shared.load::<Look<T>>(pass, SERVING);
            if serving == ticket {
                return;
            }
            self.table.shared.park(rt, SERVING, (serving % HALF) as u32);
        }
        unreachable!()
    }

    // Where an entry was added, the journal is longer by it, and it becomes the seat's own.
    fn commit(&self, pass: &mut Pass<T>, value: &Snapshot<T>, added: bool)
        requires own { pass.old.table_id ≡ self.now }
        requires inside { ((t : ℕ) × (pass.old.me.0.stage ≡ Inside t)) × (pass.old.me.1 ≡ (0, Some value.now.value) ∷ []) }
        requires may { MayCommit T.journal T.rule pass.old.me.0 value.now.value added }
        ensures own { pass.new.table_id ≡ pass.old.table_id }
        ensures done { HasCommitted T.journal pass.old.me value.now.value added pass.new.me }
    {
        if added {
            self.table.shared.fetch_add::<Commit<T>>(pass, JOURNAL, 1);
        }
    }
}
