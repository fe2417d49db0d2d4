ghost use Rattle.std.specs.Prelude.{◌≡◌, ◌<◌, ◌==◌, ℕ, Some, None, [], true, cond, length, get_or, option_map, IfOk};
ghost use Rattle.frag_table.specs.Held.{is_shared_in, lies};

use crate::held::Held;
use std::alloc::{AllocError, Global};
use std::marker::Model;

/// The most places.
const MOST: usize = 1 << 30;

/// What lies in each place. Places are numbered from 0, and those past the end are as free ones.
#[derive(Drop)]
pub struct Slots {
    slots: Vec<Option<Held>>,
    // The free places, as a list: its first, and for each of them the next. They are tested before they are used.
    free: Option<u32>,
    next_free: Vec<Option<u32>>,
}

impl Model for Slots {
    ghost use Rattle.std.specs.Prelude.{List, Option};
    ghost use Rattle.frag_table.specs.Held as table;

    ghost Value = { List (Option table.Held) };

    ghost view = { λ s. s.slots.items };
}

impl Slots {
    /// There is no place. It takes no memory.
    pub fn new(alloc: Global) -> Slots
        ensures { result ≡ [] }
    {
        Slots {
            slots: Vec::new(alloc),
            free: None,
            next_free: Vec::new(alloc),
        }
    }

    /// What lies in a place.
    #[inline]
    pub fn at(&self, place: u32) -> Option<&Held>
        ensures { option_map (λ h. h.now) result ≡ get_or self.now place None }
    {
        held_at(&self.slots, place)
    }

    /// Whether a block of an attached unit lies in the place.
    #[inline]
    pub fn is_shared(&self, place: u32) -> bool
        ensures { result ≡ is_shared_in (get_or self.now place None) }
    {
        match self.at(place) {
            Some(held) => held.is_shared(),
            None => false,
        }
    }

    /// Whether the block of the address lies in the place.
    #[inline]
    pub fn lies_at(&self, place: u32, addr: u32) -> bool
        ensures { result ≡ lies (get_or self.now place None) addr }
    {
        match self.at(place) {
            Some(held) => held.block().addr() == addr,
            None => false,
        }
    }

    /// A free place, below 1,073,741,824. A new one is made where none is known to be free. The only error is want of
    /// memory, which more than 1,073,741,824 places always meet.
    pub fn room(&mut self) -> Result<u32, AllocError>
        ensures same { (q : ℕ) → get_or self.new q None ≡ get_or self.old q None }
        ensures within { IfOk result (λ p. (p < length self.new) × (p < 1073741824)) }
        ensures free { IfOk result (λ p. get_or self.old p None ≡ None) }
    {
        if let Some(place) = self.free
            && is_free(&self.slots, place)
        {
            return Ok(place);
        }
        if self.next_free.len() == self.slots.len() {
            self.next_free.push(None)?;
        }
        let place = add(&mut self.slots)?;
        self.free = Some(place);
        Ok(place)
    }

    /// The block comes to lie in the place. It takes no memory.
    pub fn put(&mut self, place: u32, held: Held)
        requires { place < length self.old }
        ensures { (q : ℕ) → get_or self.new q None ≡ cond (q == place) (Some held) (get_or self.old q None) }
    {
        put(&mut self.slots, place, Some(held));
        self.free = after(self.free, &self.next_free, place);
    }

    /// Nothing lies in the place any more. It takes no memory.
    pub fn clear(&mut self, place: u32)
        ensures { (q : ℕ) → get_or self.new q None ≡ cond (q == place) None (get_or self.old q None) }
    {
        free(&mut self.slots, place);
        if let Some(next) = self.next_free.get_mut(place as usize) {
            *next = self.free;
            self.free = Some(place);
        }
    }
}

// What lies in a place.
#[inline]
fn held_at(slots: &[Option<Held>], place: u32) -> Option<&Held>
    ensures { option_map (λ h. h.now) result ≡ get_or slots.now place None }
{
    match slots.get(place as usize) {
        Some(Some(held)) => Some(held),
        _ => None,
    }
}

// This lies in the place from now on.
fn put(slots: &mut Vec<Option<Held>>, place: u32, held: Option<Held>)
    requires { place < length slots.old.items }
    ensures { (q : ℕ) → get_or slots.new.items q None ≡ cond (q == place) held (get_or slots.old.items q None) }
{
    slots[place as usize] = held;
}

// Nothing lies in the place any more, if it is one.
fn free(slots: &mut Vec<Option<Held>>, place: u32)
    ensures { (q : ℕ) → get_or slots.new.items q None ≡ cond (q == place) None (get_or slots.old.items q None) }
{
    if (place as usize) < slots.len() {
        put(slots, place, None);
    }
}

// One place more, in which nothing lies.
fn add(slots: &mut Vec<Option<Held>>) -> Result<u32, AllocError>
    ensures same { (q : ℕ) → get_or slots.new.items q None ≡ get_or slots.old.items q None }
    ensures within { IfOk result (λ p. (p < length slots.new.items) × (p < 1073741824)) }
    ensures free { IfOk result (λ p. get_or slots.old.items p None ≡ None) }
{
    let place = slots.len();
    if place >= MOST {
        return Err(AllocError);
    }
    slots.push(None)?;
    Ok(place as u32)
}

// Whether it is a place in which nothing lies.
fn is_free(slots: &[Option<Held>], place: u32) -> bool
    ensures within { result ≡ true → (place < length slots.now) × (place < 1073741824) }
    ensures free { result ≡ true → get_or slots.now place None ≡ None }
{
    (place as usize) < MOST && (place as usize) < slots.len() && held_at(slots, place).is_none()
}

// The first free place, once this one is taken.
fn after(free: Option<u32>, next_free: &[Option<u32>], place: u32) -> Option<u32> {
    match free {
        Some(first) if first == place => match next_free.get(place as usize) {
            Some(next) => *next,
            None => None,
        },
        other => other,
    }
}
