// A slot and its generations.
ghost use Rattle.std.specs.Prelude.{◌≡◌, ℕ, ◌<◌, ◌≤◌, ◌+◌, ◌-◌, ◌^◌, ◌++◌, ◌∷◌, [], length, IfOk, OnOk, OnErr, MatchResult, Some, slice_get};
ghost use Rattle.std.specs.Arc.{arc_value};
ghost use Rattle.std.specs.List.{All};
ghost use Rattle.unit_set.specs.Sets.{IsRising};
ghost use Rattle.unit_set.specs.Held.{IsFreshFor, addresses};
ghost use Rattle.registry.specs.Content.{Content, content_of, same_code};
ghost use Rattle.registry.specs.State.{with_at, slot_due, due_at, is_stamp};
ghost use Rattle.registry.specs.Registry.{age_of, has_image, one_more, one_less, new_generation, attached, with_generation, generation_in, held_at, merged, merge_reply};
ghost use Rattle.registry.specs.Holds.{Holds, IsGeneration};

use crate::entry::{Merged, Stamp};
use cc_base::Image;
use fragment::Fragment;
use std::alloc::{AllocError, Global};
use std::marker::Model;
use std::sync::Arc;
use unit_set::{Joined, SlotName, Unit};

/// One image of a slot, with its unit.
#[derive(Drop)]
pub struct Generation {
    pub unit: Arc<Unit>,
    pub version: u32,
    pub attached: u64,
}

impl Model for Generation {
    ghost use Rattle.std.specs.Arc.{arc_value};
    ghost use Rattle.registry.specs.Content.{content_of};
    ghost use Rattle.registry.specs.State.{Generation as GenerationState};

    ghost Value = { GenerationState };

    ghost view = { λ g. record { unit = content_of (arc_value g.unit); version = g.version; attached = g.attached } };
}

/// A slot.
#[derive(Drop)]
pub struct Slot {
    pub generations: Vec<Generation>,
    pub current: Option<u32>,
    pub published: Option<Stamp>,
    pub shut: bool,
}

impl Model for Slot {
    ghost use Rattle.registry.specs.State.{SlotState};

    ghost Value = { SlotState };

    ghost view = { λ s. record { generations = s.generations.items; current = s.current; published = s.published; shut = s.shut } };
}

/// Whether two images have the same start and bytes.
pub fn same_image(a: &Image, b: &Image) -> bool
    ensures { result ≡ same_code a.now b.now }
{
    a.start == b.start && a.bytes.items() == b.bytes.items()
}

/// A generation that a guest holds now: its place, its version and its unit.
#[derive(Drop)]
pub struct Attached {
    pub age: u32,
    pub version: u32,
    pub unit: Arc<Unit>,
}

/// The place of the generation with this image.
pub fn age_of(generations: &[Generation], image: &Image) -> Option<usize>
    ensures { result ≡ age_of image.now generations.now }
{
    generations.iter().position(|g| has_image(g, image))
}

fn has_image(generation: &Generation, image: &Image) -> bool
    ensures { result ≡ has_image image.now generation.now }
{
    same_image(generation.unit.image(), image)
}

/// One guest more holds the generation with this image, which is new where there was none.
pub fn hold(
    alloc: Global,
    generations: &mut Vec<Generation>,
    name: &SlotName,
    image: Image,
) -> Result<Attached, AllocError>
    requires ages { length generations.old.items < 2 ^ 32 }
    requires counts { (age : ℕ) → (generation_in generations.old.items age).attached < 2 ^ 64 - 1 }
    ensures { MatchResult result (Holds (record { slot = name.now; image = image; addrs = [] }) generations.old.items generations.new.items) (λ _. generations.new.items ≡ generations.old.items) }
{
    match age_of(generations, &image) {
        Some(age) => hold_at(generations, age),
        None => hold_new(alloc, generations, name, image),
    }
}

// One guest more holds the generation at this place.
fn hold_at(generations: &mut Vec<Generation>, age: usize) -> Result<Attached, AllocError>
    requires there { age < length generations.old.items }
    requires ages { length generations.old.items < 2 ^ 32 }
    requires counts { (generation_in generations.old.items age).attached < 2 ^ 64 - 1 }
    ensures new { OnOk result (generations.new.items ≡ with_at one_more age generations.old.items) }
    ensures old { OnErr result (generations.new.items ≡ generations.old.items) }
    ensures age { IfOk result (λ a. a.age ≡ age) }
    ensures version { IfOk result (λ a. a.version ≡ (generation_in generations.old.items age).version) }
    ensures unit { IfOk result (λ a. content_of (arc_value a.unit) ≡ (generation_in generations.old.items age).unit) }
{
    let generation = &mut generations[age];
    let unit = Arc::try_clone(&generation.unit)?;
    generation.attached += 1;
    let version = generation.version;
    Ok(Attached {
        age: age as u32,
        version,
        unit,
    })
}

// A generation with this image and no address, which one guest holds.
fn hold_new(
    alloc: Global,
    generations: &mut Vec<Generation>,
    name: &SlotName,
    image: Image,
) -> Result<Attached, AllocError>
    requires ages { length generations.old.items < 2 ^ 32 }
    ensures new { OnOk result (generations.new.items ≡ generations.old.items ++ new_generation (record { slot = name.now; image = image; addrs = [] }) ∷ []) }
    ensures old { OnErr result (generations.new.items ≡ generations.old.items) }
    ensures age { IfOk result (λ a. a.age ≡ length generations.old.items) }
    ensures version { IfOk result (λ a. a.version ≡ 0) }
    ensures unit { IfOk result (λ a. content_of (arc_value a.unit) ≡ record { slot = name.now; image = image; addrs = [] }) }
{
    let age = generations.len() as u32;
    let unit = Arc::new(alloc, Unit::empty(alloc, name.copy(alloc)?, image))?;
    let shared = Arc::try_clone(&unit)?;
    generations.push(Generation {
        unit: shared,
        version: 0,
        attached: 1,
    })?;
    Ok(Attached {
        age,
        version: 0,
        unit,
    })
}

impl Slot {
    /// One guest more holds the generation with this image, which is current then.
    pub fn attach(
        &mut self,
        alloc: Global,
        name: &SlotName,
        image: Image,
    ) -> Result<Attached, AllocError>
        requires ages { length self.old.generations < 2 ^ 32 }
        requires counts { (age : ℕ) → (generation_in self.old.generations age).attached < 2 ^ 64 - 1 }
        ensures slot { MatchResult result (λ _. self.new ≡ attached (record { slot = name.now; image = image; addrs = [] }) self.old) (λ _. self.new ≡ self.old) }
        ensures told { IfOk result (IsGeneration (record { slot = name.now; image = image; addrs = [] }) self.old.generations) }
    {
        let attached = hold(alloc, &mut self.generations, name, image)?;
        self.current = Some(attached.age);
        Ok(attached)
    }

    /// Fragments are added to the unit of a generation.
    pub fn merge(
        &mut self,
        alloc: Global,
        age: u32,
        added: &[Fragment],
    ) -> Result<Merged, AllocError>
        requires there { age < length self.old.generations }
        requires fresh { All (IsFreshFor (generation_in self.old.generations age).unit.slot (generation_in self.old.generations age).unit.image) added.now }
        requires rises { IsRising (addresses added.now) }
        requires few { length added.now ≤ 16384 }
        requires version { (generation_in self.old.generations age).version ≤ length (generation_in self.old.generations age).unit.addrs }
        ensures new { OnOk result (self.new ≡ with_generation age (merged (addresses added.now)) self.old) }
        ensures old { OnErr result (self.new ≡ self.old) }
        ensures reply { IfOk result (λ reply. reply ≡ merge_reply (addresses added.now) (generation_in self.old.generations age)) }
    {
        merge_in(alloc, &mut self.generations, age as usize, added)
    }

    /// One guest less holds the generation.
    pub fn detach(&mut self, age: u32)
        requires there { age < length self.old.generations }
        requires held { 0 < (generation_in self.old.generations age).attached }
        ensures { self.new ≡ with_generation age one_less self.old }
    {
        release(&mut self.generations, age as usize);
    }
}

// One guest less holds the generation at this place.
fn release(generations: &mut Vec<Generation>, age: usize)
    requires there { age < length generations.old.items }
    requires held { 0 < (generation_in generations.old.items age).attached }
    ensures { generations.new.items ≡ with_at one_less age generations.old.items }
{
    let generation = &mut generations[age];
    generation.attached -= 1;
}

/// What is to be published of a slot.
pub fn slot_due(slot: &Slot) -> Option<Stamp>
    ensures { result ≡ slot_due slot.now }
{
    if slot.shut {
        return None;
    }
    match slot.current {
        None => None,
        Some(age) => due_of(&slot.generations, age, slot.published),
    }
}

fn due_of(generations: &[Generation], age: u32, published: Option<Stamp>) -> Option<Stamp>
    ensures { result ≡ due_at published age (slice_get generations.now age) }
{
    if age as usize >= generations.len() {
        return None;
    }
    let generation = &generations[age as usize];
    due_at(generation, age, published)
}

fn due_at(generation: &Generation, age: u32, published: Option<Stamp>) -> Option<Stamp>
    ensures { result ≡ due_at published age (Some generation.now) }
{
    let stamp = Stamp {
        age,
        version: generation.version,
    };
    let addrs = generation.unit.addrs();
    if !addrs.is_empty() && !is_stamp(stamp, published) {
        Some(stamp)
    } else {
        None
    }
}

fn is_stamp(stamp: Stamp, published: Option<Stamp>) -> bool
    ensures { result ≡ is_stamp stamp published }
{
    match published {
        None => false,
        Some(other) => stamp.age == other.age && stamp.version == other.version,
    }
}

// Fragments are added to the unit of the generation at this place.
fn merge_in(
    alloc: Global,
    generations: &mut Vec<Generation>,
    age: usize,
    added: &[Fragment],
) -> Result<Merged, AllocError>
    requires there { age < length generations.old.items }
    requires fresh { All (IsFreshFor (generation_in generations.old.items age).unit.slot (generation_in generations.old.items age).unit.image) added.now }
    requires rises { IsRising (addresses added.now) }
    requires few { length added.now ≤ 16384 }
    requires version { (generation_in generations.old.items age).version ≤ length (generation_in generations.old.items age).unit.addrs }
    ensures new { OnOk result (generations.new.items ≡ with_at (merged (addresses added.now)) age generations.old.items) }
    ensures old { OnErr result (generations.new.items ≡ generations.old.items) }
    ensures reply { IfOk result (λ reply. reply ≡ merge_reply (addresses added.now) (generation_in generations.old.items age)) }
{
    let generation = &mut generations[age];
    generation.merge(alloc, added)
}

impl Generation {
    fn merge(&mut self, alloc: Global, added: &[Fragment]) -> Result<Merged, AllocError>
        requires fresh { All (IsFreshFor self.old.unit.slot self.old.unit.image) added.now }
        requires rises { IsRising (addresses added.now) }
        requires few { length added.now ≤ 16384 }
        requires version { self.old.version ≤ length self.old.unit.addrs }
        ensures new { OnOk result (self.new ≡ merged (addresses added.now) self.old) }
        ensures old { OnErr result (self.new ≡ self.old) }
        ensures reply { IfOk result (λ reply. reply ≡ merge_reply (addresses added.now) self.old) }
    {
        let _ = self.unit.addrs();
        match self.unit.join(alloc, added)? {
            Joined::New(unit) => {
                let _ = unit.addrs();
                self.unit = Arc::new(alloc, unit)?;
                self.version += 1;
                Ok(Merged::Version(self.version))
            }
            Joined::Same => Ok(Merged::Version(self.version)),
            Joined::Full(n) => Ok(Merged::UnitFull(n)),
        }
    }
}
