// The registry.
ghost use Rattle.std.specs.Prelude.{◌≡◌, ◌<◌, ◌≤◌, ◌+◌, ◌^◌, [], ◌∷◌, ◌++◌, length, IfOk, IfSome, OnOk, OnErr, slice_get, Some, true, false, map, option_map};
ghost use Rattle.std.specs.Arc.{arc_value};
ghost use Rattle.std.specs.List.{All};
ghost use Rattle.unit_set.specs.Sets.{IsRising};
ghost use Rattle.unit_set.specs.Held.{IsFreshFor, addresses};
ghost use Rattle.registry.specs.Content.{content_of};
ghost use Rattle.registry.specs.Dues.{Dues, HasName};
ghost use Rattle.registry.specs.State.{with_at, first_due};
ghost use Rattle.registry.specs.Opening.{image_at, slot_at};
ghost use Rattle.registry.specs.Registry.{attached, with_generation, one_less, slot_in, generation_in, attaches_generation, replaced_by, files_after, published_as, shut_now, generation_of, merged, merge_reply, slot_opened, slots_opened, opened, AreReplied};
ghost use Rattle.registry.specs.History.{Adds, IsHeld, MayAttach, state_of, AreCounted, MayAnswer, IsOpening, IsCounted};
ghost use Rattle.registry.specs.Holds.{IsGeneration};
ghost use Rattle.registry.specs.declared.entry.Entry.TheVariants.{Map, Replace, Attach, Merge, Detach, Acked, Failed, Finish};
ghost use Rattle.registry.specs.Opening.{Opening as OpeningParts};

use crate::entry::{Entry, Merged, Replaced, Stamp};
use crate::opening::Opening;
use crate::slot::{Attached, Slot};
use crate::slots::{
    addresses_of, attach_at, detach_at, file_of, first_due, merge_at, publish_at, replace_in,
    room_for, shut_at, slots_of, unit_at,
};
use fragment::Fragment;
use std::alloc::{AllocError, Global};
use std::marker::Model;
use std::sync::Arc;
use unit_set::Unit;

/// What is to be published.
#[derive(Drop)]
pub enum Due {
    Slot {
        slot: u32,
        age: u32,
        version: u32,
        unit: Arc<Unit>,
    },
    Nothing {
        at: u64,
        finished: bool,
    },
}

/// The units that guests share, and the journal of all calls.
#[derive(Drop)]
pub struct Registry {
    alloc: Global,
    opening: Opening,
    files: Vec<u32>,
    slots: Vec<Slot>,
    unanswered: u64,
    finished: bool,
    // how many entries are owed, for which there is room in the journal
    owed: u64,
    journal: Vec<Entry>,
}

impl Model for Registry {
    ghost use Rattle.std.specs.Vec.{vec_capacity};
    ghost use Rattle.registry.specs.History.{History, IsKept};

    ghost Value = { History };

    ghost view = { λ r. record { opening = r.opening; journal = r.journal.items } };

    ghost invariant = { λ r. IsKept r.opening r.journal.items (record { files = r.files.items; slots = r.slots.items; unanswered = r.unanswered; finished = r.finished }) r.owed (vec_capacity r.journal) };
}

impl Registry {
    /// A registry with an empty journal.
    pub fn new(alloc: Global, opening: Opening) -> Result<Registry, AllocError>
        requires { IsOpening opening }
        ensures { IfOk result (λ r. r ≡ record { opening = opening; journal = [] }) }
    {
        let files = Vec::from_slice(alloc, &opening.modules)?;
        let slots = slots_of(alloc, &opening.found, &opening.shut)?;
        let mut journal = Vec::new(alloc);
        journal.reserve(1)?;
        Ok(Registry {
            alloc,
            opening,
            files,
            slots,
            unanswered: 0,
            finished: false,
            owed: 1,
            journal,
        })
    }

    /// Fragments, rising by address, are handed in for the unit of a generation that is held. Where the union has over
    /// 16,384 addresses nothing is added.
    pub fn merge(
        &mut self,
        guest: u32,
        slot: u32,
        age: u32,
        added: &[Fragment],
    ) -> Result<Merged, AllocError>
        requires held { IsHeld (state_of self.old) slot age }
        requires fresh { All (IsFreshFor (generation_of (state_of self.old) slot age).unit.slot (generation_of (state_of self.old) slot age).unit.image) added.now }
        requires rises { IsRising (addresses added.now) }
        requires few { length added.now ≤ 16384 }
        ensures ok { IfOk result (λ reply. Adds self.old (Merge guest slot age (addresses added.now) reply) self.new) }
        ensures err { OnErr result (self.new ≡ self.old) }
    {
        let addrs = addresses_of(self.alloc, added)?;
        self.journal.reserve(room_for(self.owed))?;
        let reply = merge_at(self.alloc, &mut self.slots, slot, age, added)?;
        self.journal.push_reserved(Entry::Merge {
            guest,
            slot,
            age,
            addrs,
            reply,
        });
        Ok(reply)
    }

    /// How many slots there are.
    pub fn slot_count(&self) -> usize
        ensures slots { result ≡ length (state_of self.now).slots }
        ensures opening { result ≡ length self.now.opening.slots }
    {
        self.slots.len()
    }

    /// What is to be published next, and its unit; or that nothing is, with the length of the journal and whether all
    /// guests are done.
    pub fn due(&mut self) -> Result<Due, AllocError>
        ensures ok { IfOk result (Dues self.old self.new) }
        ensures slot { IfOk result (HasName self.old.opening) }
        ensures err { OnErr result (self.new ≡ self.old) }
    {
        let Some((slot, stamp)) = first_due(&self.slots) else {
            return Ok(Due::Nothing {
                at: self.journal.len() as u64,
                finished: self.finished,
            });
        };
        self.journal.reserve(room_for(self.owed) + 1)?;
        let unit = unit_at(&self.slots, slot, stamp.age)?;
        self.unanswered += 1;
        self.owed += 1;
        self.journal.push_reserved(Entry::Due {
            slot,
            age: stamp.age,
            version: stamp.version,
        });
        Ok(Due::Slot {
            slot,
            age: stamp.age,
            version: stamp.version,
            unit,
        })
    }

    /// The file of a module, which is one of the opening's; none where the number is no module's.
    pub fn map(&mut self, guest: u32, module: u32) -> Result<Option<u32>, AllocError>
        ensures ok { IfOk result (λ file. Adds self.old (Map guest «module» file) self.new) }
        ensures file { IfOk result (λ file. IfSome file (λ f. f < length self.old.opening.codes)) }
        ensures err { OnErr result (self.new ≡ self.old) }
    {
        self.journal.reserve(room_for(self.owed))?;
        let file = file_of(&self.files, module);
        self.journal.push_reserved(Entry::Map {
            guest,
            module,
            file,
        });
        Ok(file)
    }

    /// A guest attaches the file's segment at the slot's base: it gets the generation with that image, a new one where
    /// there is none.
    pub fn attach(&mut self, guest: u32, slot: u32, file: u32) -> Result<Attached, AllocError>
        requires { MayAttach self.old.opening slot file }
        ensures ok { IfOk result (λ a. Adds self.old (Attach guest slot file a.age a.version) self.new) }
        ensures unit { IfOk result (λ a. content_of (arc_value a.unit) ≡ (attaches_generation self.old.opening (state_of self.old) slot file).unit) }
        ensures image { IfOk result (λ a. (arc_value a.unit).image ≡ image_at self.old.opening slot file) }
        ensures slot { IfOk result (λ a. (arc_value a.unit).slot ≡ slot_at self.old.opening slot) }
        ensures err { OnErr result (self.new ≡ self.old) }
    {
        let image = self.opening.image(slot, file)?;
        let name = self.opening.slot(slot);
        self.journal.reserve(room_for(self.owed) + 1)?;
        let attached = attach_at(self.alloc, &mut self.slots, slot, name, image)?;
        self.owed += 1;
        self.journal.push_reserved(Entry::Attach {
            guest,
            slot,
            file,
            age: attached.age,
            version: attached.version,
        });
        Ok(attached)
    }

    /// A guest lets a generation go. It takes no memory.
    pub fn detach(&mut self, guest: u32, slot: u32, age: u32)
        requires { IsHeld (state_of self.old) slot age }
        ensures { Adds self.old (Detach guest slot age) self.new }
    {
        detach_at(&mut self.slots, slot, age);
        self.owed -= 1;
        self.journal
            .push_reserved(Entry::Detach { guest, slot, age });
    }

    /// A module is another file from now on, where both numbers are in range.
    pub fn replace(&mut self, guest: u32, module: u32, file: u32) -> Result<Replaced, AllocError>
        ensures ok { IfOk result (λ reply. Adds self.old (Replace guest «module» file reply) self.new) }
        ensures err { OnErr result (self.new ≡ self.old) }
    {
        self.journal.reserve(room_for(self.owed))?;
        let files = self.opening.file_count();
        let reply = replace_in(&mut self.files, files, module, file);
        self.journal.push_reserved(Entry::Replace {
            guest,
            module,
            file,
            reply,
        });
        Ok(reply)
    }

    /// What was due is published. It takes no memory.
    pub fn acked(&mut self, slot: u32, age: u32, version: u32)
        requires { MayAnswer (state_of self.old) slot }
        ensures { Adds self.old (Acked slot age version) self.new }
    {
        publish_at(&mut self.slots, slot, Stamp { age, version });
        self.unanswered -= 1;
        self.owed -= 1;
        self.journal
            .push_reserved(Entry::Acked { slot, age, version });
    }

    /// What was due could not be published: the slot is shut. It takes no memory.
    pub fn failed(&mut self, slot: u32)
        requires { MayAnswer (state_of self.old) slot }
        ensures { Adds self.old (Failed slot) self.new }
    {
        shut_at(&mut self.slots, slot);
        self.unanswered -= 1;
        self.owed -= 1;
        self.journal.push_reserved(Entry::Failed { slot });
    }

    /// All guests are done. It makes its entry once, and takes no memory.
    pub fn finish(&mut self)
        ensures first { (state_of self.old).finished ≡ false → Adds self.old Finish self.new }
        ensures later { (state_of self.old).finished ≡ true → self.new ≡ self.old }
    {
        if !self.finished {
            self.finished = true;
            self.owed -= 1;
            self.journal.push_reserved(Entry::Finish);
        }
    }

    /// The journal, in which each entry is the one that its call makes at its place. A generation is held by as many guests as attached it and did not detach it, and as many publications
    /// are not answered as the Due entries are more than the answers.
    pub fn journal(&self) -> &[Entry]
        ensures entries { result.now ≡ self.now.journal }
        ensures counted { IsCounted (state_of self.now) self.now.journal }
        ensures replied { AreReplied self.now.opening (opened self.now.opening) self.now.journal }
    {
        &self.journal
    }

    /// The journal of a registry that is not needed any more. It takes no memory.
    pub fn into_journal(self) -> Vec<Entry>
        ensures { result.items ≡ self.journal }
    {
        self.journal
    }
}
