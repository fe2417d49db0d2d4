//! A basic block as it is built for a tool: its address, its words, the probes before them, and where it may go on.
//!
//! It stands on `probe_tools`, `plain_machine` and `rv_decode`. The layers above use: a fragment is its parts; `built`
//! says as a value what the block at an address of a code is, and `IsBuilt` as a relation; [`same_as_built`] tests it;
//! [`laws`] carries a block from one code to another.
#![tactic(auto)]

ghost use Rattle.std.specs.Prelude.{◌≡◌, IfOk};

use probe_tools::ProbeKind;
use std::alloc::{AllocError, Global};
use std::marker::Model;

mod class;
mod exits;
pub mod laws;
mod same;
#[cfg(test)]
mod tests;
mod word;

pub use class::{class_of, ends_block};
pub use exits::{Exits, exits_of};
pub use same::same_as_built;
pub use word::{can_build, word_count, word_in};

/// Where a block goes on.
#[derive(Clone, Copy, Debug, PartialEq, Eq)]
pub enum Exit {
    /// At this address.
    Direct(u32),
    /// At the address that a register gives.
    Indirect,
    /// It calls the system, and may go on at this address.
    Asks(u32),
    /// Nowhere: its last word cannot be done.
    Stop,
}

/// A probe, which runs before the word at its place. Places count words of the block, from 0.
#[derive(Clone, Copy, Debug, PartialEq, Eq)]
pub struct Probe {
    pub place: u8,
    pub kind: ProbeKind,
}

/// A block as it was built. Its words stand one behind the other from `address` on.
#[derive(Drop)]
pub struct Fragment {
    address: u32,
    words: Vec<u32>,
    probes: Vec<Probe>,
    exits: Vec<Exit>,
}

impl Model for Fragment {
    ghost use Rattle.fragment.specs.Parts.{Parts};

    ghost Value = { Parts };

    ghost view = { λ f. record { address = f.address; words = f.words.items; probes = f.probes.items; exits = f.exits.items } };
}

impl Fragment {
    /// The fragment with these parts. It takes memory once for each list that has items.
    pub fn of(
        alloc: Global,
        addr: u32,
        words: &[u32],
        probes: &[Probe],
        exits: &[Exit],
    ) -> Result<Fragment, AllocError>
        ensures { IfOk result (λ f. f ≡ record { address = addr; words = words.now; probes = probes.now; exits = exits.now }) }
    {
        Ok(Fragment {
            address: addr,
            words: Vec::from_slice(alloc, words)?,
            probes: Vec::from_slice(alloc, probes)?,
            exits: Vec::from_slice(alloc, exits)?,
        })
    }

    /// The fragment with these parts, which are kept. It takes no memory.
    pub fn from_parts(addr: u32, words: Vec<u32>, probes: Vec<Probe>, exits: Vec<Exit>) -> Fragment
        ensures { result ≡ record { address = addr; words = words.items; probes = probes.items; exits = exits.items } }
    {
        Fragment {
            address: addr,
            words,
            probes,
            exits,
        }
    }

    /// A copy. It takes memory once for each list that has items, for just these items.
    pub fn copy(&self, alloc: Global) -> Result<Fragment, AllocError>
        ensures { IfOk result (λ f. f ≡ self.now) }
    {
        Fragment::of(alloc, self.address, &self.words, &self.probes, &self.exits)
    }

    /// The address of its first word.
    pub fn addr(&self) -> u32
        ensures { result ≡ self.now.address }
    {
        self.address
    }

    /// Its words.
    pub fn words(&self) -> &[u32]
        ensures { result.now ≡ self.now.words }
    {
        &self.words
    }

    /// Its probes, by rising place where it was built.
    pub fn probes(&self) -> &[Probe]
        ensures { result.now ≡ self.now.probes }
    {
        &self.probes
    }

    /// Where it may go on; of a branch first where its comparison holds.
    pub fn exits(&self) -> &[Exit]
        ensures { result.now ≡ self.now.exits }
    {
        &self.exits
    }
}
