//! `InLists` and its calls.
ghost use Rattle.std.specs.Prelude.{◌≡◌, ℕ, ◌∷◌, ◌<◌, ◌↔◌, Some, length, drop, slice_get, IfOk};
ghost use Rattle.in_lists.specs.Lists.{all_empty, list_of, IsIn, IsKept, with_list, cut_out};

use crate::nodes::Nodes;
use std::alloc::{AllocError, Global};
use std::marker::Model;

/// For each head a list of exits. Each exit is in one list at most.
///
/// The nodes lie in one block, which `new` takes and the drop gives back. A node's links are indices into the block: they say which node is meant
/// without its address, so that the proofs speak of numbers alone, and no call tests an index. Each head has a node too, as the end of its list,
/// so a list is a ring, and no call asks whether an exit is the first or the last.
#[derive(Drop)]
pub struct InLists {
    nodes: Nodes,
    exits: u32,
}

impl Model for InLists {
    ghost use Rattle.in_lists.specs.Lists.{Incoming};

    ghost Value = { Incoming };

    ghost use Rattle.in_lists.specs.View.{view_of, IsWhole};

    ghost view = { view_of };

    ghost invariant = { IsWhole };
}

impl InLists {
    /// Empty lists of `exits` exits for `heads` heads, both numbered from 0. The block has a node for each exit and each head.
    pub fn new(alloc: Global, exits: u32, heads: u32) -> Result<InLists, AllocError>
        ensures { IfOk result (λ v. v ≡ all_empty exits heads) }
    {
        let nodes = Nodes::new(alloc, exits as usize + heads as usize)?;
        Ok(InLists { nodes, exits })
    }

    /// Tells that each exit is in one list at most, and there once, and that all exits are in range. That holds of all lists at any time:
    /// it does nothing, and a layer that is handed lists calls it so that its proofs know.
    pub fn each_in_one_list(&self)
        ensures { IsKept self.now }
    {
        let _ = &self.nodes;
    }

    /// Puts the exit first in the head's list.
    pub fn put(&mut self, exit: u32, head: u32)
        requires in_range { (exit < self.old.exits) × (head < length self.old.lists) }
        requires in_no_list { (h : ℕ) → ¬ IsIn self.old exit h }
        ensures { self.new ≡ with_list self.old head (exit ∷ list_of self.old head) }
    {
        let node = exit as usize;
        let end = self.exits as usize + head as usize;
        let after = self.nodes.get(end).next;
        self.nodes.join(node, after);
        self.nodes.join(end, node);
        self.nodes.set_head(node, Some(head));
    }

    /// Takes the exit out of its list. The order of the others stays.
    pub fn cut(&mut self, exit: u32)
        requires { (h : ℕ) × IsIn self.old exit h }
        ensures { self.new ≡ cut_out self.old exit }
    {
        let index = exit as usize;
        let node = self.nodes.get(index);
        self.nodes.join(node.prev, node.next);
        self.nodes.set_head(index, None);
    }

    /// Takes the first exit out of the head's list, and returns it. `None` says that the list is empty.
    pub fn take_first(&mut self, head: u32) -> Option<u32>
        requires { head < length self.old.lists }
        ensures value { result ≡ slice_get (list_of self.old head) 0 }
        ensures lists { self.new ≡ with_list self.old head (drop 1 (list_of self.old head)) }
    {
        let end = self.exits as usize + head as usize;
        let first = self.nodes.get(end).next;
        if first == end {
            return None;
        }
        let exit = first as u32;
        self.cut(exit);
        Some(exit)
    }

    /// The head in whose list the exit is.
    pub fn head_of(&self, exit: u32) -> Option<u32>
        requires { exit < self.now.exits }
        ensures { (h : ℕ) → (result ≡ Some h) ↔ IsIn self.now exit h }
    {
        self.nodes.get(exit as usize).head
    }

    /// Empties all lists.
    pub fn clear(&mut self)
        ensures { self.new ≡ all_empty self.old.exits (length self.old.lists) }
    {
        self.nodes.isolate();
    }
}
