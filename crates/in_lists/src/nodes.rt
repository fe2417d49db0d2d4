//! The nodes of a block, seen as the list of them.
ghost use Rattle.std.specs.Prelude.{◌≡◌, ◌<◌, ◌≤◌, ◌^◌, length, slice_set, IfOk};
ghost use Rattle.in_lists.specs.Nodes.{node_at, AllAlone, joined, with_head};

use crate::block::{Block, Claim, allocate, free};
use crate::node::Node;
use std::alloc::{AllocError, Global};
use std::marker::Model;

/// `len` nodes in one block, each of them written.
pub struct Nodes {
    block: Block,
    claim: Claim<Global>,
    len: usize,
    alloc: Global,
}

impl Model for Nodes {
    ghost use Rattle.std.specs.Prelude.{List};
    ghost use Rattle.in_lists.specs.declared.node.Node.{Node};

    ghost Value = { List Node };

    ghost use Rattle.in_lists.specs.Full.{nodes_of, IsFull};

    ghost view = { nodes_of };

    ghost invariant = { IsFull };
}

// What a node holds needs no drop.
impl Drop for Nodes {
    fn drop(self) {
        let Nodes {
            block,
            claim,
            len,
            alloc,
        } = self;
        free(block, claim, &alloc, len);
    }
}

impl Nodes {
    /// `len` nodes, each of them alone.
    pub(crate) fn new(alloc: Global, len: usize) -> Result<Nodes, AllocError>
        requires { len < 2 ^ 34 }
        ensures { IfOk result (λ ns. (length ns ≡ len) × AllAlone ns) }
    {
        let (mut block, claim) = allocate(&alloc, len)?;
        for index in 0..len {
            block.put(index, Node::alone(index));
        }
        Ok(Nodes {
            block,
            claim,
            len,
            alloc,
        })
    }

    /// Makes each node alone.
    pub(crate) fn isolate(&mut self)
        ensures { (length self.new ≡ length self.old) × AllAlone self.new }
    {
        for index in 0..self.len {
            self.set(index, Node::alone(index));
        }
    }

    pub(crate) fn get(&self, index: usize) -> Node
        requires { index < length self.now }
        ensures { result ≡ node_at self.now index }
    {
        *self.block.get(index)
    }

    pub(crate) fn set(&mut self, index: usize, node: Node)
        requires { index < length self.old }
        ensures { self.new ≡ slice_set self.old index node }
    {
        self.block.put(index, node);
    }

    /// Puts node `after` right after node `before`.
    pub(crate) fn join(&mut self, before: usize, after: usize)
        requires { (before < length self.old) × (after < length self.old) }
        ensures { self.new ≡ joined self.old before after }
    {
        let mut node = self.get(before);
        node.next = after;
        self.set(before, node);
        let mut node = self.get(after);
        node.prev = before;
        self.set(after, node);
    }

    pub(crate) fn set_head(&mut self, index: usize, head: Option<u32>)
        requires { index < length self.old }
        ensures { self.new ≡ with_head self.old index head }
    {
        let mut node = self.get(index);
        node.head = head;
        self.set(index, node);
    }
}
