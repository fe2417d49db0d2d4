//! The raw block: one piece of an allocator's memory, in which the nodes lie side by side.
//!
//! A `Block` is the memory, and a `Claim` the right to free it. The raw pointer stays in this file, and no call tests an index:
//! the contracts say which ones may be read and written.
ghost use Rattle.std.specs.Prelude.{◌≡◌, ℕ, ◌+◌, ◌^◌, ◌<◌, ◌≤◌, List, length, IfOk, []};
ghost use denote.RawPtr.{Ptr, block_ptr, block_of, count_of};
ghost use Rattle.in_lists.specs.Block.{laid, shown, block_type, put_at};
ghost use Rattle.in_lists.specs.Nodes.{node_at};
ghost use Rattle.in_lists.specs.declared.node.Node.{Node};

use crate::node::Node;
use std::alloc::{AllocError, Allocator};
use std::marker::{Model, PhantomData};
use std::mem::{align_of, size_of};

/// The memory that begins at `start`: the nodes that are written, and room for `more` behind them.
pub struct Block {
    start: *mut Node,
    ghost nodes: { List Node },
    ghost more: { ℕ },
    ghost placed: { start ≡ block_ptr (block_of start) (count_of start) },
    ghost small: { length nodes + more < 2 ^ 34 },
}

impl Model for Block {
    ghost also_owns = { λ b. laid (block_of b.start) (count_of b.start) b.nodes b.more };

    ghost also_shares = { λ b _ κ. shown (block_of b.start) (count_of b.start) b.nodes κ };
}

// SAFETY: the model's `also_owns` is the memory with the nodes, which hold numbers alone, so no thread's own address goes with it.
unsafe impl Send for Block {}

/// The right to give the memory of `len` nodes at `start` back to `alloc`.
pub struct Claim<A: Allocator> {
    handle: PhantomData<A>,
    ghost alloc: { A },
    ghost start: { Ptr },
    ghost len: { ℕ },
}

impl<A: Allocator> Model for Claim<A> {
    ghost also_owns = { λ c. A.dealloc_token c.alloc (block_type c.len) c.start };
}

// SAFETY: the model's `also_owns` is the right to free alone, which an allocator that is `Send` takes back on any thread.
unsafe impl<A: Allocator + Send> Send for Claim<A> {}

/// Memory for `len` nodes, of which none is written.
pub(crate) fn allocate<A: Allocator>(alloc: &A, len: usize) -> Result<(Block, Claim<A>), AllocError>
    requires { len < 2 ^ 34 }
    ensures { IfOk result (λ r. (r.0.nodes ≡ []) × (r.0.more ≡ len) × (r.1.start ≡ r.0.start) × (r.1.len ≡ len) × (r.1.alloc ≡ alloc.now)) }
{
    match alloc.allocate(len * size_of::<Node>(), align_of::<Node>()) {
        Ok(memory) => {
            let block = Block {
                start: memory as *mut Node,
            };
            Ok((
                block,
                Claim {
                    handle: PhantomData,
                },
            ))
        }
        Err(refused) => Err(refused),
    }
}

/// Gives the memory of `len` nodes back, all of which are written.
pub(crate) fn free<A: Allocator>(block: Block, claim: Claim<A>, alloc: &A, len: usize)
    requires { (length block.nodes ≡ len) × (claim.start ≡ block.start) × (claim.len ≡ len) × (claim.alloc ≡ alloc.now) }
{
    let Block { start } = block;
    let Claim { handle: _ } = claim;
    // SAFETY: the `requires`: the claim is the right to free this very block from this allocator, and all of its `len` nodes are written.
    unsafe {
        alloc.deallocate(
            start as *mut u8,
            len * size_of::<Node>(),
            align_of::<Node>(),
        )
    }
}

impl Block {
    /// The node at the index.
    pub(crate) fn get(&self, index: usize) -> &Node
        requires { index < length self.now.nodes }
        ensures { result.now ≡ node_at self.now.nodes index }
    {
        // SAFETY: the `requires`: a node is written there, and `&self` keeps it from being written over.
        unsafe { &*self.start.add(index) }
    }

    /// Writes over the node at the index, or right behind the last one.
    pub(crate) fn put(&mut self, index: usize, node: Node)
        requires within { index ≤ length self.old.nodes }
        requires fits { index < length self.old.nodes + self.old.more }
        ensures nodes { self.new.nodes ≡ put_at self.old.nodes index node }
        ensures room { length self.new.nodes + self.new.more ≡ length self.old.nodes + self.old.more }
        ensures start { self.new.start ≡ self.old.start }
    {
        // SAFETY: `fits`: the place lies within the memory that the block owns.
        unsafe { *self.start.add(index) = node }
    }
}
