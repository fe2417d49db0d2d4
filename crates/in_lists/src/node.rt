//! One node of the block.
ghost use Rattle.std.specs.Prelude.{◌≡◌};
ghost use Rattle.in_lists.specs.Nodes.{alone};

/// A link is the index of a node in the block.
#[derive(Clone, Copy, Drop)]
pub struct Node {
    pub next: usize,
    pub prev: usize,
    pub head: Option<u32>,
}

impl Node {
    /// The node at the index where it is linked to none but itself.
    pub(crate) fn alone(index: usize) -> Node
        ensures { result ≡ alone index }
    {
        Node {
            next: index,
            prev: index,
            head: None,
        }
    }
}
