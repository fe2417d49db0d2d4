/// What a guest runs under, and so what its report counts.
#[derive(Clone, Copy, Debug, PartialEq, Eq)]
pub enum Tool {
    /// Begins of blocks.
    Blocks,
    /// Calls, by their target.
    Calls,
    /// Loads and stores, by lines of 64 bytes.
    Memory,
}
