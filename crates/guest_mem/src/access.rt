use plain_machine::Access;

/// Why bytes could not be copied out.
#[derive(Clone, Copy, Debug, PartialEq, Eq)]
pub enum CopyErr {
    /// They cannot be reached.
    Access(Access),
    /// The host has no memory left.
    Memory,
}
