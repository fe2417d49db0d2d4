use plain_machine::End;

/// Why a run stops.
#[derive(Clone, Copy, Debug, PartialEq, Eq)]
pub enum Stop {
    /// The guest is at its end.
    Ended(End),
    /// It wants the module of this number mapped.
    Map(u32),
    /// It wants this module unmapped.
    Unmap(u32),
    /// It wants this module to be the file of this number.
    Replace(u32, u32),
    /// The private table is full, and the next block is not live.
    PoolFull,
}

/// How a block that stood ready left the guest.
#[derive(Clone, Copy, Debug)]
pub enum Ran {
    /// The next block may begin.
    On,
    /// The guest is at its end.
    Ended(End),
    /// It calls the system.
    Asks,
}
