/// Why an instruction cannot be done, or a call not be answered.
#[derive(Clone, Copy, Debug, PartialEq, Eq)]
pub enum Kind {
    /// The word at the program counter is not wholly in one executable region.
    Fetch,
    /// A taken jump or branch goes to no multiple of four.
    Misaligned,
    /// The bytes of a load are not wholly in one readable region.
    Load,
    /// The bytes of a store are not wholly in one writable region.
    Store,
    /// The word is no instruction of the guest's set.
    Illegal,
    /// EBREAK.
    Break,
    /// A write would pass the limit of the output.
    Output,
}

/// How a guest's run ends.
#[derive(Clone, Copy, Debug, PartialEq, Eq)]
pub enum End {
    /// A call 93 or 94, with the low eight bits of its status.
    Exit(u8),
    /// The instruction at `pc` could not be done.
    Fault { kind: Kind, pc: u32 },
    /// As many instructions as the fuel were done.
    Fuel,
    /// The program could not be placed, or has no entry.
    Unplaced,
}
