use crate::access::Size;
use crate::ends::Kind;

/// How the upper bits of a loaded number are filled.
#[derive(Clone, Copy, Debug, PartialEq, Eq)]
pub enum Extension {
    Zero,
    Sign,
}

/// What an instruction does.
#[derive(Clone, Copy, Debug, PartialEq, Eq)]
pub enum Effect {
    /// A register changes.
    Set { rd: u8, value: u32 },
    /// Control goes to the target, and `rd` gets the address behind the instruction.
    Jump { rd: u8, target: u32 },
    /// Bytes are written.
    Store { addr: u32, size: Size, value: u32 },
    /// Control goes on.
    Nothing,
    /// The system is called.
    Ask,
    /// It cannot be done.
    Fault(Kind),
}
