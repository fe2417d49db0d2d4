ghost use Rattle.std.specs.Prelude.{◌≡◌};
ghost use Rattle.probe_tools.specs.Probes.{probe_of};

use crate::tool::Tool;

/// What tools tell apart among instruction words.
#[derive(Clone, Copy, Debug, PartialEq, Eq)]
pub enum Class {
    /// Arithmetic, FENCE and FENCE.I: control goes on, and no memory is accessed.
    Plain,
    /// A JAL or JALR whose rd is a link register, x1 or x5 (the unprivileged manual, "Unconditional Jumps").
    Call,
    /// Another JAL or JALR.
    Jump,
    /// A conditional branch.
    Branch,
    /// A load.
    Load,
    /// A store.
    Store,
    /// ECALL.
    Ask,
    /// EBREAK.
    Break,
    /// No instruction of the guest's set.
    None,
}

/// What a probe looks for before its word.
#[derive(Clone, Copy, Debug, PartialEq, Eq)]
pub enum ProbeKind {
    /// That the block begins.
    Block,
    /// The target of a call.
    Call,
    /// The address of a load.
    Load,
    /// The address of a store.
    Store,
}

/// The probe that a tool has before a word of this class at this place of a block (counted in words, from 0), which is
/// the block's last or not. None where it has none there.
pub fn probe_for(tool: Tool, class: Class, place: u8, last: bool) -> Option<ProbeKind>
    ensures { result ≡ probe_of tool class place last }
{
    match tool {
        Tool::Blocks if place == 0 => Some(ProbeKind::Block),
        Tool::Blocks => None,
        Tool::Calls => match class {
            Class::Call if last => Some(ProbeKind::Call),
            _ => None,
        },
        Tool::Memory => match class {
            Class::Load => Some(ProbeKind::Load),
            Class::Store => Some(ProbeKind::Store),
            _ => None,
        },
    }
}
