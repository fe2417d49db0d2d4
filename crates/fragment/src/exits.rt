// Where a block goes on.
ghost use Rattle.std.specs.Prelude.{◌≡◌, ◌+◌, ◌%◌, ◌^◌, [], ◌∷◌};
ghost use Rattle.plain_machine.specs.Step.{offset as offset_of};
ghost use Rattle.fragment.specs.Exits.{exits_of, list_of};

use crate::Exit;
use rv_decode::Ins;

/// The exits of a block: one, and a second where it ends with a branch.
#[derive(Clone, Copy, Debug, PartialEq, Eq)]
pub struct Exits {
    pub first: Exit,
    pub second: Option<Exit>,
}

/// The exits of a block whose last word is this instruction and stands at `place`.
pub fn exits_of(place: u32, last: &Ins) -> Exits
    ensures { list_of result ≡ exits_of place last.now }
{
    let next = place.wrapping_add(4);
    match last {
        Ins::Jal { imm, .. } => only(Exit::Direct(offset(place, *imm))),
        Ins::Beq { imm, .. } => branch(place, *imm),
        Ins::Bne { imm, .. } => branch(place, *imm),
        Ins::Blt { imm, .. } => branch(place, *imm),
        Ins::Bge { imm, .. } => branch(place, *imm),
        Ins::Bltu { imm, .. } => branch(place, *imm),
        Ins::Bgeu { imm, .. } => branch(place, *imm),
        Ins::Jalr { .. } => only(Exit::Indirect),
        Ins::Ecall => only(Exit::Asks(next)),
        Ins::Ebreak | Ins::None => only(Exit::Stop),
        _ => only(Exit::Direct(next)),
    }
}

fn only(first: Exit) -> Exits
    ensures { list_of result ≡ first ∷ [] }
{
    Exits {
        first,
        second: None,
    }
}

// The exits of a branch at `place`: where its comparison holds, and else.
fn branch(place: u32, imm: i32) -> Exits
    ensures { list_of result ≡ Exit.Direct (offset_of place imm) ∷ Exit.Direct ((place + 4) % 2 ^ 32) ∷ [] }
{
    Exits {
        first: Exit::Direct(offset(place, imm)),
        second: Some(Exit::Direct(place.wrapping_add(4))),
    }
}

fn offset(base: u32, imm: i32) -> u32
    ensures { result ≡ offset_of base imm }
{
    base.wrapping_add(imm.cast_unsigned())
}
