// What instructions are to tools and blocks.
ghost use Rattle.std.specs.Prelude.{◌≡◌};
ghost use Rattle.plain_machine.specs.Cut.{ends_block};
ghost use Rattle.fragment.specs.Classes.{class_of, jump_class};

use probe_tools::Class;
use rv_decode::Ins;

/// The class of an instruction.
pub fn class_of(ins: &Ins) -> Class
    ensures { result ≡ class_of ins.now }
{
    match ins {
        Ins::Jal { rd, .. } => jump_class(*rd),
        Ins::Jalr { rd, .. } => jump_class(*rd),
        Ins::Beq { .. }
        | Ins::Bne { .. }
        | Ins::Blt { .. }
        | Ins::Bge { .. }
        | Ins::Bltu { .. }
        | Ins::Bgeu { .. } => Class::Branch,
        Ins::Lb { .. } | Ins::Lh { .. } | Ins::Lw { .. } | Ins::Lbu { .. } | Ins::Lhu { .. } => {
            Class::Load
        }
        Ins::Sb { .. } | Ins::Sh { .. } | Ins::Sw { .. } => Class::Store,
        Ins::Ecall => Class::Ask,
        Ins::Ebreak => Class::Break,
        Ins::None => Class::None,
        _ => Class::Plain,
    }
}

// The class of a jump that keeps in `rd` where it came from.
fn jump_class(rd: u8) -> Class
    ensures { result ≡ jump_class rd }
{
    if rd == 1 || rd == 5 {
        Class::Call
    } else {
        Class::Jump
    }
}

/// Whether a block ends with the instruction wherever it has it.
pub fn ends_block(ins: &Ins) -> bool
    ensures { result ≡ ends_block ins.now }
{
    match ins {
        Ins::Jal { .. }
        | Ins::Jalr { .. }
        | Ins::Beq { .. }
        | Ins::Bne { .. }
        | Ins::Blt { .. }
        | Ins::Bge { .. }
        | Ins::Bltu { .. }
        | Ins::Bgeu { .. }
        | Ins::Ecall
        | Ins::Ebreak
        | Ins::None => true,
        _ => false,
    }
}
