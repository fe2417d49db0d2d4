/// What the arithmetic of RV32I and RV32M does to two words (the unprivileged manual, "Integer Computational
/// Instructions" and the chapter on M).
#[derive(Clone, Copy, Debug, PartialEq, Eq)]
pub enum Op {
    Add,
    Sub,
    Sll,
    Slt,
    Sltu,
    Xor,
    Srl,
    Sra,
    Or,
    And,
    Mul,
    Mulh,
    Mulhsu,
    Mulhu,
    Div,
    Divu,
    Rem,
    Remu,
}

/// What a branch asks of two words (the unprivileged manual, "Conditional Branches").
#[derive(Clone, Copy, Debug, PartialEq, Eq)]
pub enum Comparison {
    Eq,
    Ne,
    Lt,
    Ge,
    Ltu,
    Geu,
}
