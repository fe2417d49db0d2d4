use cc_base::Name;
use probe_tools::Tool;
use rv_decode::Isa;
use std::marker::Model;

/// A module: its name, the number of its file in the list `files`, and the address that it stands at where its file has
/// no fixed addresses, a multiple of 4 that is at most 4,294,967,292.
#[derive(Debug, Drop)]
pub struct ModuleRow {
    pub name: Name,
    pub file: u32,
    pub base: u32,
}

impl Model for ModuleRow {
    ghost use Rattle.manifest.specs.Entries.{ModuleEntry, IsModule};

    ghost Value = { ModuleEntry };

    ghost view = { λ m. record { name = m.name; file = m.file; base = m.base } };

    ghost invariant = { λ m. IsModule m.name m.base };
}

/// A guest.
#[derive(Debug, Drop)]
pub struct GuestRow {
    pub name: Name,
    /// The number of its module in the list `module`.
    pub module: u32,
    /// The round that it runs in, 0 to 15.
    pub round: u8,
    pub tool: Tool,
    pub isa: Isa,
    /// The most instructions of a block, 1 to 64.
    pub max: u8,
    /// The most instructions that are done, 1 to 1,000,000,000.
    pub fuel: u64,
    /// How many blocks of its own it keeps, 16 to 65,536.
    pub pool: u32,
    /// The size of its stack in bytes, 4,096 to 1,048,576, a multiple of 16.
    pub stack: u32,
    /// The name of the file that it reads, if it reads one.
    pub input: Option<Name>,
}

impl Model for GuestRow {
    ghost use Rattle.manifest.specs.Entries.{GuestEntry, IsGuest};

    ghost Value = { GuestEntry };

    ghost view = { λ g. record { name = g.name; «module» = g.«module»; round = g.round; tool = g.tool; isa = g.isa; max = g.max; fuel = g.fuel; pool = g.pool; stack = g.stack; input = g.input } };

    ghost invariant = { λ g. IsGuest (record { name = g.name; «module» = g.«module»; round = g.round; tool = g.tool; isa = g.isa; max = g.max; fuel = g.fuel; pool = g.pool; stack = g.stack; input = g.input }) };
}
