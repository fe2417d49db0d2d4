// What a journal is made of.
use cc_base::Addrs;

/// What came of a call to make a module be another file.
#[derive(Clone, Copy, Debug, PartialEq, Eq)]
pub enum Replaced {
    /// It is that file from now on.
    Yes,
    /// The number is no module's.
    NoSuchModule,
    /// The number is no file's.
    NoSuchFile,
}

/// What came of a merge.
#[derive(Clone, Copy, Debug, PartialEq, Eq)]
pub enum Merged {
    /// The generation has this version now.
    Version(u32),
    /// The union would have so many addresses, which is over 16,384; nothing changed.
    UnitFull(u32),
}

/// An entry of a journal: a call, with its reply.
#[derive(Debug, Drop)]
pub enum Entry {
    /// A guest asked which file a module is; none where the number is no module's.
    Map {
        guest: u32,
        module: u32,
        file: Option<u32>,
    },
    /// A guest made a module be a file.
    Replace {
        guest: u32,
        module: u32,
        file: u32,
        reply: Replaced,
    },
    /// A guest attached the segment of a file at a slot, and got this version of this generation.
    Attach {
        guest: u32,
        slot: u32,
        file: u32,
        age: u32,
        version: u32,
    },
    /// A guest handed in fragments at these addresses, which rise, for a generation.
    Merge {
        guest: u32,
        slot: u32,
        age: u32,
        addrs: Addrs,
        reply: Merged,
    },
    /// A guest let a generation go.
    Detach {
        guest: u32,
        slot: u32,
        age: u32,
    },
    /// This version of this generation is to be published.
    Due {
        slot: u32,
        age: u32,
        version: u32,
    },
    /// It was published.
    Acked {
        slot: u32,
        age: u32,
        version: u32,
    },
    /// A publication of the slot failed; it is shut.
    Failed {
        slot: u32,
    },
    /// No guest runs any more.
    Finish,
}

/// A generation of a slot by its place, and a version of it.
#[derive(Clone, Copy, Debug, PartialEq, Eq)]
pub struct Stamp {
    pub age: u32,
    pub version: u32,
}
