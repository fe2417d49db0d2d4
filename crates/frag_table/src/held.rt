ghost use Rattle.std.specs.Prelude.{◌≡◌, true, false};

use fragment::Fragment;
use std::marker::Model;
use unit_set::Shared;

// A block, as it is kept in a place.
#[derive(Drop)]
enum Kept {
    Own(Fragment),
    Of(Shared),
}

/// What lies in a place: a block of the process's own, or one that an attached unit shares.
#[derive(Drop)]
pub struct Held {
    kept: Kept,
}

impl Model for Held {
    ghost use Rattle.frag_table.specs.Held as table;

    ghost Value = { table.Held };

    ghost use Rattle.frag_table.specs.Kept.{held_of};

    ghost view = { λ h. held_of h.kept };
}

impl Held {
    /// A block of the process's own.
    pub fn own(block: Fragment) -> Held
        ensures { result ≡ record { block = block; shared = false } }
    {
        Held {
            kept: Kept::Own(block),
        }
    }

    /// A block that a unit shares.
    pub fn of(block: Shared) -> Held
        ensures { result ≡ record { block = block; shared = true } }
    {
        Held {
            kept: Kept::Of(block),
        }
    }

    /// The block.
    #[inline]
    pub fn block(&self) -> &Fragment
        ensures { result.now ≡ self.now.block }
    {
        match &self.kept {
            Kept::Own(block) => block,
            Kept::Of(shared) => shared.fragment(),
        }
    }

    /// Whether it is of an attached unit.
    #[inline]
    pub fn is_shared(&self) -> bool
        ensures { result ≡ self.now.shared }
    {
        match &self.kept {
            Kept::Own(_) => false,
            Kept::Of(_) => true,
        }
    }
}
