//! What holds of the definitions, as contracts.
ghost use Rattle.fragment.specs.Laws.{BuiltIsBuilt, NoneIsBuilt, BlocksAreUnique, Congruence, Locality, OwnSizeIsEnough};

/// A block is the value at an address exactly where it is the block there.
pub fn the_value_is_the_block()
    ensures { BuiltIsBuilt }
{}

/// There is none exactly where none can stand.
pub fn none_is_built_where_none_can_stand()
    ensures { NoneIsBuilt }
{}

/// A code has one block at an address.
pub fn blocks_are_unique()
    ensures { BlocksAreUnique }
{}

/// Two codes of one start and length with the same bytes at a block's words: it is fresh in both or in neither.
pub fn congruence()
    ensures { Congruence }
{}

/// A change of bytes beside a block keeps it fresh.
pub fn locality()
    ensures { Locality }
{}

/// A fresh block is fresh for its own number of words as the most, too.
pub fn own_size_is_enough()
    ensures { OwnSizeIsEnough }
{}
