//! What holds of the definitions, as contracts.
ghost use Rattle.block_ledger.specs.Laws.{FlushEmpties, LinksStayLive, OffersStandAlone, OnlyViews, RoomIsMade, WritesWithdraw};

/// What stands ready after some addresses went is what stood ready at the others.
pub fn only_some_stay()
    ensures { OnlyViews }
{}

/// A begin that finds the pool full is one after all candidates were offered and the private blocks went.
pub fn room_is_made()
    ensures { RoomIsMade }
{}

/// An offer to one segment leaves what is to be offered to the others.
pub fn offers_stand_alone()
    ensures { OffersStandAlone }
{}

/// After a write each block that stands ready has none of the bytes written, and stood ready before.
pub fn writes_withdraw()
    ensures { WritesWithdraw }
{}

/// Where links lead from and to live addresses, they do so after some addresses went.
pub fn links_stay_live()
    ensures { LinksStayLive }
{}

/// A flush leaves no private block.
pub fn a_flush_empties_the_pool()
    ensures { FlushEmpties }
{}
