//! What holds of the definitions, as contracts.
ghost use Rattle.region_laws.specs.Laws.{CallsLeave, PlacedStand};

/// A system call keeps the regions that are not the heap's, the heap's as one that holds no code, and all code but what
/// a read overwrote at the span that it tells. The processor's set stays, and its counter a multiple of four.
pub fn calls_leave()
    ensures { CallsLeave }
{}

/// A program that was placed stands, with its code; and so does all that stood before.
pub fn placed_stand()
    ensures { PlacedStand }
{}
