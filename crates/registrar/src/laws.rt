//! What a holder keeps of its own entries, as contracts.
ghost use Rattle.registrar.specs.Laws.{AttachedIsFresh, AttachedIsHeld, CoveredLetGo, CoveredStays, FreshStays, HeldStays, RegistryIsCovered};

/// Where no generation was let go more often than it was attached, the one that is attached now is held; and what is
/// built in the image of the unit that was handed out may be handed in for it.
pub fn attached_is_held()
    ensures held { AttachedIsHeld }
    ensures fresh { AttachedIsFresh }
{}

/// A generation is held until it is let go.
pub fn held_stays()
    ensures { HeldStays }
{}

/// What is built in the image of a unit that was handed out is so behind further entries.
pub fn fresh_stays()
    ensures { FreshStays }
{}

/// No generation is let go more often than it was attached, as long as only what is held is let go.
pub fn covered_stays()
    ensures others { CoveredStays }
    ensures detached { CoveredLetGo }
{}

/// In a registry no generation was let go more often than it was attached.
pub fn a_registry_is_covered()
    ensures { RegistryIsCovered }
{}
