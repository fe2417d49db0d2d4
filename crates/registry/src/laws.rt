//! Worked rows and laws, as contracts.
ghost use Rattle.registry.specs.Rows.{FirstPublication, SecondRun, ReplacedFile, FullUnit};
ghost use Rattle.registry.specs.Laws.{AttachesGoOn, AttachesHold, DuesMayBeAnswered, HoldsItsOwn, MapsAreThere, MergesKeep};

/// Two instructions: one guest attaches a new unit, merges its one address, and the unit is published.
pub fn first_publication()
    ensures { FirstPublication }
{}

/// The same on a unit that was found.
pub fn second_run()
    ensures { SecondRun }
{}

/// A module becomes another file between two guests.
pub fn replaced_file()
    ensures { ReplacedFile }
{}

/// A unit with 16,384 addresses takes no other one.
pub fn full_unit()
    ensures { FullUnit }
{}

/// A guest that attached a generation holds it, and its unit is the one handed out.
pub fn attached_is_held()
    ensures { AttachesHold }
{}

/// A merge lets no generation go.
pub fn merges_keep()
    ensures { MergesKeep }
{}

/// What is due may be answered.
pub fn dues_may_be_answered()
    ensures { DuesMayBeAnswered }
{}

/// What an attach handed out keeps its slot and image in its generation, and loses no address.
pub fn attached_goes_on()
    ensures { AttachesGoOn }
{}

/// Where all guests before it let go, a guest holds what it attached more often than it let it go.
pub fn holds_its_own()
    ensures { HoldsItsOwn }
{}

/// A file that a module is told to be is one of the opening's.
pub fn maps_are_there()
    ensures { MapsAreThere }
{}
