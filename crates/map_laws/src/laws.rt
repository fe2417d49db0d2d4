//! What holds of the definitions, as contracts.
ghost use Rattle.map_laws.specs.Laws.{MapIsAnswered, MapIsRefused, MapIsUnknown, MapWaits, OneMoreAttached, OneMoreLeaves, PlacedAttaches, ReplaceIsAnswered, ReplaceWaits, UnmapIsAnswered, UnmapLeaves, UnmapWaits};
ghost use Rattle.map_laws.specs.Own.{OffersTakeNone, PartingsTakeNone, UnitsTakeNone};
ghost use Rattle.map_laws.specs.Room.{AllAreOffered, OfferingBegins, OneMoreOffered, RoomGoesOn, RoomIsThere};
ghost use Rattle.map_laws.specs.Whole.{AllAreLetGo, ClosingBegins, EndIsOwn, EndIsWhole, OneMoreLetGo};

/// A stop at a map call waits for its answer.
pub fn stops_wait()
    ensures map { MapWaits }
    ensures unmap { UnmapWaits }
    ensures replace { ReplaceWaits }
{}

/// The module's file is placed, its segments are attached one by one, and 0 is answered; or the file is refused; or there
/// is no such module.
pub fn a_map_call_is_answered()
    ensures placed { PlacedAttaches }
    ensures attached { OneMoreAttached }
    ensures answered { MapIsAnswered }
    ensures refused { MapIsRefused }
    ensures unknown { MapIsUnknown }
{}

/// The module's segments are offered their candidates and let go one by one, and then it goes.
pub fn an_unmap_call_is_answered()
    ensures leaves { UnmapLeaves }
    ensures more { OneMoreLeaves }
    ensures answered { UnmapIsAnswered }
{}

/// The module is another file from now on.
pub fn a_replace_call_is_answered()
    ensures { ReplaceIsAnswered }
{}

/// Once room was made the run goes on as it would have. It is made by an offer to one segment after the other, and a flush.
pub fn a_full_pool_is_answered()
    ensures goes { RoomGoesOn }
    ensures there { RoomIsThere }
    ensures begins { OfferingBegins }
    ensures more { OneMoreOffered }
    ensures made { AllAreOffered }
{}

/// Only asking for a file takes a map answer, and only a replacement makes a module another file.
pub fn other_requests_take_none()
    ensures offers { OffersTakeNone }
    ensures partings { PartingsTakeNone }
    ensures units { UnitsTakeNone }
{}

/// At the end the run is the guest's plain run, and ledger and requests are those of its states. The map answers of a guest
/// that is alone are those that its requests take.
pub fn the_end_is_the_whole_runs()
    ensures whole { EndIsWhole }
    ensures own { EndIsOwn }
{}

/// Behind the end one segment after the other is offered its candidates and let go; then all is asked that the guest asks.
pub fn the_end_is_closed()
    ensures begins { ClosingBegins }
    ensures more { OneMoreLetGo }
    ensures closed { AllAreLetGo }
{}
