//! What holds of the definitions, as contracts.
ghost use Rattle.guest_script.specs.Laws.{AgesGoOn, LegsGoOn, MadeGoesOn, ToldGoesOn};
ghost use Rattle.guest_script.specs.Rows.{FirstPublication, MappedLibrary};

/// Entries behind others follow from the requests behind.
pub fn calls_go_on()
    ensures made { MadeGoesOn }
    ensures ages { AgesGoOn }
    ensures told { ToldGoesOn }
    ensures legs { LegsGoOn }
{}

/// A guest of two instructions maps its program, attaches its segment, merges its block and lets the unit go.
pub fn first_publication()
    ensures { FirstPublication }
{}

/// A guest that maps a library makes an entry for each module's file and for each module's unit.
pub fn mapped_library()
    ensures { MappedLibrary }
{}
