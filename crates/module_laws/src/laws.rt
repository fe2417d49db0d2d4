//! What holds of the definitions, as contracts.
ghost use Rattle.module_laws.specs.Laws.{AttachHosts, BareHosts, CodesStart, EnterHosts, FlushKeepsImages, LedgerHosts, MappedIsPlaced, OfferKeepsImages, PlaceHosts, ResultHosts, RunHosts, UnplaceHosts};

/// Where nothing is mapped, all is as it should be; and so it is once the program was entered.
pub fn a_guest_begins()
    ensures bare { BareHosts }
    ensures enter { EnterHosts }
{}

/// A run keeps it, and so do a result that is put, an offer and a flush.
pub fn a_run_keeps_modules()
    ensures run { RunHosts }
    ensures result { ResultHosts }
    ensures ledger { LedgerHosts }
    ensures offer { OfferKeepsImages }
    ensures flush { FlushKeepsImages }
{}

/// A module comes: it is placed, and its segments are attached one by one.
pub fn a_module_comes()
    ensures place { PlaceHosts }
    ensures attach { AttachHosts }
    ensures starts { CodesStart }
{}

/// A module goes. It stands alone, as it has to.
pub fn a_module_goes()
    ensures placed { MappedIsPlaced }
    ensures unplace { UnplaceHosts }
{}
