//! What holds of the slots of a run, as contracts.
ghost use Rattle.manifest.specs.Manifest.{module_names};
ghost use Rattle.slot_list.specs.Laws.{AreDistinct, SlotsDiffer, SpellingsDiffer, RecipesAreListed, SegmentsAreNumbered};

use manifest::Manifest;
use unit_set::laws::spellings_are_one;

/// The modules of a manifest have names of their own.
pub fn modules_have_own_names(manifest: &Manifest)
    ensures { AreDistinct (module_names manifest.now.modules) }
{
    let _ = manifest.modules();
}

/// Where modules have names of their own, the slots of a run differ.
pub fn slots_differ()
    ensures { SlotsDiffer }
{}

/// Names of slots that differ are spelled in different ways.
pub fn spellings_differ()
    ensures { SpellingsDiffer }
{
    spellings_are_one();
}

/// Each guest's recipe is one of the run's.
pub fn recipes_are_listed()
    ensures { RecipesAreListed }
{}

/// No file has more executable segments than there are numbers for.
pub fn segments_are_numbered()
    ensures { SegmentsAreNumbered }
{}
