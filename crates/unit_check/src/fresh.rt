// Whether fragments are those that are built.
ghost use Rattle.std.specs.Prelude.{◌≡◌, ◌↔◌, IsTrue, MatchOption};
ghost use Rattle.std.specs.List.{All};
ghost use Rattle.unit_set.specs.Held.{IsFreshFor};
ghost use Rattle.unit_check.specs.Admission.{IsFresh, IsFirstStale};

use cc_base::{CodeView, Image};
use fragment::{Fragment, same_as_built};
use unit_set::{RawFrag, SlotName};

// Whether a fragment is the one that is built at its address of the image, as the slot says. It takes no memory.
fn is_fresh(slot: &SlotName, image: &Image, f: &Fragment) -> bool
    ensures { IsTrue result ↔ IsFreshFor slot.now image.now f.now }
{
    let _: &SlotName = slot;
    let _: &Image = image;
    let code = CodeView {
        start: image.start,
        bytes: image.bytes.items(),
    };
    same_as_built(f, code, slot.isa, slot.tool, slot.max)
}

/// The address of the first that is not the one built there.
pub fn first_stale(slot: &SlotName, image: &Image, frags: &[RawFrag]) -> Option<u32>
    ensures { MatchOption result (All (IsFresh slot.now image.now) frags.now) (λ address. IsFirstStale slot.now image.now frags.now address) }
{
    for f in frags {
        if !is_fresh(slot, image, f.frag()) {
            return Some(f.frag().addr());
        }
    }
    None
}
