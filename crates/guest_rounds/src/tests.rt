ghost use Rattle.std.specs.Prelude.{IfOk};
ghost use Rattle.registry.specs.History.{IsOpening};

use super::*;
use registry::{Entry, FileCodes, Opening, Registry};
use std::alloc::{AllocError, Global};
use std::test::Fail;

// Guests that each ask which file the module of its own number is, and do nothing else.
#[derive(Drop)]
struct Askers;

impl Guests for Askers {
    ghost use Rattle.std.specs.Prelude.{◌≡◌, [], ◌∷◌};
    ghost use Rattle.registry.specs.declared.entry.Entry.TheVariants.{Map};
    ghost use Rattle.registry.specs.Registry.{no_unit};

    type Ran = Option<u32>;

    type Plan = ();

    ghost plan = { λ _. tt };

    ghost may_run = { λ _ _ _. Unit {0} };

    ghost tells = { λ _ g own file. own ≡ record { entry = Map g g file; unit = no_unit } ∷ [] };

    fn run(&mut self, guest: u32, registry: &mut Registry) -> Result<Option<u32>, AllocError> {
        registry.map(guest, guest)
    }
}

// No slots, and two modules, of which the first is the second file, and the second the first.
fn opening(alloc: Global) -> Result<Opening, Fail>
    ensures { IfOk result (λ o. IsOpening o) }
{
    let none = FileCodes::from_vec(Vec::new(alloc));
    let none_too = FileCodes::from_vec(Vec::new(alloc));
    Ok(Opening {
        slots: Vec::new(alloc),
        found: Vec::new(alloc),
        shut: Vec::new(alloc),
        modules: vec![in alloc; 1, 0]?,
        codes: vec![in alloc; none, none_too]?,
    })
}

// The guest that asked which file a module is.
fn asked(entry: &Entry) -> Option<u32> {
    match entry {
        Entry::Map { guest, .. } => Some(*guest),
        _ => None,
    }
}

#[test]
fn a_guest_of_a_later_round_runs_later(rt: HostRuntime) -> Result<(), Fail> {
    let alloc = rt.alloc();
    let mut registry = Registry::new(alloc, opening(alloc)?)?;
    let files = run_rounds(alloc, &mut registry, &[1, 0], &mut Askers)?;
    assert_eq!(rt; files.as_slice(), [Some(1), Some(0)].as_slice());
    let mut order = Vec::new(alloc);
    for entry in registry.journal() {
        order.push(asked(entry))?;
    }
    assert_eq!(rt; order.as_slice(), [Some(1), Some(0)].as_slice());
    Ok(())
}
