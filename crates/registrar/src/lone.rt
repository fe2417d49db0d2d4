// A registry that is called by one alone.
use crate::registrar::Registrar;
use fragment::Fragment;
use registry::laws::{attached_goes_on, holds_its_own};
use registry::{Attached, Merged, Registry, Replaced};
use std::alloc::AllocError;

// Its holder made all entries of the journal.
impl Registrar for Registry {
    ghost use Rattle.registrar.specs.Calls.{holder_of};

    ghost holder = { holder_of };

    fn map(&mut self, guest: u32, module: u32) -> Result<Option<u32>, AllocError> {
        Registry::map(self, guest, module)
    }

    fn replace(&mut self, guest: u32, module: u32, file: u32) -> Result<Replaced, AllocError> {
        Registry::replace(self, guest, module, file)
    }

    fn attach(&mut self, guest: u32, slot: u32, file: u32) -> Result<Attached, AllocError> {
        Registry::attach(self, guest, slot, file)
    }

    fn merge(
        &mut self,
        guest: u32,
        slot: u32,
        age: u32,
        added: &[Fragment],
    ) -> Result<Merged, AllocError> {
        holds_its_own();
        attached_goes_on();
        let _ = self.journal();
        Registry::merge(self, guest, slot, age, added)
    }

    fn detach(&mut self, guest: u32, slot: u32, age: u32) {
        holds_its_own();
        let _ = self.journal();
        Registry::detach(self, guest, slot, age);
    }
}
