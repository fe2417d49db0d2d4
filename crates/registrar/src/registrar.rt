// The calls that a guest makes.
ghost use Rattle.std.specs.Prelude.{◌≡◌, ◌≤◌, length, IfOk, OnErr};
ghost use Rattle.std.specs.Arc.{arc_value};
ghost use Rattle.unit_set.specs.Sets.{IsRising};
ghost use Rattle.unit_set.specs.Held.{addresses};
ghost use Rattle.registry.specs.declared.entry.Entry.TheVariants.{Map, Replace, Attach, Merge, Detach};
ghost use Rattle.registry.specs.Content.{content_of};
ghost use Rattle.registry.specs.Opening.{image_at, slot_at};
ghost use Rattle.registry.specs.Registry.{replaced_by};
ghost use Rattle.registry.specs.History.{MayAttach};
ghost use Rattle.registrar.specs.Calls.{Holder, HoldsOwn, AreFreshOf, IsMapped, IsOver, made, plain, handing};

use fragment::Fragment;
use registry::{Attached, Merged, Replaced};
use std::alloc::AllocError;

/// Who may call a registry, with the entries that it made so far. Others may make entries between two of its calls. Each
/// call makes one entry, and one that answers want of memory makes none.
pub trait Registrar {
    // What the registry was made from, and the entries that this holder made.
    ghost holder: { Self → Holder };

    /// The file of a module: none exactly where the number is no module's.
    fn map(&mut self, guest: u32, module: u32) -> Result<Option<u32>, AllocError>
        ensures ok { IfOk result (λ file. holder self.new ≡ made (plain (Map guest «module» file)) (holder self.old)) }
        ensures mapped { IfOk result (IsMapped (holder self.old).opening «module») }
        ensures err { OnErr result (holder self.new ≡ holder self.old) };

    /// A module is another file from now on, where both numbers are in range.
    fn replace(&mut self, guest: u32, module: u32, file: u32) -> Result<Replaced, AllocError>
        ensures ok { IfOk result (λ reply. holder self.new ≡ made (plain (Replace guest «module» file reply)) (holder self.old)) }
        ensures reply { IfOk result (λ reply. reply ≡ replaced_by (holder self.old).opening.modules (length (holder self.old).opening.codes) «module» file) }
        ensures err { OnErr result (holder self.new ≡ holder self.old) };

    /// The guest attaches the file's segment at the slot's base, and is handed the unit of the generation with that image.
    fn attach(&mut self, guest: u32, slot: u32, file: u32) -> Result<Attached, AllocError>
        requires { MayAttach (holder self.old).opening slot file }
        ensures ok { IfOk result (λ a. holder self.new ≡ made (handing (Attach guest slot file a.age a.version) (content_of (arc_value a.unit))) (holder self.old)) }
        ensures image { IfOk result (λ a. (arc_value a.unit).image ≡ image_at (holder self.old).opening slot file) }
        ensures slot { IfOk result (λ a. (arc_value a.unit).slot ≡ slot_at (holder self.old).opening slot) }
        ensures err { OnErr result (holder self.new ≡ holder self.old) };

    /// Fragments, rising by address, are handed in for the unit of a generation that the holder holds. Where the unit would
    /// have over 16,384 addresses nothing is added.
    fn merge(
        &mut self,
        guest: u32,
        slot: u32,
        age: u32,
        added: &[Fragment],
    ) -> Result<Merged, AllocError>
        requires held { HoldsOwn slot age (holder self.old).own }
        requires fresh { AreFreshOf slot age added.now (holder self.old).own }
        requires rises { IsRising (addresses added.now) }
        requires few { length added.now ≤ 16384 }
        ensures ok { IfOk result (λ reply. holder self.new ≡ made (plain (Merge guest slot age (addresses added.now) reply)) (holder self.old)) }
        ensures full { IfOk result IsOver }
        ensures err { OnErr result (holder self.new ≡ holder self.old) };

    /// The guest lets a generation go that the holder holds. It takes no memory.
    fn detach(&mut self, guest: u32, slot: u32, age: u32)
        requires { HoldsOwn slot age (holder self.old).own }
        ensures { holder self.new ≡ made (plain (Detach guest slot age)) (holder self.old) };
}
