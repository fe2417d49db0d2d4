// A shelf in memory of which some calls fail.
ghost use Rattle.std.specs.Prelude.{◌≡◌, ◌≢◌, ◌+◌, ◌<◌, ◌≤◌, ◌↔◌, ◌⊎◌, ◌++◌, ◌∷◌, [], ℕ, List, Some, None, Err, IfOk, OnOk, OnErr, IsTrue, MatchBool, Contains, length, take, vec_len};
ghost use Rattle.fault_counts.specs.Counts.{Rose, one_more};
ghost use Rattle.shelf_model.specs.FuseShelf.{IsDue};
ghost use Rattle.shelf_model.specs.Shelf.{written, Torn, Elapses, Rests, Stands, TellsOthers, TellsSame, Leaves, WhereTold};

use crate::memory::{Action, MemShelf};
use crate::shelf::{Area, Shelf, ShelfErr};
use fault_counts::raised;

// Which calls fail. The first has the number 1.
#[derive(Drop)]
pub enum Fuse {
    Listed(Vec<u32>),
    From(u32),
}

/// A shelf in memory of which some calls fail, by their numbers; the first call has the number 1. It keeps one count of
/// faults for all names. The range of a write that fails counts as written, and what a read gives stays. Where there is
/// no memory to note such a write, it answers that.
#[derive(Drop)]
pub struct FuseShelf {
    shelf: MemShelf,
    fuse: Fuse,
    calls: u64,
    faults: u64,
}

// The call of this number fails.
fn is_due(fuse: &Fuse, call: u64) -> bool
    ensures { IsTrue result ↔ IsDue fuse.now call }
{
    match fuse {
        Fuse::Listed(calls) => calls.iter().any(|listed| u64::from(*listed) == call),
        Fuse::From(first) => u64::from(*first) <= call,
    }
}

// Counts a call, and answers whether it is to fail.
fn counts(fuse: &Fuse, calls: &mut u64) -> bool
    ensures calls { calls.new ≡ one_more calls.old }
    ensures due { IsTrue result ↔ IsDue fuse.now calls.new }
{
    *calls = raised(*calls);
    is_due(fuse, *calls)
}

impl FuseShelf {
    ghost use Rattle.shelf_model.specs.FuseShelf.{FailsAt, calls_made, fuse_faults, inner_shelf};

    /// This shelf, with the numbers of the calls that fail, in any order.
    pub fn listed(shelf: MemShelf, fails: Vec<u32>) -> Self
        ensures shelf { inner_shelf result ≡ shelf }
        ensures fails { (call : ℕ) → FailsAt result call ↔ Contains fails.items call }
        ensures calls { calls_made result ≡ 0 }
        ensures faults { fuse_faults result ≡ 0 }
    {
        FuseShelf {
            shelf,
            fuse: Fuse::Listed(fails),
            calls: 0,
            faults: 0,
        }
    }

    /// This shelf, with every call from this number on failing.
    pub fn stopped(shelf: MemShelf, from: u32) -> Self
        ensures shelf { inner_shelf result ≡ shelf }
        ensures fails { (call : ℕ) → FailsAt result call ↔ (from ≤ call) }
        ensures calls { calls_made result ≡ 0 }
        ensures faults { fuse_faults result ≡ 0 }
    {
        FuseShelf {
            shelf,
            fuse: Fuse::From(from),
            calls: 0,
            faults: 0,
        }
    }

    /// The shelf.
    pub fn shelf(&self) -> &MemShelf
        ensures { result.now ≡ inner_shelf self.now }
    {
        &self.shelf
    }
}

impl Shelf for FuseShelf {
    ghost use Rattle.shelf_model.specs.MemShelf.{calls_of};
    ghost use Rattle.shelf_model.specs.FuseShelf.{FailsAt, calls_made, fuse_told, fuse_moment, fuse_images, fuse_faults, inner_shelf};

    ghost told = { fuse_told };

    ghost moment = { fuse_moment };

    ghost images = { fuse_images };

    ghost faults = { λ fuse name. fuse_faults fuse };

    fn read(&mut self, name: &[u8], area: Area, limit: u32) -> Result<Vec<u8>, ShelfErr>
        ensures bytes { IfOk result (λ read. WhereTold (fuse_told self.old name.now area) (λ bytes. read.items ≡ bytes)) }
        ensures within { IfOk result (λ read. vec_len read ≤ limit) }
        ensures too_long { result ≡ Err ShelfErr.TooLong → WhereTold (fuse_told self.old name.now area) (λ bytes. limit < length bytes) }
        ensures told { TellsSame (fuse_told self.old) (fuse_told self.new) }
        ensures time { Stands (fuse_moment self.old) (fuse_moment self.new) (fuse_images self.old) (fuse_images self.new) }
        ensures failed { result ≡ Err ShelfErr.Failed → Rose (fuse_faults self.old) (fuse_faults self.new) }
        ensures never_falls { (n : List ℕ) → fuse_faults self.old ≤ fuse_faults self.new }

        // Just the calls whose numbers fail do, and just they are counted as faults. A read is not noted.
        ensures calls { calls_made self.new ≡ one_more (calls_made self.old) }
        ensures same_list { (call : ℕ) → FailsAt self.new call ↔ FailsAt self.old call }
        ensures listed { (result ≡ Err ShelfErr.Failed) ↔ FailsAt self.old (calls_made self.new) }
        ensures counted { result ≡ Err ShelfErr.Failed → fuse_faults self.new ≡ one_more (fuse_faults self.old) }
        ensures uncounted { result ≢ Err ShelfErr.Failed → fuse_faults self.new ≡ fuse_faults self.old }
        ensures noted { calls_of (inner_shelf self.new) ≡ calls_of (inner_shelf self.old) }
    {
        if counts(&self.fuse, &mut self.calls) {
            self.faults = raised(self.faults);
            return Err(ShelfErr::Failed);
        }
        self.shelf.read(name, area, limit)
    }

    fn write_at(&mut self, name: &[u8], area: Area, at: u32, bytes: &[u8]) -> Result<(), ShelfErr>
        requires { at + length bytes.now ≤ 4294967295 }
        ensures told { OnOk result (WhereTold (fuse_told self.old name.now area) (λ before. fuse_told self.new name.now area ≡ Some (written at bytes.now before))) }
        ensures broken { OnErr result (WhereTold (fuse_told self.old name.now area)
            (λ before. (after : List ℕ) × (fuse_told self.new name.now area ≡ Some after) × Torn at (length bytes.now) before after)) }
        ensures silent { fuse_told self.old name.now area ≡ None → fuse_told self.new name.now area ≡ None }
        ensures others { TellsOthers (fuse_told self.old) (fuse_told self.new) name.now area }
        ensures time { Elapses (fuse_moment self.old) (fuse_moment self.new) (fuse_images self.old) (fuse_images self.new) name.now area (Torn at (length bytes.now)) }
        ensures memory_told { result ≡ Err ShelfErr.Memory → TellsSame (fuse_told self.old) (fuse_told self.new) }
        ensures memory_time { result ≡ Err ShelfErr.Memory → Stands (fuse_moment self.old) (fuse_moment self.new) (fuse_images self.old) (fuse_images self.new) }
        ensures limit { result ≡ Err ShelfErr.TooLong → ⊥ }
        ensures failed { result ≡ Err ShelfErr.Failed → Rose (fuse_faults self.old) (fuse_faults self.new) }
        ensures never_falls { (n : List ℕ) → fuse_faults self.old ≤ fuse_faults self.new }

        // Just the calls whose numbers fail do, unless memory runs out, and just they are counted as faults. A write that
        // is done or fails is noted as such.
        ensures calls { calls_made self.new ≡ one_more (calls_made self.old) }
        ensures same_list { (call : ℕ) → FailsAt self.new call ↔ FailsAt self.old call }
        ensures listed { result ≡ Err ShelfErr.Failed → FailsAt self.old (calls_made self.new) }
        ensures due { FailsAt self.old (calls_made self.new) → (result ≡ Err ShelfErr.Failed) ⊎ (result ≡ Err ShelfErr.Memory) }
        ensures counted { result ≡ Err ShelfErr.Failed → fuse_faults self.new ≡ one_more (fuse_faults self.old) }
        ensures uncounted { result ≢ Err ShelfErr.Failed → fuse_faults self.new ≡ fuse_faults self.old }
        ensures noted { OnOk result (calls_of (inner_shelf self.new) ≡ calls_of (inner_shelf self.old) ++ record { name = name.now; area = area; action = Action.Write at bytes.now } ∷ []) }
        ensures tried { result ≡ Err ShelfErr.Failed → calls_of (inner_shelf self.new) ≡ calls_of (inner_shelf self.old) ++ record { name = name.now; area = area; action = Action.Tried at (length bytes.now) } ∷ [] }
        ensures unnoted { result ≡ Err ShelfErr.Memory → calls_of (inner_shelf self.new) ≡ calls_of (inner_shelf self.old) }
    {
        if counts(&self.fuse, &mut self.calls) {
            self.shelf.note_tried(name, area, at, bytes.len())?;
            self.faults = raised(self.faults);
            return Err(ShelfErr::Failed);
        }
        self.shelf.write_at(name, area, at, bytes)
    }

    fn sync(&mut self, name: &[u8], area: Area) -> Result<(), ShelfErr>
        ensures settled { OnOk result (WhereTold (fuse_told self.new name.now area) (Leaves (fuse_images self.new) (fuse_moment self.new) name.now area)) }
        ensures told { TellsSame (fuse_told self.old) (fuse_told self.new) }
        ensures time { Rests (fuse_moment self.old) (fuse_moment self.new) (fuse_images self.old) (fuse_images self.new) }
        ensures memory_time { result ≡ Err ShelfErr.Memory → Stands (fuse_moment self.old) (fuse_moment self.new) (fuse_images self.old) (fuse_images self.new) }
        ensures limit { result ≡ Err ShelfErr.TooLong → ⊥ }
        ensures failed { result ≡ Err ShelfErr.Failed → Rose (fuse_faults self.old) (fuse_faults self.new) }
        ensures never_falls { (n : List ℕ) → fuse_faults self.old ≤ fuse_faults self.new }

        // Just the calls whose numbers fail do, and just they are counted as faults. A sync that is done is noted.
        ensures calls { calls_made self.new ≡ one_more (calls_made self.old) }
        ensures same_list { (call : ℕ) → FailsAt self.new call ↔ FailsAt self.old call }
        ensures listed { (result ≡ Err ShelfErr.Failed) ↔ FailsAt self.old (calls_made self.new) }
        ensures counted { result ≡ Err ShelfErr.Failed → fuse_faults self.new ≡ one_more (fuse_faults self.old) }
        ensures uncounted { result ≢ Err ShelfErr.Failed → fuse_faults self.new ≡ fuse_faults self.old }
        ensures noted { OnOk result (calls_of (inner_shelf self.new) ≡ calls_of (inner_shelf self.old) ++ record { name = name.now; area = area; action = Action.Sync } ∷ []) }
        ensures unnoted { OnErr result (calls_of (inner_shelf self.new) ≡ calls_of (inner_shelf self.old)) }
    {
        if counts(&self.fuse, &mut self.calls) {
            self.faults = raised(self.faults);
            return Err(ShelfErr::Failed);
        }
        self.shelf.sync(name, area)
    }
}
