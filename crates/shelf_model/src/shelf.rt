// Areas of bytes under names.
ghost use Rattle.std.specs.Prelude.{◌≡◌, ◌⊎◌, ◌+◌, ◌<◌, ◌≤◌, ℕ, List, Option, Some, None, Err, length, vec_len, IfOk, OnOk, OnErr};
ghost use Rattle.shelf_model.specs.declared.shelf.Area.{Area};
ghost use Rattle.shelf_model.specs.declared.shelf.ShelfErr.TheVariants.{TooLong, Failed, Memory};
ghost use Rattle.shelf_model.specs.Shelf.{written, Torn, Elapses, Rests, Stands, TellsOthers, TellsSame, Leaves, WhereTold, Stores};
ghost use Rattle.fault_counts.specs.Counts.{Rose};

use std::alloc::{AllocError, AllocFailed};
use thiserror::Error;

/// One of the two areas of a name.
#[derive(Clone, Copy, Debug, PartialEq, Eq)]
pub enum Area {
    A,
    B,
}

/// Why a call of a shelf did nothing, or not all.
#[derive(Clone, Copy, Debug, PartialEq, Eq, Error)]
pub enum ShelfErr {
    /// The content is longer than the limit.
    #[error("long")]
    TooLong,
    /// The area could not be read, written or synced.
    #[error("shelf")]
    Failed,
    /// Memory ran out. Nothing has changed.
    #[error("memory")]
    Memory,
}

impl From<AllocError> for ShelfErr {
    ghost from_gives = { λ _ e. e ≡ Memory };

    fn from(_: AllocError) -> Self {
        ShelfErr::Memory
    }
}

impl<T: Drop> From<AllocFailed<T>> for ShelfErr {
    ghost from_gives = { λ _ e. e ≡ Memory };

    fn from(_: AllocFailed<T>) -> Self {
        ShelfErr::Memory
    }
}

/// Two areas of bytes under each name, which is that of a slot. An absent file is an empty area.
pub trait Shelf {
    /// What a read of an area gives, where that is told.
    ghost told: { Self → List ℕ → Area → Option (List ℕ) };

    /// This moment, as a number that doesn't fall. A call may take several.
    ghost moment: { Self → ℕ };

    /// What a crash at a moment up to this one may leave in an area.
    ghost images: { Self → ℕ → List ℕ → Area → List ℕ → Type 0 };

    /// How often a call on a name has failed. An implementation may give one number as the count of every name.
    ghost faults: { Self → List ℕ → ℕ };

    /// The content of an area, in all at most `limit` bytes; none of an absent file. Whatever it answers, what is told
    /// and the images stay.
    fn read(&mut self, name: &[u8], area: Area, limit: u32) -> Result<Vec<u8>, ShelfErr>
        ensures bytes { IfOk result (λ read. WhereTold (told self.old name.now area) (λ bytes. read.items ≡ bytes)) }
        ensures within { IfOk result (λ read. vec_len read ≤ limit) }
        ensures too_long { result ≡ Err ShelfErr.TooLong → WhereTold (told self.old name.now area) (λ bytes. limit < length bytes) }
        ensures told { TellsSame (told self.old) (told self.new) }
        ensures time { Stands (moment self.old) (moment self.new) (images self.old) (images self.new) }
        ensures failed { result ≡ Err ShelfErr.Failed → Rose (faults self.old name.now) (faults self.new name.now) }
        ensures never_falls { (n : List ℕ) → faults self.old n ≤ faults self.new n };

    /// Puts the bytes at `at`, with zeros in a gap before them, and keeps all others. After `ShelfErr::Failed` the range
    /// holds any bytes; after `ShelfErr::Memory` nothing has changed. During the call the whole range counts as written.
    fn write_at(&mut self, name: &[u8], area: Area, at: u32, bytes: &[u8]) -> Result<(), ShelfErr>
        requires { at + length bytes.now ≤ 4294967295 }
        ensures told { OnOk result (WhereTold (told self.old name.now area) (λ before. told self.new name.now area ≡ Some (written at bytes.now before))) }
        ensures broken { OnErr result (WhereTold (told self.old name.now area)
            (λ before. (after : List ℕ) × (told self.new name.now area ≡ Some after) × Torn at (length bytes.now) before after)) }
        ensures silent { told self.old name.now area ≡ None → told self.new name.now area ≡ None }
        ensures others { TellsOthers (told self.old) (told self.new) name.now area }
        ensures time { Elapses (moment self.old) (moment self.new) (images self.old) (images self.new) name.now area (Torn at (length bytes.now)) }
        ensures memory_told { result ≡ Err ShelfErr.Memory → TellsSame (told self.old) (told self.new) }
        ensures memory_time { result ≡ Err ShelfErr.Memory → Stands (moment self.old) (moment self.new) (images self.old) (images self.new) }
        ensures limit { result ≡ Err ShelfErr.TooLong → ⊥ }
        ensures failed { result ≡ Err ShelfErr.Failed → Rose (faults self.old name.now) (faults self.new name.now) }
        ensures never_falls { (n : List ℕ) → faults self.old n ≤ faults self.new n };

    /// Makes what a read gives all that a crash leaves. An absent file is left absent. Whatever it answers, what is told
    /// stays, and no area gains an image; after `ShelfErr::Memory` none loses one.
    fn sync(&mut self, name: &[u8], area: Area) -> Result<(), ShelfErr>
        ensures settled { OnOk result (WhereTold (told self.new name.now area) (Leaves (images self.new) (moment self.new) name.now area)) }
        ensures told { TellsSame (told self.old) (told self.new) }
        ensures time { Rests (moment self.old) (moment self.new) (images self.old) (images self.new) }
        ensures memory_time { result ≡ Err ShelfErr.Memory → Stands (moment self.old) (moment self.new) (images self.old) (images self.new) }
        ensures limit { result ≡ Err ShelfErr.TooLong → ⊥ }
        ensures failed { result ≡ Err ShelfErr.Failed → Rose (faults self.old name.now) (faults self.new name.now) }
        ensures never_falls { (n : List ℕ) → faults self.old n ≤ faults self.new n };
}

/// Writes bytes, and syncs the area.
pub fn store<H: Shelf>(
    shelf: &mut H,
    name: &[u8],
    area: Area,
    at: u32,
    bytes: &[u8],
) -> Result<(), ShelfErr>
    requires { at + length bytes.now ≤ 4294967295 }
    ensures stores { Stores (H.told shelf.old) (H.told shelf.new) (H.moment shelf.old) (H.moment shelf.new) (H.images shelf.old) (H.images shelf.new) name.now area at bytes.now result }
    // Where memory ran out, the bytes were written wholly or not at all.
    ensures memory { result ≡ Err ShelfErr.Memory → WhereTold (H.told shelf.old name.now area)
        (λ before. (H.told shelf.new name.now area ≡ Some before) ⊎ (H.told shelf.new name.now area ≡ Some (written at bytes.now before))) }
    ensures limit { result ≡ Err ShelfErr.TooLong → ⊥ }
    ensures failed { result ≡ Err ShelfErr.Failed → Rose (H.faults shelf.old name.now) (H.faults shelf.new name.now) }
    ensures never_falls { (n : List ℕ) → H.faults shelf.old n ≤ H.faults shelf.new n }
{
    shelf.write_at(name, area, at, bytes)?;
    shelf.sync(name, area)
}
