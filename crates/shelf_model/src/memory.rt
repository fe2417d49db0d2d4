// A shelf in memory, as the record of its calls.
ghost use Rattle.std.specs.Prelude.{◌≡◌, ◌++◌, ◌∷◌, [], ◌+◌, ◌<◌, ◌≤◌, ℕ, List, Some, None, Err, IfOk, IsErr, OnOk, OnErr, length, take, vec_len};
ghost use Rattle.shelf_model.specs.Calls.{content_of, content_from, actions_on, left_of, is_at};
ghost use Rattle.shelf_model.specs.Crash.{crash_of};
ghost use Rattle.shelf_model.specs.declared.shelf.Area.{Area};
ghost use Rattle.fault_counts.specs.Counts.{Rose};
ghost use Rattle.shelf_model.specs.Shelf.{written, Torn, Elapses, Rests, Stands, TellsOthers, TellsSame, Leaves, WhereTold};

use crate::shelf::{Area, Shelf, ShelfErr};
use cc_base::{Blob, Name};
use std::alloc::{AllocError, Global};

/// What a call did to its area.
#[derive(Debug, Drop)]
pub enum Action {
    /// These are its synced bytes.
    Put(Blob),
    /// A write that was done.
    Write { at: u32, bytes: Blob },
    /// A write of so many bytes that failed.
    Tried { at: u32, len: usize },
    /// A sync that was done.
    Sync,
}

/// A call on an area.
#[derive(Debug, Drop)]
pub struct Call {
    pub name: Name,
    pub area: Area,
    pub action: Action,
}

/// Areas in memory, empty at first, of which no call fails. It keeps a record of its calls but for the reads, and tells
/// every moment, which is a number of calls. Where memory runs out, the call is not done.
#[derive(Drop)]
pub struct MemShelf {
    alloc: Global,
    calls: Vec<Call>,
}

impl MemShelf {
    ghost use Rattle.shelf_model.specs.MemShelf.{calls_of, shelf_told, shelf_moment, shelf_images};

    /// Empty areas.
    pub fn new(alloc: Global) -> Self
        ensures { calls_of result ≡ [] }
    {
        MemShelf {
            alloc,
            calls: Vec::new(alloc),
        }
    }

    // Adds a call to the record.
    fn note(&mut self, name: &[u8], area: Area, action: Action) -> Result<(), AllocError>
        ensures ok { OnOk result (calls_of self.new ≡ calls_of self.old ++ record { name = name.now; area = area; action = action } ∷ []) }
        ensures err { OnErr result (calls_of self.new ≡ calls_of self.old) }
    {
        let name = Name::of(self.alloc, name)?;
        self.calls.push(Call { name, area, action })?;
        Ok(())
    }

    // Adds a write to the record.
    fn note_write(&mut self, name: &[u8], area: Area, at: u32, bytes: &[u8]) -> Result<(), ShelfErr>
        ensures ok { OnOk result (calls_of self.new ≡ calls_of self.old ++ record { name = name.now; area = area; action = Action.Write at bytes.now } ∷ []) }
        ensures err { OnErr result (calls_of self.new ≡ calls_of self.old) }
        ensures memory { IsErr result → result ≡ Err ShelfErr.Memory }
    {
        let bytes = Blob::of(self.alloc, bytes)?;
        self.note(name, area, Action::Write { at, bytes })?;
        Ok(())
    }

    // Adds a write that failed.
    pub(crate) fn note_tried(
        &mut self,
        name: &[u8],
        area: Area,
        at: u32,
        len: usize,
    ) -> Result<(), ShelfErr>
        ensures ok { OnOk result (calls_of self.new ≡ calls_of self.old ++ record { name = name.now; area = area; action = Action.Tried at len } ∷ []) }
        ensures err { OnErr result (calls_of self.new ≡ calls_of self.old) }
        ensures memory { IsErr result → result ≡ Err ShelfErr.Memory }
    {
        self.note(name, area, Action::Tried { at, len })?;
        Ok(())
    }

    // Adds a sync to the record.
    fn note_sync(&mut self, name: &[u8], area: Area) -> Result<(), ShelfErr>
        ensures ok { OnOk result (calls_of self.new ≡ calls_of self.old ++ record { name = name.now; area = area; action = Action.Sync } ∷ []) }
        ensures err { OnErr result (calls_of self.new ≡ calls_of self.old) }
        ensures memory { IsErr result → result ≡ Err ShelfErr.Memory }
    {
        self.note(name, area, Action::Sync)?;
        Ok(())
    }

    // Adds bytes that are put to the record.
    fn note_put(&mut self, name: &[u8], area: Area, bytes: &[u8]) -> Result<(), AllocError>
        ensures ok { OnOk result (calls_of self.new ≡ calls_of self.old ++ record { name = name.now; area = area; action = Action.Put bytes.now } ∷ []) }
        ensures err { OnErr result (calls_of self.new ≡ calls_of self.old) }
    {
        let bytes = Blob::of(self.alloc, bytes)?;
        self.note(name, area, Action::Put(bytes))
    }

    /// Makes these the synced bytes of an area. It counts as a call.
    pub fn put(&mut self, name: &[u8], area: Area, bytes: &[u8]) -> Result<(), AllocError>
        ensures told { OnOk result (shelf_told self.new name.now area ≡ Some bytes.now) }
        ensures synced { OnOk result (Leaves (shelf_images self.new) (shelf_moment self.new) name.now area bytes.now) }
        ensures others { TellsOthers (shelf_told self.old) (shelf_told self.new) name.now area }
        ensures noted { OnOk result (calls_of self.new ≡ calls_of self.old ++ record { name = name.now; area = area; action = Action.Put bytes.now } ∷ []) }
        ensures unnoted { OnErr result (calls_of self.new ≡ calls_of self.old) }
    {
        self.note_put(name, area, bytes)
    }

    /// The image in which each area has its synced bytes and the first `whole` of the writes that were done since. It is
    /// synced.
    pub fn crash(&self, whole: u32) -> Result<MemShelf, AllocError>
        ensures told { IfOk result (λ after. (n : List ℕ) (b : Area) → shelf_told after n b ≡ Some (crash_of whole (calls_of self.now) n b)) }
        ensures synced { IfOk result (λ after. (n : List ℕ) (b : Area) → Leaves (shelf_images after) (shelf_moment after) n b (crash_of whole (calls_of self.now) n b)) }
        ensures image { IfOk result (λ after. (n : List ℕ) (b : Area) → shelf_images self.now (shelf_moment self.now) n b (crash_of whole (calls_of self.now) n b)) }
    {
        let mut after = MemShelf::new(self.alloc);
        for call in &self.calls {
            let bytes = crash_content(
                self.alloc,
                &self.calls,
                call.name.items(),
                call.area,
                whole,
            )?;
            after.put(call.name.items(), call.area, &bytes)?;
        }
        Ok(after)
    }
}

// Whether a call is of this area.
fn is_here(n: &[u8], b: Area, call: &Call) -> bool
    ensures { result ≡ is_at n.now b call.now }
{
    n == call.name.items() && b == call.area
}

// The content after a write.
#[tactic(auto, unfolding(crate::specs::Shelf::written))]
fn with_write(alloc: Global, old: &[u8], at: usize, bytes: &[u8]) -> Result<Vec<u8>, AllocError>
    ensures { IfOk result (λ v. v.items ≡ written at bytes.now old.now) }
{
    let mut all = Vec::from_slice(alloc, old)?;
    let zeros = vec![in alloc; 0u8; at]?;
    all.extend_from_slice(zeros.as_slice())?;
    all.truncate(at);
    all.extend_from_slice(bytes)?;
    let end = at.saturating_add(bytes.len());
    if end < old.len() {
        all.extend_from_slice(&old[end..])?;
    }
    Ok(all)
}

// What the calls make of an area.
fn content(alloc: Global, calls: &[Call], n: &[u8], b: Area) -> Result<Vec<u8>, AllocError>
    ensures { IfOk result (λ v. v.items ≡ content_of calls.now n.now b) }
{
    let mut all = Vec::new(alloc);
    for call in calls {
        if is_here(n, b, call) {
            match &call.action {
                Action::Put(bytes) => all = Vec::from_slice(alloc, bytes.items())?,
                Action::Write { at, bytes } => {
                    all = with_write(alloc, &all, *at as usize, bytes.items())?
                }
                Action::Tried { .. } => {}
                Action::Sync => {}
            }
        }
    }
    Ok(all)
}

// The synced bytes of an area with the first writes since.
fn crash_content(
    alloc: Global,
    calls: &[Call],
    n: &[u8],
    b: Area,
    whole: u32,
) -> Result<Vec<u8>, AllocError>
    ensures { IfOk result (λ v. v.items ≡ crash_of whole calls.now n.now b) }
{
    let mut all = Vec::new(alloc);
    let mut left = Vec::new(alloc);
    let mut count = 0;
    for call in calls {
        if is_here(n, b, call) {
            match &call.action {
                Action::Put(bytes) => {
                    all = Vec::from_slice(alloc, bytes.items())?;
                    left = Vec::from_slice(alloc, bytes.items())?;
                    count = 0;
                }
                Action::Write { at, bytes } => {
                    all = with_write(alloc, &all, *at as usize, bytes.items())?;
                    if count < whole {
                        left = with_write(alloc, &left, *at as usize, bytes.items())?;
                        count += 1;
                    }
                }
                Action::Tried { .. } => {}
                Action::Sync => {
                    left = Vec::from_slice(alloc, &all)?;
                    count = 0;
                }
            }
        }
    }
    Ok(left)
}

impl Shelf for MemShelf {
    ghost use Rattle.shelf_model.specs.MemShelf.{calls_of, shelf_told, shelf_moment, shelf_images};

    ghost told = { shelf_told };

    ghost moment = { shelf_moment };

    ghost images = { shelf_images };

    ghost faults = { λ shelf name. 0 };

    fn read(&mut self, name: &[u8], area: Area, limit: u32) -> Result<Vec<u8>, ShelfErr>
        ensures bytes { IfOk result (λ read. WhereTold (shelf_told self.old name.now area) (λ bytes. read.items ≡ bytes)) }
        ensures within { IfOk result (λ read. vec_len read ≤ limit) }
        ensures too_long { result ≡ Err ShelfErr.TooLong → WhereTold (shelf_told self.old name.now area) (λ bytes. limit < length bytes) }
        ensures told { TellsSame (shelf_told self.old) (shelf_told self.new) }
        ensures time { Stands (shelf_moment self.old) (shelf_moment self.new) (shelf_images self.old) (shelf_images self.new) }
        ensures failed { result ≡ Err ShelfErr.Failed → Rose 0 0 }
        ensures never_falls { (n : List ℕ) → 0 ≤ 0 }

        // It is not noted, and doesn't fail.
        ensures noted { calls_of self.new ≡ calls_of self.old }
        ensures never_fails { result ≡ Err ShelfErr.Failed → ⊥ }
    {
        let all = content(self.alloc, &self.calls, name, area)?;
        if all.len() > limit as usize {
            return Err(ShelfErr::TooLong);
        }
        Ok(all)
    }

    fn write_at(&mut self, name: &[u8], area: Area, at: u32, bytes: &[u8]) -> Result<(), ShelfErr>
        requires { at + length bytes.now ≤ 4294967295 }
        ensures told { OnOk result (WhereTold (shelf_told self.old name.now area) (λ before. shelf_told self.new name.now area ≡ Some (written at bytes.now before))) }
        ensures broken { OnErr result (WhereTold (shelf_told self.old name.now area)
            (λ before. (after : List ℕ) × (shelf_told self.new name.now area ≡ Some after) × Torn at (length bytes.now) before after)) }
        ensures silent { shelf_told self.old name.now area ≡ None → shelf_told self.new name.now area ≡ None }
        ensures others { TellsOthers (shelf_told self.old) (shelf_told self.new) name.now area }
        ensures time { Elapses (shelf_moment self.old) (shelf_moment self.new) (shelf_images self.old) (shelf_images self.new) name.now area (Torn at (length bytes.now)) }
        ensures memory_told { result ≡ Err ShelfErr.Memory → TellsSame (shelf_told self.old) (shelf_told self.new) }
        ensures memory_time { result ≡ Err ShelfErr.Memory → Stands (shelf_moment self.old) (shelf_moment self.new) (shelf_images self.old) (shelf_images self.new) }
        ensures limit { result ≡ Err ShelfErr.TooLong → ⊥ }
        ensures failed { result ≡ Err ShelfErr.Failed → Rose 0 0 }
        ensures never_falls { (n : List ℕ) → 0 ≤ 0 }

        // It is noted where it is done, and doesn't fail.
        ensures noted { OnOk result (calls_of self.new ≡ calls_of self.old ++ record { name = name.now; area = area; action = Action.Write at bytes.now } ∷ []) }
        ensures unnoted { OnErr result (calls_of self.new ≡ calls_of self.old) }
        ensures never_fails { result ≡ Err ShelfErr.Failed → ⊥ }
    {
        self.note_write(name, area, at, bytes)
    }

    fn sync(&mut self, name: &[u8], area: Area) -> Result<(), ShelfErr>
        ensures settled { OnOk result (WhereTold (shelf_told self.new name.now area) (Leaves (shelf_images self.new) (shelf_moment self.new) name.now area)) }
        ensures told { TellsSame (shelf_told self.old) (shelf_told self.new) }
        ensures time { Rests (shelf_moment self.old) (shelf_moment self.new) (shelf_images self.old) (shelf_images self.new) }
        ensures memory_time { result ≡ Err ShelfErr.Memory → Stands (shelf_moment self.old) (shelf_moment self.new) (shelf_images self.old) (shelf_images self.new) }
        ensures limit { result ≡ Err ShelfErr.TooLong → ⊥ }
        ensures failed { result ≡ Err ShelfErr.Failed → Rose 0 0 }
        ensures never_falls { (n : List ℕ) → 0 ≤ 0 }

        // It is noted where it is done, and doesn't fail.
        ensures noted { OnOk result (calls_of self.new ≡ calls_of self.old ++ record { name = name.now; area = area; action = Action.Sync } ∷ []) }
        ensures unnoted { OnErr result (calls_of self.new ≡ calls_of self.old) }
        ensures never_fails { result ≡ Err ShelfErr.Failed → ⊥ }
    {
        self.note_sync(name, area)
    }
}
