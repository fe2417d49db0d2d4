// What a registry is made from.
ghost use Rattle.std.specs.Prelude.{◌≡◌, ◌≤◌, ◌<◌, ◌+◌, length, IfOk, unwrap_or, slice_get, []};
ghost use Rattle.cc_base.specs.Image.{start_of};
ghost use Rattle.registry.specs.Opening.{image_at, slot_at, text_at, image_from, no_text};

use cc_base::{FileCode, Image, image_of};
use std::alloc::AllocError;
use std::marker::Model;
use std::sync::Arc;
use unit_set::{SlotName, Unit};

/// The executable segments of a file, at most four.
#[derive(Drop)]
pub struct FileCodes {
    codes: Vec<FileCode>,
}

impl Model for FileCodes {
    ghost use Rattle.std.specs.Prelude.{List};
    ghost use Rattle.cc_base.specs.Image.{Text};

    ghost Value = { List Text };

    ghost view = { λ f. f.codes.items };
}

impl FileCodes {
    /// The segments of a vector, which is kept. It takes no memory.
    pub fn from_vec(codes: Vec<FileCode>) -> Self
        ensures { result ≡ codes.items }
    {
        FileCodes { codes }
    }

    /// The segments, in order.
    pub fn items(&self) -> &[FileCode]
        ensures { result.now ≡ self.now }
    {
        &self.codes
    }
}

/// What a registry is made from: the slots in order, with the unit that was found for each and whether it is shut, per
/// module its file, and per file its executable segments.
#[derive(Drop)]
pub struct Opening {
    pub slots: Vec<SlotName>,
    pub found: Vec<Option<Arc<Unit>>>,
    pub shut: Vec<bool>,
    pub modules: Vec<u32>,
    pub codes: Vec<FileCodes>,
}

impl Model for Opening {
    ghost use Rattle.std.specs.Prelude.{map, option_map};
    ghost use Rattle.std.specs.Arc.{arc_value};
    ghost use Rattle.registry.specs.Content.{content_of};
    ghost use Rattle.registry.specs.Opening.{Opening as OpeningParts};

    ghost Value = { OpeningParts };

    ghost view = { λ o. record { slots = o.slots.items; found = map (option_map (λ u. content_of (arc_value u))) o.found.items; shut = o.shut.items; modules = o.modules.items; codes = o.codes.items } };
}

impl Opening {
    /// How many files there are.
    pub fn file_count(&self) -> usize
        ensures { result ≡ length self.now.codes }
    {
        self.codes.len()
    }

    // The slot of this number.
    pub(crate) fn slot(&self, slot: u32) -> &SlotName
        requires { slot < length self.now.slots }
        ensures { result.now ≡ slot_at self.now slot }
    {
        &self.slots[slot as usize]
    }

    // The file's segment at the slot's base. Its bytes are shared, not copied.
    pub(crate) fn image(&self, slot: u32, file: u32) -> Result<Image, AllocError>
        requires slot { slot < length self.now.slots }
        requires file { file < length self.now.codes }
        requires seg { (slot_at self.now slot).seg < length (unwrap_or (slice_get self.now.codes file) []) }
        requires end { (image_at self.now slot file).start + length (image_at self.now slot file).bytes ≤ 4294967295 }
        ensures { IfOk result (λ i. i ≡ image_at self.now slot file) }
    {
        let name = self.slot(slot);
        let code = segment_of(&self.codes, file, name.seg);
        image_of(code, name.base)
    }
}

fn segment_of(codes: &[FileCodes], file: u32, seg: u8) -> &FileCode
    requires file { file < length codes.now }
    requires seg { seg < length (unwrap_or (slice_get codes.now file) []) }
    ensures { result.now ≡ unwrap_or (slice_get (unwrap_or (slice_get codes.now file) []) seg) no_text }
{
    let segments = &codes[file as usize];
    &segments.items()[seg as usize]
}
