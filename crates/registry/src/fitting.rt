// Whether a segment of a file may stand at a slot.
ghost use Rattle.std.specs.Prelude.{◌+◌, ◌≤◌, ◌↔◌, IsTrue, length};
ghost use Rattle.cc_base.specs.Image.{start_of};
ghost use Rattle.registry.specs.History.{MayAttach};

use crate::opening::Opening;
use cc_base::FileCode;

/// Whether the file has the slot's segment, and it ends at an address at the slot's base.
pub fn may_attach(opening: &Opening, slot: u32, file: u32) -> bool
    ensures { IsTrue result ↔ MayAttach opening.now slot file }
{
    if slot as usize >= opening.slots.len() || file as usize >= opening.codes.len() {
        return false;
    }
    let name = opening.slot(slot);
    let codes = opening.codes[file as usize].items();
    if usize::from(name.seg) >= codes.len() {
        return false;
    }
    ends(&codes[usize::from(name.seg)], name.base)
}

// Whether the segment ends at an address, with its module at this base.
fn ends(code: &FileCode, base: u32) -> bool
    ensures { IsTrue result ↔ (start_of code.now base + length code.now.bytes ≤ 4294967295) }
{
    let start = if code.fixed { 0 } else { u64::from(base) };
    start + u64::from(code.vaddr) + code.bytes.items().len() as u64 <= u64::from(u32::MAX)
}
