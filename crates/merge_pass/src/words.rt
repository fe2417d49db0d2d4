// The words of an image.
ghost use Rattle.std.specs.Prelude.{◌≡◌, [], ◌∷◌};
ghost use Rattle.fragment.specs.Build.{word_at};
ghost use Rattle.fragment.specs.View.{shown};
ghost use Rattle.block_ledger.specs.Ledger.{is_within, spells};

use cc_base::{CodeView, Image};
use fragment::word_in;

// The image as a code.
pub(crate) fn view_of(image: &Image) -> CodeView<'_>
    ensures { shown result ≡ image.now }
{
    CodeView {
        start: image.start,
        bytes: image.bytes.items(),
    }
}

// Whether the address is in the code.
pub(crate) fn is_within(code: CodeView<'_>, addr: u32) -> bool
    ensures { result ≡ is_within addr (shown code.entry ∷ []) }
{
    let end = u64::from(code.start) + code.bytes.len() as u64;
    code.start <= addr && u64::from(addr) < end
}

// The word at an address, where it is wholly in the code.
fn word_at(code: CodeView<'_>, addr: u32) -> Option<u32>
    ensures { result ≡ word_at (shown code.entry) addr }
{
    let end = u64::from(code.start) + code.bytes.len() as u64;
    if code.start <= addr && u64::from(addr) + 4 <= end {
        Some(word_in(code, addr))
    } else {
        None
    }
}

// Whether the code has these words from the address on.
pub(crate) fn spells(code: CodeView<'_>, addr: u32, words: &[u32]) -> bool
    ensures { result ≡ spells (shown code.entry) addr words.now }
{
    let mut at = addr;
    for word in words {
        if word_at(code, at) != Some(*word) {
            return false;
        }
        at += 4;
    }
    true
}
