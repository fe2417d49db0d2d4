// Words in a code.
ghost use Rattle.std.specs.Prelude.{◌≡◌, ℕ, ◌-◌, ◌+◌, ◌*◌, ◌<◌, ◌≤◌, true, length, take, drop};
ghost use Rattle.plain_machine.specs.Memory.{number_of};
ghost use Rattle.fragment.specs.Build.{can_build, has_word, size_at, word_in};
ghost use Rattle.fragment.specs.View.{shown};

use crate::class::ends_block;
use cc_base::CodeView;
use rv_decode::{Isa, decode};

/// Whether a block can stand at an address: a multiple of four, with its word wholly in the code.
pub fn can_build(code: CodeView<'_>, addr: u32) -> bool
    ensures { result ≡ can_build (shown code.entry) addr }
{
    addr % 4 == 0 && has_word(code, addr)
}

/// The word at an address.
pub fn word_in(code: CodeView<'_>, addr: u32) -> u32
    requires { has_word (shown code) addr ≡ true }
    ensures { result ≡ word_in (shown code.entry) addr }
{
    number_at(code.bytes, (addr - code.start) as usize)
}

/// How many words the block at an address has.
pub fn word_count(code: CodeView<'_>, addr: u32, isa: Isa, max: u8) -> u8
    requires some { 0 < max }
    requires there { has_word (shown code) addr ≡ true }
    ensures count { result ≡ size_at (shown code.entry) addr isa max }
    ensures range { (1 ≤ result) × (result ≤ max) }
    ensures within { (i : ℕ) → i < result → has_word (shown code.entry) (addr + 4 * i) ≡ true }
{
    let mut place = addr;
    for count in 1..max {
        if ends_block(&decode(word_in(code, place), isa)) || !has_word(code, place + 4) {
            return count;
        }
        place += 4;
    }
    max
}

fn has_word(code: CodeView<'_>, addr: u32) -> bool
    ensures { result ≡ has_word (shown code.entry) addr }
{
    let end = u64::from(code.start) + code.bytes.len() as u64;
    code.start <= addr && u64::from(addr) + 4 <= end
}

// The number that four bytes spell, the lowest byte first.
fn number_at(bytes: &[u8], at: usize) -> u32
    requires { at + 4 ≤ length bytes.now }
    ensures { result ≡ number_of (take 4 (drop at bytes.now)) }
{
    u32::from(bytes[at])
        + (u32::from(bytes[at + 1]) << 8)
        + (u32::from(bytes[at + 2]) << 16)
        + (u32::from(bytes[at + 3]) << 24)
}
