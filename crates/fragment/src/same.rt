// Whether a fragment is the block that is built.
ghost use Rattle.std.specs.Prelude.{◌≡◌, ◌↔◌, ℕ, ◌+◌, ◌*◌, ◌<◌, ◌≤◌, true, length, IsTrue};
ghost use Rattle.fragment.specs.Build.{IsFresh, has_word, words_at};
ghost use Rattle.fragment.specs.Exits.{list_of};
ghost use Rattle.fragment.specs.Probing.{probes_of};
ghost use Rattle.fragment.specs.View.{shown};

use crate::class::class_of;
use crate::exits::{Exits, exits_of};
use crate::word::{can_build, word_count, word_in};
use crate::{Exit, Fragment, Probe};
use cc_base::CodeView;
use probe_tools::{ProbeKind, Tool, probe_for};
use rv_decode::{Isa, decode};

/// Whether the fragment is fresh in a code: the block of at most `max` words that this instruction set and this tool have
/// at its address there. It takes no memory.
pub fn same_as_built(f: &Fragment, code: CodeView<'_>, isa: Isa, tool: Tool, max: u8) -> bool
    requires some { 0 < max }
    requires most { max ≤ 64 }
    ensures { IsTrue result ↔ IsFresh (shown code.entry) isa tool max f.now }
{
    are_built(
        f.addr(),
        f.words(),
        f.probes(),
        f.exits(),
        code,
        isa,
        tool,
        max,
    )
}

// Whether these are the parts of the block that is built at an address.
fn are_built(
    addr: u32,
    words: &[u32],
    probes: &[Probe],
    exits: &[Exit],
    code: CodeView<'_>,
    isa: Isa,
    tool: Tool,
    max: u8,
) -> bool
    requires some { 0 < max }
    requires most { max ≤ 64 }
    ensures { IsTrue result ↔ IsFresh (shown code.entry) isa tool max (record { address = addr; words = words.now; probes = probes.now; exits = exits.now }) }
{
    if !can_build(code, addr) {
        return false;
    }
    let count = word_count(code, addr, isa, max);
    if !are_words(words, code, addr, count) {
        return false;
    }
    let place = addr + 4 * (u32::from(count) - 1);
    let last = decode(word_in(code, place), isa);
    if !are_exits(exits, exits_of(place, &last)) {
        return false;
    }
    are_probes(probes, words, isa, tool)
}

// Whether these are the words of a code from an address on.
fn are_words(words: &[u32], code: CodeView<'_>, addr: u32, count: u8) -> bool
    requires { (i : ℕ) → i < count → has_word (shown code) (addr + 4 * i) ≡ true }
    ensures { IsTrue result ↔ (words.now ≡ words_at (shown code.entry) addr count) }
{
    if words.len() != usize::from(count) {
        return false;
    }
    let mut place = addr;
    for word in words {
        if *word != word_in(code, place) {
            return false;
        }
        place = place.wrapping_add(4);
    }
    true
}

fn are_exits(exits: &[Exit], want: Exits) -> bool
    ensures { IsTrue result ↔ (exits.now ≡ list_of want) }
{
    match exits {
        [only] => want.second.is_none() && *only == want.first,
        [first, second] => *first == want.first && want.second == Some(*second),
        _ => false,
    }
}

fn are_probes(probes: &[Probe], words: &[u32], isa: Isa, tool: Tool) -> bool
    requires { length words.now ≤ 64 }
    ensures { IsTrue result ↔ (probes.now ≡ probes_of tool isa words.now) }
{
    let mut next = 0;
    for (place, word) in words.iter().enumerate() {
        let class = class_of(&decode(*word, isa));
        if let Some(kind) = probe_for(tool, class, place as u8, place + 1 == words.len()) {
            if next == probes.len() || !is_probe(probes[next], place as u8, kind) {
                return false;
            }
            next += 1;
        }
    }
    next == probes.len()
}

fn is_probe(probe: Probe, place: u8, kind: ProbeKind) -> bool
    ensures { IsTrue result ↔ (probe ≡ record { place = place; kind = kind }) }
{
    probe.place == place && probe.kind == kind
}
