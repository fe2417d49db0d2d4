// Builds a block.
ghost use Rattle.std.specs.Prelude.{◌≡◌, ℕ, ◌+◌, ◌*◌, ◌<◌, ◌≤◌, true, [], length, is_some, if◌then◌else◌, IfOk, OnErr};
ghost use Rattle.fragment.specs.Build.{built, has_word, words_at};
ghost use Rattle.fragment.specs.Exits.{list_of};
ghost use Rattle.fragment.specs.Probing.{probes_of};
ghost use Rattle.fragment.specs.View.{shown};
ghost use Rattle.block_build.specs.Places.{HasAllPlaces};

use cc_base::{CodeView, Steps};
use fragment::{Exit, Exits, Fragment, Probe, can_build, class_of, exits_of, word_count, word_in};
use probe_tools::{Tool, probe_for};
use rv_decode::{Isa, decode};
use std::alloc::{AllocError, Global};
use std::sync::ledger::Ledger;

/// The block at an address of a code, of at most `max` words of this instruction set, with the probes of this tool. None
/// comes exactly where the address is no multiple of four or its word is not wholly in the code; each other answer
/// counts one step. It takes memory once for each list of the block that has items.
pub fn build<L: Ledger>(
    alloc: Global,
    code: CodeView<'_>,
    addr: u32,
    isa: Isa,
    tool: Tool,
    max: u8,
    steps: &mut Steps<L>,
) -> Result<Option<Fragment>, AllocError>
    requires some { 0 < max }
    requires most { max ≤ 64 }
    ensures built { IfOk result (λ block. block ≡ built (shown code.entry) addr isa tool max) }
    ensures steps { IfOk result (λ block. steps.new ≡ (if is_some block then steps.old + 1 else steps.old)) }
    ensures err { OnErr result (steps.new ≡ steps.old) }
{
    if !can_build(code, addr) {
        return Ok(None);
    }
    let count = word_count(code, addr, isa, max);
    let words = words_from(alloc, code, addr, count)?;
    let probes = probes_of(alloc, &words, isa, tool)?;
    let place = addr + 4 * (u32::from(count) - 1);
    let last = decode(word_in(code, place), isa);
    let exits = list_of(alloc, exits_of(place, &last))?;
    steps.tick();
    Ok(Some(Fragment::from_parts(addr, words, probes, exits)))
}

// So many words from an address on.
fn words_from(
    alloc: Global,
    code: CodeView<'_>,
    addr: u32,
    count: u8,
) -> Result<Vec<u32>, AllocError>
    requires { (i : ℕ) → i < count → has_word (shown code) (addr + 4 * i) ≡ true }
    ensures { IfOk result (λ words. words.items ≡ words_at (shown code.entry) addr count) }
{
    let mut words = Vec::with_capacity(alloc, usize::from(count))?;
    for i in 0..count {
        words.push(word_in(code, addr + 4 * u32::from(i)))?;
    }
    Ok(words)
}

// The probes of a block of these words.
fn probes_of(alloc: Global, words: &[u32], isa: Isa, tool: Tool) -> Result<Vec<Probe>, AllocError>
    requires some { 0 < length words.now }
    requires most { length words.now ≤ 64 }
    ensures { IfOk result (λ probes. probes.items ≡ probes_of tool isa words.now) }
{
    let (from, to) = places(tool, words.len());
    let mut probes = room_for(alloc, to - from)?;
    for place in from..to {
        let class = class_of(&decode(words[place], isa));
        if let Some(kind) = probe_for(tool, class, place as u8, place + 1 == words.len()) {
            probes.push(Probe {
                place: place as u8,
                kind,
            })?;
        }
    }
    Ok(probes)
}

// Room for so many probes. One alone finds its room when it comes.
fn room_for(alloc: Global, count: usize) -> Result<Vec<Probe>, AllocError>
    ensures { IfOk result (λ probes. probes.items ≡ []) }
{
    if count > 1 {
        Vec::with_capacity(alloc, count)
    } else {
        Ok(Vec::new(alloc))
    }
}

// The places at which the tool may have probes in a block of so many words.
fn places(tool: Tool, count: usize) -> (usize, usize)
    requires { 0 < count }
    ensures { HasAllPlaces tool count result.0 result.1 }
{
    match tool {
        Tool::Blocks => (0, 1),
        Tool::Calls => (count - 1, count),
        Tool::Memory => (0, count),
    }
}

fn list_of(alloc: Global, exits: Exits) -> Result<Vec<Exit>, AllocError>
    ensures { IfOk result (λ list. list.items ≡ list_of exits) }
{
    match exits.second {
        None => Ok(vec![in alloc; exits.first]?),
        Some(second) => Ok(vec![in alloc; exits.first, second]?),
    }
}
