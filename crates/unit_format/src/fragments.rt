ghost use Rattle.std.specs.Prelude.{◌≡◌, ◌<◌, ◌≤◌, ◌*◌, ◌+◌, length, Ok, IfOk};
ghost use Rattle.cc_base.specs.Image.{FitsSegment};
ghost use Rattle.fragment.specs.Build.{words_at};
ghost use Rattle.fragment.specs.View.{shown};
ghost use Rattle.unit_format.specs.Steps.{Gives, many, each};
ghost use Rattle.unit_format.specs.Text.{HoldsWords, code};
ghost use Rattle.unit_format.specs.Reading.{count_at, place_at, probe_at, probes_at, exit_at, out_at, outs_at, fragment_at, fragments_at, turn_at, next_turn, exits_of, links_of};

use crate::bytes::{u8_at, u16_at, u32_at};
use crate::error::TextErr;
use crate::header::Version;
use cc_base::CodeView;
use fragment::{Exit, Fragment, Probe, word_in};
use probe_tools::ProbeKind;
use std::alloc::{AllocError, Global};
use unit_set::RawFrag;

/// A number of words or probes.
#[tactic(auto, unfolding(crate::specs::Reading::count_at))]
fn count_of(version: Version, bytes: &[u8]) -> Result<(u16, &[u8]), TextErr>
    ensures { Gives (λ x. (x.0, x.1.now)) result (count_at version bytes.now) }
{
    match version {
        Version::One => {
            let (count, rest) = u8_at(bytes)?;
            Ok((u16::from(count), rest))
        }
        Version::Two => u16_at(bytes),
    }
}

/// The address and the number of words.
#[tactic(auto, unfolding(crate::specs::Reading::place_at))]
fn place_of<'a>(
    version: Version,
    start: u32,
    content: &[u8],
    number: u32,
    least: u64,
    bytes: &'a [u8],
) -> Result<((u32, u16), &'a [u8]), TextErr>
    requires { start + length content.now ≤ 4294967295 }
    ensures gives { Gives (λ x. (x.0, x.1.now)) result (place_at version (code start content.now) number least bytes.now) }
    ensures within { IfOk result (λ x. HoldsWords (code start content.now) x.0.0 x.0.1) }
{
    let (address, rest) = u32_at(bytes)?;
    if u64::from(address) < least {
        return Err(TextErr::Order(number));
    }
    if address % 4 != 0 {
        return Err(TextErr::Field(number));
    }
    let (words, rest) = count_of(version, rest)?;
    if words < 1 || words > 64 || address < start {
        return Err(TextErr::Field(number));
    }
    if u64::from(address) + 4 * u64::from(words) > u64::from(start) + content.len() as u64 {
        return Err(TextErr::Field(number));
    }
    Ok(((address, words), rest))
}

/// A probe.
#[tactic(auto, unfolding(crate::specs::Reading::probe_at))]
fn probe_of(number: u32, words: u16, bytes: &[u8]) -> Result<(Probe, &[u8]), TextErr>
    ensures { Gives (λ x. (x.0, x.1.now)) result (probe_at number words bytes.now) }
{
    let (place, rest) = u8_at(bytes)?;
    if u16::from(place) >= words {
        return Err(TextErr::Field(number));
    }
    let (code, rest) = u8_at(rest)?;
    let kind = match code {
        0 => ProbeKind::Block,
        1 => ProbeKind::Call,
        2 => ProbeKind::Load,
        3 => ProbeKind::Store,
        _ => return Err(TextErr::Field(number)),
    };
    Ok((Probe { place, kind }, rest))
}

/// An exit.
#[tactic(auto, unfolding(crate::specs::Reading::exit_at))]
fn exit_of(number: u32, bytes: &[u8]) -> Result<(Exit, &[u8]), TextErr>
    ensures { Gives (λ x. (x.0, x.1.now)) result (exit_at number bytes.now) }
{
    let (kind, rest) = u8_at(bytes)?;
    if kind >= 4 {
        return Err(TextErr::Field(number));
    }
    let (target, rest) = u32_at(rest)?;
    match kind {
        0 => Ok((Exit::Direct(target), rest)),
        2 => Ok((Exit::Asks(target), rest)),
        _ if target != 0 => Err(TextErr::Field(number)),
        1 => Ok((Exit::Indirect, rest)),
        _ => Ok((Exit::Stop, rest)),
    }
}

/// So many probes.
fn probes_in(
    alloc: Global,
    number: u32,
    words: u16,
    count: u16,
    bytes: &[u8],
) -> Result<(Vec<Probe>, &[u8]), TextErr>
    ensures { Gives (λ x. (x.0.items, x.1.now)) result (many (probe_at number words) count bytes.now) }
{
    let mut probes = Vec::new(alloc);
    let mut rest = bytes;
    for _ in 0..count {
        let (probe, after) = probe_of(number, words, rest)?;
        probes.push(probe)?;
        rest = after;
    }
    Ok((probes, rest))
}

/// The probes.
#[tactic(auto, unfolding(crate::specs::Reading::probes_at))]
fn probes_of(
    alloc: Global,
    version: Version,
    number: u32,
    words: u16,
    bytes: &[u8],
) -> Result<(Vec<Probe>, &[u8]), TextErr>
    ensures { Gives (λ x. (x.0.items, x.1.now)) result (probes_at version number words bytes.now) }
{
    let (count, rest) = count_of(version, bytes)?;
    if count > 64 {
        return Err(TextErr::Field(number));
    }
    probes_in(alloc, number, words, count, rest)
}

/// An exit with its link.
#[tactic(auto, unfolding(crate::specs::Reading::out_at))]
fn out_of(number: u32, bytes: &[u8]) -> Result<((Exit, u32), &[u8]), TextErr>
    ensures { Gives (λ x. (x.0, x.1.now)) result (out_at number bytes.now) }
{
    let (exit, rest) = exit_of(number, bytes)?;
    let (link, rest) = u32_at(rest)?;
    Ok(((exit, link), rest))
}

/// So many exits, with their links.
fn outs_in(
    alloc: Global,
    number: u32,
    count: u8,
    bytes: &[u8],
) -> Result<(Vec<(Exit, u32)>, &[u8]), TextErr>
    ensures { Gives (λ x. (x.0.items, x.1.now)) result (many (out_at number) count bytes.now) }
{
    let mut outs = Vec::new(alloc);
    let mut rest = bytes;
    for _ in 0..count {
        let (out, after) = out_of(number, rest)?;
        outs.push(out)?;
        rest = after;
    }
    Ok((outs, rest))
}

/// The exits, with their links.
#[tactic(auto, unfolding(crate::specs::Reading::outs_at))]
fn outs_of(alloc: Global, number: u32, bytes: &[u8]) -> Result<(Vec<(Exit, u32)>, &[u8]), TextErr>
    ensures { Gives (λ x. (x.0.items, x.1.now)) result (outs_at number bytes.now) }
{
    let (count, rest) = u8_at(bytes)?;
    if count != 1 && count != 2 {
        return Err(TextErr::Field(number));
    }
    outs_in(alloc, number, count, rest)
}

// So many words of the image.
fn words_in(
    alloc: Global,
    image: CodeView<'_>,
    address: u32,
    count: u16,
) -> Result<Vec<u32>, AllocError>
    requires { HoldsWords (shown image) address count }
    ensures { IfOk result (λ v. v.items ≡ words_at (shown image.entry) address count) }
{
    let mut words = Vec::with_capacity(alloc, usize::from(count))?;
    for i in 0..count {
        words.push(word_in(image, address + 4 * u32::from(i)))?;
    }
    Ok(words)
}

fn exits_in(alloc: Global, outs: &[(Exit, u32)]) -> Result<Vec<Exit>, AllocError>
    ensures { IfOk result (λ v. v.items ≡ exits_of outs.now) }
{
    let mut exits = Vec::new(alloc);
    for out in outs {
        exits.push(out.0)?;
    }
    Ok(exits)
}

fn links_in(alloc: Global, outs: &[(Exit, u32)]) -> Result<Vec<u32>, AllocError>
    ensures { IfOk result (λ v. v.items ≡ links_of outs.now) }
{
    let mut links = Vec::new(alloc);
    for out in outs {
        links.push(out.1)?;
    }
    Ok(links)
}

/// A fragment.
#[tactic(auto, unfolding(crate::specs::Reading::fragment_at))]
fn fragment_of<'a>(
    alloc: Global,
    version: Version,
    start: u32,
    content: &[u8],
    number: u32,
    least: u64,
    bytes: &'a [u8],
) -> Result<(RawFrag, &'a [u8]), TextErr>
    requires { FitsSegment start content.now }
    ensures { Gives (λ x. (x.0, x.1.now)) result (fragment_at version (code start content.now) number least bytes.now) }
{
    let ((address, count), rest) = place_of(version, start, content, number, least, bytes)?;
    let (probes, rest) = probes_of(alloc, version, number, count, rest)?;
    let (outs, rest) = outs_of(alloc, number, rest)?;
    let image = CodeView {
        start,
        bytes: content,
    };
    let words = words_in(alloc, image, address, count)?;
    let exits = exits_in(alloc, &outs)?;
    let links = links_in(alloc, &outs)?;
    let frag = Fragment::from_parts(address, words, probes, exits);
    Ok((RawFrag { frag, links }, rest))
}

/// So many fragments.
fn fragments_in<'a>(
    alloc: Global,
    version: Version,
    start: u32,
    content: &[u8],
    count: u32,
    bytes: &'a [u8],
) -> Result<(Vec<RawFrag>, &'a [u8]), TextErr>
    requires { FitsSegment start content.now }
    ensures { Gives (λ x. (x.0.items, x.1.now)) result (each (turn_at version (code start content.now)) next_turn (0, 0) count bytes.now) }
{
    let mut fragments = Vec::new(alloc);
    let mut least = 0;
    let mut rest = bytes;
    for number in 0..count {
        let (fragment, after) = fragment_of(alloc, version, start, content, number, least, rest)?;
        least = u64::from(fragment.frag.addr()) + 1;
        fragments.push(fragment)?;
        rest = after;
    }
    Ok((fragments, rest))
}

/// The fragments.
#[tactic(auto, unfolding(crate::specs::Reading::fragments_at))]
pub fn fragments_of<'a>(
    alloc: Global,
    version: Version,
    start: u32,
    content: &[u8],
    bytes: &'a [u8],
) -> Result<(Vec<RawFrag>, &'a [u8]), TextErr>
    requires { FitsSegment start content.now }
    ensures { Gives (λ x. (x.0.items, x.1.now)) result (fragments_at version (code start content.now) bytes.now) }
{
    let (count, rest) = u32_at(bytes)?;
    if count > 16_384 {
        return Err(TextErr::Count);
    }
    fragments_in(alloc, version, start, content, count, rest)
}
