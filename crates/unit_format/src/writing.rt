ghost use Rattle.std.specs.Prelude.{◌≡◌, ◌≤◌, ◌<◌, ◌+◌, ◌*◌, ◌∷◌, ◌++◌, List, length, vec_len, vec_capacity, OnOk, OnErr};
ghost use Rattle.std.specs.List.{flat_map};
ghost use Rattle.unit_format.specs.declared.header.Version.TheVariants.{Two};
ghost use Rattle.unit_format.specs.Text.{u32_text, count_text, kind_code, probe_text, exit_text, out_text, outs, fragment_text, isa_text, magic_text, name_text, image_text, text};
ghost use Rattle.unit_format.specs.Units.{link_number, links_in, tied, raw_of, IsSmall};
ghost use Rattle.unit_set.specs.Slot.{slot_text, IsSlot};
ghost use Rattle.fragment.specs.Parts.{Parts};
ghost use Rattle.unit_set.specs.Room.{HasRoom, Puts};

use byteorder::{ByteOrder, LittleEndian};
use cc_base::Image;
use fragment::{Exit, Fragment, Probe};
use probe_tools::ProbeKind;
use rv_decode::Isa;
use std::alloc::AllocError;
use unit_set::{SlotName, Unit, put_byte, put_bytes};

fn put_u32(out: &mut Vec<u8>, n: u32)
    requires { HasRoom 4 out.old }
    ensures { Puts (u32_text n) out.old out.new }
{
    let mut bytes = [0; 4];
    LittleEndian::write_u32(&mut bytes, n);
    put_bytes(out, &bytes);
}

fn put_count(out: &mut Vec<u8>, n: usize)
    requires few { n ≤ 64 }
    requires room { HasRoom 2 out.old }
    ensures { Puts (count_text Two n) out.old out.new }
{
    let mut bytes = [0; 2];
    LittleEndian::write_u16(&mut bytes, n as u16);
    put_bytes(out, &bytes);
}

fn code_of(kind: ProbeKind) -> u8
    ensures { result ≡ kind_code kind }
{
    match kind {
        ProbeKind::Block => 0,
        ProbeKind::Call => 1,
        ProbeKind::Load => 2,
        ProbeKind::Store => 3,
    }
}

fn put_probe(out: &mut Vec<u8>, p: &Probe)
    requires { HasRoom 2 out.old }
    ensures { Puts (probe_text p.now) out.old out.new }
{
    put_bytes(out, &[p.place, code_of(p.kind)]);
}

fn put_probes(out: &mut Vec<u8>, probes: &[Probe])
    requires { HasRoom (2 * length probes.now) out.old }
    ensures { Puts (flat_map probe_text probes.now) out.old out.new }
{
    for p in probes {
        put_probe(out, p);
    }
}

fn put_kind(out: &mut Vec<u8>, kind: u8, target: u32)
    requires { HasRoom 5 out.old }
    ensures { Puts (kind ∷ u32_text target) out.old out.new }
{
    put_byte(out, kind);
    put_u32(out, target);
}

fn put_exit(out: &mut Vec<u8>, exit: Exit)
    requires { HasRoom 5 out.old }
    ensures { Puts (exit_text exit) out.old out.new }
{
    match exit {
        Exit::Direct(target) => put_kind(out, 0, target),
        Exit::Indirect => put_kind(out, 1, 0),
        Exit::Asks(target) => put_kind(out, 2, target),
        Exit::Stop => put_kind(out, 3, 0),
    }
}

fn put_out(out: &mut Vec<u8>, exit: Exit, link: u32)
    requires { HasRoom 9 out.old }
    ensures { Puts (out_text (exit, link)) out.old out.new }
{
    put_exit(out, exit);
    put_u32(out, link);
}

/// What a text has for a link.
pub fn number_of(link: Option<u32>) -> u32
    ensures { result ≡ link_number link }
{
    match link {
        Some(place) => place,
        None => 0xffff_ffff,
    }
}

fn put_outs(out: &mut Vec<u8>, u: &Unit, exits: &[Exit])
    requires { HasRoom (9 * length exits.now) out.old }
    ensures { Puts (flat_map out_text (outs exits.now (links_in u.now.frags exits.now))) out.old out.new }
{
    for exit in exits {
        put_out(out, *exit, number_of(u.link_of(*exit)));
    }
}

#[tactic(auto, using(crate::proofs::Sizes::fragment_size))]
fn put_fragment(out: &mut Vec<u8>, u: &Unit, f: &Fragment)
    requires small { IsSmall f.now }
    requires room { HasRoom (length (fragment_text Two (tied u.now.frags f.now))) out.old }
    ensures { Puts (fragment_text Two (tied u.now.frags f.now)) out.old out.new }
{
    let words = f.words();
    let probes = f.probes();
    let exits = f.exits();
    put_u32(out, f.addr());
    put_count(out, words.len());
    put_count(out, probes.len());
    put_probes(out, probes);
    put_byte(out, exits.len() as u8);
    put_outs(out, u, exits);
}

fn put_fragments(out: &mut Vec<u8>, u: &Unit)
    requires slot { IsSlot u.now.slot }
    requires room { HasRoom (length (flat_map (fragment_text Two) (raw_of u.now).frags)) out.old }
    ensures { Puts (flat_map (fragment_text Two) (raw_of u.now).frags) out.old out.new }
{
    let frags = u.frags();
    for f in frags {
        put_fragment(out, u, f.fragment());
    }
}

fn put_isa(out: &mut Vec<u8>, isa: Isa)
    requires { HasRoom 1 out.old }
    ensures { Puts (isa_text Two isa) out.old out.new }
{
    match isa {
        Isa::I => put_byte(out, 0),
        Isa::Im => put_byte(out, 1),
    }
}

fn put_name(out: &mut Vec<u8>, slot: &SlotName)
    requires slot { IsSlot slot.now }
    requires room { HasRoom (length (name_text (slot_text slot.now))) out.old }
    ensures { Puts (name_text (slot_text slot.now)) out.old out.new }
{
    put_byte(out, slot.text_len() as u8);
    slot.put_text(out);
}

fn put_image(out: &mut Vec<u8>, image: &Image)
    requires { HasRoom (8 + length image.now.bytes) out.old }
    ensures { Puts (image_text image.now) out.old out.new }
{
    let _: &Image = image;
    let bytes = image.bytes.items();
    put_u32(out, image.start);
    put_u32(out, bytes.len() as u32);
    put_bytes(out, bytes);
}

#[tactic(auto, using(crate::proofs::Sizes::text_size))]
fn put_unit(out: &mut Vec<u8>, u: &Unit)
    requires { HasRoom (length (text Two (raw_of u.now))) out.old }
    ensures { Puts (text Two (raw_of u.now)) out.old out.new }
{
    let slot = u.slot();
    put_bytes(out, b"CCU2");
    put_isa(out, slot.isa);
    put_name(out, slot);
    put_image(out, u.image());
    put_u32(out, u.len());
    put_fragments(out, u);
}

/// How long a fragment's text is.
#[tactic(auto, using(crate::proofs::Sizes::fragment_size))]
fn fragment_len(f: &Fragment) -> usize
    requires { IsSmall f.now }
    ensures exact { (frags : List Parts) → result ≡ length (fragment_text Two (tied frags f.now)) }
    ensures short { result ≤ 155 }
{
    9 + 2 * f.probes().len() + 9 * f.exits().len()
}

/// How long the texts of its fragments are.
fn fragments_len(u: &Unit) -> usize
    requires { IsSlot u.now.slot }
    ensures exact { result ≡ length (flat_map (fragment_text Two) (raw_of u.now).frags) }
    ensures short { result ≤ 2539520 }
{
    let mut len = 0;
    for f in u.frags() {
        len += fragment_len(f.fragment());
    }
    len
}

/// How long the unit's text of version 2 is.
#[tactic(auto, using(crate::proofs::Sizes::text_size))]
pub fn text_len(u: &Unit) -> usize
    ensures { result ≡ length (text Two (raw_of u.now)) }
{
    let slot = u.slot();
    let _max = slot.max;
    18 + slot.text_len() + u.image().bytes.items().len() + fragments_len(u)
}

/// Appends the unit's text of version 2. It reserves once.
pub fn write_unit(u: &Unit, out: &mut Vec<u8>) -> Result<(), AllocError>
    ensures appended { OnOk result (out.new.items ≡ out.old.items ++ text Two (raw_of u.now)) }
    // What was there stays.
    ensures unchanged { OnErr result (out.new.items ≡ out.old.items) }
    // Memory lacks only where there was no room for the text.
    ensures full { OnErr result (vec_capacity out.old < vec_len out.old + length (text Two (raw_of u.now))) }
{
    out.reserve(text_len(u))?;
    put_unit(out, u);
    Ok(())
}
