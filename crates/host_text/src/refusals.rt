// The lines that tell why nothing was run.
ghost use Rattle.std.specs.Prelude.{◌≡◌, ◌++◌, ℕ, take, codes, OnOk, OnErr, IsErr};
ghost use Rattle.fault_counts.specs.Counts.{Rose};
ghost use Rattle.outside.specs.Sink.{with_bytes};
ghost use Rattle.host_text.specs.Refusals.{elf_word, elf_number, manifest_word, manifest_key, manifest_line, elf_line, slots_line, refusal_text};

use crate::cause::Cause;
use crate::printing::{print, print_five};
use cc_base::Name;
use elf_map::ElfErr;
use itoa::Buffer;
use manifest::ManifestErr;
use outside::{Sink, SinkFailed};

/// Writes the line of a cause, as `error file NAME long`. A cause of a run that was made, and want of memory, have none.
pub fn refuse<K: Sink>(out: &mut K, cause: &Cause) -> Result<(), SinkFailed>
    ensures whole { OnOk result (K.written out.new ≡ with_bytes (K.written out.old) (refusal_text cause.now)) }
    ensures front { OnErr result ((n : ℕ) × (K.written out.new ≡ with_bytes (K.written out.old) (take n (refusal_text cause.now)))) }
    ensures failed { IsErr result → Rose (K.faults out.old) (K.faults out.new) }
{
    match cause {
        Cause::Words => print(out, b"error words\n"),
        Cause::Manifest(e) => refuse_manifest(out, e),
        Cause::Unread(name) => refuse_file(out, name, b" unread\n"),
        Cause::Long(name) => refuse_file(out, name, b" long\n"),
        Cause::Elf(name, e) => refuse_elf(out, name, *e),
        Cause::Slots(count) => refuse_slots(out, *count),
        Cause::Done | Cause::GuestEnded | Cause::Memory | Cause::Sink | Cause::Shelf(_) => {
            print(out, b"")
        }
    }
}

fn refuse_file<K: Sink>(out: &mut K, name: &Name, end: &[u8]) -> Result<(), SinkFailed>
    ensures whole { OnOk result (K.written out.new ≡ with_bytes (K.written out.old) (codes "error file " ++ name.now ++ end.now)) }
    ensures front { OnErr result ((n : ℕ) × (K.written out.new ≡ with_bytes (K.written out.old) (take n (codes "error file " ++ name.now ++ end.now)))) }
    ensures failed { IsErr result → Rose (K.faults out.old) (K.faults out.new) }
{
    print_five(out, b"", b"", b"error file ", name.items(), end)
}

fn refuse_manifest<K: Sink>(out: &mut K, e: &ManifestErr) -> Result<(), SinkFailed>
    ensures whole { OnOk result (K.written out.new ≡ with_bytes (K.written out.old) (manifest_line e.now)) }
    ensures front { OnErr result ((n : ℕ) × (K.written out.new ≡ with_bytes (K.written out.old) (take n (manifest_line e.now)))) }
    ensures failed { IsErr result → Rose (K.faults out.old) (K.faults out.new) }
{
    let word = manifest_word(e).as_bytes();
    print_five(out, b"", b"error manifest ", word, manifest_key(e), b"\n")
}

fn manifest_word(e: &ManifestErr) -> &'static str
    ensures { result.now ≡ manifest_word e.now }
{
    match e {
        ManifestErr::Text => "text",
        ManifestErr::Unknown(_) => "unknown ",
        ManifestErr::Missing(_) => "missing ",
        ManifestErr::Kind(_) => "kind ",
        ManifestErr::TooMany(_) => "many ",
        ManifestErr::BadName(_) => "name ",
        ManifestErr::Range(_) => "range ",
        ManifestErr::Repeated(_) => "repeated ",
        ManifestErr::Memory => "memory",
    }
}

fn manifest_key(e: &ManifestErr) -> &[u8]
    ensures { result.now ≡ manifest_key e.now }
{
    match e {
        ManifestErr::Text | ManifestErr::Memory => b"",
        ManifestErr::Unknown(key)
        | ManifestErr::Missing(key)
        | ManifestErr::Kind(key)
        | ManifestErr::TooMany(key)
        | ManifestErr::BadName(key)
        | ManifestErr::Range(key)
        | ManifestErr::Repeated(key) => key.items(),
    }
}

fn refuse_elf<K: Sink>(out: &mut K, name: &Name, e: ElfErr) -> Result<(), SinkFailed>
    ensures whole { OnOk result (K.written out.new ≡ with_bytes (K.written out.old) (elf_line name.now e)) }
    ensures front { OnErr result ((n : ℕ) × (K.written out.new ≡ with_bytes (K.written out.old) (take n (elf_line name.now e)))) }
    ensures failed { IsErr result → Rose (K.faults out.old) (K.faults out.new) }
{
    let mut buffer = Buffer::new();
    let number = elf_number(&mut buffer, e);
    let word = elf_word(e).as_bytes();
    print_five(
        out,
        b"error elf ",
        name.items(),
        word,
        number.as_bytes(),
        b"\n",
    )
}

fn refuse_slots<K: Sink>(out: &mut K, count: u32) -> Result<(), SinkFailed>
    ensures whole { OnOk result (K.written out.new ≡ with_bytes (K.written out.old) (slots_line count)) }
    ensures front { OnErr result ((n : ℕ) × (K.written out.new ≡ with_bytes (K.written out.old) (take n (slots_line count)))) }
    ensures failed { IsErr result → Rose (K.faults out.old) (K.faults out.new) }
{
    let mut buffer = Buffer::new();
    let number = buffer.format(count);
    print_five(out, b"", b"", b"error slots ", number.as_bytes(), b"\n")
}

fn elf_number<'a>(buffer: &'a mut Buffer, e: ElfErr) -> &'a str
    ensures { result.now ≡ elf_number e }
{
    match e {
        ElfErr::Segment(i) => buffer.format(i),
        _ => "",
    }
}

fn elf_word(e: ElfErr) -> &'static str
    ensures { result.now ≡ elf_word e }
{
    match e {
        ElfErr::Short => " short",
        ElfErr::Magic => " magic",
        ElfErr::Class => " class",
        ElfErr::Order => " order",
        ElfErr::Version => " version",
        ElfErr::FileKind => " filekind",
        ElfErr::Machine => " machine",
        ElfErr::Compressed => " compressed",
        ElfErr::HeaderSize => " headersize",
        ElfErr::TooManyHeaders => " toomanyheaders",
        ElfErr::Table => " table",
        ElfErr::Interp => " interp",
        ElfErr::Dynamic => " dynamic",
        ElfErr::Tls => " tls",
        ElfErr::Segment(_) => " segment ",
        ElfErr::TooManyCode => " toomanycode",
        ElfErr::Memory => " memory",
    }
}
