use super::*;
use cc_base::Name;
use probe_tools::Tool;
use rv_decode::Isa;
use std::alloc::Global;
use std::test::Fail;

const FULL: &str = r#"
files = ["p.elf", "lib/q.elf"]

[[module]]
name = "main"
file = "lib/q.elf"

[[module]]
name = "lib_2"
file = "p.elf"
base = 4294967292

[[guest]]
name = "g1"
module = "lib_2"

[[guest]]
name = "g-2"
module = "main"
round = 15
tool = "memory"
isa = "im"
max = 64
fuel = 1000000000
pool = 16
stack = 4096
input = "text"
"#;

fn are_files(files: &[Name]) -> bool {
    match files {
        [p, q] => p.items() == b"p.elf".as_slice() && q.items() == b"lib/q.elf".as_slice(),
        _ => false,
    }
}

fn are_modules(modules: &[ModuleRow]) -> bool {
    match modules {
        [main, lib] => {
            is_module(main, b"main", 1, 0) && is_module(lib, b"lib_2", 0, 4_294_967_292)
        }
        _ => false,
    }
}

fn is_module(row: &ModuleRow, name: &[u8], file: u32, base: u32) -> bool {
    row.name.items() == name && row.file == file && row.base == base
}

fn are_guests(guests: &[GuestRow]) -> bool {
    match guests {
        [left_out, given] => has_defaults(left_out) && has_all(given),
        _ => false,
    }
}

fn has_defaults(g: &GuestRow) -> bool {
    g.name.items() == b"g1".as_slice()
        && g.tool == Tool::Blocks
        && g.isa == Isa::I
        && g.input.is_none()
        && numbers_of(g) == [1, 0, 32, 10_000_000, 4_096, 65_536]
}

fn has_all(g: &GuestRow) -> bool {
    let input = match &g.input {
        Some(name) => name.items(),
        None => b"".as_slice(),
    };
    g.name.items() == b"g-2".as_slice()
        && g.tool == Tool::Memory
        && g.isa == Isa::Im
        && input == b"text".as_slice()
        && numbers_of(g) == [0, 15, 64, 1_000_000_000, 16, 4_096]
}

fn numbers_of(g: &GuestRow) -> [u64; 6] {
    [
        u64::from(g.module),
        u64::from(g.round),
        u64::from(g.max),
        g.fuel,
        u64::from(g.pool),
        u64::from(g.stack),
    ]
}

#[test]
fn files_modules_and_guests_are_read(rt: HostRuntime) -> Result<(), Fail> {
    let manifest = Manifest::read(rt.alloc(), FULL.as_bytes())?;
    assert!(rt; are_files(manifest.files()), "files");
    assert!(rt; are_modules(manifest.modules()), "modules");
    assert!(rt; are_guests(manifest.guests()), "guests");
    Ok(())
}

// Whether this is refused for this cause at this key.
fn is_refused(alloc: Global, bytes: &[u8], cause: &str, key: &str) -> bool {
    match Manifest::read(alloc, bytes) {
        Ok(_) => false,
        Err(e) => is_fault(&e, cause, key),
    }
}

fn is_fault(e: &ManifestErr, cause: &str, key: &str) -> bool {
    let (word, path) = match e {
        ManifestErr::Text => ("text", b"".as_slice()),
        ManifestErr::Unknown(path) => ("unknown", path.items()),
        ManifestErr::Missing(path) => ("missing", path.items()),
        ManifestErr::Kind(path) => ("kind", path.items()),
        ManifestErr::TooMany(path) => ("many", path.items()),
        ManifestErr::BadName(path) => ("name", path.items()),
        ManifestErr::Range(path) => ("range", path.items()),
        ManifestErr::Repeated(path) => ("repeated", path.items()),
        ManifestErr::Memory => return false,
    };
    word == cause && path == key.as_bytes()
}

#[test]
fn empty_manifest(rt: HostRuntime) {
    assert!(rt; is_refused(rt.alloc(), b"", "missing", "files"));
    assert!(rt; is_refused(rt.alloc(), b"\xff", "text", ""));
}

#[test]
fn the_first_rule_that_fails_is_the_answer(rt: HostRuntime) {
    for (text, cause, key) in [
        ("a = 1\na = 2", "text", ""),
        ("b = 1\na = 1\nfiles = 1", "unknown", "a"),
        ("files = ['p.elf', 1]", "kind", "files"),
        ("files = []", "many", "files"),
        ("files = ['p', 'p', '']", "name", "files"),
        ("files = ['p', 'q', 'p']", "repeated", "files"),
        ("files = ['p']\nmodule = [1]", "kind", "module"),
        (
            "files = ['p']\nmodule = [{name = 'm', file = 'p'}, {name = 'm', file = 'q'}]",
            "repeated",
            "module.1.name",
        ),
        (
            "files = ['p']\nmodule = [{name = 'm', file = 'p'}]\nguest = [{name = 1, zeal = 1}]",
            "unknown",
            "guest.0.zeal",
        ),
        (
            "files = ['p']\nmodule = [{name = 'm', file = 'p'}]\nguest = [{name = 'g', module = 'm', max = 65}]",
            "range",
            "guest.0.max",
        ),
    ] {
        assert!(rt;
            is_refused(rt.alloc(), text.as_bytes(), cause, key),
            "{cause} {key}"
        );
    }
}
