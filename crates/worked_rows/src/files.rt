// Guests as files under a manifest, and the words of a command.
ghost use Rattle.std.specs.Prelude.{◌<◌, ◌^◌, length};

use std::alloc::{AllocError, Global};
use std::test::Fail;

/// The keys of the guest in most rows.
pub const FRAME: &str = "max = 16\nfuel = 100000\n";

// The manifest of one file, one module and one guest, up to the guest's further keys.
const MANIFEST: &str =
    "files = ['p.elf']\n[[module]]\nname = 'main'\nfile = 'p.elf'\n[[guest]]\nname = 'g1'\nmodule = 'main'\n";

// An ELF file of type 2 with the entry 00010000 and one program header of type 1, for a segment at offset 84 and address
// 00010000, up to the sizes of the segment.
const HEAD: [u8; 68] = [
    0x7f, b'E', b'L', b'F', 1, 1, 1, 0, 0, 0, 0, 0, 0, 0, 0, 0, 2, 0, 243, 0, 1, 0, 0, 0, 0, 0, 1,
    0, 52, 0, 0, 0, 0, 0, 0, 0, 0, 0, 0, 0, 52, 0, 32, 0, 1, 0, 0, 0, 0, 0, 0, 0, 1, 0, 0, 0, 84,
    0, 0, 0, 0, 0, 1, 0, 0, 0, 1, 0,
];

/// The file of a segment with these flags and bytes.
pub fn elf(alloc: Global, flags: u8, segment: &[u8]) -> Result<Vec<u8>, AllocError>
    requires { length segment.now < 2 ^ 32 }
{
    let size = (segment.len() as u32).to_le_bytes();
    let mut file = Vec::from_slice(alloc, &HEAD)?;
    file.extend_from_slice(&size)?;
    file.extend_from_slice(&size)?;
    file.extend_from_slice(&[flags, 0, 0, 0, 4, 0, 0, 0])?;
    file.extend_from_slice(segment)?;
    Ok(file)
}

/// The file of a segment of these words, with these flags.
pub fn elf_of_words(alloc: Global, flags: u8, words: &[u32]) -> Result<Vec<u8>, Fail> {
    let segment = bytes_of(alloc, words)?;
    if segment.len() > 1_048_576 {
        return Err(Fail::from("too many words"));
    }
    Ok(elf(alloc, flags, &segment)?)
}

// The bytes of these words.
fn bytes_of(alloc: Global, words: &[u32]) -> Result<Vec<u8>, AllocError> {
    let mut bytes = Vec::new(alloc);
    for word in words {
        bytes.extend_from_slice(&word.to_le_bytes())?;
    }
    Ok(bytes)
}

/// The words of a command.
pub fn words(alloc: Global, texts: &[&str]) -> Result<Vec<String>, AllocError> {
    let mut words = Vec::new(alloc);
    for text in texts {
        words.push(String::from_str(alloc, *text)?)?;
    }
    Ok(words)
}

/// The manifest of one file with these further keys of its guest.
pub fn one_guest(alloc: Global, keys: &str) -> Result<String, AllocError> {
    let mut text = String::from_str(alloc, MANIFEST)?;
    text.push_str(keys)?;
    Ok(text)
}
