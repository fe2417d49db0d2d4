ghost use Rattle.std.specs.Prelude.{◌≡◌, ◌≤◌, length, nat_le};
ghost use Rattle.std.specs.List.{list_all};
ghost use Rattle.std.specs.Str.{is_utf8};
ghost use Rattle.manifest.specs.Names.{is_name, is_name_byte, is_file_name};

/// Whether a text is a name of a module or a guest.
pub fn is_name(text: &[u8]) -> bool
    ensures { result ≡ is_name text.now }
{
    1 <= text.len() && text.len() <= 16 && are_name_bytes(text)
}

fn are_name_bytes(text: &[u8]) -> bool
    ensures { result ≡ list_all is_name_byte text.now }
{
    for byte in text {
        if !is_name_byte(*byte) {
            return false;
        }
    }
    true
}

fn is_name_byte(b: u8) -> bool
    ensures { result ≡ is_name_byte b }
{
    97 <= b && b <= 122 || 48 <= b && b <= 57 || b == 95 || b == 45
}

/// Whether a text is a name of a file.
pub fn is_file_name(text: &[u8]) -> bool
    ensures { result ≡ is_file_name text.now }
{
    1 <= text.len() && text.len() <= 255 && are_printed(text) && is_text(text)
}

fn are_printed(text: &[u8]) -> bool
    ensures { result ≡ list_all (nat_le 32) text.now }
{
    for byte in text {
        if *byte < 32 {
            return false;
        }
    }
    true
}

// Whether it is UTF-8. What TOML gives always is, and the type of a manifest says it of each name of a file.
fn is_text(bytes: &[u8]) -> bool
    ensures { result ≡ is_utf8 bytes.now }
{
    std::str::from_utf8(bytes).is_ok()
}
