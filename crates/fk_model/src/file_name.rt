//! Names, as those of images and traces.
ghost use Rattle.std.specs.Prelude.{◌≡◌};
ghost use Rattle.std.specs.List.{list_all};
ghost use Rattle.fk_model.specs.Names as names;

fn is_name_byte(byte: u8) -> bool
    ensures { result ≡ names.is_name_byte byte }
{
    byte.is_ascii_lowercase() || byte.is_ascii_digit() || byte == b'_'
}

fn are_name_bytes(text: &[u8]) -> bool
    ensures { result ≡ list_all names.is_name_byte text.now }
{
    text.iter().all(|byte| is_name_byte(*byte))
}

/// Whether a text is a name: 1 to 32 of the characters a to z, 0 to 9 and `_`.
pub fn is_name(text: &[u8]) -> bool
    ensures { result ≡ names.is_name text.now }
{
    1 <= text.len() && text.len() <= 32 && are_name_bytes(text)
}
