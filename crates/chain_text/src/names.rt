//! Names.

ghost use Rattle.std.specs.Prelude.{◌≡◌};
ghost use Rattle.std.specs.List.{list_all};
ghost use Rattle.brick_spec.specs.Name as spec;

fn is_name_byte(byte: u8) -> bool
    ensures { result ≡ spec.is_name_byte byte }
{
    matches!(byte, b'a'..=b'z' | b'0'..=b'9' | b'_' | b'-')
}

fn all_in_names(bytes: &[u8]) -> bool
    ensures { result ≡ list_all spec.is_name_byte bytes.now }
{
    bytes.iter().all(|b| is_name_byte(*b))
}

/// Whether the text is a name of a tenant, a group or a backend.
pub fn is_name(text: &str) -> bool
    ensures { result ≡ spec.is_name text.now }
{
    1 <= text.len() && text.len() <= 32 && all_in_names(text.as_bytes())
}
