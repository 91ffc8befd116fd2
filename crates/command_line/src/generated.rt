//! The number and the folder of mode `gen`.

ghost use Rattle.std.specs.Prelude.{◌≡◌, ◌≤◌, ◌^◌, ◌-◌, IfSome};
ghost use Rattle.std.specs.List.{list_all};
ghost use Rattle.brick_spec.specs.Decimal.{with_digit as digit_meant};
ghost use Rattle.words_spec.specs.AcceptedWords as spec;

/// The number with one more digit, where the character is one and the number is below 2^64.
fn with_digit(number: u64, character: u8) -> Option<u64>
    ensures { result ≡ digit_meant (2 ^ 64 - 1) number character }
{
    if character < b'0' || character > b'9' {
        return None;
    }
    let tens = number.checked_mul(10)?;
    tens.checked_add((character - b'0') as u64)
}

/// The number that a generated capture is made of: 1 to 20 digits, zeros in front too, below 2^64.
pub(crate) fn generated_number(text: &str) -> Option<u64>
    ensures { result ≡ spec.generated_number text.now }
{
    let bytes = text.as_bytes();
    if bytes.is_empty() || bytes.len() > 20 {
        return None;
    }
    let mut number: u64 = 0;
    for character in bytes {
        number = with_digit(number, *character)?;
    }
    Some(number)
}

/// Whether the character may stand in a plain folder.
fn is_path_byte(byte: u8) -> bool
    ensures { result ≡ spec.is_path_byte byte }
{
    matches!(byte, b'a'..=b'z' | b'A'..=b'Z' | b'0'..=b'9' | b'_' | b'.' | b'/' | b'-')
}

fn are_path_bytes(bytes: &[u8]) -> bool
    ensures { result ≡ list_all spec.is_path_byte bytes.now }
{
    bytes.iter().all(|b| is_path_byte(*b))
}

/// Whether the folder is plain: 1 to 200 characters of `A-Z a-z 0-9 _ . / -`.
pub(crate) fn is_plain_folder(out: &str) -> bool
    ensures { result ≡ spec.is_plain_folder out.now }
{
    1 <= out.len() && out.len() <= 200 && are_path_bytes(out.as_bytes())
}
