//! Decimal numbers in a text.

ghost use Rattle.std.specs.Prelude.{◌≡◌, ◌≤◌, IfSome};
ghost use Rattle.brick_spec.specs.Decimal as spec;

/// The number with one more digit, where the character is one and the number is at most `most`.
fn with_digit(most: u64, number: u64, character: u8) -> Option<u64>
    ensures value { result ≡ spec.with_digit most number character }
    ensures bound { IfSome result (λ n. n ≤ most) }
{
    if character < b'0' || character > b'9' {
        return None;
    }
    let tens = number.checked_mul(10)?;
    let longer = tens.checked_add((character - b'0') as u64)?;
    if longer <= most { Some(longer) } else { None }
}

/// Whether more digits stand behind a zero.
fn has_leading_zero(bytes: &[u8]) -> bool
    ensures { result ≡ spec.has_leading_zero bytes.now }
{
    bytes.len() > 1 && bytes[0] == b'0'
}

/// The number that decimal digits spell, without sign or leading zero, where it is at most `most`.
#[tactic(auto, unfolding(brick_spec::specs::Decimal::number_of))]
pub fn number_of(most: u64, text: &str) -> Option<u64>
    ensures value { result ≡ spec.number_of most text.now }
    ensures bound { IfSome result (λ n. n ≤ most) }
{
    let bytes = text.as_bytes();
    if bytes.is_empty() || has_leading_zero(bytes) {
        return None;
    }
    let mut number: u64 = 0;
    for character in bytes {
        number = with_digit(most, number, *character)?;
    }
    Some(number)
}
