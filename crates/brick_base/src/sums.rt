//! The Internet checksum.

ghost use Rattle.std.specs.Prelude.{◌≡◌, ◌+◌, ◌*◌, ◌<◌, ◌≤◌, ◌^◌, length};
ghost use Rattle.brick_spec.specs.Checksum.{folded, sum_of_words, checksum_of, adjusted};

/// The sum of two words, its carry added at the low end.
#[tactic(auto, using(brick_spec::proofs::Checksums::folded_small, brick_spec::proofs::Checksums::folded_carry))]
fn add_words(a: u16, b: u16) -> u16
    ensures { result ≡ folded (a + b) }
{
    let sum = a as u32 + b as u32;
    if sum > 65535 {
        (sum - 65535) as u16
    } else {
        sum as u16
    }
}

/// The sum folded to one word, each carry added at the low end (RFC 1071, section 1). A carry is worth 65,536, which
/// is one more than 65,535: so this is a remainder, and 0 only where the sum is 0.
#[tactic(auto, using(crate::proofs::WordSums::folded_above))]
fn fold(sum: u128) -> u16
    ensures { result ≡ folded sum }
{
    if sum == 0 {
        0
    } else {
        ((sum - 1) % 65535 + 1) as u16
    }
}

/// The sum of the words of at most one byte, which is the high half of its word, with the bytes of each word
/// exchanged.
fn sum_under_two(bytes: &[u8]) -> u64
    requires { length bytes.now < 2 }
    ensures sum { folded (result * 256) ≡ folded (sum_of_words bytes.now) }
    ensures small { result < 256 }
{
    match bytes.first() {
        Some(byte) => *byte as u64,
        None => 0,
    }
}

/// The same for at most three bytes.
fn sum_under_four(bytes: &[u8]) -> u64
    requires { length bytes.now < 4 }
    ensures sum { folded (result * 256) ≡ folded (sum_of_words bytes.now) }
    ensures small { result < 65536 + 256 }
{
    match bytes.split_first_chunk::<2>() {
        Some((two, rest)) => u16::from_le_bytes(*two) as u64 + sum_under_two(rest),
        None => sum_under_two(bytes),
    }
}

/// The same for at most seven bytes.
fn sum_under_eight(bytes: &[u8]) -> u64
    requires { length bytes.now < 8 }
    ensures { folded (result * 256) ≡ folded (sum_of_words bytes.now) }
{
    match bytes.split_first_chunk::<4>() {
        Some((four, rest)) => u32::from_le_bytes(*four) as u64 + sum_under_four(rest),
        None => sum_under_four(bytes),
    }
}

/// The sum with the first eight bytes added, and the bytes behind them.
fn add_eight(sum: u128, bytes: &[u8]) -> (u128, &[u8])
    requires long { 8 ≤ length bytes.now }
    requires room { sum < 2 ^ 126 }
    ensures summed { folded (result.0 * 256 + sum_of_words result.1.now)
        ≡ folded (sum * 256 + sum_of_words bytes.now) }
    ensures most { result.0 ≤ sum + 18446744073709551616 }
    ensures behind { length result.1.now + 8 ≡ length bytes.now }
{
    match bytes.split_first_chunk::<8>() {
        Some((eight, rest)) => (sum + u64::from_le_bytes(*eight) as u128, rest),
        None => unreachable!(),
    }
}

/// The sum with the first 32 bytes added, and the bytes behind them.
fn add_block(sum: u128, bytes: &[u8]) -> (u128, &[u8])
    requires long { 32 ≤ length bytes.now }
    requires room { sum < 2 ^ 125 }
    ensures summed { folded (result.0 * 256 + sum_of_words result.1.now)
        ≡ folded (sum * 256 + sum_of_words bytes.now) }
    ensures most { result.0 ≤ sum + 73786976294838206464 }
    ensures behind { length result.1.now + 32 ≡ length bytes.now }
{
    let (sum, rest) = add_eight(sum, bytes);
    let (sum, rest) = add_eight(sum, rest);
    let (sum, rest) = add_eight(sum, rest);
    add_eight(sum, rest)
}

/// The Internet checksum (RFC 1071, section 1) of the bytes: words are big-endian, and an odd last byte is the high
/// half of one.
///
/// It adds eight bytes at a time, four times in a turn of the loop, and folds once, at the end: a sum of longer words
/// folds to the same (RFC 1071, section 2 (C)). They are added as little-endian numbers, so the bytes of the folded
/// sum are exchanged (section 2 (B)). The wide sum has room for any slice.
pub fn checksum(bytes: &[u8]) -> u16
    ensures { result ≡ checksum_of bytes.now }
{
    let mut sum = 0u128;
    let mut left = bytes;
    'wide: while left.len() >= 32 {
        let (more, rest) = add_block(sum, left);
        sum = more;
        left = rest;
    }
    'eights: while let Some((eight, rest)) = left.split_first_chunk::<8>() {
        sum += u64::from_le_bytes(*eight) as u128;
        left = rest;
    }
    65535 - fold(sum + sum_under_eight(left) as u128).swap_bytes()
}

/// The checksum after one word under it has changed from `old` to `new` (RFC 1624, equation 3).
#[tactic(auto, using(brick_spec::proofs::Checksums::folded_again))]
pub fn adjust(ck: u16, old: u16, new: u16) -> u16
    ensures { result ≡ adjusted ck old new }
{
    65535 - add_words(add_words(65535 - ck, 65535 - old), new)
}
