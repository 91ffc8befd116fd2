//! Words of 16 bits in a header, the high byte first, and the edit of a word under a checksum.

ghost use Rattle.std.specs.Prelude.{◌≡◌, ℕ, ◌+◌, ◌≤◌, length};
ghost use Rattle.brick_spec.specs.Header.{word_at, with_word};
ghost use Rattle.brick_spec.specs.Edit.{word_edited};

use brick_base::adjust;
use byteorder::{BigEndian, ByteOrder};

/// The word at a place.
pub fn read_word(header: &[u8], at: usize) -> u16
    requires { at + 2 ≤ length header.now }
    ensures { result ≡ word_at header.now at }
{
    BigEndian::read_u16(&header[at..])
}

/// Sets the word at a place.
pub fn write_word(header: &mut [u8], at: usize, word: u16)
    requires { at + 2 ≤ length header.old }
    ensures { header.new ≡ with_word header.old at word }
{
    BigEndian::write_u16(&mut header[at..], word);
}

/// Sets the word at a place, and adjusts the checksum, which is the word at `sum`, for that (RFC 1624, equation 3). The
/// old checksum need not be right.
pub fn edit_word(header: &mut [u8], sum: usize, at: usize, word: u16)
    requires checksum { sum + 2 ≤ length header.old }
    requires within { at + 2 ≤ length header.old }
    ensures { header.new ≡ word_edited sum header.old at word }
{
    let old = read_word(header, at);
    let checksum = read_word(header, sum);
    write_word(header, at, word);
    write_word(header, sum, adjust(checksum, old, word));
}
