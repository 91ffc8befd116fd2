//! A search for a text in bytes that come in pieces.

ghost use Rattle.std.specs.Prelude.{◌≡◌, ◌<◌, ◌≤◌, ◌++◌, length, take};
ghost use Rattle.arrayvec.specs.ArrayVec.{array_vec_len};
ghost use Rattle.stream_scan.specs.LastBytes.{last_bytes};

use arrayvec::ArrayVec;
use memchr::memmem;

/// What is known of the bytes that were searched: how many they are, the last of them, and where the needle first
/// stands.
#[derive(Debug, Drop)]
pub(crate) struct Search {
    pub(crate) needle: ArrayVec<u8, 64>,
    /// One byte less than the needle has, or all where they are fewer.
    pub(crate) tail: ArrayVec<u8, 63>,
    pub(crate) searched: u64,
    pub(crate) found: Option<u64>,
    pub ghost length: { (1 ≤ array_vec_len needle) × (array_vec_len needle ≤ 64) },
    pub ghost kept: { (array_vec_len tail < array_vec_len needle) × (array_vec_len tail ≤ searched) },
}

impl Search {
    ghost use Rattle.std.specs.Prelude.{ℕ, ◌≡◌, ◌+◌, ◌<◌, ◌≤◌, ◌^◌, ◌++◌, [], List, length};
    ghost use Rattle.flow_spec.specs.Scan.{first_occurrence};
    ghost use Rattle.stream_scan.specs.Searched.{Searched};

    /// A search to which no byte came.
    pub(crate) fn new(needle: &[u8]) -> Search
        requires { (1 ≤ length needle.now) × (length needle.now ≤ 64) }
        ensures needle { result.needle.items ≡ needle.now }
        ensures begins { Searched result [] }
    {
        let mut kept = ArrayVec::new();
        let copied = kept.try_extend_from_slice(needle);
        copied.unwrap();
        Search {
            needle: kept,
            tail: ArrayVec::new(),
            searched: 0,
            found: None,
        }
    }

    /// Searches the bytes of a piece, which stands behind those that were searched.
    pub(crate) fn pass(&mut self, piece: &[u8])
        requires { self.old.searched + length piece.now < 2 ^ 64 }
        ensures goes_on { (bytes : List ℕ) → Searched self.old bytes → Searched self.new (bytes ++ piece.now) }
        ensures needle { self.new.needle ≡ self.old.needle }
        ensures searched { self.new.searched ≡ self.old.searched + length piece.now }
    {
        self.found = self.found_in(piece);
        self.tail = last_of(self.needle.len() - 1, self.tail.as_slice(), piece);
        self.searched += piece.len() as u64;
    }

    /// The position at which the needle first stands, in the bytes that were searched or with a piece behind them.
    fn found_in(&self, piece: &[u8]) -> Option<u64>
        requires { self.now.searched + length piece.now < 2 ^ 64 }
        ensures { (bytes : List ℕ) → Searched self.now bytes
            → result ≡ first_occurrence self.now.needle.items (bytes ++ piece.now) }
    {
        if self.found.is_some() {
            return self.found;
        }
        let needle = self.needle.as_slice();
        let seam = seam_of(self.tail.as_slice(), needle.len() - 1, piece);
        if let Some(at) = memmem::find(seam.as_slice(), needle) {
            return Some(self.searched - self.tail.len() as u64 + at as u64);
        }
        match memmem::find(piece, needle) {
            Some(at) => Some(self.searched + at as u64),
            None => None,
        }
    }
}

/// The bytes around the cut between the tail and a piece: the tail, and the first bytes of the piece, at most so many.
fn seam_of(tail: &[u8], most: usize, piece: &[u8]) -> ArrayVec<u8, 126>
    requires { (length tail.now ≤ 63) × (most ≤ 63) }
    ensures { result.items ≡ tail.now ++ take most piece.now }
{
    let mut seam = ArrayVec::new();
    let copied = seam.try_extend_from_slice(tail);
    copied.unwrap();
    let copied = seam.try_extend_from_slice(&piece[..piece.len().min(most)]);
    copied.unwrap();
    seam
}

/// The last bytes of a tail and then a piece, at most so many.
fn last_of(most: usize, tail: &[u8], piece: &[u8]) -> ArrayVec<u8, 63>
    requires { most ≤ 63 }
    ensures { result.items ≡ last_bytes most (tail.now ++ piece.now) }
{
    let of_piece = piece.len().min(most);
    let of_tail = tail.len().min(most - of_piece);
    let mut kept = ArrayVec::new();
    let copied = kept.try_extend_from_slice(&tail[tail.len() - of_tail..]);
    copied.unwrap();
    let copied = kept.try_extend_from_slice(&piece[piece.len() - of_piece..]);
    copied.unwrap();
    kept
}
