//! Protocol layers.

ghost use Rattle.std.specs.Prelude.{◌≡◌, ℕ, ◌≤◌, List, length, take, Option, Some};
ghost use Rattle.std.proofs.Common.{rules};
ghost use Rattle.brick_base.specs.Layering.{IsLengthWithin};

/// A protocol layer, which stands in the payload of the layer `Prev`.
pub trait Proto {
    /// The layer in whose payload this one stands.
    type Prev;

    /// How many headers stand before the payload of this layer.
    ghost DEPTH: { ℕ };

    /// The fewest bytes that a header has.
    ghost LEAST: { ℕ };

    /// The header's length, by the header of the layer before and by its payload.
    ghost length_of: { List ℕ → List ℕ → Option ℕ };

    /// Where the payload ends, counted from the header's start, by the header and by how many bytes are there from its
    /// start on.
    ghost extent_of: { List ℕ → ℕ → ℕ };

    /// How many headers stand before the payload of this layer, at most 8.
    const DEPTH: usize;

    /// The fewest bytes that a header has.
    const LEAST: usize;

    /// The header's length in bytes, where the layer is there. `outer` is the header of the layer before and `rest` its
    /// payload.
    fn length(outer: &[u8], rest: &[u8]) -> Option<usize>
        ensures { result ≡ length_of outer.now rest.now };

    /// Where the payload ends, counted from the header's start, where `room` bytes are there from its start on.
    fn extent(header: &[u8], room: usize) -> usize
        requires { length header.now ≤ room }
        ensures { result ≡ extent_of header.now room };

    /// A length that is given is at least LEAST and at most what is there.
    ghost length_fits: { (outer rest : List ℕ) → IsLengthWithin LEAST (length_of outer rest) (length rest) };

    /// The same length is given where the payload is cut to it.
    ghost length_of_cut: { (outer rest : List ℕ) (n : ℕ) → length_of outer rest ≡ Some n
        → length_of outer (take n rest) ≡ Some n };

    /// The payload ends behind the header and within what is there.
    ghost extent_fits: { (header : List ℕ) (room : ℕ) → length header ≤ room
        → (length header ≤ extent_of header room) × (extent_of header room ≤ room) };

    /// Layers stand at most eight deep.
    ghost depth_fits: { DEPTH ≤ 8 };
}

/// A frame of which no layer was read: its header is empty, and its payload is the frame.
#[derive(Clone, Copy, Debug, PartialEq, Eq)]
pub struct Raw;

impl Proto for Raw {
    type Prev = Raw;

    ghost DEPTH = { 0 };

    ghost LEAST = { 0 };

    ghost length_of = { λ _ _. Some 0 };

    ghost extent_of = { λ _ room. room };

    const DEPTH: usize = 0;

    const LEAST: usize = 0;

    fn length(_outer: &[u8], _rest: &[u8]) -> Option<usize> {
        Some(0)
    }

    fn extent(_header: &[u8], room: usize) -> usize {
        room
    }

    ghost length_fits = { λ _ _. Prim.search rules };

    ghost length_of_cut = { λ _ _ _ given. given };

    ghost extent_fits = { λ _ _ fits. (fits, Prim.search rules) };

    ghost depth_fits = { Prim.search rules };
}
