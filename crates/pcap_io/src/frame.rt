ghost use Rattle.std.specs.Prelude.{◌≡◌, ◌+◌, ◌≤◌, take, drop, vec_len, IfOk};
ghost use Rattle.std.specs.Arc.{arc_value};

use brick_base::NoMemory;
use std::fmt;
use std::marker::Model;
use std::sync::Arc;

/// Where the bytes of a frame lie.
#[derive(Drop)]
enum Bytes {
    /// In memory of their own.
    Own(Vec<u8>),
    /// In memory that frames share: so many bytes from a place on.
    Shared {
        store: Arc<Vec<u8>>,
        start: usize,
        len: usize,
    },
}

/// The bytes of a frame, in memory of its own or in memory that frames share. Shared memory is given back with the last
/// of its frames.
#[derive(Drop)]
pub struct Frame {
    bytes: Bytes,
}

impl Model for Frame {
    ghost use Rattle.std.specs.Prelude.{List, ℕ};

    ghost Value = { List ℕ };

    ghost use Rattle.pcap_io.specs.Frames.{frame_bytes, IsInStore};

    ghost view = { λ f. frame_bytes f.bytes };

    ghost invariant = { λ f. IsInStore f.bytes };
}

/// The bytes, wherever they lie.
impl fmt::Debug for Frame {
    fn fmt<W: fmt::Write>(&self, f: &mut fmt::Formatter<W>) -> fmt::Result {
        f.debug_struct("Frame")
            .field("bytes", &self.as_slice())
            .finish()
    }
}

impl Frame {
    /// A frame of these bytes. It takes no memory.
    pub fn of(list: Vec<u8>) -> Frame
        ensures { result ≡ list.items }
    {
        Frame {
            bytes: Bytes::Own(list),
        }
    }

    /// A frame of `len` bytes of a store from `start` on, which keeps the store. No byte is copied.
    pub(crate) fn share(store: &Arc<Vec<u8>>, start: usize, len: usize) -> Result<Frame, NoMemory>
        requires { start + len ≤ vec_len (arc_value store.now) }
        ensures { IfOk result (λ f. f ≡ take len (drop start (arc_value store.now).items)) }
    {
        let store = Arc::try_clone(store)?;
        Ok(Frame {
            bytes: Bytes::Shared { store, start, len },
        })
    }

    /// The bytes, lent.
    pub fn as_slice(&self) -> &[u8]
        ensures { result.now ≡ self.now }
    {
        match &self.bytes {
            Bytes::Own(list) => list.as_slice(),
            Bytes::Shared { store, start, len } => &store.as_slice()[*start..*start + *len],
        }
    }
}

/// As `of`.
impl From<Vec<u8>> for Frame {
    ghost from_gives = { λ list frame. frame ≡ list.items };

    fn from(list: Vec<u8>) -> Frame {
        Frame::of(list)
    }
}
