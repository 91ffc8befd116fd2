ghost use Rattle.std.specs.Prelude.{◌≡◌};
ghost use Rattle.pcap_io.specs.declared.fault.CaptureFault.TheVariants.{NoMemory};

use std::alloc::{AllocError, AllocFailed};
use thiserror::Error;

/// Why bytes are not read as a capture: the first check that fails, in the order of the variants and then of the
/// records.
#[derive(Clone, Copy, Debug, PartialEq, Eq, Error)]
pub enum CaptureFault {
    /// There are fewer than 24 bytes: how many.
    #[error("the header of a capture has 24 bytes, and there are {len}")]
    ShortHeader { len: u32 },
    /// The first four bytes are no magic number in either byte order: their number, the highest byte first.
    #[error("{word:#010x} is no magic number of a capture")]
    Magic { word: u32 },
    /// The version is not 2.4.
    #[error("the version is {major}.{minor} and not 2.4")]
    Version { major: u16, minor: u16 },
    /// The link type is not 1 (Ethernet).
    #[error("the link type is {word} and not 1, which is Ethernet")]
    Link { word: u32 },
    /// The bytes end within a record: its number, counted from 0, and the place of its first byte.
    #[error("the bytes end within record {number}, which begins at byte {at}")]
    CutRecord { number: u32, at: u32 },
    /// A record has more than 262,144 captured bytes: its number, counted from 0, and its captured length.
    #[error("record {number} has {len} captured bytes, which is more than 262144")]
    LongRecord { number: u32, len: u32 },
    /// Memory ran out.
    #[error("out of memory")]
    NoMemory,
}

impl From<AllocError> for CaptureFault {
    ghost from_gives = { λ _ e. e ≡ NoMemory };

    fn from(_error: AllocError) -> CaptureFault {
        CaptureFault::NoMemory
    }
}

impl<T: Drop> From<AllocFailed<T>> for CaptureFault {
    ghost from_gives = { λ _ e. e ≡ NoMemory };

    fn from(_failed: AllocFailed<T>) -> CaptureFault {
        CaptureFault::NoMemory
    }
}
