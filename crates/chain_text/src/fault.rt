//! Why a chain file is refused.

ghost use Rattle.std.specs.Prelude.{◌≡◌};
ghost use Rattle.chain_spec.specs.ChainFault as spec;
ghost use Rattle.chain_text.specs.Gives.{Is};
ghost use Rattle.chain_text.specs.declared.fault.ChainFault.TheVariants.{NoMemory as OutOfMemory};

use brick_base::{Name, NoMemory};
use lpm_fw::RouteFault;
use std::alloc::{AllocError, AllocFailed, Global};
use thiserror::Error;

/// The first fault of a chain file. The place is 0 in the top table, and t + 1 within tenant t, counted from 0.
#[derive(Debug, Drop, Error)]
pub enum ChainFault {
    /// It is no text, or `toml` refuses the text.
    #[error("the chain file is no TOML")]
    NotToml,
    /// A key that has to be there is not.
    #[error("at place {place} the key `{key}` is missing")]
    Missing { place: u32, key: Name },
    /// The least key by bytes that its table does not have.
    #[error("at place {place} the key `{key}` is unknown")]
    Unknown { place: u32, key: Name },
    /// A value of the wrong kind, or outside what may stand there.
    #[error("at place {place} the value of `{key}` is none that may stand there")]
    Range { place: u32, key: Name },
    /// A text that is no name, or a name that stands twice in its array.
    #[error("at place {place} a text is no name, or stands twice")]
    Name { place: u32 },
    /// A second `window` on a path: in a tenant's stages, a group's, and those of a group in it.
    #[error("at place {place} a second window stands on a path")]
    SecondWindow { place: u32 },
    /// What is wrong with the rows of a stage `route`.
    #[error("at place {place} the routes are refused: {fault}")]
    Route { place: u32, fault: RouteFault },
    /// How many tenants there are, where these are too many.
    #[error("{count} tenants are more than 16")]
    TooManyTenants { count: u32 },
    /// A file of the run has the name of the chain file or of a capture.
    #[error("a file of the run would be `{name}`, which is read")]
    Collides { name: Name },
    /// More bytes than are read.
    #[error("the chain file has more than 1048576 bytes")]
    TooLong,
    /// Memory ran out.
    #[error("out of memory")]
    NoMemory,
}

impl From<NoMemory> for ChainFault {
    ghost from_gives = { λ _ e. e ≡ OutOfMemory };

    fn from(_error: NoMemory) -> ChainFault {
        ChainFault::NoMemory
    }
}

impl From<AllocError> for ChainFault {
    ghost from_gives = { λ _ e. e ≡ OutOfMemory };

    fn from(_error: AllocError) -> ChainFault {
        ChainFault::NoMemory
    }
}

/// The value that was to be stored is dropped.
impl<T: Drop> From<AllocFailed<T>> for ChainFault {
    ghost from_gives = { λ _ e. e ≡ OutOfMemory };

    fn from(_error: AllocFailed<T>) -> ChainFault {
        ChainFault::NoMemory
    }
}

/// The key is missing at this place.
pub fn missing(alloc: Global, place: u32, key: &str) -> ChainFault
    ensures { Is (spec.Missing place key.now) result }
{
    match Name::new(alloc, key) {
        Ok(key) => ChainFault::Missing { place, key },
        Err(_) => ChainFault::NoMemory,
    }
}

/// The key is unknown at this place.
pub fn unknown(alloc: Global, place: u32, key: &str) -> ChainFault
    ensures { Is (spec.Unknown place key.now) result }
{
    match Name::new(alloc, key) {
        Ok(key) => ChainFault::Unknown { place, key },
        Err(_) => ChainFault::NoMemory,
    }
}

/// The key's value is out of range at this place.
pub fn range(alloc: Global, place: u32, key: &str) -> ChainFault
    ensures { Is (spec.Range place key.now) result }
{
    match Name::new(alloc, key) {
        Ok(key) => ChainFault::Range { place, key },
        Err(_) => ChainFault::NoMemory,
    }
}
