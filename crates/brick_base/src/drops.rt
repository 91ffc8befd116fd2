//! Why a packet is dropped.

/// Why a packet is dropped, in the order of the report.
#[derive(Clone, Copy, Debug, PartialEq, Eq)]
pub enum Reason {
    /// It is longer than the tenant's frames may be.
    Big,
    /// It has no IPv4 layer, and the tenant drops such frames.
    Unparsed,
    /// A rule of the firewall denies it.
    Fire,
    /// No route leads to its destination.
    NoRoute,
    /// Its time to live is used up.
    Ttl,
    /// There is no port for its flow.
    NatFull,
    /// A filter does not keep it.
    Filter,
    /// It belongs to no group.
    NoGroup,
    /// Its bytes end too far ahead of what is ready of its stream.
    Reach,
}
