//! Which flow a record belongs to.

/// The direction of a record in its flow.
#[derive(Clone, Copy, Debug, PartialEq, Eq)]
pub enum Dir {
    /// As the flow's first record.
    Forward,
    /// The other way.
    Reversed,
}

/// The two ends of a record. Addresses are in network order as numbers, and a port is 0 where the frame has none.
#[derive(Clone, Copy, Debug, PartialEq, Eq)]
pub struct Ends {
    /// The source address.
    pub src: u32,
    /// The destination address.
    pub dst: u32,
    /// The source port.
    pub sport: u16,
    /// The destination port.
    pub dport: u16,
}

/// What a record was classified as.
#[derive(Clone, Copy, Debug, PartialEq, Eq)]
pub struct Class {
    /// The number of its flow, from 0.
    pub flow: u32,
    /// The number of the record that opened the flow, from 0 at the head of the capture.
    pub opened: u32,
    /// How many ranked flows of the tenant were opened before this one, where it has a rank.
    pub rank: Option<u32>,
    /// The hash of the flow's key.
    pub hash: u64,
    /// The ends of the flow's first record, all 0 for frames without an IPv4 layer.
    pub first: Ends,
    /// Its direction in the flow.
    pub dir: Dir,
    /// The flow is that of all frames without an IPv4 layer.
    pub other: bool,
}
