use pcap_io::Items;

/// What a tenant's work gives.
#[derive(Debug, Drop)]
pub struct WorkResult {
    /// The items of each leaf group, in the order of their keys.
    pub groups: Vec<Items>,
    /// How many packets were dropped, in the order of the reasons, each up to 4,294,967,295.
    pub drops: [u32; 9],
}
