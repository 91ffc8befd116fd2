ghost use Rattle.work_core.specs.Jobs.{AreClasses};

use brick_base::{Class, Numbers};
use chain_types::Chain;
use pcap_io::{Capture, Items};

/// A tenant's chain, its capture, and the class of each record.
#[derive(Debug, Drop)]
pub struct TenantJob {
    pub capture: Capture,
    pub chain: Chain,
    /// One for each record, Big ones too.
    pub classes: Vec<Class>,
    pub ghost classed: { AreClasses chain capture classes.items },
}

/// What became of a tenant's records.
#[derive(Debug, Drop)]
pub struct TenantDone {
    /// How many records were accepted.
    pub accepted: u32,
    /// The numbers of the records that were refused, rising.
    pub refused: Numbers,
    /// The items of each output, in the order of their keys.
    pub outputs: Vec<Items>,
    /// How many items were dropped, in the order of the reasons.
    pub drops: [u32; 9],
}
