//! Stages.

use brick_base::Name;
use lpm_fw::{Routes, Rule, Verdict};
use std::sync::Arc;
use tcp_udp::Match;

/// A server that gets flows.
#[derive(Debug, Drop)]
pub struct Backend {
    /// The name, on which its places in the table hang: 1 to 32 characters.
    pub name: Name,
    /// The Ethernet address to which its frames go.
    pub mac: [u8; 6],
}

/// Other backends, for the flows that are opened from a record on.
#[derive(Debug, Drop)]
pub struct Change {
    /// The number of that record, counted from 0.
    pub from: u32,
    /// 1 to 64, with distinct names.
    pub backends: Vec<Backend>,
}

/// A stage: what is done with an IPv4 frame.
#[derive(Debug, Drop)]
pub enum Stage {
    /// Drops a time to live of 0 or 1, and takes 1 from any other (RFC 791, section 3.1).
    Ttl,
    /// Sets the type of service (RFC 791, section 3.1).
    SetTos {
        value: u8,
    },
    /// Drops what does not meet the match.
    Only {
        wanted: Match,
    },
    /// The first of at most 256 rules that is met decides, and else the default. With `established` the replies of
    /// flows pass whose first direction was allowed.
    Firewall {
        default: Verdict,
        established: bool,
        rules: Vec<Rule>,
    },
    /// Sends a frame by its longest prefix, from the Ethernet address `mac` on: 1 to 4,096 rows without a fault.
    Route {
        mac: [u8; 6],
        routes: Arc<Routes>,
    },
    /// Translates addresses by the tenant's plan.
    Nat,
    /// Sends each flow to one of 1 to 64 backends with distinct names. At most 15 changes, of rising record numbers.
    Balance {
        backends: Vec<Backend>,
        changes: Vec<Change>,
    },
    /// Cuts each stream in windows of `size` bytes, 64 to 1,460. Data may end `reach` bytes behind the first gap, 1,460
    /// to 1,048,576.
    Window {
        size: u32,
        reach: u32,
    },
    /// Stops a flow whose stream has the text, of 1 to 64 bytes. Data may end `reach` bytes behind the first gap, 1,460
    /// to 1,048,576.
    Scan {
        text: Vec<u8>,
        reach: u32,
    },
}
