//! The flows of which a forward item was allowed.

ghost use Rattle.std.specs.Prelude.{◌≡◌, IfOk, OnOk, OnErr};
ghost use Rattle.std.specs.FinSet as set;

use brick_base::NoMemory;
use std::alloc::Global;
use std::collections::BTreeSet;
use std::marker::Model;

/// The set of the flows of which a forward item was allowed.
#[derive(Debug, Drop)]
pub struct Established {
    flows: BTreeSet<u32>,
}

impl Model for Established {
    ghost use Rattle.std.specs.Ordering.{nat_cmp};
    ghost use Rattle.std.specs.FinSet as set;
    ghost use Rattle.std.specs.Coded.{coded_ℕ};

    ghost Value = { set.FinSet nat_cmp };

    ghost coded = { set.code coded_ℕ };

    ghost view = { λ e. set.from_list e.flows.keys };
}

impl Established {
    /// The empty set.
    pub fn new(alloc: Global) -> Result<Established, NoMemory>
        ensures { IfOk result (λ flows. flows ≡ set.empty) }
    {
        Ok(Established {
            flows: BTreeSet::new(alloc),
        })
    }

    /// Whether the flow of this number is in the set.
    #[tactic(auto, using(crate::proofs::Flows::among))]
    pub fn allowed(&self, flow: u32) -> bool
        ensures { result ≡ set.contains self.now flow }
    {
        self.flows.contains(&flow)
    }

    /// Puts the flow of this number into the set. Without memory the set stays.
    #[tactic(auto, using(crate::proofs::Flows::inserted))]
    pub fn allow(&mut self, flow: u32) -> Result<(), NoMemory>
        ensures ok { OnOk result (self.new ≡ set.insert self.old flow) }
        ensures err { OnErr result (self.new ≡ self.old) }
    {
        self.flows.insert(flow)?;
        Ok(())
    }
}
