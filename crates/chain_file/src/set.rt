//! The chains of a chain file.

ghost use Rattle.std.specs.Prelude.{◌≡◌, ◌<◌, ◌≤◌, ◌∷◌, IfOk, IsTrue, Some, None, length, map};
ghost use Rattle.std.specs.List.{slice_get};
ghost use Rattle.chain_spec.specs.ChainSet.{are_distinct, run_files};
ghost use Rattle.chain_spec.specs.ChainWalk as spec;
ghost use Rattle.chain_text.specs.Gives.{Gives};
ghost use Rattle.chain_types.specs.View.{chain_view};
ghost use Rattle.chain_file.specs.View.{chain_names, chain_captures};

use crate::collisions::apart;
use crate::tenants::top;
use chain_text::{ChainFault, table_of};
use chain_types::Chain;
use std::alloc::Global;
use std::marker::Model;

/// The chains of an accepted chain file: 1 to 16, one for each tenant. Contracts see the list of them.
#[derive(Debug, Drop)]
pub struct ChainSet {
    chains: Vec<Chain>,
}

impl Model for ChainSet {
    ghost use Rattle.std.specs.Prelude.{◌≤◌, List, length, IsTrue};
    ghost use Rattle.chain_spec.specs.ChainSet.{are_distinct};
    ghost use Rattle.chain_file.specs.View.{chain_names};
    ghost use Rattle.chain_types.specs.declared.chain.Chain.{Chain};

    ghost Value = { List Chain };

    ghost view = { λ set. set.chains.items };

    ghost invariant = { λ set. (1 ≤ length set.chains.items) × (length set.chains.items ≤ 16)
        × IsTrue (are_distinct (chain_names set.chains.items)) };
}

impl ChainSet {
    /// The chains that the bytes of the chain file `own` give for the folder `out`, or the first fault. The bytes are
    /// at most 1,048,576.
    #[tactic(auto, unfolding(chain_spec::specs::ChainWalk::read_chains))]
    pub fn read(alloc: Global, bytes: &[u8], own: &str, out: &str) -> Result<ChainSet, ChainFault>
        ensures value { Gives (map chain_view) result (spec.read_chains own.now out.now bytes.now) }
        ensures most { IfOk result (λ set. length set ≤ spec.most_tenants) }
        ensures distinct { IfOk result (λ set. IsTrue (are_distinct (chain_names set))) }
        ensures apart { IfOk result (λ set. spec.first_taken (own.now
            ∷ chain_captures set) (run_files out.now (map chain_view set)) ≡ None) }
    {
        let table = table_of(alloc, bytes)?;
        let chains = top(alloc, &table)?;
        apart(alloc, own, out, &chains)?;
        Ok(ChainSet { chains })
    }

    /// How many tenants there are, 1 to 16.
    pub fn tenants(&self) -> u32
        ensures count { result ≡ length self.now }
        ensures some { (1 ≤ result) × (result ≤ 16) }
    {
        self.chains.len() as u32
    }

    /// The chain of a tenant.
    pub fn chain(&self, tenant: u32) -> &Chain
        requires { tenant < length self.now }
        ensures { slice_get self.now tenant ≡ Some result.now }
    {
        &self.chains[tenant as usize]
    }

    /// The chains in their order. Takes no memory.
    pub fn into_chains(self) -> Vec<Chain>
        ensures same { result.items ≡ self }
        ensures distinct { IsTrue (are_distinct (chain_names self)) }
    {
        self.chains
    }
}
