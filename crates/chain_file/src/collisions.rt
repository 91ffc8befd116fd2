//! Files of a run that have the name of the chain file or of a capture.

ghost use Rattle.std.specs.Prelude.{◌≡◌, ◌∷◌, IfOk, None, OnOk, map};
ghost use Rattle.chain_spec.specs.ChainSet.{is_among, file_names, run_files};
ghost use Rattle.chain_spec.specs.ChainWalk as spec;
ghost use Rattle.chain_text.specs.Gives.{Gives};
ghost use Rattle.chain_types.specs.View.{chain_view};
ghost use Rattle.chain_file.specs.View.{chain_captures};

use crate::files::{output_file, refused_file};
use brick_base::{Name, NoMemory};
use chain_text::ChainFault;
use chain_types::Chain;
use std::alloc::Global;

fn is_capture(file: &str, chains: &[Chain]) -> bool
    ensures { result ≡ is_among file.now (chain_captures chains.now) }
{
    for chain in chains {
        if chain.capture.as_str() == file {
            return true;
        }
    }
    false
}

/// Whether the file is the chain file or a capture.
fn is_taken(file: &str, own: &str, chains: &[Chain]) -> bool
    ensures { result ≡ is_among file.now (own.now ∷ chain_captures chains.now) }
{
    own == file || is_capture(file, chains)
}

/// The first of a tenant's files that is taken.
fn taken_of(
    alloc: Global,
    own: &str,
    out: &str,
    chains: &[Chain],
    chain: &Chain,
) -> Result<Option<Name>, NoMemory>
    ensures { IfOk result (λ taken. taken
        ≡ spec.first_taken (own.now ∷ chain_captures chains.now) (file_names out.now (chain_view chain.now))) }
{
    for output in &chain.outputs {
        let file = output_file(alloc, out, chain.name.as_str(), output.as_str())?;
        if is_taken(file.as_str(), own, chains) {
            let name = Name::new(alloc, file.as_str())?;
            return Ok(Some(name));
        }
    }
    let file = refused_file(alloc, out, chain.name.as_str())?;
    if is_taken(file.as_str(), own, chains) {
        let name = Name::new(alloc, file.as_str())?;
        return Ok(Some(name));
    }
    Ok(None)
}

/// The first file of the run that is taken.
fn first_taken(
    alloc: Global,
    own: &str,
    out: &str,
    chains: &[Chain],
) -> Result<Option<Name>, NoMemory>
    ensures { IfOk result (λ taken. taken
        ≡ spec.first_taken (own.now ∷ chain_captures chains.now) (run_files out.now (map chain_view chains.now))) }
{
    for chain in chains {
        let taken = taken_of(alloc, own, out, chains, chain)?;
        if taken.is_some() {
            return Ok(taken);
        }
    }
    Ok(None)
}

/// No file of the run has the name of the chain file `own` or of a capture.
#[tactic(auto, unfolding(chain_spec::specs::ChainWalk::apart))]
pub(crate) fn apart(alloc: Global, own: &str, out: &str, chains: &[Chain]) -> Result<(), ChainFault>
    ensures value { Gives (λ _. tt) result (spec.apart own.now out.now (map chain_view chains.now)) }
    ensures none { OnOk result (spec.first_taken (own.now
        ∷ chain_captures chains.now) (run_files out.now (map chain_view chains.now)) ≡ None) }
{
    match first_taken(alloc, own, out, chains)? {
        Some(name) => Err(ChainFault::Collides { name }),
        None => Ok(()),
    }
}
