//! The two files as they are made, and the chain that one of them says.

ghost use Rattle.std.specs.Prelude.{◌≡◌, IfOk, IsTrue, string_bytes};
ghost use Rattle.brick_spec.specs.Capture.{IsReadable};
ghost use Rattle.words_spec.specs.AcceptedWords.{is_plain_folder};
ghost use Rattle.run_spec.specs.Generated as spec;
ghost use Rattle.chain_types.specs.View.{chain_view};
ghost use Rattle.capture_gen.specs.Accepted.{generated_chain};
ghost use Rattle.capture_gen.specs.Contents.{generated_contents};

use brick_base::NoMemory;
use capture_gen::{capture_name, chains_name, generate, generated_chain_file};
use chain_file::{Chain, ChainSet};
use std::alloc::Global;

/// How many records the capture has.
const RECORDS: u32 = 20_000;

/// The two files, and the chain that the chain file says.
#[derive(Drop)]
pub(crate) struct MadeFiles {
    pub(crate) capture_name: String,
    pub(crate) capture: Vec<u8>,
    pub(crate) chains_name: String,
    pub(crate) chains: String,
    pub(crate) chain: Chain,
}

/// The one chain of the chain file. It is accepted for a plain folder, so a refusal is want of memory.
fn read_chain(alloc: Global, text: &str, own: &str, out: &str) -> Result<Chain, NoMemory>
    requires plain { IsTrue (is_plain_folder out.now) }
    requires text { text.now ≡ spec.generated_chains out.now }
    requires own { own.now ≡ spec.chains_name out.now }
    ensures { IfOk result (λ c. chain_view c ≡ generated_chain out.now) }
{
    let Ok(set) = ChainSet::read(alloc, text.as_bytes(), own, out) else {
        return Err(NoMemory);
    };
    let mut chains = set.into_chains();
    match chains.pop() {
        Some(chain) => Ok(chain),
        None => unreachable!(),
    }
}

/// Makes the two files for a plain folder.
pub(crate) fn make_files(alloc: Global, number: u64, out: &str) -> Result<MadeFiles, NoMemory>
    requires { IsTrue (is_plain_folder out.now) }
    ensures capture_name { IfOk result (λ f. string_bytes f.capture_name ≡ spec.capture_name out.now) }
    ensures capture { IfOk result (λ f. f.capture.items ≡ spec.generated_capture number 20000) }
    ensures readable { IfOk result (λ f. IsReadable f.capture.items (generated_contents number 20000)) }
    ensures chains_name { IfOk result (λ f. string_bytes f.chains_name ≡ spec.chains_name out.now) }
    ensures chains { IfOk result (λ f. string_bytes f.chains ≡ spec.generated_chains out.now) }
    ensures chain { IfOk result (λ f. chain_view f.chain ≡ generated_chain out.now) }
{
    let capture_name = capture_name(alloc, out)?;
    let capture = generate(alloc, number, RECORDS)?;
    let chains_name = chains_name(alloc, out)?;
    let chains = generated_chain_file(alloc, out)?;
    let chain = read_chain(alloc, chains.as_str(), chains_name.as_str(), out)?;
    Ok(MadeFiles {
        capture_name,
        capture,
        chains_name,
        chains,
        chain,
    })
}
