//! The two files of a generated run: their names, and the text of the chain file.

ghost use Rattle.std.specs.Prelude.{◌≡◌, IfOk, string_bytes};
ghost use Rattle.run_spec.specs.Generated as spec;

use brick_base::NoMemory;
use std::alloc::Global;

/// What stands in front of the capture's name.
const FRONT: &str = "version = 1\n[[tenant]]\nname = \"gen\"\ncapture = \"";

/// What stands behind it.
const BACK: &str =
    "\"\nstages = [{ stage = \"ttl\" }]\n[[tenant.group]]\nname = \"web\"\nmatch = { proto = \"tcp\", port = 80 }\nstages = [{ stage = \"window\", size = 512 }]\n[[tenant.group]]\nname = \"rest\"\n";

/// The name of the generated capture in the folder `out`.
pub fn capture_name(alloc: Global, out: &str) -> Result<String, NoMemory>
    ensures { IfOk result (λ s. string_bytes s ≡ spec.capture_name out.now) }
{
    let mut name = String::from_str(alloc, out)?;
    name.push_str("/gen.pcap")?;
    Ok(name)
}

/// The name of its chain file.
pub fn chains_name(alloc: Global, out: &str) -> Result<String, NoMemory>
    ensures { IfOk result (λ s. string_bytes s ≡ spec.chains_name out.now) }
{
    let mut name = String::from_str(alloc, out)?;
    name.push_str("/gen.toml")?;
    Ok(name)
}

/// The chain file of the generated capture in the folder `out`: one tenant, whose TCP records to port 80 are put into
/// windows.
pub fn generated_chain_file(alloc: Global, out: &str) -> Result<String, NoMemory>
    ensures { IfOk result (λ s. string_bytes s ≡ spec.generated_chains out.now) }
{
    let capture = capture_name(alloc, out)?;
    let mut text = String::from_str(alloc, FRONT)?;
    text.push_str(capture.as_str())?;
    text.push_str(BACK)?;
    Ok(text)
}
