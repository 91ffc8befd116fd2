//! The names of a tenant's files.

ghost use Rattle.std.specs.Prelude.{◌≡◌, IfOk, string_bytes};
ghost use Rattle.chain_spec.specs.ChainSet as spec;

use brick_base::NoMemory;
use std::alloc::Global;

/// The name of an output's file, `OUT/NAME.OUTPUT.pcap`.
pub fn output_file(alloc: Global, out: &str, name: &str, output: &str) -> Result<String, NoMemory>
    ensures { IfOk result (λ file. string_bytes file ≡ spec.output_file out.now name.now output.now) }
{
    let file = format!(in alloc; "{out}/{name}.{output}.pcap")?;
    Ok(file)
}

/// The name of the file of the refused records, `OUT/NAME.refused`.
pub fn refused_file(alloc: Global, out: &str, name: &str) -> Result<String, NoMemory>
    ensures { IfOk result (λ file. string_bytes file ≡ spec.refused_file out.now name.now) }
{
    let file = format!(in alloc; "{out}/{name}.refused")?;
    Ok(file)
}
