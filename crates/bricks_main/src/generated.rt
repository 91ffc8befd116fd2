//! Mode `gen`: a capture and a chain file are made of a number, written, and run without lanes. Nothing is read from
//! the store.
ghost use Rattle.std.specs.Prelude.{◌≡◌, ◌≢◌, ℕ, List, IsTrue};
ghost use Rattle.brick_spec.specs.Cause.{writing_account};
ghost use Rattle.words_spec.specs.AcceptedWords.{is_plain_folder};
ghost use Rattle.chain_types.specs.View.{chain_view};
ghost use Rattle.run_spec.specs.Generator.{GeneratorPromises};
ghost use Rattle.run_spec.specs.Seen.{Captured, held, seen};
ghost use Rattle.bricks_main.specs.OneTenant.{OneRan};

use crate::inline::run_tenant;
use crate::run::tell;
use brick_base::{Name, NoMemory};
use generated_files::{Generated, write_generated};
use run_report::{Line, Outcome};
use std::alloc::Global;
use store_io::{IoFault, Sink, Store};
use tenant_files::TenantInput;

/// Makes and writes the one tenant. There is a line of it.
fn run_one<S: Store>(
    alloc: Global,
    store: &mut S,
    generated: Generated,
    out: &str,
) -> Result<Vec<Line>, NoMemory>
    ensures ran { (IsTrue S.tells → Captured (S.file store.old) (chain_view generated.chain).capture generated.capture)
        → OneRan (IsTrue S.tells) out.now (chain_view generated.chain) (held (S.file store.old) (S.faults store.old))
        (held (S.file store.new) (S.faults store.new)) result }
    ensures others { (a : ℕ) (n : List ℕ) → a ≢ writing_account 0 → S.faults store.new a n ≡ S.faults store.old a n }
{
    let Generated { chain, capture } = generated;
    let name = Name::new(alloc, chain.name.as_str())?;
    let input = TenantInput::Whole(capture);
    let end = run_tenant(alloc, store, 0, &chain, &input, out)?;
    let mut lines = Vec::new(alloc);
    lines.push(Line { name, end })?;
    Ok(lines)
}

/// Makes the capture of the number and its chain file, writes them into the folder `out_dir`, runs the chain file's one
/// tenant, writes its files, and gives the report to `out`. The answer is the exit status.
pub fn run_gen<S: Store, P: Sink>(
    alloc: Global,
    number: u64,
    out_dir: &str,
    store: &mut S,
    out: &mut P,
) -> u8
    requires plain { IsTrue (is_plain_folder out_dir.now) }
    ensures { GeneratorPromises (IsTrue S.tells) (IsTrue P.tells) number out_dir.now
        (seen (S.file store.old) (S.faults store.old) (P.written out.old) (P.faults out.old))
        (seen (S.file store.new) (S.faults store.new) (P.written out.new) (P.faults out.new)) result }
{
    let generated = match write_generated(alloc, store, number, out_dir) {
        Ok(generated) => generated,
        Err(IoFault::Failed) => return tell(alloc, out, &Outcome::StoreFault),
        Err(IoFault::NoMemory) => return tell(alloc, out, &Outcome::NoMemory),
    };
    match run_one(alloc, store, generated, out_dir) {
        Ok(lines) => tell(alloc, out, &Outcome::Reported(lines)),
        Err(NoMemory) => tell(alloc, out, &Outcome::NoMemory),
    }
}
