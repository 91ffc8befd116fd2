//! The files of a tenant, and what is counted of it.
ghost use Rattle.std.specs.Prelude.{◌≡◌, ◌≢◌, ◌≤◌, ◌<◌, ◌^◌, ◌++◌, ℕ, List, IfOk, OnOk, IsTrue, codes, decimal, length};
ghost use Rattle.std.specs.Prelude.{map, string_bytes};
ghost use Rattle.brick_spec.specs.Cause as cause;
ghost use Rattle.chain_types.specs.View.{chain_view};
ghost use Rattle.run_spec.specs.Seen.{held};
ghost use Rattle.run_report.specs.View.{output_view, tally_view};
ghost use Rattle.store_files.specs.WholeFiles.{text_view};
ghost use Rattle.tenant_spec.specs.Tenant as spec;
ghost use Rattle.work_core.specs.Made.{IsMade};
ghost use Rattle.tenant_files.specs.Written.{Wrote, output_of, tally_with, text_of, texts_with};
ghost use Rattle.std.specs.List.{zip};

use brick_base::{Name, NoMemory, Numbers};
use chain_file::{Chain, output_file, refused_file};
use pcap_io::{Capture, Items};
use run_report::{Output, Tally, TenantEnd};
use std::alloc::Global;
use store_files::{Content, Text, write_texts};
use store_io::{IoFault, Store};
use work_core::TenantDone;

/// The account that writes for a tenant.
fn writing_account(tenant: u32) -> u32
    requires { tenant < 16 }
    ensures { result ≡ cause.writing_account tenant }
{
    2 + 2 * tenant
}

/// Puts the outputs behind the others, each with how many items it has.
fn push_outputs(
    alloc: Global,
    names: &[Name],
    lists: &[Items],
    outputs: &mut Vec<Output>,
) -> Result<(), NoMemory>
    ensures { OnOk result (map output_view outputs.new.items
        ≡ map output_view outputs.old.items ++ map output_of (zip names.now lists.now)) }
{
    let Some((name, more_names)) = names.split_first() else {
        return Ok(());
    };
    let Some((list, more_lists)) = lists.split_first() else {
        return Ok(());
    };
    let output = Output {
        name: Name::new(alloc, name.as_str())?,
        items: list.as_slice().len() as u64,
    };
    outputs.push(output)?;
    push_outputs(alloc, more_names, more_lists, outputs)?;
    Ok(())
}

/// What is counted of the tenant.
fn tally_in(alloc: Global, chain: &Chain, done: &TenantDone) -> Result<Tally, NoMemory>
    requires { length done.now.refused < 2 ^ 32 }
    ensures { IfOk result (λ t. tally_view t ≡ tally_with chain.now.outputs.items done.now) }
{
    let mut outputs = Vec::with_capacity(alloc, chain.outputs.len())?;
    push_outputs(alloc, &chain.outputs, &done.outputs, &mut outputs)?;
    Ok(Tally {
        accepted: done.accepted,
        refused: done.refused.as_slice().len() as u32,
        drops: done.drops,
        outputs,
    })
}

/// Puts the number of a record behind the text, in decimal, and a line feed.
fn push_number(alloc: Global, text: &mut String, number: u32) -> Result<(), NoMemory>
    ensures { OnOk result (string_bytes text.new ≡ string_bytes text.old ++ (decimal number ++ codes "\n")) }
{
    let line = format!(in alloc; "{number}\n")?;
    text.push_str(line.as_str())?;
    Ok(())
}

/// The text of the file of the refused records.
fn refused_text(alloc: Global, refused: &Numbers) -> Result<String, NoMemory>
    ensures { IfOk result (λ text. string_bytes text ≡ spec.refused_text refused.now) }
{
    let mut text = String::new(alloc);
    let numbers = refused.as_slice();
    for number in numbers {
        push_number(alloc, &mut text, *number)?;
    }
    Ok(text)
}

/// Puts the files of the outputs behind the others.
fn push_texts<'a>(
    alloc: Global,
    out: &str,
    tenant: &str,
    nano: bool,
    names: &[Name],
    lists: &'a [Items],
    texts: &mut Vec<Text<'a>>,
) -> Result<(), NoMemory>
    ensures { OnOk result (map text_view texts.new.items
        ≡ map text_view texts.old.items ++ map (text_of out.now tenant.now nano) (zip names.now lists.now)) }
{
    let Some((name, more_names)) = names.split_first() else {
        return Ok(());
    };
    let Some((list, more_lists)) = lists.split_first() else {
        return Ok(());
    };
    let text = Text {
        name: output_file(alloc, out, tenant, name.as_str())?,
        content: Content::Capture {
            nano,
            items: list.as_slice(),
        },
    };
    texts.push(text)?;
    push_texts(alloc, out, tenant, nano, more_names, more_lists, texts)?;
    Ok(())
}

/// The files of the tenant with their texts, in the order in which they are written. The last one is that of the
/// refused records.
fn texts_in<'a>(
    alloc: Global,
    chain: &Chain,
    out: &str,
    nano: bool,
    lists: &'a [Items],
    refused: &'a str,
) -> Result<Vec<Text<'a>>, NoMemory>
    ensures { IfOk result (λ texts. (numbers : List ℕ) → refused.now ≡ spec.refused_text numbers
        → map text_view texts.items ≡ texts_with out.now (chain_view chain.now) nano numbers lists.now) }
{
    let mut texts = Vec::with_capacity(alloc, chain.outputs.len() + 1)?;
    push_texts(
        alloc,
        out,
        chain.name.as_str(),
        nano,
        &chain.outputs,
        lists,
        &mut texts,
    )?;
    texts.push(Text {
        name: refused_file(alloc, out, chain.name.as_str())?,
        content: Content::Bytes(refused.as_bytes()),
    })?;
    Ok(texts)
}

/// A law: a capture has fewer than 2^32 records.
fn few_records(capture: &Capture)
    ensures { length capture.now.entries < 2 ^ 32 }
{
    let _ = capture.count();
}

/// Writes what was made of the tenant's capture. After a fault the rest of its files are not touched.
pub fn write_made<S: Store>(
    alloc: Global,
    store: &mut S,
    tenant: u32,
    chain: &Chain,
    out: &str,
    capture: &Capture,
    done: &TenantDone,
) -> Result<TenantEnd, NoMemory>
    requires few { tenant < 16 }
    requires records { length done.now.refused ≤ length capture.now.entries }
    requires made { IsMade (chain_view chain.now) done.now.refused capture.now done.now }
    ensures wrote { Wrote (IsTrue S.tells) out.now tenant (chain_view chain.now) done.now.refused capture.now
        (held (S.file store.old) (S.faults store.old)) (held (S.file store.new) (S.faults store.new)) result }
    ensures later { (a : ℕ) (n : List ℕ) → S.faults store.old a n ≤ S.faults store.new a n }
    ensures others { (a : ℕ) (n : List ℕ) → a ≢ cause.writing_account tenant
        → S.faults store.new a n ≡ S.faults store.old a n }
{
    few_records(capture);
    let tally = tally_in(alloc, chain, done)?;
    let refused = refused_text(alloc, &done.refused)?;
    let texts = texts_in(
        alloc,
        chain,
        out,
        capture.nano(),
        &done.outputs,
        refused.as_str(),
    )?;
    match write_texts(alloc, store, writing_account(tenant), &texts) {
        Ok(()) => Ok(TenantEnd::Done(tally)),
        Err(IoFault::Failed) => Ok(TenantEnd::WriteFault),
        Err(IoFault::NoMemory) => Err(NoMemory),
    }
}
