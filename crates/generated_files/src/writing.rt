//! The two files, written and taken as read.

ghost use Rattle.std.specs.Prelude.{◌≡◌, ◌≢◌, ◌≤◌, ◌∷◌, [], ℕ, List, IfOk, OnOk, OnErr, IsErrOf, IsTrue, string_bytes};
ghost use Rattle.std.specs.List.{AllByRecursion};
ghost use Rattle.brick_spec.specs.Cause as cause;
ghost use Rattle.brick_spec.specs.Texts.{Holds, OthersStayOf, MayWrite, SomeRose};
ghost use Rattle.words_spec.specs.AcceptedWords.{is_plain_folder};
ghost use Rattle.run_spec.specs.Generated.{generated_texts};
ghost use Rattle.run_spec.specs.Generator.{names_in};
ghost use Rattle.chain_types.specs.View.{chain_view};
ghost use Rattle.capture_gen.specs.Accepted.{generated_chain};
ghost use Rattle.capture_gen.specs.Contents.{generated_contents};
ghost use Rattle.generated_files.specs.TwoTexts.{two_texts};

use crate::files::{MadeFiles, make_files};
use chain_file::Chain;
use pcap_io::Capture;
use std::alloc::Global;
use store_files::{Content, Text, write_texts};
use store_io::{IoFault, Store};

/// The account that writes what is generated.
const GENERATING_ACCOUNT: u32 = 33;

/// What the two files say: one tenant's chain, and its capture.
#[derive(Debug, Drop)]
pub struct Generated {
    pub chain: Chain,
    pub capture: Capture,
}

/// Writes two files, one after the other. Where the first is not written the second is not touched.
fn write_both<S: Store>(
    alloc: Global,
    store: &mut S,
    capture_name: String,
    capture: &[u8],
    chains_name: String,
    chains: &str,
) -> Result<(), IoFault>
    requires { string_bytes capture_name ≢ string_bytes chains_name }
    ensures written { IsTrue S.tells
        → OnOk result (AllByRecursion (Holds (S.file store.new))
        (two_texts (string_bytes capture_name) capture.now (string_bytes chains_name) chains.now)) }
    ensures stopped { IsTrue S.tells
        → MayWrite (two_texts (string_bytes capture_name) capture.now (string_bytes chains_name) chains.now)
        (S.file store.old) (S.file store.new) }
    ensures cause { IsErrOf result IoFault.Failed
        → SomeRose cause.generating_account (string_bytes capture_name ∷ string_bytes chains_name
        ∷ []) (S.faults store.old) (S.faults store.new) }
    ensures later { (a : ℕ) (n : List ℕ) → S.faults store.old a n ≤ S.faults store.new a n }
    ensures others { (a : ℕ) (n : List ℕ) → a ≢ cause.generating_account
        → S.faults store.new a n ≡ S.faults store.old a n }
{
    let texts = [
        Text {
            name: capture_name,
            content: Content::Bytes(capture),
        },
        Text {
            name: chains_name,
            content: Content::Bytes(chains.as_bytes()),
        },
    ];
    write_texts(alloc, store, GENERATING_ACCOUNT, &texts)
}

/// Makes the two files of mode `gen` and writes them into the folder `out`, the capture first. They are taken as read:
/// nothing is read from the store. Where the second is not written the first may be there.
pub fn write_generated<S: Store>(
    alloc: Global,
    store: &mut S,
    number: u64,
    out: &str,
) -> Result<Generated, IoFault>
    requires { IsTrue (is_plain_folder out.now) }
    ensures written { IsTrue S.tells
        → OnOk result (AllByRecursion (Holds (S.file store.new)) (generated_texts number out.now)
        × OthersStayOf (names_in (generated_texts number out.now)) (S.file store.old) (S.file store.new)) }
    ensures stopped { IsTrue S.tells
        → OnErr result (MayWrite (generated_texts number out.now) (S.file store.old) (S.file store.new)) }
    ensures chain { IfOk result (λ g. chain_view g.chain ≡ generated_chain out.now) }
    ensures capture { IfOk result (λ g. g.capture ≡ generated_contents number 20000) }
    ensures cause { IsErrOf result IoFault.Failed
        → SomeRose cause.generating_account (names_in (generated_texts number out.now)) (S.faults store.old)
        (S.faults store.new) }
    ensures later { (a : ℕ) (n : List ℕ) → S.faults store.old a n ≤ S.faults store.new a n }
    ensures others { (a : ℕ) (n : List ℕ) → a ≢ cause.generating_account
        → S.faults store.new a n ≡ S.faults store.old a n }
{
    let Ok(files) = make_files(alloc, number, out) else {
        return Err(IoFault::NoMemory);
    };
    let MadeFiles {
        capture_name,
        capture,
        chains_name,
        chains,
        chain,
    } = files;
    let done = write_both(
        alloc,
        store,
        capture_name,
        &capture,
        chains_name,
        chains.as_str(),
    );
    if let Err(fault) = done {
        return Err(fault);
    }
    // The capture is whole, so a refusal is want of memory.
    match Capture::read(alloc, capture) {
        Ok(capture) => Ok(Generated { chain, capture }),
        Err(_) => Err(IoFault::NoMemory),
    }
}
