//! Why a capture is refused, as it is told.
ghost use Rattle.std.specs.Prelude.{◌≡◌, ◌++◌, List, ℕ, IfOk, OnOk, OnErr, string_bytes};
ghost use Rattle.brick_spec.specs.CaptureFault.{Stands};
ghost use Rattle.run_spec.specs.Report as spec;
ghost use Rattle.pcap_io.specs.View.{StandsIn};
ghost use Rattle.run_report.specs.View.{refusal_view};

use brick_base::NoMemory;
use pcap_io::CaptureFault;
use std::alloc::Global;

/// The fault that stands in a capture.
#[derive(Clone, Copy, Debug, PartialEq, Eq)]
pub enum Refusal {
    ShortHeader { len: u32 },
    Magic { word: u32 },
    Version { major: u16, minor: u16 },
    Link { word: u32 },
    CutRecord { number: u32, at: u32 },
    LongRecord { number: u32, len: u32 },
}

/// The fault that a reader of captures answers, where it is not want of memory.
pub fn refusal_of(fault: CaptureFault) -> Result<Refusal, NoMemory>
    ensures means { IfOk result (λ refusal. (bytes : List ℕ) → StandsIn bytes fault
        → Stands bytes (refusal_view refusal)) }
    ensures memory { OnErr result (fault ≡ CaptureFault.NoMemory) }
{
    match fault {
        CaptureFault::ShortHeader { len } => Ok(Refusal::ShortHeader { len }),
        CaptureFault::Magic { word } => Ok(Refusal::Magic { word }),
        CaptureFault::Version { major, minor } => Ok(Refusal::Version { major, minor }),
        CaptureFault::Link { word } => Ok(Refusal::Link { word }),
        CaptureFault::CutRecord { number, at } => Ok(Refusal::CutRecord { number, at }),
        CaptureFault::LongRecord { number, len } => Ok(Refusal::LongRecord { number, len }),
        CaptureFault::NoMemory => Err(NoMemory),
    }
}

/// A byte in two hexadecimal digits.
#[tactic(auto, using(std::proofs::lemmas::Fmt::hex_byte))]
fn hex_byte(alloc: Global, byte: u8) -> Result<String, NoMemory>
    ensures { IfOk result (λ text. string_bytes text ≡ spec.hex_byte byte) }
{
    let text = format!(in alloc; "{byte:02x}")?;
    Ok(text)
}

/// A word in eight hexadecimal digits, the highest first.
#[tactic(auto, unfolding(run_spec::specs::Report::hex_word, brick_spec::specs::Bytes::four_bytes))]
fn hex_text(alloc: Global, word: u32) -> Result<String, NoMemory>
    ensures { IfOk result (λ text. string_bytes text ≡ spec.hex_word word) }
{
    let [a, b, c, d] = word.to_be_bytes();
    let a = hex_byte(alloc, a)?;
    let b = hex_byte(alloc, b)?;
    let c = hex_byte(alloc, c)?;
    let d = hex_byte(alloc, d)?;
    let text = format!(in alloc; "{a}{b}{c}{d}")?;
    Ok(text)
}

/// The number and the name of a fault, and what it says.
#[tactic(auto, unfolding(run_spec::specs::Report::fault_text))]
pub fn refusal_text(alloc: Global, refusal: Refusal) -> Result<String, NoMemory>
    ensures { IfOk result (λ text. string_bytes text ≡ spec.fault_text (refusal_view refusal)) }
{
    let text = match refusal {
        Refusal::ShortHeader { len } => format!(in alloc; " 1 ShortHeader len={len}")?,
        Refusal::Magic { word } => {
            let word = hex_text(alloc, word)?;
            format!(in alloc; " 2 Magic word={word}")?
        }
        Refusal::Version { major, minor } => {
            format!(in alloc; " 3 Version major={major} minor={minor}")?
        }
        Refusal::Link { word } => format!(in alloc; " 4 Link word={word}")?,
        Refusal::CutRecord { number, at } => {
            format!(in alloc; " 5 CutRecord number={number} at={at}")?
        }
        Refusal::LongRecord { number, len } => {
            format!(in alloc; " 6 LongRecord number={number} len={len}")?
        }
    };
    Ok(text)
}
