//! Captures in the classic pcap file format, version 2.4, with link type 1 (Ethernet): a reader, a writer, and the
//! items that stand between them.
//!
//! The format is that of the Internet draft "PCAP Capture File Format" (draft-ietf-opsawg-pcap), its file header and
//! its packet record. The crate stands on `brick_base`, and on `brick_spec`, whose modules `Capture`, `CaptureFault`
//! and `Item` say what a capture is, why bytes are none, and what is written of items. How the reader takes bytes
//! apart, and the laws of capture text, stand in `specs/`. The contracts of `Capture::read` and of `Writer` carry the
//! promise; `written_is_capture` joins the two.
#![tactic(auto)]

mod builder;
mod capture;
mod entry;
mod fault;
mod frame;
mod header;
mod item;
mod laws;
mod lent;
mod number;
mod record;
mod sent;
#[cfg(test)]
mod tests;
mod writer;

pub use builder::ItemsBuilder;
pub use capture::Capture;
pub use entry::Entry;
pub use fault::CaptureFault;
pub use frame::Frame;
pub use item::{Item, Items};
pub use laws::{
    capture_is_unique, each_is_whole_or_faulty, fault_is_unique, foreign_capture_is_whole,
    none_is_whole_and_faulty, written_is_capture,
};
pub use lent::LentItem;
pub use writer::{Writer, file_header, record_head};
