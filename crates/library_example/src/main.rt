//! The library by an example: `library_example` reads the capture `in.pcap`, keeps its UDP datagrams, marks each with
//! another type of service, and writes them as the capture `out.pcap`.
//!
//! It stands on `map_filter` for the two stages, on `batch_ops` for batches, on `flow_key` and `pcap_io` for captures
//! and on `store_files` for files. It has no definitions: what the stages make of a packet is the contract of
//! `map_filter`, and what becomes of a batch that of `batch_ops::run`.
#![tactic(auto)]

ghost use Rattle.std.specs.Prelude.{◌≡◌, ◌<◌, length};
ghost use Rattle.batch_ops.specs.Outlet.{IsEmptied};

use batch_ops::{Batch, Operator, Outlet, Results, Then, Work, run};
use brick_base::{Class, NoMemory};
use eth_ip::Ip4Mut;
use flow_key::classify_all;
use map_filter::{Filter, ParsedStage, Transform};
use packet_owner::{Buffer, Packet, Spare};
use pcap_io::{Capture, CaptureFault, Item};
use std::alloc::Global;
use std::io;
use std::process::ExitCode;
use store_files::{ReadFault, read_whole, write_capture};
use store_io::{FileStore, IoFault, Store};
use tcp_udp::Tuple;
use thiserror::Error;

/// Takes the record of a number through an operator, in a buffer of its own, and keeps what passes.
fn take<O: Operator>(
    alloc: Global,
    operator: &mut O,
    out: &mut Outlet,
    capture: &Capture,
    number: u32,
    class: Class,
    kept: &mut Vec<Item>,
) -> Result<(), NoMemory>
    requires there { number < length capture.now.entries }
    requires ready { O.meaning.ready operator.old }
    requires spares { O.meaning.spares operator.old ≡ 0 }
    requires room { O.meaning.least_room operator.old ≡ 0 }
    requires emptied { IsEmptied out.old }
    ensures ready { O.meaning.ready operator.new }
    ensures spares { O.meaning.spares operator.new ≡ 0 }
    ensures room { O.meaning.least_room operator.new ≡ 0 }
    ensures emptied { IsEmptied out.new }
{
    let entry = capture.entry(number);
    let buffer = Buffer::new(alloc, 0, entry.frame.len() as u32)?;
    let packet = Packet::fill(buffer, number, entry);
    let mut batch = Batch::new();
    batch.push(Work { class, packet });
    let mut results = Results::new(alloc, 1)?;
    run(operator, &mut batch, out, &mut results)?;
    for passed in &results.passed {
        kept.push(passed.packet.item(alloc)?)?;
    }
    Ok(())
}

/// Takes all records of a capture through an operator, in order, and keeps what passes.
fn take_all<O: Operator>(
    alloc: Global,
    operator: &mut O,
    capture: &Capture,
) -> Result<Vec<Item>, NoMemory>
    requires ready { O.meaning.ready operator.old }
    requires spares { O.meaning.spares operator.old ≡ 0 }
    requires room { O.meaning.least_room operator.old ≡ 0 }
{
    let classes = classify_all(alloc, None, capture)?;
    let mut out = Outlet::new(alloc, Spare::new(alloc, 0, 64)?)?;
    let mut kept = Vec::new(alloc);
    for number in 0..capture.count() {
        let class = classes[number as usize];
        take(alloc, operator, &mut out, capture, number, class, &mut kept)?;
    }
    Ok(kept)
}

/// Takes the records of a capture that have an IPv4 layer through two operators, one after the other.
fn take_through<A: Operator + Drop, B: Operator + Drop>(
    alloc: Global,
    first: A,
    second: B,
    capture: &Capture,
) -> Result<Vec<Item>, NoMemory>
    requires ready { A.meaning.ready first × B.meaning.ready second }
    requires spares { (A.meaning.spares first ≡ 0) × (B.meaning.spares second ≡ 0) }
    requires room { (A.meaning.least_room first ≡ 0) × (B.meaning.least_room second ≡ 0) }
{
    let both = Then::new(alloc, first, second, 0)?;
    let mut stages = Then::new(alloc, ParsedStage, both, 0)?;
    take_all(alloc, &mut stages, capture)
}

/// The datagrams of a capture, each with another type of service.
fn marked_datagrams(alloc: Global, capture: &Capture) -> Result<Vec<Item>, NoMemory> {
    let udp = Filter::new(|tuple: &Tuple| tuple.proto == 17);
    let mark = Transform::new(|ip4: &mut Ip4Mut<'_>| ip4.set_tos(8));
    take_through(alloc, udp, mark, capture)
}

/// Why there is no capture of the datagrams.
#[derive(Clone, Copy, Debug, PartialEq, Eq, Error)]
enum Failure {
    #[error("in.pcap: {0}")]
    Unread(ReadFault),
    #[error("in.pcap: {0}")]
    Refused(CaptureFault),
    #[error("out.pcap: {0}")]
    Unwritten(IoFault),
    #[error("out of memory")]
    NoMemory,
}

/// Reads the capture and writes its datagrams. It answers how many records there were, and how many of them are
/// datagrams.
fn mark_file<S: Store>(alloc: Global, store: &mut S) -> Result<(u32, usize), Failure> {
    let bytes = read_whole(alloc, store, 1, "in.pcap", 33_554_432).map_err(Failure::Unread)?;
    let capture = Capture::read(alloc, bytes).map_err(Failure::Refused)?;
    let marked = marked_datagrams(alloc, &capture).map_err(|_| Failure::NoMemory)?;
    write_capture(alloc, store, 2, "out.pcap", capture.nano(), &marked).map_err(
        Failure::Unwritten,
    )?;
    Ok((capture.count(), marked.len()))
}

fn main(rt: HostRuntime) -> Result<ExitCode, io::Error> {
    let mut store = FileStore::new(&rt);
    match mark_file(rt.alloc(), &mut store) {
        Ok((records, datagrams)) => {
            println!(rt; "{datagrams} of {records} records are datagrams")?;
            Ok(ExitCode::SUCCESS)
        }
        Err(failure) => {
            println!(rt; "{failure}")?;
            Ok(ExitCode::FAILURE)
        }
    }
}
