//! The generated capture.

ghost use Rattle.std.specs.Prelude.{◌≡◌, ◌≤◌, ◌++◌, IfOk, OnOk, length};
ghost use Rattle.brick_spec.specs.Bytes.{Little};
ghost use Rattle.brick_spec.specs.Capture.{record_text, IsReadable};
ghost use Rattle.run_spec.specs.Generated.{generated_capture};
ghost use Rattle.capture_gen.specs.Contents.{entry_of_frame, generated_contents};

use crate::frames::{LONGEST, write_frame};
use crate::sequence::Sequence;
use brick_base::NoMemory;
use packet_owner::Buffer;
use pcap_io::{LentItem, Writer};
use std::alloc::Global;

/// Puts a frame behind the others as record `k`, a millisecond after the one before it.
fn put_record(writer: &mut Writer, k: u32, frame: &[u8]) -> Result<(), NoMemory>
    requires { length frame.now ≤ 262144 }
    ensures { OnOk result (writer.new ≡ writer.old ++ record_text Little (entry_of_frame k frame.now)) }
{
    writer.append_lent(LentItem {
        a: u64::from(k),
        j: 0,
        seconds: k / 1000,
        fraction: k % 1000 * 1000,
        original: frame.len() as u32,
        frame,
    })
}

/// The generated capture of `count` records, in the form in which captures are written, with microseconds. The records
/// are made by a sequence of numbers that begins with `number`. The work is linear in the bytes.
pub fn generate(alloc: Global, number: u64, count: u32) -> Result<Vec<u8>, NoMemory>
    requires { count ≤ 20000 }
    ensures capture { IfOk result (λ bytes. bytes.items ≡ generated_capture number count) }
    ensures readable { IfOk result (λ bytes. IsReadable bytes.items (generated_contents number count)) }
{
    let mut writer = Writer::new(alloc, false)?;
    let mut buffer = Buffer::new(alloc, 0, LONGEST)?;
    let mut frame = Vec::new(alloc);
    let mut sequence = Sequence::new(number);
    for k in 0..count {
        let draw = sequence.draw();
        buffer = write_frame(&mut frame, buffer, draw, k)?;
        put_record(&mut writer, k, frame.as_slice())?;
    }
    Ok(writer.into_bytes())
}
