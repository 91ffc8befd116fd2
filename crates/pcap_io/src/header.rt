ghost use Rattle.std.specs.Prelude.{◌≡◌, ◌+◌, ◌≤◌, Bool, length, take, drop, IfOk, OnOk, IfErr, MatchOption};
ghost use Rattle.brick_spec.specs.Bytes as spec;
ghost use Rattle.brick_spec.specs.Capture.{magic, IsHeader};
ghost use Rattle.brick_spec.specs.CaptureFault.{HasMagic};
ghost use Rattle.pcap_io.specs.Reading.{HasVersion};
ghost use Rattle.pcap_io.specs.View.{order_view, StandsIn};

use crate::CaptureFault;
use crate::number::{Order, four_at, two_at};

/// The length in bytes of a file header.
pub const HEADER: usize = 24;

/// The magic number of a capture whose fractions are microseconds.
const MICROSECONDS: u32 = 0xa1b2_c3d4;

/// The magic number of a capture whose fractions are nanoseconds.
const NANOSECONDS: u32 = 0xa1b2_3c4d;

/// The link type of Ethernet.
const ETHERNET: u32 = 1;

/// How the records of a capture are read: the byte order of their numbers, and whether their fractions are nanoseconds.
#[derive(Clone, Copy, Debug)]
pub struct Form {
    pub order: Order,
    pub nano: bool,
}

/// The magic number: fractions are nanoseconds, or else microseconds.
pub fn magic_number(nano: bool) -> u32
    ensures { result ≡ magic nano }
{
    if nano { NANOSECONDS } else { MICROSECONDS }
}

/// Whether the fractions are nanoseconds, where the first four bytes are a magic number in this byte order.
fn resolution(order: Order, bytes: &[u8]) -> Option<bool>
    requires { 24 ≤ length bytes.now }
    ensures { MatchOption result ((nano : Bool)
        → ¬ (HasMagic (order_view order) nano bytes.now)) (λ nano. HasMagic (order_view order) nano bytes.now) }
{
    let word = four_at(order, bytes, 0);
    if word == MICROSECONDS {
        Some(false)
    } else if word == NANOSECONDS {
        Some(true)
    } else {
        None
    }
}

/// The byte order and the resolution that the magic number tells.
fn form_of(bytes: &[u8]) -> Option<Form>
    requires { 24 ≤ length bytes.now }
    ensures { MatchOption result ((o : spec.Order) (nano : Bool)
        → ¬ (HasMagic o nano bytes.now)) (λ form. HasMagic (order_view form.order) form.nano bytes.now) }
{
    if let Some(nano) = resolution(Order::Little, bytes) {
        return Some(Form {
            order: Order::Little,
            nano,
        });
    }
    let nano = resolution(Order::Big, bytes)?;
    Some(Form {
        order: Order::Big,
        nano,
    })
}

/// Checks the version.
fn check_version(form: Form, bytes: &[u8]) -> Result<(), CaptureFault>
    requires { HasMagic (order_view form.order) form.nano bytes.now }
    ensures ok { OnOk result (HasVersion (order_view form.order) bytes.now) }
    ensures fault { IfErr result (StandsIn bytes.now) }
{
    let major = two_at(form.order, bytes, 4);
    let minor = two_at(form.order, bytes, 6);
    if major == 2 && minor == 4 {
        Ok(())
    } else {
        Err(CaptureFault::Version { major, minor })
    }
}

/// Checks the link type.
fn check_link(form: Form, bytes: &[u8]) -> Result<(), CaptureFault>
    requires magic { HasMagic (order_view form.order) form.nano bytes.now }
    requires version { HasVersion (order_view form.order) bytes.now }
    ensures ok { OnOk result (IsHeader (order_view form.order) form.nano (take 24 bytes.now)) }
    ensures fault { IfErr result (StandsIn bytes.now) }
{
    let word = four_at(form.order, bytes, 20);
    if word == ETHERNET {
        Ok(())
    } else {
        Err(CaptureFault::Link { word })
    }
}

/// Reads the file header at the front. Zone, accuracy and snapshot length may be any.
pub fn read_header(bytes: &[u8]) -> Result<Form, CaptureFault>
    requires { length bytes.now ≤ 33554432 }
    ensures header { IfOk result (λ form. IsHeader (order_view form.order) form.nano (take 24 bytes.now)) }
    ensures fault { IfErr result (StandsIn bytes.now) }
{
    if bytes.len() < HEADER {
        return Err(CaptureFault::ShortHeader {
            len: bytes.len() as u32,
        });
    }
    let Some(form) = form_of(bytes) else {
        return Err(CaptureFault::Magic {
            word: four_at(Order::Big, bytes, 0),
        });
    };
    check_version(form, bytes)?;
    check_link(form, bytes)?;
    Ok(form)
}
