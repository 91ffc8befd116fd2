ghost use Rattle.std.specs.Prelude.{◌≡◌, IfOk};
ghost use Rattle.pcap_io.specs.View.{lent_view, item_view};

use crate::{Frame, Item};
use brick_base::NoMemory;
use std::alloc::Global;

/// An item whose frame is lent and not copied.
#[derive(Clone, Copy, Debug)]
pub struct LentItem<'a> {
    /// The first part of the key.
    pub a: u64,
    /// The second part of the key.
    pub j: u32,
    /// Seconds since 1970-01-01 00:00:00 UTC.
    pub seconds: u32,
    /// Microseconds or nanoseconds behind the seconds.
    pub fraction: u32,
    /// The length in bytes that the frame had on the link.
    pub original: u32,
    /// The bytes of the frame.
    pub frame: &'a [u8],
}

impl Item {
    /// The item, with its frame lent.
    pub fn lend(&self) -> LentItem<'_>
        ensures { lent_view result ≡ item_view self.now }
    {
        LentItem {
            a: self.a,
            j: self.j,
            seconds: self.seconds,
            fraction: self.fraction,
            original: self.original,
            frame: self.frame.as_slice(),
        }
    }
}

impl LentItem<'_> {
    /// The item, with a copy of its frame.
    pub fn to_item(self, alloc: Global) -> Result<Item, NoMemory>
        ensures { IfOk result (λ i. item_view i ≡ lent_view self.entry) }
    {
        let frame = self.frame.to_vec(alloc)?;
        Ok(Item {
            a: self.a,
            j: self.j,
            seconds: self.seconds,
            fraction: self.fraction,
            original: self.original,
            frame: Frame::of(frame),
        })
    }
}
