ghost use Rattle.std.specs.Prelude.{◌≡◌};

use crate::Frame;
use std::marker::Model;

/// A frame with its key, its time and its length on the link: what a chain is given for a record, and what it gives.
/// The key is `a` and then `j`; items stand in the order of their keys.
#[derive(Drop, Debug)]
pub struct Item {
    /// The first part of the key: the number of a record, for the item that is made of it.
    pub a: u64,
    /// The second part of the key, among the items with one first part.
    pub j: u32,
    /// Seconds since 1970-01-01 00:00:00 UTC.
    pub seconds: u32,
    /// Microseconds or nanoseconds behind the seconds, as in the capture that the item comes from.
    pub fraction: u32,
    /// The length in bytes that the frame had on the link.
    pub original: u32,
    /// The frame.
    pub frame: Frame,
}

/// A list of items, owned.
#[derive(Drop, Debug)]
pub struct Items {
    list: Vec<Item>,
}

impl Model for Items {
    ghost use Rattle.std.specs.Prelude.{List};
    ghost use Rattle.pcap_io.specs.declared.item.Item.{Item};

    ghost Value = { List Item };

    ghost view = { λ i. i.list.items };
}

impl Items {
    /// These items. It takes no memory.
    pub fn of(list: Vec<Item>) -> Items
        ensures { result ≡ list.items }
    {
        Items { list }
    }

    /// The items, lent.
    pub fn as_slice(&self) -> &[Item]
        ensures { result.now ≡ self.now }
    {
        self.list.as_slice()
    }

    /// The items, with their room.
    pub fn into_vec(self) -> Vec<Item>
        ensures { result.items ≡ self }
    {
        let Items { list } = self;
        list
    }
}

/// As `of`.
impl From<Vec<Item>> for Items {
    ghost from_gives = { λ list items. items ≡ list.items };

    fn from(list: Vec<Item>) -> Items {
        Items::of(list)
    }
}

/// As `into_vec`.
impl From<Items> for Vec<Item> {
    ghost from_gives = { λ items list. list.items ≡ items };

    fn from(items: Items) -> Vec<Item> {
        items.into_vec()
    }
}
