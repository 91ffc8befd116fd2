ghost use Rattle.std.specs.Prelude.{◌≡◌, ◌+◌, ◌≤◌, ◌++◌, [], ◌∷◌, vec_len, IfOk, OnOk, OnErr};
ghost use Rattle.std.specs.Arc.{arc_value};
ghost use Rattle.pcap_io.specs.View.{own_item};
ghost use Rattle.pcap_io.specs.Builder.{item_of_head, items_of_heads, HasFrameIn, HaveFramesIn};

use crate::{Frame, Item, LentItem};
use brick_base::NoMemory;
use std::alloc::Global;
use std::fmt;
use std::marker::Model;
use std::sync::Arc;

/// What is kept of an item, and where its frame lies.
#[derive(Clone, Copy)]
struct Head {
    a: u64,
    j: u32,
    seconds: u32,
    fraction: u32,
    original: u32,
    // of the frame
    start: usize,
    len: usize,
}

/// A list of items as it grows. The frames lie one behind another in one piece of memory, which the items then share.
#[derive(Drop)]
pub struct ItemsBuilder {
    heads: Vec<Head>,
    bytes: Vec<u8>,
}

impl Model for ItemsBuilder {
    ghost use Rattle.pcap_io.specs.Builder.{ItemsBuilderModel, items_of_heads, HaveFramesIn};

    ghost Value = { ItemsBuilderModel };

    ghost view = { λ b. record { items = items_of_heads b.bytes.items b.heads.items } };

    ghost invariant = { λ b. HaveFramesIn b.bytes.items b.heads.items };
}

/// The number of items, and not their frames.
impl fmt::Debug for ItemsBuilder {
    fn fmt<W: fmt::Write>(&self, f: &mut fmt::Formatter<W>) -> fmt::Result {
        f.debug_struct("ItemsBuilder")
            .field("count", &self.heads.len())
            .finish_non_exhaustive()
    }
}

/// How many items there is room for from the first one on, and how many bytes of frames: lists of these sizes grow in
/// their places, and are not copied. Memory that is not written to costs nothing.
const FIRST_ITEMS: usize = 4096;

const FIRST_BYTES: usize = 262_144;

/// Makes room for the first items.
#[cold]
#[inline(never)]
fn reserve_first(heads: &mut Vec<Head>, bytes: &mut Vec<u8>) -> Result<(), NoMemory>
    ensures heads { heads.new.items ≡ heads.old.items }
    ensures bytes { bytes.new.items ≡ bytes.old.items }
{
    heads.reserve(FIRST_ITEMS)?;
    bytes.reserve(FIRST_BYTES)?;
    Ok(())
}

/// Makes room before the first item comes.
#[inline]
fn make_first_room(heads: &mut Vec<Head>, bytes: &mut Vec<u8>) -> Result<(), NoMemory>
    ensures heads { heads.new.items ≡ heads.old.items }
    ensures bytes { bytes.new.items ≡ bytes.old.items }
{
    if heads.is_empty() {
        reserve_first(heads, bytes)?;
    }
    Ok(())
}

/// The item of a head.
fn item_of(store: &Arc<Vec<u8>>, head: &Head) -> Result<Item, NoMemory>
    requires { HasFrameIn (arc_value store.now).items head.now }
    ensures { IfOk result (λ i. i ≡ item_of_head (arc_value store.now).items head.now) }
{
    let frame = Frame::share(store, head.start, head.len)?;
    Ok(Item {
        a: head.a,
        j: head.j,
        seconds: head.seconds,
        fraction: head.fraction,
        original: head.original,
        frame,
    })
}

/// The items of heads.
fn items_of(alloc: Global, store: &Arc<Vec<u8>>, heads: &[Head]) -> Result<Vec<Item>, NoMemory>
    requires { HaveFramesIn (arc_value store.now).items heads.now }
    ensures { IfOk result (λ items. items.items ≡ items_of_heads (arc_value store.now).items heads.now) }
{
    let mut items = Vec::with_capacity(alloc, heads.len())?;
    for head in heads {
        let item = item_of(store, head)?;
        items.push(item)?;
    }
    Ok(items)
}

impl ItemsBuilder {
    /// No items. It takes no memory.
    pub fn new(alloc: Global) -> ItemsBuilder
        ensures { result.items ≡ [] }
    {
        ItemsBuilder {
            heads: Vec::new(alloc),
            bytes: Vec::new(alloc),
        }
    }

    /// Puts the item behind the others, with a copy of its frame. Where memory runs out nothing is put.
    #[inline(always)]
    pub fn push(&mut self, item: LentItem<'_>) -> Result<(), NoMemory>
        ensures ok { OnOk result (self.new.items ≡ self.old.items ++ own_item item.entry ∷ []) }
        ensures err { OnErr result (self.new ≡ self.old) }
    {
        make_first_room(&mut self.heads, &mut self.bytes)?;
        let head = Head {
            a: item.a,
            j: item.j,
            seconds: item.seconds,
            fraction: item.fraction,
            original: item.original,
            start: self.bytes.len(),
            len: item.frame.len(),
        };
        self.bytes.extend_from_slice(item.frame)?;
        self.heads.push(head)?;
        Ok(())
    }

    /// The items, in the order in which they came. No frame is copied, and the work is linear in their number.
    pub fn into_items(self, alloc: Global) -> Result<Vec<Item>, NoMemory>
        ensures { IfOk result (λ items. items.items ≡ self.items) }
    {
        let ItemsBuilder { heads, bytes } = self;
        let store = Arc::new(alloc, bytes)?;
        items_of(alloc, &store, heads.as_slice())
    }
}
