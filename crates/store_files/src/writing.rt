ghost use Rattle.std.specs.Prelude.{◌≡◌, ◌≢◌, ◌<◌, ◌≤◌, ◌++◌, List, [], ℕ, Some, OnOk, IsOk, IsErrOf, IsTrue, map};
ghost use Rattle.std.specs.Prelude.{length};
ghost use Rattle.brick_spec.specs.Bytes.{Little};
ghost use Rattle.brick_spec.specs.Capture.{record_text};
ghost use Rattle.brick_spec.specs.Cause.{Rose};
ghost use Rattle.brick_spec.specs.Files.{IsWriting, OthersStay};
ghost use Rattle.brick_spec.specs.Item.{entry_of, items_text};
ghost use Rattle.brick_spec.specs.Texts.{MayHold, AreDistinct, SomeRose, WritesTexts};
ghost use Rattle.pcap_io.specs.View.{item_view};
ghost use Rattle.store_files.specs.WholeFiles.{Causes, IsThere, Puts, Grows, text_view};

use pcap_io::{Item, file_header, record_head};
use std::alloc::Global;
use store_io::{IoFault, Store};

/// The most bytes that are given to the store at once.
const PIECE: usize = 1048576;

/// What is written into a file.
#[derive(Clone, Copy, Debug)]
pub enum Content<'a> {
    /// These bytes.
    Bytes(&'a [u8]),
    /// The capture of these items, whose fractions are nanoseconds or else microseconds.
    Capture { nano: bool, items: &'a [Item] },
}

/// A file's name, and what is written there.
#[derive(Debug, Drop)]
pub struct Text<'a> {
    pub name: String,
    pub content: Content<'a>,
}

/// Makes a file of this text, in pieces.
pub fn write_whole<S: Store>(
    store: &mut S,
    account: u32,
    name: &str,
    text: &[u8],
) -> Result<(), IoFault>
    requires { IsWriting account }
    ensures ok { IsTrue S.tells → OnOk result (S.file store.new name.now ≡ Some text.now) }
    ensures at_most { IsTrue S.tells
        → MayHold (S.file store.old) (S.file store.new) (record { name = name.now; bytes = text.now }) }
    ensures others { IsTrue S.tells → OthersStay name.now (S.file store.old) (S.file store.new) }
    ensures cause { Causes account name.now (S.faults store.old) (S.faults store.new) (IsErrOf result IoFault.Failed) }
{
    store.create(account, name)?;
    let mut rest = text;
    while !rest.is_empty() {
        let (piece, after) = rest.split_at(rest.len().min(PIECE));
        store.append(account, name, piece)?;
        rest = after;
    }
    Ok(())
}

/// Gives the store what waits where that is a whole piece.
fn give_piece<S: Store>(
    store: &mut S,
    account: u32,
    name: &str,
    waiting: &mut Vec<u8>,
) -> Result<(), IoFault>
    requires account { IsWriting account }
    requires room { length waiting.old.items ≤ 1048576 }
    requires there { IsTrue S.tells → IsThere name.now (S.file store.old) }
    ensures room { OnOk result (length waiting.new.items < 1048576) }
    ensures ok { IsTrue S.tells
        → OnOk result (Puts name.now waiting.old.items waiting.new.items (S.file store.old) (S.file store.new)) }
    ensures grows { IsTrue S.tells → Grows name.now waiting.old.items (S.file store.old) (S.file store.new) }
    ensures cause { Causes account name.now (S.faults store.old) (S.faults store.new) (IsErrOf result IoFault.Failed) }
{
    if waiting.len() < PIECE {
        return Ok(());
    }
    store.append(account, name, waiting.as_slice())?;
    waiting.clear();
    Ok(())
}

/// Puts bytes behind those that wait, piece by piece: the store is given what waits as often as it is a whole piece.
fn put_pieces<S: Store>(
    store: &mut S,
    account: u32,
    name: &str,
    waiting: &mut Vec<u8>,
    bytes: &[u8],
) -> Result<(), IoFault>
    requires account { IsWriting account }
    requires room { length waiting.old.items < 1048576 }
    requires there { IsTrue S.tells → IsThere name.now (S.file store.old) }
    ensures room { OnOk result (length waiting.new.items < 1048576) }
    ensures ok { IsTrue S.tells
        → OnOk result (Puts name.now (waiting.old.items
        ++ bytes.now) waiting.new.items (S.file store.old) (S.file store.new)) }
    ensures grows { IsTrue S.tells
        → Grows name.now (waiting.old.items ++ bytes.now) (S.file store.old) (S.file store.new) }
    ensures cause { Causes account name.now (S.faults store.old) (S.faults store.new) (IsErrOf result IoFault.Failed) }
{
    let mut rest = bytes;
    while !rest.is_empty() {
        let room = PIECE - waiting.len();
        let (front, after) = rest.split_at(rest.len().min(room));
        waiting.extend_from_slice(front)?;
        give_piece(store, account, name, waiting)?;
        rest = after;
    }
    Ok(())
}

/// Puts an item's record behind what waits, piece by piece. This is seldom needed, and stays out of the loop.
#[inline(never)]
fn put_item_pieces<S: Store>(
    store: &mut S,
    account: u32,
    name: &str,
    waiting: &mut Vec<u8>,
    item: &Item,
) -> Result<(), IoFault>
    requires account { IsWriting account }
    requires room { length waiting.old.items < 1048576 }
    requires there { IsTrue S.tells → IsThere name.now (S.file store.old) }
    ensures room { OnOk result (length waiting.new.items < 1048576) }
    ensures ok { IsTrue S.tells
        → OnOk result (Puts name.now (waiting.old.items
        ++ record_text Little (entry_of (item_view item.now))) waiting.new.items (S.file store.old)
        (S.file store.new)) }
    ensures grows { IsTrue S.tells
        → Grows name.now (waiting.old.items
        ++ record_text Little (entry_of (item_view item.now))) (S.file store.old) (S.file store.new) }
    ensures cause { Causes account name.now (S.faults store.old) (S.faults store.new) (IsErrOf result IoFault.Failed) }
{
    let head = record_head(item);
    put_pieces(store, account, name, waiting, head.as_slice())?;
    put_pieces(store, account, name, waiting, item.frame.as_slice())?;
    Ok(())
}

/// Puts an item's record behind what waits. One look tells whether the whole record leaves the piece unfilled.
fn put_item<S: Store>(
    store: &mut S,
    account: u32,
    name: &str,
    waiting: &mut Vec<u8>,
    item: &Item,
) -> Result<(), IoFault>
    requires account { IsWriting account }
    requires room { length waiting.old.items < 1048576 }
    requires there { IsTrue S.tells → IsThere name.now (S.file store.old) }
    ensures room { OnOk result (length waiting.new.items < 1048576) }
    ensures ok { IsTrue S.tells
        → OnOk result (Puts name.now (waiting.old.items
        ++ record_text Little (entry_of (item_view item.now))) waiting.new.items (S.file store.old)
        (S.file store.new)) }
    ensures grows { IsTrue S.tells
        → Grows name.now (waiting.old.items
        ++ record_text Little (entry_of (item_view item.now))) (S.file store.old) (S.file store.new) }
    ensures cause { Causes account name.now (S.faults store.old) (S.faults store.new) (IsErrOf result IoFault.Failed) }
{
    let head = record_head(item);
    let frame = item.frame.as_slice();
    if head.len() + frame.len() < PIECE - waiting.len() {
        waiting.extend_from_slice(head.as_slice())?;
        waiting.extend_from_slice(frame)?;
        return Ok(());
    }
    put_item_pieces(store, account, name, waiting, item)
}

/// Gives the store what is left, where there is any.
fn give_rest<S: Store>(
    store: &mut S,
    account: u32,
    name: &str,
    waiting: &[u8],
) -> Result<(), IoFault>
    requires account { IsWriting account }
    requires there { IsTrue S.tells → IsThere name.now (S.file store.old) }
    ensures ok { IsTrue S.tells → OnOk result (Puts name.now waiting.now [] (S.file store.old) (S.file store.new)) }
    ensures grows { IsTrue S.tells → Grows name.now waiting.now (S.file store.old) (S.file store.new) }
    ensures cause { Causes account name.now (S.faults store.old) (S.faults store.new) (IsErrOf result IoFault.Failed) }
{
    if waiting.is_empty() {
        return Ok(());
    }
    store.append(account, name, waiting)?;
    Ok(())
}

/// Makes a file of the capture of these items, in pieces. No more than one piece of it is kept in memory.
pub fn write_capture<S: Store>(
    alloc: Global,
    store: &mut S,
    account: u32,
    name: &str,
    nano: bool,
    items: &[Item],
) -> Result<(), IoFault>
    requires { IsWriting account }
    ensures ok { IsTrue S.tells
        → OnOk result (S.file store.new name.now ≡ Some (items_text nano (map item_view items.now))) }
    ensures at_most { IsTrue S.tells
        → MayHold (S.file store.old) (S.file store.new) (record {
          name = name.now;
          bytes = items_text nano (map item_view items.now);
        }) }
    ensures others { IsTrue S.tells → OthersStay name.now (S.file store.old) (S.file store.new) }
    ensures cause { Causes account name.now (S.faults store.old) (S.faults store.new) (IsErrOf result IoFault.Failed) }
{
    let mut waiting = Vec::with_capacity(alloc, PIECE)?;
    waiting.extend_from_slice(&file_header(nano))?;
    store.create(account, name)?;
    for item in items {
        put_item(store, account, name, &mut waiting, item)?;
    }
    give_rest(store, account, name, waiting.as_slice())?;
    Ok(())
}

/// Makes a file of this text.
fn write_text<S: Store>(
    alloc: Global,
    store: &mut S,
    account: u32,
    text: &Text<'_>,
) -> Result<(), IoFault>
    requires { IsWriting account }
    ensures ok { IsTrue S.tells
        → OnOk result (S.file store.new (text_view text.now).name ≡ Some (text_view text.now).bytes) }
    ensures at_most { IsTrue S.tells → MayHold (S.file store.old) (S.file store.new) (text_view text.now) }
    ensures others { IsTrue S.tells → OthersStay (text_view text.now).name (S.file store.old) (S.file store.new) }
    ensures cause { Causes account (text_view text.now).name (S.faults store.old) (S.faults store.new)
        (IsErrOf result IoFault.Failed) }
{
    let name = text.name.as_str();
    match text.content {
        Content::Bytes(bytes) => write_whole(store, account, name, bytes),
        Content::Capture { nano, items } => write_capture(alloc, store, account, name, nano, items),
    }
}

/// Writes each file, one after another, until one fails. Those behind it are not touched.
pub fn write_texts<S: Store>(
    alloc: Global,
    store: &mut S,
    account: u32,
    texts: &[Text<'_>],
) -> Result<(), IoFault>
    requires account { IsWriting account }
    requires distinct { AreDistinct (map text_view texts.now) }
    ensures files { IsTrue S.tells
        → WritesTexts (IsOk result) (λ t. IsErrOf result IoFault.Failed
        → Rose (S.faults store.old account t.name) (S.faults store.new account t.name)) (map text_view texts.now)
        (S.file store.old) (S.file store.new) }
    ensures later { (a : ℕ) (n : List ℕ) → S.faults store.old a n ≤ S.faults store.new a n }
    ensures others { (a : ℕ) (n : List ℕ) → a ≢ account → S.faults store.new a n ≡ S.faults store.old a n }
    ensures cause { IsErrOf result IoFault.Failed
        → SomeRose account (map (λ t. t.name) (map text_view texts.now)) (S.faults store.old) (S.faults store.new) }
{
    let Some((first, rest)) = texts.split_first() else {
        return Ok(());
    };
    match write_text(alloc, store, account, first) {
        Ok(()) => write_texts(alloc, store, account, rest),
        Err(fault) => Err(fault),
    }
}
