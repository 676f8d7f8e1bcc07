//! The reader of items from bytes that come a few at a time.

ghost use Rattle.std.specs.Prelude.{◌≡◌, ◌+◌, ◌<◌, ◌≤◌, ◌^◌, length, IsErrOf};
ghost use Rattle.spelling.specs.Reader.{Begins};
ghost use Rattle.spelling.specs.declared.ending.End.TheVariants as ends;
ghost use Rattle.spelling.specs.declared.input.Unread.TheVariants as unread;
ghost use Rattle.willow_entry.specs.Frame.{FrameAsks};
ghost use Rattle.sync_msg.specs.Items.{item_value, item_spelling, IsHead, IsRowItem, due_behind};
ghost use Rattle.sync_msg.specs.Memory.{HeadAsks, ItemAsks};
ghost use Rattle.sync_msg.specs.Reader.{at_start, BeginsFrame, BeginsItem, IsInFront, MayCome, StepsItem};

use crate::item::Item;
use crate::read::{read_head, read_row};
use spelling::{End, Input, Unread};
use std::alloc::Global;
use std::marker::{Model, PhantomData};
use willow_entry::{Row, RowForm};

/// What a reader answers to bytes that are not bad.
#[derive(Drop)]
pub enum Step<R> {
    /// An item stands in front.
    Got {
        /// The item.
        item: Item<R>,
        /// How many bytes spell it.
        taken: usize,
    },
    /// The bytes are a proper beginning of an item.
    More,
}

/// Bytes that are no beginning of an item, and none stands in front of them.
#[derive(Clone, Copy, Debug, PartialEq, Eq)]
pub struct BadItem {
    /// How many bytes were taken so far.
    pub at: u64,
}

/// A reader of the items of a version, whose rows have the bodies of a grammar. A contract sees the version, how many bytes
/// it took, and how many rows are due: while there are some, the next item is a row.
#[derive(Drop)]
pub struct ItemReader<F: RowForm> {
    alloc: Global,
    version: u8,
    taken: u64,
    due: u32,
    form: PhantomData<F>,
}

impl<F: RowForm> Model for ItemReader<F> {
    ghost use Rattle.sync_msg.specs.Reader.{ReaderState};

    ghost Value = { ReaderState };

    ghost view = { λ r. record { version = r.version; taken = r.taken; due = r.due } };
}

impl<F: RowForm> ItemReader<F> {
    /// A reader of version 1 or 2 that took nothing. It keeps the allocator, for points and rows.
    pub fn new(alloc: Global, version: u8) -> ItemReader<F>
        requires low { 1 ≤ version }
        requires high { version ≤ 2 }
        ensures { result ≡ at_start version }
    {
        ItemReader {
            alloc,
            version,
            taken: 0,
            due: 0,
            form: PhantomData,
        }
    }

    /// The item at the front of the bytes, which are those behind the bytes taken so far. More is answered exactly
    /// where the bytes are a proper beginning of an item that may come now, and bad exactly where they are no such
    /// beginning and no such item stands in front. A row's body is judged once it is whole. The reader moves on only
    /// behind an item. Memory is asked for behind the path of a cut in two or the first point of a cut in parts, and
    /// where the body of a row is whole, behind the path of its entry.
    pub fn next(&mut self, bytes: &[u8]) -> Result<Step<F::R>, End<BadItem>>
        requires { self.old.taken + length bytes.now < 2 ^ 64 }
        ensures steps { StepsItem F.IsRow F.R.value self.old self.new bytes.now result }
        ensures asked { IsErrOf result ends.NoMemory → ItemAsks self.old.version self.old.due bytes.now }
    {
        match item_in_front::<F>(self.alloc, self.version, self.due, bytes) {
            Ok((item, taken)) => {
                self.taken += taken as u64;
                self.due = due_behind(self.due, &item);
                Ok(Step::Got { item, taken })
            }
            Err(Unread::Part) => Ok(Step::More),
            Err(Unread::Wrong) => Err(End::Refused(BadItem { at: self.taken })),
            Err(Unread::NoMemory) => Err(End::NoMemory),
        }
    }
}

// How many rows are due behind the item.
fn due_behind<R: Row>(due: u32, item: &Item<R>) -> u32
    ensures { result ≡ due_behind due (item_value R.value item.now) }
{
    match item {
        Item::Entries { count } => u32::from(*count),
        Item::Rest { count } => *count,
        Item::Row(_) => due.saturating_sub(1),
        Item::First { .. }
        | Item::Agree
        | Item::Split { .. }
        | Item::Parts { .. }
        | Item::EndTurn
        | Item::Bye => due,
    }
}

// The item at the front of the bytes, where so many rows are due, with the number of its bytes.
fn item_in_front<F: RowForm>(
    alloc: Global,
    version: u8,
    due: u32,
    bytes: &[u8],
) -> Result<(Item<F::R>, usize), Unread>
    ensures front { IsInFront (MayCome F.IsRow version due) (BeginsItem version due) F.R.value bytes.now result }
    ensures asked { IsErrOf result unread.NoMemory → ItemAsks version due bytes.now }
{
    if due > 0 {
        row_in_front::<F>(alloc, bytes)
    } else {
        head_in_front(alloc, version, bytes)
    }
}

// The item that is no row at the front of the bytes.
fn head_in_front<R: Row>(
    alloc: Global,
    version: u8,
    bytes: &[u8],
) -> Result<(Item<R>, usize), Unread>
    ensures front { IsInFront (IsHead version) (Begins item_spelling (IsHead version)) R.value bytes.now result }
    ensures asked { IsErrOf result unread.NoMemory → HeadAsks version bytes.now }
{
    let mut input = Input::new(bytes);
    let item = read_head(alloc, version, &mut input)?;
    Ok((item, input.taken_of(bytes)))
}

// The row at the front of the bytes.
fn row_in_front<F: RowForm>(alloc: Global, bytes: &[u8]) -> Result<(Item<F::R>, usize), Unread>
    ensures front { IsInFront (IsRowItem F.IsRow) BeginsFrame F.R.value bytes.now result }
    ensures asked { IsErrOf result unread.NoMemory → FrameAsks bytes.now }
{
    let mut input = Input::new(bytes);
    let row = read_row::<F>(alloc, &mut input)?;
    Ok((Item::Row(row), input.taken_of(bytes)))
}
