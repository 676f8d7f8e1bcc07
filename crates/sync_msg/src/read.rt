//! Items, read from the front of an input.

ghost use Rattle.std.specs.Prelude.{◌≡◌, ◌<◌, ◌≤◌, IfOk, IsErrOf};
ghost use Rattle.spelling.specs.Memory.{IsWhole};
ghost use Rattle.std.specs.Int.{w32};
ghost use Rattle.spelling.specs.Front.{Whole, ◌>>=◌ as ◌|>>◌};
ghost use Rattle.spelling.specs.Reading.{Gives, NeedsNoMemory, byte_up_to, bytes_at, many_at, number_up_to};
ghost use Rattle.spelling.specs.declared.input.Unread.TheVariants as unread;
ghost use Rattle.willow_entry.specs.Frame.{FrameAsks};
ghost use Rattle.sync_msg.specs.declared.item.Item.TheVariants as items;
ghost use Rattle.sync_msg.specs.Items.{item_value};
ghost use Rattle.sync_msg.specs.CutPoints as points;
ghost use Rattle.sync_msg.specs.ItemReading.{cut_at, split_at, part_point_at, points_at, counted_at, cut_in_parts_at, head_at, body_at, GivesRow};
ghost use Rattle.sync_msg.specs.Memory.{CutAsks, CountedAsk, PartsAsk, HeadAsks};

use crate::item::{Item, MAX_ENTRIES, MAX_REST};
use crate::points::{MAX_POINTS, Points};
use crate::prints::Prints;
use spelling::{Input, Unread};
use std::alloc::Global;
use willow_area::CutAt;
use willow_entry::{MAX_FRAME, Row, RowForm};
use willow_path::{read_path, read_user_key};

// Reads an item of the version that is no row. It is wrong as soon as no such item begins with the bytes read.
#[tactic(auto, unfolding(crate::specs::ItemReading::head_at, crate::specs::ItemReading::behind_kind))]
pub(crate) fn read_head<R: Row>(
    alloc: Global,
    version: u8,
    input: &mut Input,
) -> Result<Item<R>, Unread>
    ensures gives { Gives (item_value R.value) result input.new (head_at version input.old) }
    ensures asked { IsErrOf result unread.NoMemory → HeadAsks version input.old }
{
    match input.byte()? {
        1 => read_first(input),
        2 => Ok(Item::Agree),
        3 if version == 1 => read_split(alloc, input),
        4 => read_entries(input),
        5 => read_rest(input),
        6 => Ok(Item::EndTurn),
        7 => Ok(Item::Bye),
        8 if version == 2 => read_parts(alloc, input),
        _ => Err(Unread::Wrong),
    }
}

// Reads the fingerprint of the whole box.
fn read_first<R: Row>(input: &mut Input) -> Result<Item<R>, Unread>
    ensures gives { Gives (item_value R.value) result input.new (bytes_at 32 input.old |>> (λ print. Whole (items.First print.0) print.1)) }
    ensures sure { NeedsNoMemory result }
{
    Ok(Item::First {
        print: input.array()?,
    })
}

// Reads how many rows of a box follow.
fn read_entries<R: Row>(input: &mut Input) -> Result<Item<R>, Unread>
    ensures gives { Gives (item_value R.value) result input.new (byte_up_to MAX_ENTRIES input.old |>> (λ count. Whole (items.Entries count.0) count.1)) }
    ensures sure { NeedsNoMemory result }
{
    Ok(Item::Entries {
        count: input.byte_up_to(MAX_ENTRIES)?,
    })
}

// Reads how many further rows of a box follow.
fn read_rest<R: Row>(input: &mut Input) -> Result<Item<R>, Unread>
    ensures gives { Gives (item_value R.value) result input.new (number_up_to w32 MAX_REST input.old |>> (λ count. Whole (items.Rest count.0) count.1)) }
    ensures sure { NeedsNoMemory result }
{
    Ok(Item::Rest {
        count: input.number_u32_up_to(MAX_REST)?,
    })
}

// Reads a cut and the fingerprints of its parts.
#[tactic(auto, unfolding(crate::specs::ItemReading::split_at))]
fn read_split<R: Row>(alloc: Global, input: &mut Input) -> Result<Item<R>, Unread>
    ensures gives { Gives (item_value R.value) result input.new (split_at input.old) }
    ensures asked { IsErrOf result unread.NoMemory → CutAsks input.old }
{
    let at = read_cut(alloc, input)?;
    read_halves(at, input)
}

// Reads the fingerprints of the parts of a cut, which is handed over: it is let go here where they are not read.
fn read_halves<R: Row>(at: CutAt, input: &mut Input) -> Result<Item<R>, Unread>
    ensures gives { Gives (item_value R.value) result input.new
        (bytes_at 32 input.old |>> (λ lower. bytes_at 32 lower.1 |>> (λ upper. Whole (items.Split at lower.0 upper.0) upper.1))) }
    ensures sure { NeedsNoMemory result }
{
    let lower: [u8; 32] = input.array()?;
    let upper: [u8; 32] = input.array()?;
    Ok(Item::Split { at, lower, upper })
}

// Reads the dimension and the point of a cut.
#[tactic(auto, unfolding(crate::specs::ItemReading::cut_at, crate::specs::ItemReading::point_at))]
fn read_cut(alloc: Global, input: &mut Input) -> Result<CutAt, Unread>
    ensures gives { Gives (λ cut. cut) result input.new (cut_at input.old) }
    ensures asked { IsErrOf result unread.NoMemory → CutAsks input.old }
{
    match input.byte()? {
        0 => Ok(CutAt::Subspace(read_user_key(input)?)),
        1 => Ok(CutAt::Path(read_path(alloc, input)?)),
        _ => Err(Unread::Wrong),
    }
}

// Reads a cut in parts, with the fingerprints of these.
#[tactic(auto, unfolding(crate::specs::ItemReading::cut_in_parts_at, crate::specs::ItemReading::behind_dimension))]
fn read_parts<R: Row>(alloc: Global, input: &mut Input) -> Result<Item<R>, Unread>
    ensures gives { Gives (item_value R.value) result input.new (cut_in_parts_at input.old) }
    ensures asked { IsErrOf result unread.NoMemory → PartsAsk input.old }
{
    match input.byte()? {
        0 => read_counted(alloc, input, 0),
        1 => read_counted(alloc, input, 1),
        2 => read_counted(alloc, input, 2),
        _ => Err(Unread::Wrong),
    }
}

// Reads the number of the points of a dimension, the points and the fingerprints.
#[tactic(auto, unfolding(crate::specs::ItemReading::counted_at))]
fn read_counted<R: Row>(alloc: Global, input: &mut Input, dimension: u8) -> Result<Item<R>, Unread>
    ensures gives { Gives (item_value R.value) result input.new (counted_at dimension input.old) }
    ensures asked { IsErrOf result unread.NoMemory → CountedAsk dimension input.old }
{
    let count = input.byte_up_to(MAX_POINTS)?;
    if count == 0 {
        return Err(Unread::Wrong);
    }
    read_behind_count(alloc, input, dimension, count)
}

// Reads so many points of a dimension, and one fingerprint more.
#[tactic(auto, unfolding(crate::specs::ItemReading::points_at))]
fn read_behind_count<R: Row>(
    alloc: Global,
    input: &mut Input,
    dimension: u8,
    count: u8,
) -> Result<Item<R>, Unread>
    requires some { 0 < count }
    requires few { count ≤ MAX_POINTS }
    ensures gives { Gives (item_value R.value) result input.new (points_at dimension count input.old) }
    ensures asked { IsErrOf result unread.NoMemory → IsWhole (part_point_at dimension input.old) }
{
    let points = read_points(alloc, input, dimension, count)?;
    let prints = read_prints(alloc, input, usize::from(count) + 1)?;
    Ok(Item::Parts { points, prints })
}

// Reads so many points of a dimension.
fn read_points(alloc: Global, input: &mut Input, dimension: u8, count: u8) -> Result<Points, Unread>
    requires some { 0 < count }
    requires few { count ≤ MAX_POINTS }
    ensures gives { Gives (λ points. points) result input.new (many_at (part_point_at dimension) count input.old) }
    ensures asked { IsErrOf result unread.NoMemory → IsWhole (part_point_at dimension input.old) }
{
    let mut points = Points::new(alloc);
    for _ in 0..count {
        let point = read_point(alloc, input, dimension)?;
        points.push(point)?;
    }
    Ok(points)
}

// Reads a point of a dimension.
#[tactic(auto, unfolding(crate::specs::ItemReading::part_point_at))]
fn read_point(alloc: Global, input: &mut Input, dimension: u8) -> Result<CutAt, Unread>
    ensures gives { Gives (λ point. point) result input.new (part_point_at dimension input.old) }
    ensures of { IfOk result (λ point. points.dimension point ≡ dimension) }
    ensures asked { IsErrOf result unread.NoMemory → IsWhole (part_point_at dimension input.old) }
{
    match dimension {
        0 => Ok(CutAt::Subspace(read_user_key(input)?)),
        1 => Ok(CutAt::Path(read_path(alloc, input)?)),
        2 => Ok(CutAt::Time(input.number_u64()?)),
        _ => Err(Unread::Wrong),
    }
}

// Reads so many fingerprints.
fn read_prints(alloc: Global, input: &mut Input, count: usize) -> Result<Prints, Unread>
    ensures gives { Gives (λ prints. prints) result input.new (many_at (bytes_at 32) count input.old) }
{
    let mut prints = Prints::new(alloc);
    for _ in 0..count {
        let print: [u8; 32] = input.array()?;
        prints.push(print)?;
    }
    Ok(prints)
}

// Reads the row in a frame.
#[tactic(auto, unfolding(crate::specs::ItemReading::body_at))]
pub(crate) fn read_row<F: RowForm>(alloc: Global, input: &mut Input) -> Result<F::R, Unread>
    ensures gives { GivesRow F.IsRow F.R.value result input.new (body_at input.old) }
    ensures asked { IsErrOf result unread.NoMemory → FrameAsks input.old }
{
    let body = read_body(input)?;
    F::read(alloc, body)?.ok_or(Unread::Wrong)
}

// Reads the length of a frame's body, and the body.
#[tactic(auto, unfolding(crate::specs::ItemReading::body_at, spelling::specs::Reading::text_at))]
fn read_body<'a>(input: &mut Input<'a>) -> Result<&'a [u8], Unread>
    ensures read { Gives (λ body. body.now) result input.new (body_at input.old) }
    ensures sure { NeedsNoMemory result }
{
    let len = input.number_u32_up_to(MAX_FRAME as u32)? as usize;
    input.slice(len)
}
