//! The message at the front of the bytes of a feed.

ghost use Rattle.std.specs.Prelude.{◌≡◌, ◌<◌, option_map, IfOk};
ghost use Rattle.spelling.specs.Reading.{Gives, NeedsNoMemory};
ghost use Rattle.sync_msg.specs.ItemReading.{body_at};
ghost use Rattle.sync_follow.specs.Grammar.{text_in_feed};
ghost use Rattle.sync_follow.specs.Hearing.{Finds, text_of};

use cap_codec::{RawRow, RawRows};
use ns_state::LOG_LIMIT;
use spelling::{Input, NoMemory, Unread, guard};
use std::alloc::Global;
use willow_entry::{MAX_FRAME, RowForm};

// What stands at the front of bytes.
#[derive(Drop)]
pub(crate) enum Found {
    // A part of a message.
    More,
    // Something else.
    Bad,
    // A row, in so many bytes.
    Row(RawRow, usize),
    // The end, in so many bytes.
    Stop(usize),
}

// The message at the front of the bytes, which stand behind so many rows.
pub(crate) fn find(alloc: Global, count: u32, bytes: &[u8]) -> Result<Found, NoMemory>
    ensures { IfOk result (λ found. Finds count bytes.now found) }
{
    let mut input = Input::new(bytes);
    match read_text(count, &mut input) {
        Ok(Some(body)) => match RawRows::read(alloc, body)? {
            Some(row) => Ok(Found::Row(row, input.taken_of(bytes))),
            None => Ok(Found::Bad),
        },
        Ok(None) => Ok(Found::Stop(input.taken_of(bytes))),
        Err(Unread::Part) => Ok(Found::More),
        Err(Unread::Wrong) => Ok(Found::Bad),
        Err(Unread::NoMemory) => Err(NoMemory),
    }
}

// Reads the body of a frame, whatever it is, or the end, which is None.
#[tactic(auto, unfolding(crate::specs::Grammar::text_in_feed, crate::specs::Grammar::behind_kind, crate::specs::Grammar::framed_at, crate::specs::Grammar::stop_at))]
fn read_text<'a>(count: u32, input: &mut Input<'a>) -> Result<Option<&'a [u8]>, Unread>
    ensures gives { Gives (λ text. text_of (option_map (λ body. body.now) text)) result input.new (text_in_feed count input.old) }
    ensures sure { NeedsNoMemory result }
{
    let kind = input.byte()?;
    if kind == 10 {
        guard((count as usize) < LOG_LIMIT)?;
        return Ok(Some(read_body(input)?));
    }
    guard(kind == 11)?;
    input.exactly(&count.to_be_bytes())?;
    Ok(None)
}

// Reads the length of a frame's body, and the body.
#[tactic(auto, unfolding(sync_msg::specs::ItemReading::body_at, spelling::specs::Reading::text_at))]
fn read_body<'a>(input: &mut Input<'a>) -> Result<&'a [u8], Unread>
    ensures read { Gives (λ body. body.now) result input.new (body_at input.old) }
    ensures sure { NeedsNoMemory result }
{
    let len = input.number_u32_up_to(MAX_FRAME as u32)? as usize;
    input.slice(len)
}
