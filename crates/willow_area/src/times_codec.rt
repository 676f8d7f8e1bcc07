//! How ranges of times are spelled as bytes, and read back.

ghost use Rattle.std.specs.Prelude.{◌≡◌, ℕ, ◌<◌, ◌++◌, List, OnOk, OnErr, IfOk, IfSome};
ghost use Rattle.spelling.specs.Form.{AreBytes};
ghost use Rattle.spelling.specs.Reading.{Gives, NeedsNoMemory, option_at};
ghost use Rattle.willow_area.specs.TimesSpelling.{above_at, byte_or_ff, highest, times_at, times_spelling};

use crate::times::TimeRange;
use spelling::{Input, Unread, guard};

// Reads a range of times: its start, and a byte 00 or a byte 01 and its end. It is wrong as soon as no end
// above the start begins with the bytes read.
#[tactic(auto, unfolding(crate::specs::TimesSpelling::times_at))]
pub(crate) fn read_times(input: &mut Input) -> Result<TimeRange, Unread>
    ensures read { Gives (λ times. times) result input.new (times_at input.old) }
    ensures sure { NeedsNoMemory result }
{
    let start = input.number_u64()?;
    let end = read_end(input, start)?;
    TimeRange::new(start, end).ok_or(Unread::Wrong)
}

// Reads an end that is above the start, or none.
#[tactic(auto, unfolding(spelling::specs::Reading::option_at, spelling::specs::Reading::behind_flag))]
fn read_end(input: &mut Input, start: u64) -> Result<Option<u64>, Unread>
    ensures read { Gives (λ end. end) result input.new (option_at (above_at start) input.old) }
    ensures above { IfOk result (λ end. IfSome end (λ e. start < e)) }
    ensures sure { NeedsNoMemory result }
{
    match input.byte()? {
        0 => Ok(None),
        1 => Ok(Some(read_above(input, start)?)),
        _ => Err(Unread::Wrong),
    }
}

// Reads a number above the start.
#[tactic(auto, unfolding(crate::specs::TimesSpelling::above_at))]
fn read_above(input: &mut Input, start: u64) -> Result<u64, Unread>
    ensures read { Gives (λ n. n) result input.new (above_at start input.old) }
    ensures above { IfOk result (λ n. start < n) }
    ensures sure { NeedsNoMemory result }
{
    guard(start < highest(input.front()))?;
    input.number_u64()
}

// The highest number of eight bytes that begins with the bytes, or that they begin with.
#[tactic(auto, unfolding(crate::specs::TimesSpelling::highest))]
fn highest(bytes: &[u8]) -> u64
    ensures highest { result ≡ highest bytes.now }
    ensures bytes { AreBytes bytes.now }
{
    u64::from_be_bytes([
        byte_or_ff(bytes, 0),
        byte_or_ff(bytes, 1),
        byte_or_ff(bytes, 2),
        byte_or_ff(bytes, 3),
        byte_or_ff(bytes, 4),
        byte_or_ff(bytes, 5),
        byte_or_ff(bytes, 6),
        byte_or_ff(bytes, 7),
    ])
}

// The byte at a place, or ff behind the end.
fn byte_or_ff(bytes: &[u8], i: usize) -> u8
    ensures { result ≡ byte_or_ff bytes.now i }
{
    match bytes.get(i) {
        Some(byte) => *byte,
        None => u8::MAX,
    }
}
