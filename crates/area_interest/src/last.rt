//! The last of the items that limits leave.

ghost use Rattle.std.specs.Prelude.{◌≡◌, ◌+◌, ◌≤◌, ◌&&◌, length};
ghost use Rattle.area_interest.specs.Interest.{front, is_within};
ghost use Rattle.area_interest.specs.Kept.{LastOf, item_size};

use recency_index::{Ranked, Recency};

// Whether a limit leaves so many.
fn is_within(limit: Option<u64>, n: u128) -> bool
    ensures { result ≡ is_within limit n }
{
    match limit {
        None => true,
        Some(most) => n <= u128::from(most),
    }
}

// Whether both limits leave one item more, with which the sizes sum to so much.
fn are_within(count: Option<u64>, bytes: Option<u64>, taken: u32, sum: u128) -> bool
    ensures { result ≡ (is_within count (taken + 1) && is_within bytes sum) }
{
    is_within(count, u128::from(taken) + 1) && is_within(bytes, sum)
}

// The size of an item.
fn size_of(item: &Ranked) -> u128
    ensures size { result ≡ item.now.length }
    ensures small { result ≤ 18446744073709551615 }
{
    u128::from(item.length)
}

// The last of the items that the limits leave, which are at most so many; None exactly where they leave none.
pub(crate) fn last_within<'a>(
    index: &'a Recency,
    most: u32,
    count: Option<u64>,
    bytes: Option<u64>,
) -> Option<&'a Ranked>
    requires { length index.now.items ≤ most }
    ensures { LastOf (front item_size count bytes 0 0 index.now.items) result }
{
    let mut last = None;
    let mut sum = 0u128;
    let mut at = index.first();
    for taken in 0..most {
        let Some(slot) = at else {
            return last;
        };
        let Some(item) = index.at(slot) else {
            unreachable!()
        };
        let size = size_of(item);
        let more = sum + size;
        if !are_within(count, bytes, taken, more) {
            return last;
        }
        last = Some(item);
        sum = more;
        at = index.next(slot);
    }
    last
}
