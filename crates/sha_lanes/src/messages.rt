//! Digests of many messages, four at a time.

ghost use Rattle.std.specs.Prelude.{◌≡◌, ℕ, ◌<◌, ◌≤◌, map, length, slice_index};
ghost use Rattle.sha2.specs.Sha256.{hash_after, initial_hash_256, padded_message};
ghost use Rattle.sha_lanes.specs.Lanes.{hash_in};
ghost use Rattle.sha_lanes.specs.Message.{AreAlike, block_count, bytes_of, digest_of};
ghost use Rattle.sha_lanes.specs.Windows.{AreHashed, IsBeside, IsHashed, message_at};

use crate::compression::{State, compress, initial_state};
use crate::first_blocks::FirstBlocks;
use crate::message::Message;
use crate::schedule::first_words;
use crate::storing::digests;

/// The digests of four messages that have equally many blocks with their padding, from the hash values behind some of
/// their blocks.
fn digests_from(messages: &[Message<'_>; 4], state: State, from: usize) -> [[u8; 32]; 4]
    requires alike { AreAlike messages.now }
    requires from { from ≤ block_count (bytes_of (message_at messages.now 0)) }
    requires state { (l : ℕ) → l < 4 → hash_in state l ≡ hash_after initial_hash_256 (padded_message (bytes_of (message_at messages.now l))) from }
    ensures { result ≡ map digest_of messages.now }
{
    let [first, second, third, fourth] = *messages;
    let mut state = state;
    'numbers: for number in from..first.block_count() {
        let words = first_words(
            &first.block(number),
            &second.block(number),
            &third.block(number),
            &fourth.block(number),
        );
        state = compress(state, words);
    }
    digests(&state)
}

/// The digests of four messages that have equally many blocks with their padding.
pub fn sha256_four(messages: &[Message<'_>; 4]) -> [[u8; 32]; 4]
    requires { AreAlike messages.now }
    ensures { result ≡ map digest_of messages.now }
{
    digests_from(messages, initial_state(), 0)
}

/// The digests of four messages that have equally many blocks with their padding. The hash values behind first blocks
/// are kept, and taken where they are kept. Messages of one block go without: it is seldom the same.
fn digests_beside(messages: &[Message<'_>; 4], known: &mut FirstBlocks) -> [[u8; 32]; 4]
    requires { AreAlike messages.now }
    ensures { result ≡ map digest_of messages.now }
{
    let [first, second, third, fourth] = *messages;
    if first.block_count() < 2 {
        return sha256_four(messages);
    }
    let state = known.state_behind(
        &first.block(0),
        &second.block(0),
        &third.block(0),
        &fourth.block(0),
    );
    digests_from(messages, state, 1)
}

/// How many messages in a row are looked at for some that have equally many blocks.
const WINDOW: usize = 64;

/// Three messages behind the first that are not hashed and have as many blocks; the first in place of those that
/// are not found.
fn beside(messages: &[Message<'_>], hashed: &[bool; 64], first: usize) -> [usize; 3]
    requires { first < length messages.now }
    ensures second { IsBeside messages.now first (slice_index result 0) }
    ensures third { IsBeside messages.now first (slice_index result 1) }
    ensures fourth { IsBeside messages.now first (slice_index result 2) }
{
    let count = messages[first].block_count();
    let mut places = [first; 3];
    let mut found = 0;
    'search: for place in first + 1..messages.len().min(first + WINDOW) {
        if !hashed[place % WINDOW] && messages[place].block_count() == count {
            places[found] = place;
            found += 1;
            if found == 3 {
                return places;
            }
        }
    }
    places
}

/// Hashes the first message and three beside it.
fn hash_beside(
    messages: &[Message<'_>],
    digests: &mut [[u8; 32]],
    known: &mut FirstBlocks,
    first: usize,
    second: usize,
    third: usize,
    fourth: usize,
)
    requires long { length digests.old ≡ length messages.now }
    requires first { first < length messages.now }
    requires second { IsBeside messages.now first second }
    requires third { IsBeside messages.now first third }
    requires fourth { IsBeside messages.now first fourth }
    ensures long { length digests.new ≡ length messages.now }
    ensures keeps { (k : ℕ) → IsHashed messages.now digests.old k → IsHashed messages.now digests.new k }
    ensures first { IsHashed messages.now digests.new first }
    ensures second { IsHashed messages.now digests.new second }
    ensures third { IsHashed messages.now digests.new third }
    ensures fourth { IsHashed messages.now digests.new fourth }
{
    let four = [
        messages[first],
        messages[second],
        messages[third],
        messages[fourth],
    ];
    let made = digests_beside(&four, known);
    digests[first] = made[0];
    digests[second] = made[1];
    digests[third] = made[2];
    digests[fourth] = made[3];
}

/// Hashes the first message where it is not hashed yet, with some beside it where there are any.
fn hash_first(
    messages: &[Message<'_>],
    digests: &mut [[u8; 32]],
    hashed: &mut [bool; 64],
    known: &mut FirstBlocks,
    first: usize,
)
    requires first { first < length messages.now }
    requires held { AreHashed messages.now digests.old hashed.old first }
    ensures held { AreHashed messages.now digests.new hashed.new first }
    ensures first { IsHashed messages.now digests.new first }
{
    if hashed[first % WINDOW] {
        return;
    }
    let [second, third, fourth] = beside(messages, hashed, first);
    if third == first {
        digests[first] = messages[first].digest();
        return;
    }
    hash_beside(messages, digests, known, first, second, third, fourth);
    hashed[second % WINDOW] = true;
    hashed[third % WINDOW] = true;
    hashed[fourth % WINDOW] = true;
}

/// The digests of messages of any lengths. It takes no memory.
///
/// Messages that have equally many blocks and stand fewer than 64 places apart are hashed four at a time, or three
/// where no fourth is left; the rest one by one. Where all four begin with
/// blocks that were hashed a little before, these are not compressed again.
pub fn sha256_all(messages: &[Message<'_>], digests: &mut [[u8; 32]])
    requires { length digests.old ≡ length messages.now }
    ensures { digests.new ≡ map digest_of messages.now }
{
    let mut hashed = [false; WINDOW];
    let mut known = FirstBlocks::none();
    'messages: for first in 0..messages.len() {
        hash_first(messages, digests, &mut hashed, &mut known, first);
        hashed[first % WINDOW] = false;
    }
}
