//! Messages in two pieces, and their blocks (FIPS 180-4, sections 5.1 and 5.2).

ghost use Rattle.std.specs.Prelude.{◌≡◌, ◌+◌, ◌-◌, ◌*◌, ◌%◌, ◌<◌, ◌≤◌, ◌∷◌, ◌++◌, length, take, drop, replicate};
ghost use Rattle.sha2.specs.Sha256.{padded_message};
ghost use Rattle.sha_lanes.specs.Message.{block_count, bytes_of, digest_of};

use sha2::{Digest, Sha256};

/// A message in two pieces, one behind the other. Nothing is copied to join them.
#[derive(Clone, Copy)]
pub struct Message<'a> {
    /// The first piece.
    pub front: &'a [u8],
    /// The piece behind it.
    pub rest: &'a [u8],
}

// The padding's first bytes: a bit 1, then zeros.
const PADDING: [u8; 64] = [
    0x80, 0, 0, 0, 0, 0, 0, 0, 0, 0, 0, 0, 0, 0, 0, 0, 0, 0, 0, 0, 0, 0, 0, 0, 0, 0, 0, 0, 0, 0, 0,
    0, 0, 0, 0, 0, 0, 0, 0, 0, 0, 0, 0, 0, 0, 0, 0, 0, 0, 0, 0, 0, 0, 0, 0, 0, 0, 0, 0, 0, 0, 0, 0,
    0,
];

/// The bytes from the end of a message of `length` bytes to the length field.
fn padding(length: usize) -> &'static [u8]
    ensures { result.now ≡ 0x80 ∷ replicate ((119 - length % 64) % 64) 0 }
{
    &PADDING[..(119 - length % 64) % 64 + 1]
}

/// Puts what a block has of a piece into it, behind the `used` bytes that it has already. The block begins `skip`
/// bytes into the piece. Answers how many bytes the block then has.
fn put_piece(block: &mut [u8; 64], used: usize, piece: &[u8], skip: u128) -> usize
    requires { used ≤ 64 }
    ensures room { result ≤ 64 }
    ensures put { take result block.new ≡ take used block.old ++ take (64 - used) (drop skip piece.now) }
{
    if skip >= piece.len() as u128 {
        return used;
    }
    let skip = skip as usize;
    let count = (piece.len() - skip).min(64 - used);
    block[used..used + count].copy_from_slice(&piece[skip..skip + count]);
    used + count
}

/// The block that begins `skip` bytes into a piece.
fn block_at(piece: &[u8], skip: usize) -> [u8; 64]
    requires { skip + 64 ≤ length piece.now }
    ensures { result ≡ take 64 (drop skip piece.now) }
{
    let mut block = [0; 64];
    block.copy_from_slice(&piece[skip..skip + 64]);
    block
}

/// The last block of a message, of which it has these bytes, with the whole padding behind them.
fn last_block(bytes: &[u8], bit_length: [u8; 8]) -> [u8; 64]
    requires { length bytes.now < 56 }
    ensures { result ≡ (bytes.now ++ 0x80 ∷ replicate (55 - length bytes.now) 0) ++ bit_length }
{
    let mut block = [0; 64];
    block[..bytes.len()].copy_from_slice(bytes);
    block[bytes.len()] = 0x80;
    block[56..].copy_from_slice(&bit_length);
    block
}

impl Message<'_> {
    /// How many bytes the message has.
    fn length(&self) -> usize
        ensures { result ≡ length (bytes_of self.now) }
    {
        self.front.len() + self.rest.len()
    }

    /// How many blocks the message has with its padding.
    pub fn block_count(&self) -> usize
        ensures { result ≡ block_count (bytes_of self.now) }
    {
        let length = self.length();
        if length % 64 < 56 {
            length / 64 + 1
        } else {
            length / 64 + 2
        }
    }

    /// The block at byte `start` of the message, which has none of the padding.
    fn block_within(&self, start: usize) -> [u8; 64]
        requires { start + 64 ≤ length (bytes_of self.now) }
        ensures { result ≡ take 64 (drop start (bytes_of self.now)) }
    {
        if self.front.len() <= start {
            return block_at(self.rest, start - self.front.len());
        }
        let mut block = [0; 64];
        let used = put_piece(&mut block, 0, self.front, start as u128);
        put_piece(&mut block, used, self.rest, 0);
        block
    }

    /// A block of the message with its padding.
    pub(crate) fn block(&self, number: usize) -> [u8; 64]
        requires { number < block_count (bytes_of self.now) }
        ensures { result ≡ take 64 (drop (number * 64) (padded_message (bytes_of self.now))) }
    {
        let length = self.length();
        if number < length / 64 {
            return self.block_within(number * 64);
        }
        let bit_length = (length as u64).wrapping_mul(8).to_be_bytes();
        if number == length / 64 && length % 64 < 56 && self.front.len() <= number * 64 {
            return last_block(&self.rest[number * 64 - self.front.len()..], bit_length);
        }
        let zeros = padding(length);
        // Of the longest messages the last block begins at 2^64.
        let start = number as u128 * 64;
        let behind_front = start.saturating_sub(self.front.len() as u128);
        let behind_rest = behind_front.saturating_sub(self.rest.len() as u128);
        let behind_zeros = behind_rest.saturating_sub(zeros.len() as u128);
        let mut block = [0; 64];
        let mut used = put_piece(&mut block, 0, self.front, start);
        used = put_piece(&mut block, used, self.rest, behind_front);
        used = put_piece(&mut block, used, zeros, behind_rest);
        put_piece(&mut block, used, &bit_length, behind_zeros);
        block
    }

    /// The digest of this message alone.
    pub fn digest(&self) -> [u8; 32]
        ensures { result ≡ digest_of self.now }
    {
        let mut hasher = Sha256::new();
        hasher.update(self.front);
        hasher.update(self.rest);
        hasher.finalize()
    }
}
