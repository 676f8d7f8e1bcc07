//! The hash values behind blocks that messages begin with.

ghost use Rattle.std.specs.Prelude.{◌≡◌, ℕ, ◌<◌, IfSome, slice_index};
ghost use Rattle.sha2.specs.Sha256.{compress, initial_hash_256};
ghost use Rattle.sha_lanes.specs.Lanes.{hash_in, one_of};
ghost use Rattle.sha_lanes.specs.declared.first_blocks.TheConstants.{PLACES};

use crate::compression::{State, compress, initial_state};
use crate::loading::load_values;
use crate::schedule::first_words;
use crate::storing::value_in;

/// A block that messages begin with, and the hash value behind it.
#[derive(Clone, Copy)]
struct FirstBlock {
    block: [u8; 64],
    value: [u32; 8],
    ghost behind: { value ≡ compress initial_hash_256 block },
}

/// How many first blocks are kept.
const PLACES: usize = 16;

/// First blocks of messages that were hashed, the latest few. What one user signs in one namespace begins with the same
/// block.
#[derive(Drop)]
pub(crate) struct FirstBlocks {
    kept: [Option<FirstBlock>; PLACES],
    next: usize,
    ghost in_range: { next < PLACES },
}

impl FirstBlocks {
    /// No block.
    pub(crate) fn none() -> FirstBlocks {
        FirstBlocks {
            kept: [None; PLACES],
            next: 0,
        }
    }

    /// The hash value behind a block, where it is kept.
    fn value_behind(&self, block: &[u8; 64]) -> Option<[u32; 8]>
        ensures { IfSome result (λ value. value ≡ compress initial_hash_256 block.now) }
    {
        'search: for kept in &self.kept {
            match kept {
                // Where a user's key ends, blocks of several users differ: so this byte tells most of them apart.
                Some(first) if first.block[32] == block[32] && first.block == *block => {
                    return Some(first.value);
                }
                Some(_) => (),
                None => return None,
            }
        }
        None
    }

    /// Keeps a block with the hash value behind it, in place of the one that is kept longest where there are many.
    fn keep(&mut self, block: &[u8; 64], value: [u32; 8])
        requires { value ≡ compress initial_hash_256 block.now }
    {
        self.kept[self.next] = Some(FirstBlock {
            block: *block,
            value,
        });
        self.next = (self.next + 1) % PLACES;
    }

    /// The hash values behind four first blocks, one a lane. Nothing is compressed where all four are kept; else those
    /// are kept that were not.
    pub(crate) fn state_behind(
        &mut self,
        first: &[u8; 64],
        second: &[u8; 64],
        third: &[u8; 64],
        fourth: &[u8; 64],
    ) -> State
        ensures { (l : ℕ) → l < 4 → hash_in result l ≡ compress initial_hash_256 (one_of first.now second.now third.now fourth.now l) }
    {
        let found = (
            self.value_behind(first),
            self.value_behind(second),
            self.value_behind(third),
            self.value_behind(fourth),
        );
        if let (Some(one), Some(two), Some(three), Some(four)) = &found {
            return load_values(one, two, three, four);
        }
        let state = compress(initial_state(), first_words(first, second, third, fourth));
        if found.0.is_none() {
            self.keep(first, value_in(&state, 0));
        }
        if found.1.is_none() {
            self.keep(second, value_in(&state, 1));
        }
        if found.2.is_none() {
            self.keep(third, value_in(&state, 2));
        }
        if found.3.is_none() {
            self.keep(fourth, value_in(&state, 3));
        }
        state
    }
}
