//! Digests out of lanes.

ghost use Rattle.std.specs.Prelude.{◌≡◌, ◌∷◌, [], ◌<◌};
ghost use Rattle.sha2.specs.Sha256.{digest_bytes};
ghost use Rattle.sha_lanes.specs.Lanes.{hash_in};

use crate::compression::State;
use std::simd::prelude::*;

/// The hash value in a lane.
#[inline(always)]
pub(crate) fn value_in(state: &State, lane: usize) -> [u32; 8]
    requires { lane < 4 }
    ensures { result ≡ hash_in state.now lane }
{
    [
        state.a.to_array()[lane],
        state.b.to_array()[lane],
        state.c.to_array()[lane],
        state.d.to_array()[lane],
        state.e.to_array()[lane],
        state.f.to_array()[lane],
        state.g.to_array()[lane],
        state.h.to_array()[lane],
    ]
}

/// The digest in a lane.
fn digest_in(state: &State, lane: usize) -> [u8; 32]
    requires { lane < 4 }
    ensures { result ≡ digest_bytes (hash_in state.now lane) 8 }
{
    let words = value_in(state, lane);
    let mut digest = [0u8; 32];
    'words: for i in 0..8 {
        digest[4 * i..4 * i + 4].copy_from_slice(&words[i].to_be_bytes());
    }
    digest
}

/// The digests, lane by lane.
pub(crate) fn digests(state: &State) -> [[u8; 32]; 4]
    ensures { result ≡ digest_bytes (hash_in state.now 0) 8 ∷ digest_bytes (hash_in state.now 1) 8
        ∷ digest_bytes (hash_in state.now 2) 8 ∷ digest_bytes (hash_in state.now 3) 8 ∷ [] }
{
    [
        digest_in(state, 0),
        digest_in(state, 1),
        digest_in(state, 2),
        digest_in(state, 3),
    ]
}
