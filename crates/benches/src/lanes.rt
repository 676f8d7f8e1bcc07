//! Digests four at a time, beside the same work one by one.

use sha_lanes::{Chain, Message, run_chains, sha256_all};

// How many chains a one-time key has, and how many messages a list.
const CHAINS: usize = 34;

const LIST: usize = 64;

// The last value of so many leaves, each of 34 chains of 255 steps. The chains of a leaf begin at an end of the leaf
// before.
pub(crate) fn chains(rounds: u32) -> [u8; 32] {
    let mut value = [0; 32];
    for leaf in 0..rounds {
        let mut front = [9; 22];
        front[16..20].copy_from_slice(&leaf.to_be_bytes());
        let mut chains = [Chain {
            front,
            at: 0,
            to: 255,
            value,
        }; CHAINS];
        for number in 0..CHAINS {
            chains[number].front[21] = number as u8;
        }
        run_chains(&mut chains);
        value = chains[CHAINS - 1].value;
    }
    value
}

// The digests of a list of bodies: by turns of 154 bytes, in two pieces, and of 68.
fn list_digests(bodies: &[[u8; 154]; LIST], digests: &mut [[u8; 32]; LIST]) {
    let mut messages = [Message {
        front: &[],
        rest: &[],
    }; LIST];
    for number in 0..LIST {
        let end = if number % 2 == 0 { 154 } else { 68 };
        messages[number] = Message {
            front: &bodies[number][..33],
            rest: &bodies[number][33..end],
        };
    }
    sha256_all(&messages, digests);
}

// Lets a body begin with a digest.
fn begin_with(body: &mut [u8; 154], digest: &[u8; 32]) {
    body[..32].copy_from_slice(digest);
}

// The last digest of so many lists of 64 messages. Each message begins with the digest of the one at its place in the
// list before.
pub(crate) fn lists(rounds: u32) -> [u8; 32] {
    let mut bodies = [[7; 154]; LIST];
    let mut digests = [[0; 32]; LIST];
    for _ in 0..rounds {
        for number in 0..LIST {
            begin_with(&mut bodies[number], &digests[number]);
        }
        list_digests(&bodies, &mut digests);
    }
    digests[LIST - 1]
}
