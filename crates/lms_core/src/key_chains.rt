//! The 34 chains of a one-time key, which run side by side.

ghost use Rattle.std.specs.Prelude.{◌≡◌, ◌++◌, ◌*◌, length, map, OnOk};
ghost use Rattle.lms_core.specs.OneTime.{one_time_key};
ghost use Rattle.lms_core.specs.KeyChains.{lengthened, secret_chains, told_chains, values_of};

use crate::bytes::field_at;
use crate::hashing::{D_PBLC, chain_step, input_front};
use crate::one_time::CHAINS;
use sha_lanes::Chain;
use sha2::{Digest, Sha256};
use spelling::NoMemory;

/// A chain without steps.
const NO_CHAIN: Chain = Chain {
    front: [0; 22],
    at: 0,
    to: 0,
    value: [0; 32],
};

/// The chains of a signature, each from its value at its digit on.
pub(crate) fn told_chains(
    identifier: &[u8; 16],
    index: u32,
    digits: &[u8; 34],
    values: &[u8],
) -> [Chain; 34]
    requires { length values.now ≡ 1088 }
    ensures { result ≡ told_chains identifier.now index 0 digits.now values.now }
{
    let mut chains = [NO_CHAIN; CHAINS];
    'told: for number in 0..CHAINS {
        chains[number] = Chain {
            front: input_front(identifier, index, number as u16),
            at: digits[number],
            to: 255,
            value: field_at::<32>(values, 32 * number),
        };
    }
    chains
}

/// The chains of a leaf, each from its start up to its digit.
pub(crate) fn secret_chains(
    identifier: &[u8; 16],
    seed: &[u8; 32],
    index: u32,
    digits: &[u8; 34],
) -> [Chain; 34]
    ensures { result ≡ secret_chains identifier.now seed.now index 0 digits.now }
{
    let mut chains = [NO_CHAIN; CHAINS];
    'chains: for number in 0..CHAINS {
        let front = input_front(identifier, index, number as u16);
        chains[number] = Chain {
            front,
            at: 0,
            to: digits[number],
            value: chain_step(&front, 255, seed),
        };
    }
    chains
}

/// Lets chains go on to their ends.
pub(crate) fn lengthen(chains: &mut [Chain; 34])
    ensures { chains.new ≡ map lengthened chains.old }
{
    'chains: for number in 0..CHAINS {
        chains[number].to = 255;
    }
}

/// Appends the values of chains.
pub(crate) fn append_values(chains: &[Chain; 34], out: &mut Vec<u8>) -> Result<(), NoMemory>
    ensures { OnOk result (out.new.items ≡ out.old.items ++ values_of chains.now) }
{
    'chains: for chain in chains {
        out.extend_from_slice(&chain.value)?;
    }
    Ok(())
}

/// The one-time public key of chains at their ends.
pub(crate) fn key_of_ends(identifier: &[u8; 16], index: u32, chains: &[Chain; 34]) -> [u8; 32]
    ensures { result ≡ one_time_key identifier.now index (values_of chains.now) }
{
    let mut hasher = Sha256::new();
    hasher.update(input_front(identifier, index, D_PBLC));
    'chains: for chain in chains {
        hasher.update(chain.value);
    }
    hasher.finalize()
}
