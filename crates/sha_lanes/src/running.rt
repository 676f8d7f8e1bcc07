//! Chains run to their ends, four at a time.

ghost use Rattle.std.specs.Prelude.{◌≡◌, ℕ, [], ◌∷◌, ◌+◌, ◌≤◌, map};
ghost use Rattle.sha_lanes.specs.Chain.{advanced, ended};
ghost use Rattle.sha_lanes.specs.Running.{Advances, IsUnfinished};

use crate::chain::Chain;
use crate::loading::load_digests;
use crate::step::{load_fronts, run_steps};
use crate::storing::digests;
use crate::vectors::Vector;
use std::simd::prelude::*;

/// Four chains, each `count` steps on.
fn advanced_four(first: Chain, second: Chain, third: Chain, fourth: Chain, count: u8) -> [Chain; 4]
    requires first { first.at + count ≤ 255 }
    requires second { second.at + count ≤ 255 }
    requires third { third.at + count ≤ 255 }
    requires fourth { fourth.at + count ≤ 255 }
    ensures { result ≡ advanced count first ∷ advanced count second ∷ advanced count third ∷ advanced count fourth ∷ [] }
{
    let fronts = load_fronts(&first.front, &second.front, &third.front, &fourth.front);
    let numbers = Vector::from_array([
        u32::from(first.at),
        u32::from(second.at),
        u32::from(third.at),
        u32::from(fourth.at),
    ]);
    let values = load_digests(&first.value, &second.value, &third.value, &fourth.value);
    let reached = digests(&run_steps(&fronts, numbers, count, values));
    [
        Chain {
            at: first.at + count,
            value: reached[0],
            ..first
        },
        Chain {
            at: second.at + count,
            value: reached[1],
            ..second
        },
        Chain {
            at: third.at + count,
            value: reached[2],
            ..third
        },
        Chain {
            at: fourth.at + count,
            value: reached[3],
            ..fourth
        },
    ]
}

/// How many steps four chains take at most before others may have their lanes. It is a fifth of the longest chain: so
/// the 34 chains of a key share all lanes nearly to the end also where they are equally long.
const MOST_STEPS: u8 = 51;

/// Runs four chains of a list until one of them ends or most steps are taken. A place that is named twice is run once.
fn advance(chains: &mut [Chain], first: usize, second: usize, third: usize, fourth: usize)
    requires first { IsUnfinished chains.old first }
    requires second { IsUnfinished chains.old second }
    requires third { IsUnfinished chains.old third }
    requires fourth { IsUnfinished chains.old fourth }
    ensures { Advances chains.old chains.new first }
{
    let (one, two, three, four) = (chains[first], chains[second], chains[third], chains[fourth]);
    let count = one
        .left()
        .min(two.left())
        .min(three.left())
        .min(four.left())
        .min(MOST_STEPS);
    let advanced = advanced_four(one, two, three, four, count);
    chains[fourth] = advanced[3];
    chains[third] = advanced[2];
    chains[second] = advanced[1];
    chains[first] = advanced[0];
}

/// How many chains from the first on are looked at for one to run beside it.
const WINDOW: usize = 64;

/// A chain to run beside the first: of those behind it that have no lane yet the one with most steps left, and the
/// first itself where there is none.
fn beside(chains: &[Chain], first: usize, second: usize, third: usize) -> usize
    requires { IsUnfinished chains.now first }
    ensures { IsUnfinished chains.now result }
{
    let mut longest = first;
    let mut most = 0;
    'search: for place in first + 1..chains.len().min(first + WINDOW) {
        let left = chains[place].left();
        if left > most && place != second && place != third {
            longest = place;
            most = left;
        }
    }
    longest
}

/// Runs each chain to its end. It takes no memory.
///
/// Chains of any lengths run in four lanes: beside the first that is not at its end those three of the 63 behind it
/// that have most steps left. So nearly no lane is idle before the last steps.
pub fn run_chains(chains: &mut [Chain])
    ensures { chains.new ≡ map ended chains.old }
{
    'chains: for first in 0..chains.len() {
        'steps: while chains[first].left() > 0 {
            let second = beside(chains, first, first, first);
            let third = beside(chains, first, second, second);
            let fourth = beside(chains, first, second, third);
            advance(chains, first, second, third, fourth);
        }
    }
}
