//! A counter that counts.

ghost use Rattle.std.specs.Prelude.{◌≡◌};

use std::marker::Brand;
use std::sync::ledger::{Blank, Ledger};
use std::test::*;
use step_count::Steps;

// Three steps of a counter over the ledger.
fn three_steps<L: Ledger>(blank: Blank) -> bool
    requires name { blank.name ≡ L.name }
    requires parts { blank.parts ≡ L.parts }
    requires one { blank.parts ≡ 1 }
{
    let mut steps = Steps::<L>::new(blank);
    for _ in 0..3 {
        steps.tick();
    }
    true
}

#[test]
fn counts(rt: HostRuntime) {
    assert!(rt; three_steps::<Brand>(Blank::new(1)));
}
