//! Fingerprints of the own rows of a box.

ghost use Rattle.std.specs.Prelude.{◌≡◌, map};
ghost use Rattle.block_store.specs.Fingerprint.{fingerprint_of};
ghost use Rattle.block_store.specs.InBox.{rows_in};
ghost use Rattle.sync_core.specs.Orders.{IsOrderOf};

use block_store::{Snapshot, TimeOrder};
use std::marker::Brand;
use std::sync::ledger::{Blank, Ledger};
use step_count::Steps;
use willow_area::Box3;
use willow_entry::Row;

// The fingerprint of the rows of a box, along the order where there is one.
pub(crate) fn print_of<R: Row>(
    snapshot: &Snapshot<R>,
    order: &Option<TimeOrder>,
    area: &Box3,
) -> [u8; 32]
    requires { IsOrderOf order.now (map R.value snapshot.now) }
    ensures { result ≡ fingerprint_of (rows_in area.now (map R.value snapshot.now)) }
{
    counted_print::<R, Brand>(snapshot, order, area, Blank::new(1))
}

// The same, with a new counter of steps.
fn counted_print<R: Row, L: Ledger>(
    snapshot: &Snapshot<R>,
    order: &Option<TimeOrder>,
    area: &Box3,
    blank: Blank,
) -> [u8; 32]
    requires order { IsOrderOf order.now (map R.value snapshot.now) }
    requires name { blank.name ≡ L.name }
    requires parts { blank.parts ≡ L.parts }
    requires one { blank.parts ≡ 1 }
    ensures { result ≡ fingerprint_of (rows_in area.now (map R.value snapshot.now)) }
{
    let mut steps = Steps::<L>::new(blank);
    match order {
        None => snapshot.fingerprint(area, &mut steps),
        Some(order) => order.fingerprint(snapshot, area, &mut steps),
    }
}
