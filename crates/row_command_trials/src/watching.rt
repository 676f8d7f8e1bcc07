//! Images that grow by the rows of an input, and what one hears who watches.

ghost use Rattle.std.specs.Prelude.{◌≡◌, IfSome, false};
ghost use Rattle.peer_rows.specs.Watch.{watched_area};
ghost use Rattle.peer_words.specs.Areas.{is_empty};

use crate::bytes::{
    BELOW, BELOW_2, HEAD, HEAD_2, NEW, NEW_2, NO_ROW, OLD, OLD_2, ONE_ROW, SPOILT, TWO_ROWS, joined,
};
use crate::endings::{Ended, ending_of};
use crate::listener::Listener;
use auth_entry::PlainChecker;
use lms_core::PeerScheme;
use mc_cap::{RefusedRow, RowRefusal};
use peer_rows::watch;
use peer_words::AreaWords;
use std::alloc::Global;
use std::collections::BTreeMap;
use std::sync::Arc;
use std::sync::atomic::{AtomicU64, Ordering};
use std::thread::Threads;
use sub_hub::{Hub, Watcher};
use willow_area::Area;
use willow_outside::{MemShelf, MemSource, Shelf};
use willow_path::Path;

// The name of the image.
const NAME: &str = "a.img";

// The texts of an image and of the frames of an input, the components of the path of the area that is watched, how many notes
// the watcher stays for, and the number of the call of the shelf and of the one of the input that fails, if any. Then the
// positions of the rows of which is heard, counted from 1, as digits; the texts of the image that stands there behind it; and
// how the watching ends.
struct Case {
    image: [&'static str; 4],
    input: [&'static str; 3],
    under: &'static [&'static [u8]],
    stays: u32,
    fails: (u64, u64),
    heard: u64,
    put: [&'static str; 4],
    end: Ended,
}

// No row, the row at /61, and that with the one below it.
const NONE: [&str; 4] = [HEAD, "", "", NO_ROW];

const ONE: [&str; 4] = [HEAD_2, NEW_2, "", ONE_ROW];

const BOTH: [&str; 4] = [HEAD_2, OLD_2, BELOW_2, TWO_ROWS];

// Two rows, of which the second prunes the first.
const TWO: [&str; 3] = [BELOW, NEW, ""];

static CASES: [Case; 9] = [
    // it stays,
    Case {
        image: NONE,
        input: TWO,
        under: &[],
        stays: 9,
        fails: (0, 0),
        heard: 12,
        put: ONE,
        end: Ended::Watched([2, 2, 0, 0], 0, None),
    },
    // leaves at the first note,
    Case {
        image: NONE,
        input: TWO,
        under: &[],
        stays: 0,
        fails: (0, 0),
        heard: 1,
        put: ONE,
        end: Ended::Watched([2, 2, 0, 0], 1, None),
    },
    // or at the last
    Case {
        image: NONE,
        input: TWO,
        under: &[],
        stays: 1,
        fails: (0, 0),
        heard: 12,
        put: ONE,
        end: Ended::Watched([2, 2, 0, 0], 1, None),
    },
    // the area leaves out the second row
    Case {
        image: NONE,
        input: TWO,
        under: &[b"a", b"b"],
        stays: 9,
        fails: (0, 0),
        heard: 1,
        put: ONE,
        end: Ended::Watched([2, 2, 0, 0], 0, None),
    },
    // behind a row of the image one is new, one covered and one refused
    Case {
        image: [HEAD, OLD, "", ONE_ROW],
        input: [BELOW, OLD, SPOILT],
        under: &[],
        stays: 9,
        fails: (0, 0),
        heard: 2,
        put: BOTH,
        end: Ended::Watched(
            [3, 1, 1, 1],
            0,
            Some(RefusedRow {
                row: 4,
                refusal: RowRefusal::BadEntrySignature,
            }),
        ),
    },
    // the shelf fails to give the image,
    Case {
        image: NONE,
        input: TWO,
        under: &[],
        stays: 9,
        fails: (1, 0),
        heard: 0,
        put: NONE,
        end: Ended::ReadFault,
    },
    // and to take it
    Case {
        image: NONE,
        input: TWO,
        under: &[],
        stays: 9,
        fails: (2, 0),
        heard: 12,
        put: ONE,
        end: Ended::WriteFault,
    },
    // the input fails where rows wait to be judged
    Case {
        image: NONE,
        input: TWO,
        under: &[],
        stays: 9,
        fails: (0, 4),
        heard: 0,
        put: NONE,
        end: Ended::ReadFault,
    },
    // behind a row's frame comes one of no row
    Case {
        image: NONE,
        input: [BELOW, "", NO_ROW],
        under: &[],
        stays: 9,
        fails: (0, 0),
        heard: 0,
        put: NONE,
        end: Ended::Bad(225),
    },
];

// A call of this number that fails, or none for 0.
fn fault(alloc: Global, number: u64) -> Option<Vec<u64>> {
    Vec::from_slice(alloc, &[number]).ok()
}

// A shelf that has an image.
fn shelf_with(alloc: Global, case: &Case) -> Option<MemShelf> {
    let name = String::from_str(alloc, NAME).ok()?;
    let mut contents = BTreeMap::new(alloc);
    contents.insert(name, joined(alloc, &case.image)?).ok()?;
    Some(MemShelf::new(alloc, contents, fault(alloc, case.fails.0)?))
}

// The area of a case.
fn words_of(alloc: Global, case: &Case) -> Option<AreaWords>
    ensures { IfSome result (λ words. is_empty (watched_area words) ≡ false) }
{
    let mut under = Path::empty(alloc);
    for part in case.under {
        under.push(part).ok()?;
    }
    Some(AreaWords {
        subspace: None,
        under: Some(under),
        from: None,
        until: None,
    })
}

// How the watching ends, where one hears of all rows for which the hub is told.
fn watched(
    rt: &(impl Threads + Sync),
    alloc: Global,
    case: &Case,
    shelf: &mut MemShelf,
    watcher: Box<dyn Watcher>,
) -> Option<Ended> {
    let words = words_of(alloc, case)?;
    let mut input = MemSource::new(
        alloc,
        joined(alloc, &case.input)?,
        fault(alloc, case.fails.1)?,
        100,
    );
    let mut hub = Hub::new(alloc);
    if hub.added() == u32::MAX {
        return None;
    }
    let _key = hub.add(Area::full(alloc), watcher).ok()?;
    let name = String::from_str(alloc, NAME).ok()?;
    Some(ending_of(watch::<PlainChecker<PeerScheme>, _, _, _>(
        rt, alloc, name, &words, shelf, &mut input, &mut hub,
    )))
}

// Whether the shelf has the image that is to stand there.
fn has_put(alloc: Global, case: &Case, shelf: &mut MemShelf) -> Option<bool> {
    let found = shelf.get(NAME).ok()??;
    Some(found == joined(alloc, &case.put)?)
}

// Whether a case comes out so.
fn comes_out(rt: &(impl Threads + Sync), alloc: Global, case: &Case) -> Option<bool> {
    let heard = Arc::new(alloc, AtomicU64::new(0)).ok()?;
    let watcher: Box<dyn Watcher> = Box::new(alloc, Listener::new(case.stays, &heard)?).ok()?;
    let mut shelf = shelf_with(alloc, case)?;
    let end = watched(rt, alloc, case, &mut shelf, watcher)?;
    let has_put = has_put(alloc, case, &mut shelf)?;
    Some(end == case.end && heard.load(Ordering::SeqCst) == case.heard && has_put)
}

#[test]
fn rows_are_watched(rt: HostRuntime) {
    let alloc = rt.alloc();
    for case in &CASES {
        assert!(rt; comes_out(&rt, alloc, case) == Some(true));
    }
}
