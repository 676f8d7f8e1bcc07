//! Generated frames, against bytes made elsewhere.

ghost use Rattle.std.specs.Prelude.{◌≤◌};

use crate::bytes::joined;
use crate::endings::{Ended, ending_of};
use peer_listing::GENERATED_ROWS;
use peer_rows::generate;
use std::alloc::Global;
use std::thread::Threads;
use willow_outside::MemSink;

// The frames of the generator's first three rows.
const ROW_0: &str =
    "00000100004f4f4f4f4f4f4f4f4f4f4f4f4f4f4f4f4f4f4f4f4f4f4f4f4f4f4f4f4f4f4f4f00555555555555555555555555555555555555555555555555555555555555550002020000010000060a24181e40000000000000000000000000000000000000000000000000000000000000000000000000000000000003004f4f4f4f4f4f4f4f4f4f4f4f4f4f4f4f4f4f4f4f4f4f4f4f4f4f4f4f4f4f4f4f005555555555555555555555555555555555555555555555555555555555555500002071b013ba21ec638043deb3b7427ff06bb4b48b8ce54a4bb51f2bd4e34ee5f8f90000209eee932985fae2dfed27a1001bd0a59e9c554e377ee81d191b4b7b6ed710a3fb";

const ROW_1: &str =
    "00000100004f4f4f4f4f4f4f4f4f4f4f4f4f4f4f4f4f4f4f4f4f4f4f4f4f4f4f4f4f4f4f4f00555555555555555555555555555555555555555555555555555555555555550102020000010000060a24181e40010000000000000001000000000000000100000000000000010000000000000001000000000000000103004f4f4f4f4f4f4f4f4f4f4f4f4f4f4f4f4f4f4f4f4f4f4f4f4f4f4f4f4f4f4f4f0055555555555555555555555555555555555555555555555555555555555555010020974b34f08ffabaa55c0fd468632a24f902a1d2423ceb065a7b9b08904d1e546d000020394666804cfaee3e685a5492f0e539de3e02e88c5d8894c1b4a039426951bcdc";

const ROW_2: &str =
    "00000100004f4f4f4f4f4f4f4f4f4f4f4f4f4f4f4f4f4f4f4f4f4f4f4f4f4f4f4f4f4f4f4f00555555555555555555555555555555555555555555555555555555555555550202020000010000060a24181e40020000000000000002000000000000000200000000000000020000000000000002000000000000000203004f4f4f4f4f4f4f4f4f4f4f4f4f4f4f4f4f4f4f4f4f4f4f4f4f4f4f4f4f4f4f4f00555555555555555555555555555555555555555555555555555555555555550200201c3b64dbc5e23ab17c2090b868d10d05e1d6c66719edd284ec60e96e2f209760000020b8f7f13cedabf7ed7de772b86bc1c3529b00c946773f206632f69beceb739aea";

// How the making of so many rows ends, where it writes these bytes.
fn ends_with(rt: &(impl Threads + Sync), alloc: Global, rows: u32, wanted: &[u8]) -> Option<Ended>
    requires { rows ≤ GENERATED_ROWS }
{
    let mut output = MemSink::new(alloc, Vec::new(alloc), Vec::new(alloc), 100);
    let end = ending_of(generate(rt, alloc, rows, &mut output));
    (output.held() == wanted).then_some(end)
}

// The same of these texts' bytes.
fn generates(rt: &(impl Threads + Sync), alloc: Global, rows: u32, texts: &[&str]) -> Option<Ended>
    requires { rows ≤ GENERATED_ROWS }
{
    ends_with(rt, alloc, rows, &joined(alloc, texts)?)
}

static THREE: [&str; 3] = [ROW_0, ROW_1, ROW_2];

#[test]
fn rows_generated(rt: HostRuntime) {
    let alloc = rt.alloc();
    let ends = [
        generates(&rt, alloc, 0, &[]),
        generates(&rt, alloc, 3, &THREE),
    ];
    assert!(rt; ends == [Some(Ended::Made); 2]);
}
