//! Runs each case on standard input and prints for how many of them everything came as expected, and the name of each
//! of which it did not. A line that begins with `#` is a heading; any other is one case: fields with one space between,
//! `-` for nothing, bytes in hexadecimal.
//!
//! 1. A name, and the words joined by commas.
//! 2. What lies on the shelf, each as `NAME:BYTES`, and the draws of noise, each of 32 bytes; both joined by commas.
//! 3. The input: bytes, or pieces joined by `+`, of which `gen:ROWS` is what the program's `gen` puts out for so many rows, and
//!    `write:ROWS:KEY:CAPABILITY` what its `write` puts out for so many, by the open key and under the capability: of time 5, a
//!    byte long, of the digest of bytes 11, and at the paths of one component that spell 0, 1 and so on in four bytes.
//! 4. The calls that fail, joined by commas: a letter for the object (`i` input, `o` output, `r` report, `s` shelf, `n` noise,
//!    `d` door, `l` link, `b` bay, `k` disk) and the number of its call, from 1. Of links behind the first, `l2:5` is the fifth call
//!    of the second.
//! 5. What is expected: the output, the report, the status, and what lies on the shelf behind the run. A name of the words that
//!    is not there is absent. A large output, and what is large on the shelf, is told as `sha256:DIGEST:LENGTH`.
//! 6. Where the door leads to links: the bytes that each gives, told as those of the input, and those that each holds that came
//!    back; both joined by commas.
//! 7. Where a log file is named, and behind the fields of 6: what the names of the bay hold, each as `NAME:BYTES`, and what each disk
//!    holds that came back, or `none`; both joined by commas.
//!
//! Input, output and links move at most 100 bytes a call, the report 7. Where something is told by its digest, they move up to
//! 1,048,576. The cases are made by `bench/cases/make.py`, which shares no code with this program. It promises
//! nothing: what a run does is the contract of `peer_run`.
#![tactic(auto)]

mod case;
mod fields;
mod made;
mod objects;
mod run;

use std::io;

fn main(rt: HostRuntime) -> io::Result<()> {
    let mut agreed = 0u64;
    let mut cases = 0u64;
    for line in rt.lines(rt.alloc()) {
        let line = line?;
        if line.as_str().starts_with('#') {
            continue;
        }
        cases = cases.saturating_add(1);
        match case::differs(&rt, rt.alloc(), line.as_str()) {
            None => agreed = agreed.saturating_add(1),
            Some(part) => println!(rt; "{}: another {part}", fields::name_of(line.as_str()))?,
        }
    }
    println!(rt; "{agreed} of {cases}")
}
