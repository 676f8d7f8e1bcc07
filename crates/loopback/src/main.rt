//! Runs a server and its peers over links between two threads, over links in memory with one gate, and over TCP on this
//! machine. Prints of each run the status, the length and the SHA-256 of the image that is there behind it, what one who
//! watches heard of, and the report; in whatever order the threads run it prints the same. The images and what is said by peers that are no runs come from
//! standard input: lines of a name and bytes in hexadecimal. These lines and what must come out are made by
//! `bench/cases/make.py`, which shares no code with this program. It promises nothing: what a run does is the contract of
//! `peer_run`.
#![tactic(auto)]

mod follows;
mod gates;
mod given;
mod hearing;
mod pairs;
mod peers;
mod places;
mod run;

use follows::{MANY, ONE_EACH, follow_lines};
use given::Given;
use paired_links::pair;
use std::io;
use std::io::ErrorKind;
use willow_outside::MemDoor;

fn main(rt: HostRuntime) -> io::Result<()> {
    let alloc = rt.alloc();
    let given = Given::read(&rt)?;
    let Ok((near, far)) = pair(&rt, alloc) else {
        return Err(io::Error::from(ErrorKind::OutOfMemory));
    };
    let near = MemDoor::new(alloc, vec![in alloc; near]?, vec![in alloc]?);
    let far = MemDoor::new(alloc, vec![in alloc; far]?, vec![in alloc]?);
    print!(rt; "{}", pairs::pair_lines(&rt, alloc, &given, near, far)?)?;
    print!(rt; "{}", gates::gate_lines(&rt, alloc, &given)?)?;
    print!(rt; "{}", follow_lines(&rt, alloc, &given, &MANY)?)?;
    print!(rt; "{}", follow_lines(&rt, alloc, &given, &ONE_EACH)?)?;
    print!(rt; "{}", places::place_lines(&rt, &rt, &given)?)
}
