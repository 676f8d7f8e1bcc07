//! Compares answers of the crates with answers made elsewhere: reads three tables on standard input, prints the number of
//! each line of which an answer is another, and then of each table for how many lines all are the same. The first word of
//! a line tells its table: `item` and `at` are of the reader of items (`bench/items/make.py`), `read`, `check`, `proof` and
//! `common` of hellos (`bench/hellos/make.py`), and `signature` of the LMS verification (`bench/answers.py`). What makes
//! them shares no code with this program; each says there what its lines are.
//!
//! This program promises nothing: what is answered is the contract of `sync_msg`, of `sync_hello` and of `lms_core`.
#![tactic(auto)]

mod bytes;
mod hello_answer;
mod hello_case;
mod item_answer;
mod item_case;
mod signature_case;
mod tables;

use std::io;
use tables::Tables;

// Prints how many lines of each table agree.
fn print_counts(rt: &HostRuntime, tables: &Tables) -> io::Result<()> {
    let (items, hellos, signatures) = (&tables.items, &tables.hellos, &tables.signatures);
    println!(rt; "items {} of {}", items.agreed, items.lines)?;
    println!(rt; "hellos {} of {}", hellos.agreed, hellos.lines)?;
    println!(rt; "signatures {} of {}", signatures.agreed, signatures.lines)
}

fn main(rt: HostRuntime) -> io::Result<()> {
    let mut tables = Tables::new(rt.alloc());
    let mut number = 0u64;
    for line in rt.lines(rt.alloc()) {
        let line = line?;
        number = number.saturating_add(1);
        if !tables.agree(rt.alloc(), line.as_str()) {
            println!(rt; "line {number}: another answer")?;
        }
    }
    print_counts(&rt, &tables)
}
