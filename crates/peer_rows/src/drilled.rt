//! The stores of a drill: generated rows, ingested like any others.

ghost use Rattle.std.specs.Prelude.{◌≡◌, ◌+◌, ◌*◌, ◌/◌, ◌<◌, ◌≤◌, ◌++◌, length, IfOk, OnOk};
ghost use Rattle.peer_listing.specs.Generator.{generator_namespace};
ghost use Rattle.peer_listing.specs.Ranges.{generated_between};
ghost use Rattle.peer_rows.specs.RowLogs.{HasTaken};
ghost use Rattle.auth_entry.specs.Rows.{entry_row};
ghost use Rattle.peer_rows.specs.Logged.{authorised_rows, stored_rows};
ghost use Rattle.peer_rows.specs.Drilled.{AreRowShares, generated_rows};

use crate::images::EntryLog;
use crate::row_log::offer_rows;
use crate::shares::{SHARE, SHARES, is_worth_threads};
use auth_entry::{AuthorisedEntry, Checker, NewChecker};
use cap_codec::RawRow;
use lms_core::PeerScheme;
use ns_state::{LiveLog, LogFull};
use peer_listing::{GENERATED_ROWS, Generator, generator_namespace};
use spelling::{End, NoMemory};
use std::alloc::Global;
use std::mem;
use std::thread::{Threads, join_mut, map_indices};

/// So many rows are made and judged together at most where no threads make them.
const PIECE: u32 = 256;

/// The log of the authorised ones among the first `rows` rows of the generator, and that of those among the first
/// half of them, rounded down. There are at most `GENERATED_ROWS`. Each row is made and judged once, by a checker of the
/// given kind.
pub fn generated_logs<C: NewChecker<PeerScheme>, R: Threads + Sync>(
    rt: &R,
    alloc: Global,
    rows: u32,
) -> Result<(EntryLog, EntryLog), NoMemory>
    requires { rows ≤ GENERATED_ROWS }
    ensures whole { IfOk result (λ logs. HasTaken entry_row (generated_rows rows) logs.0) }
    ensures half { IfOk result (λ logs. HasTaken entry_row (generated_rows (rows / 2)) logs.1) }
    ensures one_namespace { IfOk result (λ logs. logs.1.namespace ≡ logs.0.namespace) }
{
    let generator = Generator::new(alloc)?;
    let mut checker = C::begin(alloc, PeerScheme, generator_namespace())?;
    let mut whole = LiveLog::new(alloc, generator_namespace());
    let mut half = LiveLog::new(alloc, generator_namespace());
    let middle = rows / 2;
    let mut made = 0;
    'both: while made < middle {
        let to = round_end(rt, made, middle);
        let entries = authorised_between(rt, alloc, &generator, &mut checker, made, to)?;
        keep_twice(rt, alloc, made, to, entries, &mut half, &mut whole)?;
        made = to;
    }
    'others: while made < rows {
        let to = round_end(rt, made, rows);
        let mut entries = authorised_between(rt, alloc, &generator, &mut checker, made, to)?;
        keep(alloc, &mut whole, made, to, &mut entries)?;
        made = to;
    }
    Ok((whole, half))
}

// Before which row those end that are made and judged together: shares of them for all threads as long as there are enough
// left, a piece of them behind that.
fn round_end(rt: &impl Threads, from: u32, to: u32) -> u32
    requires some { from < to }
    requires within { to ≤ GENERATED_ROWS }
    ensures some { from < result }
    ensures within { result ≤ to }
{
    if is_worth_threads(rt, to - from) {
        from + SHARES * SHARE
    } else {
        to.min(from + PIECE)
    }
}

// The authorised ones among the generator's rows from one to before another.
fn authorised_between<C: Checker<PeerScheme>, R: Threads + Sync>(
    rt: &R,
    alloc: Global,
    generator: &Generator,
    checker: &mut C,
    from: u32,
    to: u32,
) -> Result<Vec<AuthorisedEntry<PeerScheme>>, NoMemory>
    requires namespace { C.judged_in checker.old ≡ generator_namespace }
    requires from { from ≤ to }
    requires to { to ≤ GENERATED_ROWS }
    ensures namespace { C.judged_in checker.new ≡ C.judged_in checker.old }
    ensures entries { IfOk result (λ entries. stored_rows entries.items ≡ authorised_rows generator_namespace (generated_between from to)) }
{
    let mut entries = Vec::with_capacity(alloc, (to - from) as usize)?;
    put_authorised(rt, alloc, generator, checker, from, to, &mut entries)?;
    Ok(entries)
}

// Puts them behind other entries. As many as a round of shares has are made on all processors.
fn put_authorised<C: Checker<PeerScheme>, R: Threads + Sync>(
    rt: &R,
    alloc: Global,
    generator: &Generator,
    checker: &mut C,
    from: u32,
    to: u32,
    entries: &mut Vec<AuthorisedEntry<PeerScheme>>,
) -> Result<(), NoMemory>
    requires namespace { C.judged_in checker.old ≡ generator_namespace }
    requires from { from ≤ to }
    requires to { to ≤ GENERATED_ROWS }
    ensures namespace { C.judged_in checker.new ≡ C.judged_in checker.old }
    ensures entries { OnOk result (stored_rows entries.new.items ≡ stored_rows entries.old.items ++ authorised_rows generator_namespace (generated_between from to)) }
{
    if to - from == SHARES * SHARE {
        let shares = make_row_shares(rt, alloc, generator, from)?;
        judge_shares(rt, alloc, checker, from, to, shares, entries)
    } else {
        judge(
            rt,
            alloc,
            checker,
            generator.rows(alloc, from, to)?,
            entries,
        )
    }
}

// The rows from one on, each share of them made on a thread of its own.
fn make_row_shares<R: Threads + Sync>(
    rt: &R,
    alloc: Global,
    generator: &Generator,
    from: u32,
) -> Result<Vec<Result<Vec<RawRow>, NoMemory>>, NoMemory>
    requires { from + SHARES * SHARE ≤ GENERATED_ROWS }
    ensures shares { IfOk result (λ shares. AreRowShares from shares.items) }
    ensures count { IfOk result (λ shares. length shares.items ≡ SHARES) }
{
    let shares = map_indices(
        rt,
        alloc,
        SHARES as usize,
        &|k: usize| -> Result<Vec<RawRow>, NoMemory>
            requires { from + (k * SHARE + SHARE) ≤ GENERATED_ROWS }
            ensures { IfOk result (λ rows. rows.items ≡ generated_between (from + k * SHARE) (from + (k * SHARE + SHARE))) }
        {
            let begin = from + k as u32 * SHARE;
            generator.rows(alloc, begin, begin + SHARE)
        },
    )?;
    Ok(shares)
}

// Judges the shares of the rows from one to before another, in order, and puts the authorised ones among them behind other
// entries. That a share found no memory is told when its turn comes.
fn judge_shares<C: Checker<PeerScheme>, R: Threads + Sync>(
    rt: &R,
    alloc: Global,
    checker: &mut C,
    from: u32,
    to: u32,
    shares: Vec<Result<Vec<RawRow>, NoMemory>>,
    entries: &mut Vec<AuthorisedEntry<PeerScheme>>,
) -> Result<(), NoMemory>
    requires namespace { C.judged_in checker.old ≡ generator_namespace }
    requires shares { AreRowShares from shares.items }
    requires whole { from + length shares.items * SHARE ≡ to }
    ensures namespace { C.judged_in checker.new ≡ C.judged_in checker.old }
    ensures entries { OnOk result (stored_rows entries.new.items ≡ stored_rows entries.old.items ++ authorised_rows generator_namespace (generated_between from to)) }
{
    for share in shares {
        judge(rt, alloc, checker, share?, entries)?;
    }
    Ok(())
}

// Judges rows together, and puts the authorised ones among them behind other entries.
fn judge<C: Checker<PeerScheme>, R: Threads + Sync>(
    rt: &R,
    alloc: Global,
    checker: &mut C,
    rows: Vec<RawRow>,
    entries: &mut Vec<AuthorisedEntry<PeerScheme>>,
) -> Result<(), NoMemory>
    requires { C.judged_in checker.old ≡ generator_namespace }
    ensures namespace { C.judged_in checker.new ≡ C.judged_in checker.old }
    ensures entries { OnOk result (stored_rows entries.new.items ≡ stored_rows entries.old.items ++ authorised_rows generator_namespace rows.items) }
{
    for judged in checker.check_all(rt, alloc, rows)? {
        match judged {
            Ok(entry) => entries.push(entry)?,
            Err(_) => {}
        }
    }
    Ok(())
}

// Equal entries.
fn copies_of(
    alloc: Global,
    entries: &[AuthorisedEntry<PeerScheme>],
) -> Result<Vec<AuthorisedEntry<PeerScheme>>, NoMemory>
    ensures { IfOk result (λ copies. copies.items ≡ entries.now) }
{
    let mut copies = Vec::with_capacity(alloc, entries.len())?;
    for entry in entries {
        copies.push(entry.copy()?)?;
    }
    Ok(copies)
}

// Offers the authorised ones among the generator's rows from one to before another to two logs of those before them, which
// have room for all: to both at once where they are as many as a round of shares has.
fn keep_twice<R: Threads>(
    rt: &R,
    alloc: Global,
    from: u32,
    to: u32,
    entries: Vec<AuthorisedEntry<PeerScheme>>,
    half: &mut EntryLog,
    whole: &mut EntryLog,
) -> Result<(), NoMemory>
    requires from { from ≤ to }
    requires to { to ≤ GENERATED_ROWS }
    requires entries { stored_rows entries.items ≡ authorised_rows generator_namespace (generated_between from to) }
    requires half { HasTaken entry_row (generated_rows from) half.old }
    requires half_namespace { half.old.namespace ≡ generator_namespace }
    requires whole { HasTaken entry_row (generated_rows from) whole.old }
    requires whole_namespace { whole.old.namespace ≡ generator_namespace }
    ensures half { OnOk result (HasTaken entry_row (generated_rows to) half.new) }
    ensures half_namespace { half.new.namespace ≡ half.old.namespace }
    ensures whole { OnOk result (HasTaken entry_row (generated_rows to) whole.new) }
    ensures whole_namespace { whole.new.namespace ≡ whole.old.namespace }
{
    let mut copies = copies_of(alloc, &entries)?;
    let mut entries = entries;
    let (in_half, in_whole) = do_both(
        rt,
        to - from >= SHARES * SHARE,
        &mut || keep(alloc, half, from, to, &mut copies),
        &mut || keep(alloc, whole, from, to, &mut entries),
    );
    in_half?;
    in_whole
}

// Does one thing and another, the first on a thread of its own where they are to be done side by side.
fn do_both<R: Threads, F: FnMut() -> S + Send, G: FnMut() -> T, S: Send, T>(
    rt: &R,
    beside: bool,
    one: &mut F,
    other: &mut G,
) -> (S, T)
    requires { F.pre one.old × G.pre other.old }
    ensures { F.step one.old result.0 one.new × G.step other.old result.1 other.new }
{
    if beside {
        join_mut(rt, one, other)
    } else {
        (one(), other())
    }
}

// Offers the authorised ones among the generator's rows from one to before another to the log of those before them, which
// has room for all. They are given away.
fn keep(
    alloc: Global,
    log: &mut EntryLog,
    from: u32,
    to: u32,
    entries: &mut Vec<AuthorisedEntry<PeerScheme>>,
) -> Result<(), NoMemory>
    requires from { from ≤ to }
    requires to { to ≤ GENERATED_ROWS }
    requires namespace { log.old.namespace ≡ generator_namespace }
    requires taken { HasTaken entry_row (generated_rows from) log.old }
    requires entries { stored_rows entries.old.items ≡ authorised_rows generator_namespace (generated_between from to) }
    ensures taken { OnOk result (HasTaken entry_row (generated_rows to) log.new) }
    ensures namespace { log.new.namespace ≡ log.old.namespace }
{
    match offer_rows(log, mem::replace(entries, Vec::new(alloc))) {
        Ok(()) => Ok(()),
        Err(End::Refused(LogFull { front: _ })) => unreachable!(),
        Err(End::NoMemory) => Err(NoMemory),
    }
}
