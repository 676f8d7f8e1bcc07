//! Rows of two stores, hashed in threads before the stores are compared.
//! What is hashed is kept in the blocks that a snapshot shares, so nothing that a contract sees comes of it.
#![tactic(auto)]

use block_store::BlockStore;
use std::alloc::Global;
use std::sync::atomic::AtomicUsize;
use std::thread::{Threads, available_parallelism, map_indices};
use willow_entry::Row;

// So many rows are worth a thread: to hash them takes some ten times as long as to start one.
const ROWS_PER_THREAD: usize = 1024;

/// Hashes the rows of both stores, those of blocks that no snapshot had before, on all processors where they are many. The
/// next snapshots find them hashed. Where no thread begins they are hashed on this one, and what memory lacks for is left
/// to the snapshots.
pub fn hash_both<T: Threads + Sync, R: Row + Send + Sync>(
    rt: &T,
    alloc: Global,
    left: &BlockStore<R>,
    right: &BlockStore<R>,
) {
    let most = left.len().max(right.len()) as usize;
    let threads = processors(rt).min(most / ROWS_PER_THREAD);
    if threads < 2 {
        return;
    }
    let (of_left, of_right) = (AtomicUsize::new(0), AtomicUsize::new(0));
    let _hashed = map_indices(
        rt,
        alloc,
        threads,
        &|_thread: usize| {
            left.hash_rows(&of_left);
            right.hash_rows(&of_right);
        },
    );
}

// How many threads run at once.
fn processors(rt: &impl Threads) -> usize {
    match available_parallelism(rt) {
        Ok(count) => count.get(),
        Err(_) => 1,
    }
}
