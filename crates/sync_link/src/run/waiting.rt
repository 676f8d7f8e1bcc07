//! The rows of a piece wait for their judgement, list by list.

ghost use Rattle.std.specs.Prelude.{◌≡◌, ◌≤◌, List, ℕ, ◌∷◌, ◌++◌, drop, length, IfOk, IfSome, OnOk};

use crate::side::lists::Lists;
use cap_codec::RawRow;
use spelling::NoMemory;
use std::alloc::Global;
use std::collections::VecDeque;

// Rows that came, where the lists are taken off the front one after the other: each costs no more than it has rows.
#[derive(Drop)]
pub(crate) struct WaitingLists {
    pub(crate) rows: VecDeque<RawRow>,
    pub(crate) counts: VecDeque<u32>,
}

impl WaitingLists {
    // All of them wait.
    pub(crate) fn new(lists: Lists) -> WaitingLists
        ensures rows { result.rows.items ≡ lists.rows.items }
        ensures counts { result.counts.items ≡ lists.counts.items }
    {
        let Lists { rows, counts } = lists;
        WaitingLists {
            rows: VecDeque::from_vec(rows),
            counts: VecDeque::from_vec(counts),
        }
    }

    // How many rows the first list has, if they all came.
    pub(crate) fn whole(&self) -> Option<usize>
        ensures first { IfSome result (λ count. (rest : List ℕ) × (self.now.counts.items ≡ count ∷ rest)) }
        ensures came { IfSome result (λ count. count ≤ length self.now.rows.items) }
    {
        match self.counts.front() {
            Some(count) if *count as usize <= self.rows.len() => Some(*count as usize),
            Some(_) | None => None,
        }
    }

    // Takes the first list off, which has so many rows.
    pub(crate) fn take_first(
        &mut self,
        alloc: Global,
        count: usize,
    ) -> Result<Vec<RawRow>, NoMemory>
        requires came { count ≤ length self.old.rows.items }
        ensures front { IfOk result (λ list. self.old.rows.items ≡ list.items ++ self.new.rows.items) }
        ensures rows { IfOk result (λ list. length list.items ≡ count) }
        ensures counts { OnOk result (self.new.counts.items ≡ drop 1 self.old.counts.items) }
    {
        let list = take_front(alloc, &mut self.rows, count)?;
        let _count = self.counts.pop_front();
        Ok(list)
    }

    // How many rows are due yet of the list that came in part.
    pub(crate) fn due(&self) -> u32 {
        match self.counts.front() {
            Some(count) if self.rows.len() < *count as usize => (*count as usize
                - self.rows.len()) as u32,
            Some(_) | None => 0,
        }
    }

    // The rows that were not taken.
    pub(crate) fn into_rows(self) -> Vec<RawRow>
        ensures { result.items ≡ self.rows.items }
    {
        self.rows.into_vec()
    }
}

// Takes so many rows off the front.
fn take_front(
    alloc: Global,
    rows: &mut VecDeque<RawRow>,
    count: usize,
) -> Result<Vec<RawRow>, NoMemory>
    requires came { count ≤ length rows.old.items }
    ensures front { IfOk result (λ list. rows.old.items ≡ list.items ++ rows.new.items) }
    ensures rows { IfOk result (λ list. length list.items ≡ count) }
{
    let mut list = Vec::with_capacity(alloc, count)?;
    for _ in 0..count {
        match rows.pop_front() {
            None => unreachable!(),
            Some(row) => list.push(row)?,
        }
    }
    Ok(list)
}
