//! What a side is doing, in memory.

use crate::ask::{Ask, Owed};
use crate::out_item::OutItem;
use std::collections::VecDeque;
use sync_msg::CoreRefusal;
use willow_entry::BareRow;

// What a side is doing.
#[derive(Clone, Copy)]
pub(crate) enum Phase {
    // It says a turn.
    Saying,
    // It answers the peer's farewell.
    Replying,
    // It has read nothing yet.
    Beginning,
    // It reads a turn.
    Hearing,
    // It has said its farewell first.
    Parting,
    // Both have.
    Finished,
    // What it read was refused.
    Refused(CoreRefusal),
}

// The rows that are due.
#[derive(Drop)]
pub(crate) struct Due {
    // How many more.
    pub(crate) left: u32,
    // Those read that are remembered.
    pub(crate) rows: Vec<BareRow>,
}

// What a side goes by that hears the peer's answers.
#[derive(Drop)]
pub(crate) struct Ear {
    // The asks that the peer has to answer, or that the turn that is said opens to it.
    pub(crate) owed: VecDeque<Owed>,
    // The asks that the turn that is heard opened.
    pub(crate) opens: Vec<Ask>,
    // The rows that are due for the first of the asks that the peer has to answer.
    pub(crate) due: Option<Due>,
}

// What a side is doing, and with what.
#[derive(Drop)]
pub(crate) struct Work {
    pub(crate) phase: Phase,
    // What is still to be said of the turn.
    pub(crate) items: VecDeque<OutItem>,
    pub(crate) ear: Ear,
}
