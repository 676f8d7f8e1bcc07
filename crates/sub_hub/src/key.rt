//! What a watcher is added under.

/// What a watcher was added under. No two adds of a hub give equal keys, also where a slot is given out again
/// (`keys_are_given_once`).
#[derive(Clone, Copy, Debug, PartialEq, Eq)]
pub struct HubKey {
    /// The slot in which the watcher stands.
    pub(crate) slot: usize,
    /// How many adds of the hub had answered Ok before.
    pub(crate) number: u32,
}
