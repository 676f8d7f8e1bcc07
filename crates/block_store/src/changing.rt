//! How rows go in and others go: a store and what an ingest makes of it.

pub(crate) mod append;
pub(crate) mod enter;
pub(crate) mod offer;
pub(crate) mod put;
pub(crate) mod renew;
pub(crate) mod store;
pub(crate) mod thin;
