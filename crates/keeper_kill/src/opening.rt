//! Logs that are files of the current folder.

use crate::stop::Stop;
use cap_codec::{RawRow, RawRows};
use log_keeper::{KeepRefusal, LogKeeper, Opened};
use peer_listing::generator_namespace;
use peer_real::{FileBay, FileDisk};
use spelling::End;
use std::alloc::Global;
use willow_outside::Bay;

/// Keepers of rows as they are signed, on a disk that is a file.
pub(crate) type Keeper = LogKeeper<RawRows, FileDisk>;

// The file of this name.
fn disk_of(rt: &HostRuntime, name: &str) -> Result<FileDisk, Stop> {
    match FileBay::new(rt).open(name) {
        Ok(disk) => Ok(disk),
        Err(_) => Err(Stop::NoFile),
    }
}

// The keeper of the log in the file, which is begun where the file holds none, and how many rows it holds.
fn begun(alloc: Global, disk: FileDisk) -> Result<(Keeper, usize), (FileDisk, End<KeepRefusal>)> {
    let namespace = generator_namespace();
    match Keeper::open(alloc, disk, &namespace)? {
        Opened::Absent(disk) => Ok((Keeper::create(alloc, disk, &namespace)?, 0)),
        Opened::Log { keeper, rows } => Ok((keeper, rows.len())),
    }
}

/// The keeper of the log of this name, which is begun where the file holds none, and how many rows it holds.
pub(crate) fn open_or_begin(
    rt: &HostRuntime,
    alloc: Global,
    name: &str,
) -> Result<(Keeper, usize), Stop> {
    match begun(alloc, disk_of(rt, name)?) {
        Ok(log) => Ok(log),
        Err((_disk, why)) => Err(Stop::from(why)),
    }
}

// The rows of a log that was opened.
fn rows_of(opened: Opened<RawRows, FileDisk>) -> Result<Vec<RawRow>, Stop> {
    match opened {
        Opened::Absent(_disk) => Err(Stop::NoLog),
        Opened::Log {
            keeper: _keeper,
            rows,
        } => Ok(rows),
    }
}

/// The rows that the log of this name holds.
pub(crate) fn open(rt: &HostRuntime, alloc: Global, name: &str) -> Result<Vec<RawRow>, Stop> {
    match Keeper::open(alloc, disk_of(rt, name)?, &generator_namespace()) {
        Ok(opened) => rows_of(opened),
        Err((_disk, why)) => Err(Stop::from(why)),
    }
}
