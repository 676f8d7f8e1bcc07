//! The header of a log.

ghost use Rattle.std.specs.Prelude.{◌≡◌, length, IfOk};
ghost use Rattle.willow_path.specs.Key.{IsKey};
ghost use Rattle.log_keeper.specs.LogFile.{new_log};

use spelling::{NoMemory, put_byte, put_bytes};
use std::alloc::Global;
use willow_path::NamespaceKey;

/// The byte that a gate is where it is open.
pub(crate) const OPEN: u8 = 1;

/// How many bytes the first gate and the header have.
pub(crate) const HEADER: usize = 38;

/// How many bytes a log without rows has.
pub(crate) const LEAST: usize = 39;

/// The bytes of a log without rows: an open gate, the header, and a closed gate.
pub(crate) fn new_log(alloc: Global, namespace: &NamespaceKey) -> Result<Vec<u8>, NoMemory>
    ensures log { IfOk result (λ v. v.items ≡ new_log namespace.now) }
    ensures size { IfOk result (λ v. length v.items ≡ 39) }
    ensures key { IsKey namespace.now }
{
    let key = namespace.to_bytes();
    let mut log = Vec::with_capacity(alloc, LEAST)?;
    put_byte(&mut log, OPEN)?;
    put_bytes(&mut log, b"WLG1")?;
    put_bytes(&mut log, &key)?;
    put_byte(&mut log, 0)?;
    Ok(log)
}
