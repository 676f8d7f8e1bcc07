//! Reading a log.

ghost use Rattle.std.specs.Prelude.{◌≡◌, ◌<◌, ◌≤◌, ◌^◌, ◌∷◌, ◌++◌, true, false, length, IfOk, IfSome};
ghost use Rattle.log_keeper.specs.LogFile.{log_mark};
ghost use Rattle.log_keeper.specs.Readings.{ReadsLog};

use crate::header::{HEADER, LEAST, OPEN, new_log};
use crate::records::read_records;
use spelling::{End, NoMemory};
use std::alloc::Global;
use willow_entry::RowForm;
use willow_path::NamespaceKey;

// Whether these are an open gate and the header of a log of the namespace.
fn has_header(alloc: Global, head: &[u8], namespace: &NamespaceKey) -> Result<bool, NoMemory>
    ensures yes { IfOk result (λ same. same ≡ true → head.now ≡ 1 ∷ log_mark ++ namespace.now) }
    ensures no { IfOk result (λ same. same ≡ false → head.now ≡ 1 ∷ log_mark ++ namespace.now → ⊥) }
{
    let due = new_log(alloc, namespace)?;
    let (front, _gate) = due.split_at(HEADER);
    Ok(same_bytes(head, front))
}

fn same_bytes(a: &[u8], b: &[u8]) -> bool
    ensures yes { result ≡ true → a.now ≡ b.now }
    ensures no { result ≡ false → a.now ≡ b.now → ⊥ }
{
    a == b
}

/// The rows that the bytes hold, and the place of the closed gate; None where they hold no log; or where the log goes wrong.
pub(crate) fn read_log<F: RowForm>(
    alloc: Global,
    bytes: &[u8],
    namespace: &NamespaceKey,
) -> Result<Option<(Vec<F::R>, u64)>, End<u64>>
    requires { length bytes.now < 2 ^ 62 }
    ensures reads { ReadsLog F.IsRow F.R.value namespace.now bytes.now result }
    ensures few { IfOk result (λ found. IfSome found (λ log. (length log.0.items ≤ log.1) × (log.1 < length bytes.now))) }
{
    if bytes.len() < LEAST || bytes[0] != OPEN {
        return Ok(None);
    }
    let (head, records) = bytes.split_at(HEADER);
    if !has_header(alloc, head, namespace)? {
        return Err(End::Refused(0));
    }
    let (rows, end) = read_records::<F>(alloc, HEADER as u64, records)?;
    Ok(Some((rows, end)))
}
