//! Files of one namespace, a row of it, and what a file holds.

ghost use Rattle.std.specs.Prelude.{◌≡◌, IfSome};
ghost use Rattle.std.specs.List.{AllByRecursion};
ghost use Rattle.cap_codec.specs.Rows.{IsRawRow, row_of};
ghost use Rattle.row_stream.specs.Streams.{IsStreamRow};
ghost use Rattle.log_keeper.specs.Slices.{logged_rows};

use cap_codec::{MAX_FRAME, RawRow, RawRows};
use log_keeper::laws::slices_are_short;
use log_keeper::{KeepRefusal, LogKeeper, Opened};
use spelling::End;
use std::alloc::Global;
use willow_entry::{LogRow, RowForm, same};
use willow_outside::MemDisk;
use willow_path::NamespaceKey;

// Keepers of rows as they are signed, on a disk in memory.
pub(crate) type Keeper = LogKeeper<RawRows, MemDisk>;

// An open gate, and the header of a log of the namespace.
const HEAD: &str = "01574c4731004e4e4e4e4e4e4e4e4e4e4e4e4e4e4e4e4e4e4e4e4e4e4e4e4e4e4e4e4e4e4e4e";

// The same of another namespace.
const OTHER: &str = "01574c4731004f4f4f4f4f4f4f4f4f4f4f4f4f4f4f4f4f4f4f4f4f4f4f4f4f4f4f4f4f4f4f4f";

// The frame of a row of the namespace, at /61 and time 5.
const ROW: &str =
    "000000db004e4e4e4e4e4e4e4e4e4e4e4e4e4e4e4e4e4e4e4e4e4e4e4e4e4e4e4e4e4e4e4e00555555555555555555555555555555555555555555555555555555555555555501016100000000000000050000000000000001111111111111111111111111111111111111111111111111111111111111111101004e4e4e4e4e4e4e4e4e4e4e4e4e4e4e4e4e4e4e4e4e4e4e4e4e4e4e4e4e4e4e4e005555555555555555555555555555555555555555555555555555555555555555000020c829d729f7a6d6c9e53b25700abe4e6c8e3c37cf8c4cf612ceafd4d405183ce5";

// All but the last byte of it.
const CUT: &str =
    "000000db004e4e4e4e4e4e4e4e4e4e4e4e4e4e4e4e4e4e4e4e4e4e4e4e4e4e4e4e4e4e4e4e00555555555555555555555555555555555555555555555555555555555555555501016100000000000000050000000000000001111111111111111111111111111111111111111111111111111111111111111101004e4e4e4e4e4e4e4e4e4e4e4e4e4e4e4e4e4e4e4e4e4e4e4e4e4e4e4e4e4e4e4e005555555555555555555555555555555555555555555555555555555555555555000020c829d729f7a6d6c9e53b25700abe4e6c8e3c37cf8c4cf612ceafd4d405183c";

fn digits_of(word: &str) -> &str {
    match word {
        "HEAD" => HEAD,
        "OTHER" => OTHER,
        "ROW" => ROW,
        "CUT" => CUT,
        _ => word,
    }
}

// The bytes that the words spell, one behind the other.
pub(crate) fn joined(alloc: Global, words: &str) -> Option<Vec<u8>> {
    let mut bytes = Vec::new(alloc);
    for word in words.split_whitespace() {
        let piece = hex::decode(alloc, digits_of(word)).ok()?;
        bytes.extend_from_slice(&piece).ok()?;
    }
    Some(bytes)
}

// The namespace of the files.
pub(crate) fn namespace() -> Option<NamespaceKey> {
    let mut bytes = [0x4e; 33];
    bytes[0] = 0;
    NamespaceKey::from_bytes(bytes)
}

// The row of a body that a frame may carry.
fn row_of_body(alloc: Global, body: &[u8]) -> Option<RawRow>
    ensures { IfSome result (λ row. IsStreamRow IsRawRow (row_of row)) }
{
    if body.len() > MAX_FRAME {
        return None;
    }
    RawRows::read(alloc, body).ok()?
}

// The row whose frame is ROW.
pub(crate) fn row(alloc: Global) -> Option<RawRow>
    ensures { IfSome result (λ row. IsStreamRow IsRawRow (row_of row)) }
{
    let bytes = joined(alloc, ROW)?;
    row_of_body(alloc, bytes.get(4..)?)
}

// So many copies of a row.
pub(crate) fn copies(alloc: Global, row: &RawRow, count: usize) -> Option<Vec<LogRow<RawRow>>>
    requires { IsStreamRow IsRawRow (row_of row.now) }
    ensures { IfSome result (λ v. AllByRecursion (IsStreamRow IsRawRow) (logged_rows row_of v.items)) }
{
    let mut slice = Vec::new(alloc);
    for _ in 0..count {
        let copy = row.copy().ok()?;
        slice.push(LogRow { pass: 0, row: copy }).ok()?;
    }
    Some(slice)
}

// What comes of keeping a slice, where it may be kept.
pub(crate) fn keep(
    keeper: &mut Keeper,
    slice: &[LogRow<RawRow>],
) -> Option<Result<u64, End<KeepRefusal>>>
    requires { AllByRecursion (IsStreamRow IsRawRow) (logged_rows row_of slice.now) }
{
    slices_are_short::<RawRows>();
    if keeper.is_broken() || keeper.end() >= 1 << 62 || slice.is_empty() || slice.len() > 256 {
        return None;
    }
    Some(keeper.keep(slice))
}

// The keeper of a log that is begun on a disk whose file holds none.
pub(crate) fn begun(
    alloc: Global,
    disk: MemDisk,
) -> Result<Option<Keeper>, (MemDisk, End<KeepRefusal>)> {
    let Some(namespace) = namespace() else {
        return Ok(None);
    };
    match Keeper::open(alloc, disk, &namespace)? {
        Opened::Absent(disk) => Ok(Some(Keeper::create(alloc, disk, &namespace)?)),
        Opened::Log { .. } => Ok(None),
    }
}

// What is found in a file: no log, a log of so many copies of the row of ROW, one that is bad at a place, or what is not
// asked for here.
#[derive(Clone, Copy, Debug, PartialEq, Eq)]
pub(crate) enum Found {
    Absent,
    Rows(usize),
    Bad(u64),
    Failed(KeepRefusal),
    Other,
}

// How many rows there are, where they are copies of that of ROW.
fn counted(alloc: Global, rows: &[RawRow]) -> Found {
    match row(alloc) {
        Some(due) if rows.iter().all(|row| same(row, &due)) => Found::Rows(rows.len()),
        _ => Found::Other,
    }
}

// What is found in a file that was opened.
fn what_is_held(alloc: Global, opened: Opened<RawRows, MemDisk>) -> Found {
    match opened {
        Opened::Absent(_disk) => Found::Absent,
        Opened::Log {
            keeper: _keeper,
            rows,
        } => counted(alloc, &rows),
    }
}

// What is found in a file that is not opened.
fn refused(why: &End<KeepRefusal>) -> Found {
    match why {
        End::Refused(KeepRefusal::BadLog { at }) => Found::Bad(*at),
        End::Refused(why) => Found::Failed(*why),
        End::NoMemory => Found::Other,
    }
}

// What is found on the disk.
pub(crate) fn opened(alloc: Global, disk: MemDisk) -> Found {
    let Some(namespace) = namespace() else {
        return Found::Other;
    };
    match Keeper::open(alloc, disk, &namespace) {
        Ok(opened) => what_is_held(alloc, opened),
        Err((_disk, why)) => refused(&why),
    }
}

// What is found in a file of these bytes.
pub(crate) fn opened_bytes(alloc: Global, bytes: Vec<u8>) -> Found {
    opened(alloc, MemDisk::new(alloc, bytes, Vec::new(alloc)))
}
