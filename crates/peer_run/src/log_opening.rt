//! The log file of a server is opened, or begun where there is none.

ghost use Rattle.std.specs.Prelude.{◌≡◌, None, Some, Ok, Err, IfOk, IfErr, IfSome};
ghost use Rattle.willow_outside.specs.Disks.{LeavesContents};
ghost use Rattle.log_keeper.specs.LogFile.{HoldsNoLog};
ghost use Rattle.peer_stage.specs.World.{World};
ghost use Rattle.peer_stage.specs.Faults.{CountsStep};
ghost use Rattle.peer_run.specs.LogFiles.{file_state, file_states};
ghost use Rattle.peer_run.specs.LogOpening.{BeginsFile, IsFileOpened, OpensFile, OpensName, refused_stop};

use crate::log_file::LogFile;
use cap_codec::{RawRow, RawRows};
use log_keeper::{KeepRefusal, LogKeeper, Opened};
use peer_stage::{Origin, Stop};
use row_intake::known_raws;
use spelling::End;
use std::alloc::Global;
use willow_outside::{Bay, Disk, Fault};
use willow_path::NamespaceKey;

/// Opens the log file of this name at the bay, or begins it where it holds no log, and answers the rows that it holds. Where no
/// file is named there are none. A disk that is refused is given back.
pub(crate) fn open_file<K: Disk, B: Bay<D = K>>(
    alloc: Global,
    log: Option<String>,
    namespace: &NamespaceKey,
    bay: &mut B,
    file: &mut Option<LogFile<K>>,
) -> Result<Vec<RawRow>, Stop>
    requires none { file.old ≡ None }
    ensures opened { IfSome (file_states K.facts file.new) (IsFileOpened log (B.facts bay.old) (B.facts bay.new)) }
    ensures opens { (others : World) → OpensFile log (file_states K.facts file.new) namespace.now (record others { bay = B.facts bay.old }) (record others { bay = B.facts bay.new }) result }
{
    let Some(name) = log else {
        return Ok(Vec::new(alloc));
    };
    let (opened, rows) = open_name(alloc, name, namespace, bay)?;
    *file = Some(opened);
    Ok(rows)
}

// The same of a name.
fn open_name<K: Disk, B: Bay<D = K>>(
    alloc: Global,
    name: String,
    namespace: &NamespaceKey,
    bay: &mut B,
) -> Result<(LogFile<K>, Vec<RawRow>), Stop>
    ensures opens { IfOk result (λ x. OpensName name namespace.now (Some (file_state K.facts x.0)) (B.facts bay.old) (B.facts bay.new) (Ok x.1)) }
    ensures stops { IfErr result (λ e. OpensName name namespace.now None (B.facts bay.old) (B.facts bay.new) (Err e)) }
    ensures faults { CountsStep (B.facts bay.old).faults (B.facts bay.new).faults result }
{
    let disk = match bay.open(name.as_str()) {
        Ok(disk) => disk,
        Err(Fault::Failed) => return Err(Stop::ReadFault),
        Err(Fault::NoMemory) => return Err(Stop::NoMemory),
    };
    match read_or_begin(alloc, disk, namespace) {
        Ok(found) => Ok(found),
        Err((disk, why)) => {
            bay.give_back(disk);
            Err(stop_of(why, name))
        }
    }
}

// The file of a disk, opened or begun, and the rows that it holds.
fn read_or_begin<K: Disk>(
    alloc: Global,
    disk: K,
    namespace: &NamespaceKey,
) -> Result<(LogFile<K>, Vec<RawRow>), (K, End<KeepRefusal>)>
    requires settled { LeavesContents (K.facts disk).contents (K.may_leave disk) }
    ensures { BeginsFile K.facts namespace.now (K.facts disk) result }
{
    match LogKeeper::<RawRows, K>::open(alloc, disk, namespace) {
        Ok(Opened::Log { keeper, rows }) => {
            known_raws(&rows);
            let kept = rows.len() as u64;
            Ok((
                LogFile {
                    keeper,
                    kept,
                    front: 0,
                },
                rows,
            ))
        }
        Ok(Opened::Absent(disk)) => begin(alloc, disk, namespace),
        Err(back) => Err(back),
    }
}

// A new file on a disk that holds no log.
fn begin<K: Disk>(
    alloc: Global,
    disk: K,
    namespace: &NamespaceKey,
) -> Result<(LogFile<K>, Vec<RawRow>), (K, End<KeepRefusal>)>
    requires settled { LeavesContents (K.facts disk).contents (K.may_leave disk) }
    requires no_log { IfSome (K.facts disk).contents HoldsNoLog }
    ensures { BeginsFile K.facts namespace.now (K.facts disk) result }
{
    match LogKeeper::<RawRows, K>::create(alloc, disk, namespace) {
        Ok(keeper) => Ok((
            LogFile {
                keeper,
                kept: 0,
                front: 0,
            },
            Vec::new(alloc),
        )),
        Err(back) => Err(back),
    }
}

// Why a server stops whose log file is refused.
fn stop_of(why: End<KeepRefusal>, name: String) -> Stop
    ensures { result ≡ refused_stop why name }
{
    match why {
        End::Refused(KeepRefusal::ReadFailed) => Stop::ReadFault,
        End::Refused(KeepRefusal::WriteFailed) => Stop::WriteFault,
        End::Refused(KeepRefusal::BadLog { at }) => Stop::BadInput {
            origin: Origin::Name(name),
            at,
        },
        End::NoMemory => Stop::NoMemory,
    }
}
