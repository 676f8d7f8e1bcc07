//! Images that a command reads, be it from the input or from a name, and the logs of their rows.

ghost use Rattle.std.specs.Prelude.{◌≡◌, ◌^◌, ◌<◌, length, IfOk};
ghost use Rattle.spelling.specs.declared.ending.End.TheVariants as ends;
ghost use Rattle.peer_rows.specs.Images.{ReadsImageFrom, LogsImage, image_told, log_stop};
ghost use Rattle.peer_rows.specs.Opened.{LogsBytes, LogsRows};

use crate::intake::Intake;
use crate::log::Log;
use crate::parts::log_in_parts;
use auth_entry::{AuthorisedEntry, NewChecker};
use lms_core::PeerScheme;
use ns_state::{LiveLog, LogFull};
use peer_image::{Image, ImageRefusal, read_image};
use peer_stage::{JoinCounts, Origin, Stop};
use spelling::End;
use std::alloc::Global;
use std::thread::Threads;

/// A log of authorised rows.
pub type EntryLog = LiveLog<AuthorisedEntry<PeerScheme>>;

/// The image that the bytes are. What is wrong with them is told of where they came from.
pub fn image_from(alloc: Global, bytes: &[u8], origin: Origin) -> Result<Image, Stop>
    ensures { ReadsImageFrom origin bytes.now result }
{
    tell_image(origin, read_image(alloc, bytes))
}

// The image that was read, or why there is none, told of where its bytes came from.
fn tell_image(origin: Origin, read: Result<Image, End<ImageRefusal>>) -> Result<Image, Stop>
    ensures { result ≡ image_told origin read }
{
    match read {
        Ok(image) => Ok(image),
        Err(End::Refused(ImageRefusal::BadImage { at })) => Err(Stop::BadInput { origin, at }),
        Err(End::Refused(ImageRefusal::NotRising { at })) => {
            Err(Stop::NotRising { origin, row: at })
        }
        Err(End::Refused(ImageRefusal::Pruned { at, by })) => Err(Stop::Pruned {
            origin,
            row: at,
            by,
        }),
        Err(End::NoMemory) => Err(Stop::NoMemory),
    }
}

/// The log of the authorised rows of an image, offered in order, and the numbers of all its rows. A checker of the given
/// kind judges them, some at a time, so that what was judged of all of them never stands beside the log.
pub fn log_image<C: NewChecker<PeerScheme>, R: Threads + Sync>(
    rt: &R,
    alloc: Global,
    image: Image,
) -> Result<(EntryLog, JoinCounts), Stop>
    requires { length image.rows.items < 2 ^ 32 }
    ensures logs { LogsImage image.namespace image.rows.items result }
    ensures namespace { IfOk result (λ x. x.0.namespace ≡ image.namespace) }
{
    let log = log_rows::<C, R>(rt, alloc, image)?;
    Ok((log.kept, log.counts))
}

// The same, as a log that goes on.
fn log_rows<C: NewChecker<PeerScheme>, R: Threads + Sync>(
    rt: &R,
    alloc: Global,
    image: Image,
) -> Result<Log, Stop>
    requires { length image.rows.items < 2 ^ 32 }
    ensures { LogsRows image.namespace image.rows.items result }
{
    let Image { namespace, rows } = image;
    let mut checker = C::begin(alloc, PeerScheme, namespace)?;
    let mut intake = Intake::new(alloc, namespace);
    for row in rows {
        intake.admit(rt, alloc, &mut checker, row)?;
    }
    intake.judge(rt, alloc, &mut checker)?;
    Ok(intake.log)
}

/// The log of the authorised rows of the image that the bytes are. What is wrong with them is told of where they came from.
/// Where its rows are in order and find room, no list of them is made beside the log.
pub(crate) fn log_bytes<C: NewChecker<PeerScheme>, R: Threads + Sync>(
    rt: &R,
    alloc: Global,
    bytes: &[u8],
    origin: Origin,
) -> Result<Log, Stop>
    ensures { LogsBytes origin bytes.now result }
{
    if let Some(log) = log_in_parts::<C, R>(rt, alloc, bytes)? {
        return Ok(log);
    }
    let image = image_from(alloc, bytes, origin)?;
    log_rows::<C, R>(rt, alloc, image)
}

/// How a command stops where a row met a full log, or memory was wanting.
pub fn log_stop(end: End<LogFull>) -> Stop
    ensures { result ≡ log_stop end }
{
    match end {
        End::Refused(LogFull { front: _ }) => Stop::LogFull,
        End::NoMemory => Stop::NoMemory,
    }
}
