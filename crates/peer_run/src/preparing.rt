//! What a side brings to sessions besides what signs.

ghost use Rattle.std.specs.Prelude.{◌≡◌, ◌++◌, Option, None, IfOk, IfSome, Err};
ghost use Rattle.std.specs.String.{string_bytes};
ghost use Rattle.std.specs.declared.alloc.Global.{Global};
ghost use Rattle.std.specs.declared.string.String.{String};
ghost use Rattle.peer_words.specs.declared.command.AreaWords.{AreaWords};
ghost use Rattle.peer_stage.specs.World.{World};
ghost use Rattle.peer_run.specs.LogFiles.{file_states};
ghost use Rattle.peer_run.specs.LogOpening.{IsFileOpened};
ghost use Rattle.peer_run.specs.Preparing.{Prepares, nonce_of, plan_of};

use crate::getting::{get_capability, get_image};
use crate::greeting::greet;
use crate::log_file::LogFile;
use crate::log_opening::open_file;
use crate::opening::{Opening, open_log};
use cap_codec::RawRow;
use lms_core::PeerScheme;
use peer_image::Image;
use peer_stage::Stop;
use peer_words::AreaWords;
use spelling::NoMemory;
use std::alloc::Global;
use std::thread::Threads;
use sync_hello::Hello;
use sync_link::{Interest, SessionPlan};
use sync_msg::Role;
use willow_outside::{Bay, Disk, Shelf};

// The own hello is judged before anything is drawn, and its nonce makes no difference to that.
const NO_NONCE: [u8; 16] = [0; 16];

/// The log of the own image, and the own hello, against which nothing is.
#[derive(Drop)]
pub(crate) struct Prepared {
    pub(crate) opening: Opening,
    pub(crate) hello: Hello,
}

/// Gets the image, opens the log file of this name where one is named, gets the capability, and judges the own hello.
pub(crate) fn prepare<R: Threads + Sync, H: Shelf, K: Disk, B: Bay<D = K>>(
    rt: &R,
    alloc: Global,
    shelf: &mut H,
    image: String,
    cap: String,
    area: &AreaWords,
    log: Option<String>,
    bay: &mut B,
    file: &mut Option<LogFile<K>>,
) -> Result<Prepared, Stop>
    requires none { file.old ≡ None }
    ensures opened { IfSome (file_states K.facts file.new) (IsFileOpened log (B.facts bay.old) (B.facts bay.new)) }
    ensures prepares { (others : World) → Prepares image cap area.now log (file_states K.facts file.new)
        (record others { shelf = H.facts shelf.old; bay = B.facts bay.old }) (record others { shelf = H.facts shelf.new; bay = B.facts bay.new }) result }
{
    let image = get_image(alloc, shelf, image)?;
    let namespace = image.namespace;
    let rows = open_file(alloc, log, &namespace, bay, file)?;
    let both = with_rows(image, rows)?;
    let opening = open_log(rt, alloc, both)?;
    let capability = get_capability(alloc, shelf, cap)?;
    let hello = greet(&namespace, area, capability, NO_NONCE)?;
    Ok(Prepared { opening, hello })
}

// The image with these rows behind its own.
fn with_rows(image: Image, mut more: Vec<RawRow>) -> Result<Image, NoMemory>
    ensures namespace { IfOk result (λ both. both.namespace ≡ image.namespace) }
    ensures rows { IfOk result (λ both. both.rows.items ≡ image.rows.items ++ more.items) }
{
    let Image {
        namespace,
        mut rows,
    } = image;
    rows.append(&mut more)?;
    Ok(Image { namespace, rows })
}

/// The same name, of which one is handed on with what is got.
pub(crate) fn copy_of(name: &String) -> Result<String, NoMemory>
    ensures { IfOk result (λ copy. string_bytes copy ≡ string_bytes name.now) }
{
    Ok(name.clone()?)
}

/// Why a run stops that finds no memory for a second name. The image is asked for all the same, since a shelf that lacks it says
/// so without memory.
pub(crate) fn stop_without_copy<H: Shelf>(alloc: Global, shelf: &mut H, image: String) -> Stop
    ensures { (cap : String Global) (area : AreaWords) (log : Option (String Global)) (others : World) → Prepares image cap area log None
        (record others { shelf = H.facts shelf.old }) (record others { shelf = H.facts shelf.new }) (Err result) }
{
    match get_image(alloc, shelf, image) {
        Ok(_) => Stop::NoMemory,
        Err(stop) => stop,
    }
}

/// The plan of a side of this role that says this of itself, and offers as much as the limits leave.
pub(crate) fn plan_of(role: Role, hello: Hello, limits: Interest) -> SessionPlan<PeerScheme>
    ensures { result ≡ plan_of role hello limits }
{
    let Hello {
        version,
        ask,
        capability,
        ..
    } = hello;
    SessionPlan {
        scheme: PeerScheme,
        version,
        role,
        capability,
        ask,
        interest: limits,
    }
}

/// The nonce of a draw: its first 16 bytes.
pub(crate) fn nonce_of(words: &[u8; 32]) -> [u8; 16]
    ensures { result ≡ nonce_of words.now }
{
    let mut nonce = [0; 16];
    nonce.copy_from_slice(&words[..16]);
    nonce
}
