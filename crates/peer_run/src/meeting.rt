//! `meet`: two images meet in an area that two capabilities let both read.

ghost use Rattle.std.specs.Prelude.{◌^◌, ◌<◌, length};
ghost use Rattle.peer_stage.specs.World.{World};
ghost use Rattle.peer_run.specs.Meet.{Agrees, Gathers, Meets, Puts};

use crate::getting::{get_capability, get_image};
use crate::greeting::greet;
use crate::images_met::{Met, meet_images};
use area_interest::Interest;
use mc_cap::Capability;
use peer_image::Image;
use peer_stage::{Done, Stop, put_bytes, write_output};
use peer_words::AreaWords;
use std::alloc::Global;
use std::thread::Threads;
use sync_hello::{HelloRefusal, common_area};
use willow_area::Area;
use willow_outside::{Shelf, Sink};
use willow_path::NamespaceKey;

// A nonce is new in each session, so that no proof serves twice; here nothing is proved.
const NO_NONCE: [u8; 16] = [0; 16];

/// What the words of a meeting name: the images, the capabilities, the images that come of it, the area, and how much of it each
/// side offers.
#[derive(Drop)]
pub(crate) struct MeetWords {
    pub(crate) left: String,
    pub(crate) right: String,
    pub(crate) left_cap: String,
    pub(crate) right_cap: String,
    pub(crate) left_out: String,
    pub(crate) right_out: String,
    pub(crate) area: AreaWords,
    pub(crate) limits: Interest,
}

/// Both images, and the capabilities by which each side reads.
#[derive(Drop)]
pub(crate) struct Sides {
    left: Image,
    right: Image,
    left_cap: Capability,
    right_cap: Capability,
}

/// Gets two images and two capabilities from the shelf, lets the authorised rows of the images meet, puts the images
/// of what each side has then, and writes the transcript: per turn a byte for the side (0 left, 1 right), its length in
/// four bytes, and its bytes.
///
/// Both images are of one namespace, and nothing may be against the hello of either side, which asks for the area of
/// the words; a field without a word is that of what the side's capability grants. Each side offers as much of its rows as the
/// limits of the words leave.
pub(crate) fn meet<R: Threads + Sync, H: Shelf, O: Sink>(
    rt: &R,
    alloc: Global,
    words: MeetWords,
    shelf: &mut H,
    output: &mut O,
) -> Result<Done, Stop>
    ensures { (others : World) → Meets words
        (record others { shelf = H.facts shelf.old; output = O.facts output.old })
        (record others { shelf = H.facts shelf.new; output = O.facts output.new }) result }
{
    let MeetWords {
        left,
        right,
        left_cap,
        right_cap,
        left_out,
        right_out,
        area,
        limits,
    } = words;
    let Sides {
        left,
        right,
        left_cap,
        right_cap,
    } = gather(alloc, shelf, left, right, left_cap, right_cap)?;
    let area = agree(
        &left.namespace,
        &right.namespace,
        left_cap,
        right_cap,
        &area,
    )?;
    let met = meet_images(rt, alloc, left, right, &area, &limits)?;
    put_and_write(shelf, &left_out, &right_out, met, output)
}

// Both images, and then both capabilities.
fn gather<H: Shelf>(
    alloc: Global,
    shelf: &mut H,
    left: String,
    right: String,
    left_cap: String,
    right_cap: String,
) -> Result<Sides, Stop>
    ensures { (others : World) → Gathers left right left_cap right_cap (record others { shelf = H.facts shelf.old }) (record others { shelf = H.facts shelf.new }) result }
{
    Ok(Sides {
        left: get_image(alloc, shelf, left)?,
        right: get_image(alloc, shelf, right)?,
        left_cap: get_capability(alloc, shelf, left_cap)?,
        right_cap: get_capability(alloc, shelf, right_cap)?,
    })
}

// The area that both sides may read, where both images are of one namespace and nothing is against either hello.
fn agree(
    namespace: &NamespaceKey,
    other: &NamespaceKey,
    left_cap: Capability,
    right_cap: Capability,
    words: &AreaWords,
) -> Result<Option<Area>, Stop>
    ensures { Agrees words.now namespace.now other.now left_cap right_cap result }
{
    if *other != *namespace {
        return Err(Stop::SessionRefused(HelloRefusal::WrongNamespace));
    }
    let left = greet(namespace, words, left_cap, NO_NONCE)?;
    let right = greet(namespace, words, right_cap, NO_NONCE)?;
    Ok(common_area(&left, &right)?)
}

// Puts both images, the left one first, and writes the transcript.
fn put_and_write<H: Shelf, O: Sink>(
    shelf: &mut H,
    left_out: &String,
    right_out: &String,
    met: Met,
    output: &mut O,
) -> Result<Done, Stop>
    ensures { (others : World) → Puts left_out.now right_out.now met
        (record others { shelf = H.facts shelf.old; output = O.facts output.old })
        (record others { shelf = H.facts shelf.new; output = O.facts output.new }) result }
{
    put_bytes(shelf, left_out.as_str(), &met.left)?;
    put_bytes(shelf, right_out.as_str(), &met.right)?;
    write_output(output, &met.transcript)?;
    Ok(Done::Met(met.counts))
}
