//! What a command gets from the shelf: images and capabilities, each judged as it is got.

ghost use Rattle.peer_stage.specs.World.{World};
ghost use Rattle.peer_run.specs.Getting.{GetsCapability, GetsImage};

use mc_cap::Capability;
use peer_image::Image;
use peer_make::capability_from;
use peer_rows::image_from;
use peer_stage::{Origin, Stop, get_bytes};
use std::alloc::Global;
use willow_outside::Shelf;

/// The image under a name.
pub(crate) fn get_image<H: Shelf>(alloc: Global, shelf: &mut H, name: String) -> Result<Image, Stop>
    ensures { (others : World) → GetsImage name (record others { shelf = H.facts shelf.old }) (record others { shelf = H.facts shelf.new }) result }
{
    let (name, bytes) = get_bytes(shelf, name)?;
    image_from(alloc, &bytes, Origin::Name(name))
}

/// The capability under a name.
pub(crate) fn get_capability<H: Shelf>(
    alloc: Global,
    shelf: &mut H,
    name: String,
) -> Result<Capability, Stop>
    ensures { (others : World) → GetsCapability name (record others { shelf = H.facts shelf.old }) (record others { shelf = H.facts shelf.new }) result }
{
    let (name, bytes) = get_bytes(shelf, name)?;
    capability_from(alloc, &bytes, Origin::Name(name))
}
