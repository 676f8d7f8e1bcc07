//! The stages that get and put the bytes of names.

ghost use Rattle.std.specs.Prelude.{◌≡◌};
ghost use Rattle.peer_stage.specs.Faults.{CountsStep};
ghost use Rattle.peer_stage.specs.Shelves.{GetsBytes, PutsBytes, bytes_told};

use crate::outcome::Stop;
use willow_outside::{Fault, Shelf};

/// The bytes that the shelf has under the name, and the name, by which it is told where they are not as they must be.
pub fn get_bytes<H: Shelf>(shelf: &mut H, name: String) -> Result<(String, Vec<u8>), Stop>
    ensures gets { GetsBytes name (H.facts shelf.old) (H.facts shelf.new) result }
    ensures read_faults { CountsStep (H.facts shelf.old).read_faults (H.facts shelf.new).read_faults result }
    ensures write_faults { (H.facts shelf.new).write_faults ≡ (H.facts shelf.old).write_faults }
{
    let found = shelf.get(name.as_str());
    tell_bytes(name, found)
}

// What is told of what the shelf found under the name: want of memory only where the shelf told it.
fn tell_bytes(
    name: String,
    found: Result<Option<Vec<u8>>, Fault>,
) -> Result<(String, Vec<u8>), Stop>
    ensures { result ≡ bytes_told name found }
{
    match found {
        Ok(Some(bytes)) => Ok((name, bytes)),
        Ok(None) => Err(Stop::Missing { name }),
        Err(Fault::Failed) => Err(Stop::ReadFault),
        Err(Fault::NoMemory) => Err(Stop::NoMemory),
    }
}

/// Puts the bytes under the name, in place of what was there.
pub fn put_bytes<H: Shelf>(shelf: &mut H, name: &str, bytes: &[u8]) -> Result<(), Stop>
    ensures puts { PutsBytes name.now bytes.now (H.facts shelf.old) (H.facts shelf.new) result }
    ensures read_faults { (H.facts shelf.new).read_faults ≡ (H.facts shelf.old).read_faults }
    ensures write_faults { CountsStep (H.facts shelf.old).write_faults (H.facts shelf.new).write_faults result }
{
    match shelf.put(name, bytes) {
        Ok(()) => Ok(()),
        Err(Fault::Failed) => Err(Stop::WriteFault),
        Err(Fault::NoMemory) => Err(Stop::NoMemory),
    }
}
