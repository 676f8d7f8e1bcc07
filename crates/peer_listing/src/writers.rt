//! The capabilities of the generator's writers.

ghost use Rattle.std.specs.Prelude.{◌≡◌, ◌<◌, map, IfOk};
ghost use Rattle.std.specs.List.{range_with_len};
ghost use Rattle.mc_cap.specs.Forms.{capability_spelling};
ghost use Rattle.peer_listing.specs.Generator.{generator_capability, generator_writer, writer_capability};

use crate::generator::{generator_capability, generator_writer};
use mc_cap::Capability;
use spelling::NoMemory;
use std::alloc::Global;

// How many writers the generator has.
const WRITERS: u8 = 8;

/// What makes many rows of the generator: the capability of each writer, which is signed and spelled once.
#[derive(Drop)]
pub struct Generator {
    capabilities: Vec<Capability>,
    spellings: Vec<Vec<u8>>,
    ghost signed: { capabilities.items ≡ map (λ s. generator_capability (generator_writer s)) (range_with_len 0 8) },
    ghost spelled: { map (λ bytes. bytes.items) spellings.items ≡ map writer_capability (range_with_len 0 8) },
}

impl Generator {
    /// Signs the capabilities of the generator's writers.
    pub fn new(alloc: Global) -> Result<Generator, NoMemory> {
        let mut capabilities = Vec::with_capacity(alloc, usize::from(WRITERS))?;
        let mut spellings = Vec::with_capacity(alloc, usize::from(WRITERS))?;
        'writers: for s in 0..WRITERS {
            let capability = generator_capability(alloc, generator_writer(s))?;
            spellings.push(spelling_of(alloc, &capability)?)?;
            capabilities.push(capability)?;
        }
        Ok(Generator {
            capabilities,
            spellings,
        })
    }

    // The capability of writer s.
    pub(crate) fn capability(&self, s: u8) -> &Capability
        requires { s < 8 }
        ensures { result.now ≡ generator_capability (generator_writer s) }
    {
        &self.capabilities[usize::from(s)]
    }

    // Its bytes.
    pub(crate) fn capability_bytes(&self, s: u8) -> &[u8]
        requires { s < 8 }
        ensures { result.now ≡ writer_capability s }
    {
        &self.spellings[usize::from(s)]
    }
}

// The bytes of a capability.
fn spelling_of(alloc: Global, capability: &Capability) -> Result<Vec<u8>, NoMemory>
    ensures { IfOk result (λ bytes. bytes.items ≡ capability_spelling capability.now) }
{
    let mut bytes = Vec::new(alloc);
    capability.encode(&mut bytes)?;
    Ok(bytes)
}
