//! Hellos, and how they are spelled as bytes.

ghost use Rattle.std.specs.Prelude.{◌≡◌, ◌<◌, ◌^◌, ◌++◌, IfOk, OnErr, OnOk};
ghost use Rattle.spelling.specs.Spelling.{AreSoManyBytes};
ghost use Rattle.sync_hello.specs.HelloForm.{hello_spelling, HasSpelling, IsHello};

use mc_cap::Capability;
use spelling::{NoMemory, put_byte, put_bytes, put_u32};
use std::alloc::Global;
use willow_area::Area;

/// What a side of an exchange says first. Contracts see the fields; whether it is refused, `check_hello` answers.
#[derive(Drop)]
pub struct Hello {
    /// The highest version that the side speaks; 0 is refused.
    pub version: u8,
    /// Sixteen bytes that are new in each exchange, so that no proof serves twice.
    pub nonce: [u8; 16],
    /// The area that the side wants to compare.
    pub ask: Area,
    /// The capability that lets it read the area.
    pub capability: Capability,
}

impl Hello {
    /// Appends the hello's spelling to `out`: the text WSY, a byte for the version, the nonce, the ask, the length of
    /// the capability in four bytes, and the capability. It needs a capability whose spelling has at most `MAX_FRAME`
    /// bytes. Without memory `out` stays as it was.
    pub fn encode(&self, out: &mut Vec<u8>) -> Result<(), NoMemory>
        requires { HasSpelling self.now }
        ensures spelled { OnOk result (out.new.items ≡ out.old.items ++ hello_spelling self.now) }
        ensures err { OnErr result (out.new.items ≡ out.old.items) }
    {
        let text = self.spelled(*out.allocator())?;
        put_bytes(out, &text)
    }

    // The spelling.
    #[tactic(auto, unfolding(crate::specs::HelloForm::hello_spelling))]
    fn spelled(&self, alloc: Global) -> Result<Vec<u8>, NoMemory>
        requires { HasSpelling self.now }
        ensures { IfOk result (λ text. text.items ≡ hello_spelling self.now) }
    {
        let mut capability = Vec::new(alloc);
        self.capability.encode(&mut capability)?;
        let mut text = Vec::new(alloc);
        put_bytes(&mut text, b"WSY")?;
        put_byte(&mut text, self.version)?;
        put_bytes(&mut text, &self.nonce)?;
        self.ask.encode(&mut text)?;
        put_u32(&mut text, capability.len() as u32)?;
        put_bytes(&mut text, &capability)?;
        Ok(text)
    }

    /// Does nothing: it is called for its clause, that each field is within its limits.
    pub fn known(&self)
        requires { HasSpelling self.now }
        ensures { IsHello self.now }
    {
        see_version(self.version);
        see_nonce(&self.nonce);
        self.ask.known();
        self.capability.known();
    }
}

// A version is one byte.
fn see_version(version: u8)
    ensures { version < 2 ^ 8 }
{
    let _ = version;
}

// A nonce has 16 bytes.
fn see_nonce(nonce: &[u8; 16])
    ensures { AreSoManyBytes 16 nonce.now }
{
    let _bytes = nonce.as_slice();
}
