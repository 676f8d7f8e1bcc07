//! How capabilities are spelled, and which messages are signed to make them.

ghost use Rattle.std.specs.Prelude.{◌≡◌, ◌++◌, ◌∷◌, [], IfOk, OnErr, OnOk};
ghost use Rattle.willow_area.specs.AreaSpelling.{area_spelling};
ghost use Rattle.mc_cap.specs.Signature.{signature_spelling};
ghost use Rattle.mc_cap.specs.Forms.{mode_byte, form_byte, initial_spelling, delegation_spelling, chain_spelling, head_spelling, capability_spelling};
ghost use Rattle.mc_cap.specs.Messages.{handover, initial_message};

use crate::capability::{Capability, Mode};
use crate::chain::{Chain, Delegation};
use crate::signature::Signature;
use spelling::{put_byte, put_bytes, put_u16};
use willow_area::Area;
use willow_path::{NoMemory, UserKey};

// The room that is taken at first: most capabilities have two keys, a signature of 32 bytes and no delegation.
const USUAL_ROOM: usize = 128;

// The room that is taken at first for a handover: most have three keys, an initial signature of 32 bytes and a short path.
const HANDOVER_ROOM: usize = 256;

/// What a namespace signs for an owned capability: the letter I, a byte for the mode (0 to read, 1 to
/// write), and the key of the user who has it first.
pub fn initial_message(mode: Mode, user: &UserKey) -> [u8; 35]
    ensures { result ≡ initial_message mode user.now }
{
    let mut message = [0; 35];
    message[0] = b'I';
    message[1] = mode_byte(mode);
    message[2..].copy_from_slice(&user.to_bytes());
    message
}

impl Capability {
    /// Appends the capability's spelling to `out`: a byte for mode and ownership (0 communal to read, 1
    /// communal to write, 2 owned to read, 3 owned to write), the namespace's key, the first user's key,
    /// the initial signature where it is owned, a byte for the number of delegations, and for each its
    /// area, its user's key and its signature. A signature has its length in two bytes before it.
    /// Without memory `out` stays as it was.
    pub fn encode(&self, out: &mut Vec<u8>) -> Result<(), NoMemory>
        ensures spelled { OnOk result (out.new.items ≡ out.old.items ++ capability_spelling self.now) }
        ensures err { OnErr result (out.new.items ≡ out.old.items) }
    {
        let mut text = Vec::with_capacity(*out.allocator(), USUAL_ROOM)?;
        self.spell(&mut text)?;
        put_bytes(out, &text)
    }

    /// What the receiver signs to hand the capability on, for an area, to a user: the letter H, the
    /// capability's spelling, the area's, and the user's key.
    #[tactic(auto, unfolding(crate::specs::Messages::handover))]
    pub fn handover(&self, area: &Area, user: &UserKey) -> Result<Vec<u8>, NoMemory>
        ensures { IfOk result (λ message. message.items ≡ handover self.now area.now user.now) }
    {
        let mut message = Vec::new(self.chain.allocator());
        put_byte(&mut message, b'H')?;
        self.spell(&mut message)?;
        spell_handing(area, user, &mut message)?;
        Ok(message)
    }

    // What the handover of each delegation begins with, as it is for the first: the letter H and the capability without
    // delegations. The last byte is their number.
    pub(crate) fn begin_handover(&self) -> Result<Vec<u8>, NoMemory>
        ensures { IfOk result (λ message. message.items ≡ (72 ∷ head_spelling self.now) ++ 0 ∷ []) }
    {
        let mut message = Vec::with_capacity(self.chain.allocator(), HANDOVER_ROOM)?;
        put_byte(&mut message, b'H')?;
        self.spell_head(&mut message)?;
        put_byte(&mut message, 0)?;
        Ok(message)
    }

    // Appends the spelling.
    fn spell(&self, text: &mut Vec<u8>) -> Result<(), NoMemory>
        ensures { OnOk result (text.new.items ≡ text.old.items ++ capability_spelling self.now) }
    {
        self.spell_head(text)?;
        spell_chain(&self.chain, text)
    }

    // Appends what comes before the delegations.
    #[tactic(auto, unfolding(crate::specs::Forms::head_spelling))]
    pub(crate) fn spell_head(&self, text: &mut Vec<u8>) -> Result<(), NoMemory>
        ensures { OnOk result (text.new.items ≡ text.old.items ++ head_spelling self.now) }
    {
        put_byte(text, form_byte(self.mode, &self.initial))?;
        put_bytes(text, &self.namespace.to_bytes())?;
        put_bytes(text, &self.user.to_bytes())?;
        spell_initial(&self.initial, text)
    }
}

// The byte of a mode.
fn mode_byte(mode: Mode) -> u8
    ensures { result ≡ mode_byte mode }
{
    match mode {
        Mode::Read => 0,
        Mode::Write => 1,
    }
}

// The first byte of a capability.
fn form_byte(mode: Mode, initial: &Option<Signature>) -> u8
    ensures { result ≡ form_byte mode initial.now }
{
    match (mode, initial) {
        (Mode::Read, None) => 0,
        (Mode::Write, None) => 1,
        (Mode::Read, Some(_)) => 2,
        (Mode::Write, Some(_)) => 3,
    }
}

// Appends the initial signature, where there is one.
fn spell_initial(initial: &Option<Signature>, text: &mut Vec<u8>) -> Result<(), NoMemory>
    ensures { OnOk result (text.new.items ≡ text.old.items ++ initial_spelling initial.now) }
{
    match initial {
        Some(signature) => spell_signature(signature, text),
        None => Ok(()),
    }
}

// Appends a signature's length and its bytes.
pub(crate) fn spell_signature(signature: &Signature, text: &mut Vec<u8>) -> Result<(), NoMemory>
    ensures { OnOk result (text.new.items ≡ text.old.items ++ signature_spelling signature.now) }
{
    let bytes = signature.as_slice();
    put_u16(text, bytes.len() as u16)?;
    put_bytes(text, bytes)
}

// Appends the number of delegations, and each.
fn spell_chain(chain: &Chain, text: &mut Vec<u8>) -> Result<(), NoMemory>
    ensures { OnOk result (text.new.items ≡ text.old.items ++ chain_spelling chain.now) }
{
    put_byte(text, chain.len() as u8)?;
    for delegation in chain.as_slice() {
        spell_delegation(delegation, text)?;
    }
    Ok(())
}

// Appends an area, a user and a signature.
fn spell_delegation(delegation: &Delegation, text: &mut Vec<u8>) -> Result<(), NoMemory>
    ensures { OnOk result (text.new.items ≡ text.old.items ++ delegation_spelling delegation.now) }
{
    spell_handing(&delegation.area, &delegation.user, text)?;
    spell_signature(&delegation.signature, text)
}

// Appends an area that is handed on, and the user who receives it.
pub(crate) fn spell_handing(area: &Area, user: &UserKey, text: &mut Vec<u8>) -> Result<(), NoMemory>
    ensures { OnOk result (text.new.items ≡ text.old.items ++ (area_spelling area.now ++ user.now)) }
{
    area.encode(text)?;
    put_bytes(text, &user.to_bytes())
}
