//! Rows whose tokens are whole.

ghost use Rattle.std.specs.Prelude.{◌≡◌};
ghost use Rattle.cap_codec.specs.TokenParts.{SpellsToken, capability_in};

use willow_entry::Row;

/// A row whose token's bytes spell a token: a capability, and behind it one signature field and nothing else.
pub trait TokenRow: Row {
    /// The spelling of the capability, which stands at the front of the token's bytes.
    fn capability_bytes(&self) -> &[u8]
        ensures capability { result.now ≡ capability_in (Self.value self.now).token }
        ensures token { SpellsToken (Self.value self.now).token };
}
