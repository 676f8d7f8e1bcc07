//! Chains of hashes on their way (RFC 8554, section 4).

ghost use Rattle.std.specs.Prelude.{◌≡◌, ◌+◌, ◌-◌, ◌≤◌};

/// A chain of hashes on its way. Its step `j` hashes the front, `j` in one byte and the value, and the digest is the
/// next value.
#[derive(Clone, Copy)]
pub struct Chain {
    /// What each hash input begins with. In RFC 8554 the identifier I, q in four bytes and i in two.
    pub front: [u8; 22],
    /// The number of the next step.
    pub at: u8,
    /// The number of the step before which the chain ends.
    pub to: u8,
    /// The value before the next step.
    pub value: [u8; 32],
}

impl Chain {
    /// How many steps are left.
    pub(crate) fn left(&self) -> u8
        ensures value { result ≡ self.now.to - self.now.at }
        ensures room { self.now.at + result ≤ 255 }
    {
        self.to.saturating_sub(self.at)
    }
}
