//! A link that gives a byte at a time.

ghost use Rattle.std.specs.Prelude.{◌≡◌};

use crate::{Fault, Link};
use std::marker::Model;

/// A link whose reads give at most one byte, so that no byte is taken behind the one that is asked for.
#[derive(Drop)]
pub struct ByteLink<L: Link> {
    link: L,
}

impl<L: Link> Model for ByteLink<L> {
    ghost Value = { L };

    ghost view = { λ s. s.link };
}

impl<L: Link> ByteLink<L> {
    /// The link `link`, read a byte at a time.
    pub fn new(link: L) -> ByteLink<L>
        ensures value { result ≡ link }
        ensures facts { ⟦<ByteLink<L> as Link>⟧.facts result ≡ L.facts link }
    {
        ByteLink { link }
    }

    /// Gives the link back, as it is by then.
    pub fn into_inner(self) -> L
        ensures value { result ≡ self }
        ensures facts { L.facts result ≡ ⟦<ByteLink<L> as Link>⟧.facts self }
    {
        let ByteLink { link } = self;
        link
    }
}

impl<L: Link> Link for ByteLink<L> {
    ghost facts = { λ s. L.facts s };

    ghost most = { λ _. 1 };

    /// Gives one byte where `buf` has room for it and the link gives one.
    fn read(&mut self, buf: &mut [u8]) -> Result<usize, Fault> {
        let mut byte = [0u8; 1];
        if buf.is_empty() {
            return self.link.read(&mut byte[..0]);
        }
        let n = self.link.read(&mut byte)?;
        if n > 0 {
            buf[0] = byte[0];
        }
        Ok(n)
    }

    /// Takes what the link takes.
    fn write(&mut self, piece: &[u8]) -> Result<usize, Fault> {
        self.link.write(piece)
    }
}
