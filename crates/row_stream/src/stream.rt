//! The stream.

ghost use Rattle.std.specs.Prelude.{◌≡◌, ◌+◌, ◌^◌, ◌<◌, [], length, None, IsErrOf};
ghost use Rattle.spelling.specs.declared.ending.End.TheVariants as ends;
ghost use Rattle.row_stream.specs.Feeding.{nothing_fed, handed, Feeds, Finishes};
ghost use Rattle.row_stream.specs.Memory.{PieceAsks};

use crate::reading::read_piece;
use crate::refusal::StreamRefusal;
use spelling::End;
use std::alloc::Global;
use std::marker::{Model, PhantomData};
use willow_entry::RowForm;

/// A stream of row frames whose bodies are of a grammar, that is fed in pieces of any size. A contract sees the bytes of
/// the frame that has begun, the offset of its first byte, and the refusal of a stream that is refused.
#[derive(Drop)]
pub struct RowStream<F: RowForm> {
    alloc: Global,
    begun: Vec<u8>,
    at: u64,
    refusal: Option<StreamRefusal>,
    form: PhantomData<F>,
}

impl<F: RowForm> Model for RowStream<F> {
    ghost use Rattle.std.specs.Prelude.{◌≡◌, None};
    ghost use Rattle.row_stream.specs.Feeding.{StreamState};

    ghost Value = { StreamState };

    ghost use Rattle.row_stream.specs.Places.{IsUnfinished};

    ghost view = { λ s. record { begun = s.begun.items; at = s.at; refusal = s.refusal } };

    ghost invariant = { λ s. s.refusal ≡ None → IsUnfinished s.begun.items };
}

impl<F: RowForm> RowStream<F> {
    /// A stream of which nothing was fed. It keeps the allocator, for rows and for the frame that has begun.
    pub fn new(alloc: Global) -> RowStream<F>
        ensures { result ≡ nothing_fed }
    {
        RowStream {
            alloc,
            begun: Vec::new(alloc),
            at: 0,
            refusal: None,
            form: PhantomData,
        }
    }

    /// The rows that became whole with this piece, in order. All pieces have fewer than 2^64 bytes together. The stream
    /// is refused as soon as a length is there that is above `MAX_FRAME`, or a body is whole that is no row: then no row
    /// of this piece is handed out, and from then on every call answers the same refusal. Want of memory leaves the
    /// stream as it was. Where nothing has begun it comes of no piece whose first length is above `MAX_FRAME`, and of one
    /// whose first body is shorter than any entry only where that body asks for memory.
    pub fn feed(&mut self, piece: &[u8]) -> Result<Vec<F::R>, End<StreamRefusal>>
        requires { self.old.refusal ≡ None → self.old.at + length self.old.begun + length piece.now < 2 ^ 64 }
        ensures feeds { Feeds F.IsRow self.old self.new piece.now (handed F.R.value result) }
        ensures asked { IsErrOf result ends.NoMemory → self.old.begun ≡ [] → PieceAsks piece.now }
    {
        if let Some(refusal) = self.refusal {
            return Err(End::Refused(refusal));
        }
        let had = self.begun.len();
        match read_piece::<F>(self.alloc, self.at, &mut self.begun, piece) {
            Ok((rows, at)) => {
                self.at = at;
                Ok(rows)
            }
            Err(End::Refused(refusal)) => {
                self.refusal = Some(refusal);
                Err(End::Refused(refusal))
            }
            Err(End::NoMemory) => {
                self.begun.truncate(had);
                Err(End::NoMemory)
            }
        }
    }

    /// Whether the stream may end here: `CutShort` exactly where a frame has begun and is not whole, and the refusal of
    /// a stream that is refused.
    pub fn finish(&self) -> Result<(), StreamRefusal>
        ensures { Finishes self.now result }
    {
        match self.refusal {
            Some(refusal) => Err(refusal),
            None if self.begun.is_empty() => Ok(()),
            None => Err(StreamRefusal::CutShort { at: self.at }),
        }
    }
}
