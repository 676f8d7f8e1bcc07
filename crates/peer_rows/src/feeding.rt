//! A stream of rows that is fed in pieces, and how it stops a command.

ghost use Rattle.std.specs.Prelude.{◌≡◌, ℕ, List, ◌+◌, ◌≤◌, ◌++◌, length};
ghost use Rattle.std.specs.List.{AllByRecursion};
ghost use Rattle.cap_codec.specs.Rows.{IsRaw, RawValue};
ghost use Rattle.peer_stage.specs.declared.outcome.Origin.TheVariants as origin;
ghost use Rattle.peer_stage.specs.declared.outcome.Stop.TheVariants as stop;
ghost use Rattle.peer_rows.specs.Coming.{AreFed, EndsStream, FeedsPiece, offset_of};

use cap_codec::{RawRow, RawRows};
use peer_stage::{INPUT_LIMIT, Stop};
use row_stream::{RowStream, StreamRefusal};
use spelling::End;

/// Feeds a piece to the stream, and answers the rows that become whole with it.
pub(crate) fn feed_piece(stream: &mut RowStream<RawRows>, piece: &[u8]) -> Result<Vec<RawRow>, Stop>
    requires { (bytes : List ℕ) × (rows : List RawValue) × AreFed bytes rows stream.old × (length bytes + length piece.now ≤ INPUT_LIMIT) }
    ensures { (bytes : List ℕ) (rows : List RawValue) → AreFed bytes rows stream.old → FeedsPiece (bytes ++ piece.now) rows stream.new result }
{
    let rows = match stream.feed(piece) {
        Ok(rows) => rows,
        Err(End::Refused(refusal)) => return Err(stop_of(refusal)),
        Err(End::NoMemory) => return Err(Stop::NoMemory),
    };
    known_rows(&rows);
    Ok(rows)
}

/// Ends the stream where the input ended.
pub(crate) fn end_stream(stream: &RowStream<RawRows>) -> Result<(), Stop>
    ensures { EndsStream stream.now result }
{
    match stream.finish() {
        Ok(()) => Ok(()),
        Err(refusal) => Err(stop_of(refusal)),
    }
}

// The input goes wrong where its stream of rows does.
fn stop_of(refusal: StreamRefusal) -> Stop
    ensures { result ≡ stop.BadInput origin.Input (offset_of refusal) }
{
    match refusal {
        StreamRefusal::BadFrame { at }
        | StreamRefusal::FrameTooLong { at }
        | StreamRefusal::CutShort { at } => Stop::bad_input(at),
    }
}

// Does nothing: it is called for its clause, that the rows are within their limits.
fn known_rows(rows: &[RawRow])
    ensures { AllByRecursion IsRaw rows.now }
{
    for row in rows {
        row.known();
    }
}
