//! The standard streams.

ghost use Rattle.std.specs.Prelude.{◌≡◌};

use crate::faults::{counted, raised};
use std::io::{Read, Write};
use willow_outside::{Fault, Sink, Source};

/// A real reader, with counts of its faults and of its ends. What it has left is told where the reader tells it.
#[derive(Drop)]
pub struct StdSource<R> {
    reader: R,
    faults: u64,
    ends: u64,
}

impl<R: Read + Drop> StdSource<R> {
    /// Reads from the reader, with counts 0.
    pub fn new(reader: R) -> StdSource<R>
        ensures { ⟦<StdSource<R> as Source>⟧.facts result ≡ record { left = R.remaining reader; faults = 0; ends = 0 } }
    {
        StdSource {
            reader,
            faults: 0,
            ends: 0,
        }
    }
}

impl<R: Read + Drop> Source for StdSource<R> {
    ghost facts = { λ s. record { left = R.remaining s.reader; faults = s.faults; ends = s.ends } };

    fn read(&mut self, buf: &mut [u8]) -> Result<usize, Fault> {
        let room = buf.len();
        match self.reader.read(buf) {
            Ok(0) if room > 0 => {
                self.ends = raised(self.ends);
                Ok(0)
            }
            Ok(count) => Ok(count),
            Err(error) => { Err(counted(&mut self.faults, &error)) }
        }
    }
}

/// A real writer, with a count of its faults. A write of nothing counts as a fault. What it holds is told where the
/// writer tells it.
#[derive(Drop)]
pub struct StdSink<W> {
    writer: W,
    faults: u64,
}

/// The report: a real writer too.
pub type StdReport<W> = StdSink<W>;

impl<W: Write + Drop> StdSink<W> {
    /// Writes to the writer, with the count 0.
    pub fn new(writer: W) -> StdSink<W>
        ensures { ⟦<StdSink<W> as Sink>⟧.facts result ≡ record { held = W.contents writer; faults = 0 } }
    {
        StdSink { writer, faults: 0 }
    }
}

impl<W: Write + Drop> Sink for StdSink<W> {
    ghost facts = { λ s. record { held = W.contents s.writer; faults = s.faults } };

    fn write(&mut self, piece: &[u8]) -> Result<usize, Fault> {
        if piece.is_empty() {
            return Ok(0);
        }
        match self.writer.write(piece) {
            Ok(0) => {
                self.faults = raised(self.faults);
                Err(Fault::Failed)
            }
            Ok(count) => Ok(count),
            Err(error) => { Err(counted(&mut self.faults, &error)) }
        }
    }
}
