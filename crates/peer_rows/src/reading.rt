//! The reading of an input of row frames: the rows of the next piece of it, and its end.

ghost use Rattle.std.specs.Prelude.{◌≡◌, ℕ, ◌<◌, ◌≤◌, List, length, IfOk, IfSome, IsErrOf, IsTrue, OnOk};
ghost use Rattle.willow_outside.specs.Facts.{SourceFacts};
ghost use Rattle.cap_codec.specs.Rows.{RawValue};
ghost use Rattle.row_stream.specs.Feeding.{nothing_fed};
ghost use Rattle.peer_stage.specs.Faults.{CountsStep};
ghost use Rattle.peer_stage.specs.Stages.{IsReadSomewhat};
ghost use Rattle.peer_stage.specs.declared.outcome.Stop.TheVariants as stop;

use crate::feeding::{end_stream, feed_piece};
use crate::intake::Intake;
use auth_entry::Checker;
use cap_codec::{RawRow, RawRows};
use lms_core::PeerScheme;
use peer_stage::{INPUT_LIMIT, Stop};
use row_stream::RowStream;
use spelling::NoMemory;
use std::alloc::Global;
use std::thread::Threads;
use willow_outside::{Fault, Source};

/// How many bytes are asked for in one read.
const PIECE: usize = 65_536;

/// An input that is read: the stream of its rows, room for one read, and how many bytes may be taken yet.
#[derive(Drop)]
pub(crate) struct Reading {
    pub(crate) stream: RowStream<RawRows>,
    pub(crate) piece: Vec<u8>,
    pub(crate) left: u64,
}

impl Reading {
    ghost use Rattle.peer_rows.specs.Coming.{ComesNext, HaveCome, MayReadOn};
    ghost use Rattle.peer_rows.specs.Reading.{HasRead, IsLonger, ReadsOn};

    /// Nothing is read yet.
    pub(crate) fn begin(alloc: Global) -> Result<Reading, NoMemory>
        ensures stream { IfOk result (λ reading. reading.stream ≡ nothing_fed) }
        ensures room { IfOk result (λ reading. 0 < length reading.piece.items) }
        ensures all { IfOk result (λ reading. reading.left ≡ INPUT_LIMIT) }
    {
        Ok(Reading {
            stream: RowStream::new(alloc),
            piece: vec![in alloc; 0u8; PIECE]?,
            left: INPUT_LIMIT,
        })
    }

    /// Reads once more, and answers the rows that became whole, or None where the input ended. What is wrong stops the
    /// reading. Want of memory comes only where more may be read: not at the end, past the limit or of a stream that is refused.
    pub(crate) fn rows<I: Source>(&mut self, input: &mut I) -> Result<Option<Vec<RawRow>>, Stop>
        requires { (begun : SourceFacts) × (rows : List RawValue) × HaveCome begun (I.facts input.old) self.old rows }
        ensures comes { (begun : SourceFacts) (rows : List RawValue) → HaveCome begun (I.facts input.old) self.old rows
            → ComesNext begun (I.facts input.new) self.new rows result }
        ensures memory { (begun : SourceFacts) (rows : List RawValue) → HaveCome begun (I.facts input.old) self.old rows
            → IsErrOf result stop.NoMemory → MayReadOn begun (I.facts input.new) self.new }
        ensures somewhat { IsReadSomewhat (I.facts input.old) (I.facts input.new) }
        ensures fewer { IfOk result (λ came. IfSome came (λ rows. self.new.left < self.old.left)) }
        ensures faults { CountsStep (I.facts input.old).faults (I.facts input.new).faults result }
        ensures ends { (I.facts input.old).ends ≤ (I.facts input.new).ends }
    {
        // Behind the last byte that may be taken one more tells that the input goes on.
        self.piece.truncate(self.left.max(1) as usize);
        match input.read(&mut self.piece) {
            Ok(0) => {
                end_stream(&self.stream)?;
                Ok(None)
            }
            Ok(n) => {
                if self.left == 0 {
                    return Err(Stop::bad_input(INPUT_LIMIT));
                }
                self.left -= n as u64;
                let rows = feed_piece(&mut self.stream, &self.piece[..n])?;
                Ok(Some(rows))
            }
            Err(Fault::Failed) => Err(Stop::ReadFault),
            Err(Fault::NoMemory) => Err(Stop::NoMemory),
        }
    }

    /// Reads once more, and takes in what came; where the input ended the rows that wait are judged. Answers whether a piece
    /// came. What is wrong stops the reading.
    pub(crate) fn next<C: Checker<PeerScheme>, R: Threads + Sync, I: Source>(
        &mut self,
        rt: &R,
        alloc: Global,
        checker: &mut C,
        intake: &mut Intake,
        input: &mut I,
    ) -> Result<bool, Stop>
        requires namespace { C.judged_in checker.old ≡ intake.old.log.kept.namespace }
        requires read { (n : List ℕ) × (had : List RawValue) × (begun : SourceFacts) × HasRead n had begun (I.facts input.old) self.old intake.old }
        ensures namespace { C.judged_in checker.new ≡ C.judged_in checker.old }
        ensures reads { (n : List ℕ) (had : List RawValue) (begun : SourceFacts) → HasRead n had begun (I.facts input.old) self.old intake.old
            → ReadsOn n had begun (I.facts input.new) self.new intake.new result }
        ensures somewhat { IsReadSomewhat (I.facts input.old) (I.facts input.new) }
        ensures longer { OnOk result (IsLonger intake.old.log intake.new.log) }
        ensures fewer { IfOk result (λ came. IsTrue came → self.new.left < self.old.left) }
        ensures faults { CountsStep (I.facts input.old).faults (I.facts input.new).faults result }
        ensures ends { (I.facts input.old).ends ≤ (I.facts input.new).ends }
    {
        let Some(rows) = self.rows(input)? else {
            intake.judge(rt, alloc, checker)?;
            return Ok(false);
        };
        intake.take_in(rt, alloc, checker, rows)?;
        Ok(true)
    }
}
