//! Bytes kept in memory, without faults.

ghost use Rattle.std.specs.Prelude.{◌≡◌, Some, IfOk, IfErr, length};
ghost use Rattle.std.specs.Io.{WritesAtMost};
ghost use Rattle.std.specs.Io.KnownBytes.{WriteAppends};
ghost use Rattle.willow_outside.specs.declared.fault.Fault.TheVariants as faults;
ghost use Rattle.willow_outside.specs.Counts.{TakesSome};

use crate::{Fault, Sink};
use std::alloc::Global;
use std::marker::Model;

/// A sink that keeps all bytes. Want of memory alone can stop it.
#[derive(Drop)]
pub struct SureSink {
    held: Vec<u8>,
}

impl Model for SureSink {
    ghost use Rattle.std.specs.Prelude.{ℕ, List};

    ghost Value = { List ℕ };

    ghost view = { λ s. s.held.items };
}

impl SureSink {
    /// Takes bytes behind `held`.
    pub fn new(_alloc: Global, held: Vec<u8>) -> SureSink
        ensures value { result ≡ held.items }
        ensures facts { ⟦<SureSink as Sink>⟧.facts result ≡ record { held = Some held.items; faults = 0 } }
    {
        SureSink { held }
    }

    /// All bytes that the sink holds.
    pub fn held(&self) -> &[u8]
        ensures { (⟦<SureSink as Sink>⟧.facts self.now).held ≡ Some result.now }
    {
        &self.held
    }
}

impl Sink for SureSink {
    ghost facts = { λ s. record { held = Some s; faults = 0 } };

    /// Takes all bytes of `piece`, or finds no memory.
    fn write(&mut self, piece: &[u8]) -> Result<usize, Fault>
        ensures all { IfOk result (λ n. n ≡ length piece.now) }
        ensures sure { IfErr result (λ e. e ≡ faults.NoMemory) }
        ensures bound { WritesAtMost result piece.now }
        ensures moves { TakesSome result piece.now }
        ensures bytes { WriteAppends (Some self.old) (Some self.new) result piece.now }
    {
        self.held.extend_from_slice(piece)?;
        Ok(piece.len())
    }
}
