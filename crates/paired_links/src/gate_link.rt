//! A link in memory behind a gate.

ghost use Rattle.std.specs.Prelude.{◌≡◌, ◌<◌, ◌≤◌, ◌⊎◌, ◌↔◌, Some, IfOk, IsOk, length, min, true, false};
ghost use Rattle.std.specs.Io.{ReadsAtMost, WritesAtMost};
ghost use Rattle.std.specs.Io.KnownBytes.{ReadConsumes};
ghost use Rattle.willow_outside.specs.Told.{ExtendsBy};
ghost use Rattle.willow_outside.specs.Counts.{CountsFault, EndHasCause, TakesSome};
ghost use Rattle.willow_outside.specs.Plan.{called, IsPlanned};
ghost use Rattle.paired_links.specs.Gates.{MetShut, WentOn, gated_facts};

use std::marker::Model;
use std::sync::Arc;
use std::sync::atomic::{AtomicU64, Ordering};
use std::thread::yield_now;
use willow_outside::{Fault, Link, MemLink};

/// A link in memory behind a gate, which links of several threads share: a word that is 0 while it is shut. A link either
/// opens the gate by what is written to it, or reads only where the gate is open.
#[derive(Drop)]
pub struct GateLink {
    link: MemLink,
    gate: Arc<AtomicU64>,
    opens_at: u64,
    turns: u64,
    shut: u64,
}

impl Model for GateLink {
    ghost use Rattle.paired_links.specs.Gates.{GatedLink};

    ghost Value = { GatedLink };

    ghost view = { λ s. record { link = s.link; shut = s.shut; opens_at = s.opens_at; turns = s.turns } };
}

impl GateLink {
    /// Puts `link` behind `gate`. Where `opens_at` is above 0, a write behind which the link holds at least so many bytes
    /// opens the gate. Where it is 0, each read first looks at the gate, at most `turns` times, and fails where it is
    /// still shut; that is no call of `link`.
    pub fn new(link: MemLink, gate: Arc<AtomicU64>, opens_at: u64, turns: u64) -> GateLink
        ensures value { result ≡ record { link = link; shut = 0; opens_at = opens_at; turns = turns } }
        ensures facts { ⟦<GateLink as Link>⟧.facts result ≡ ⟦<MemLink as Link>⟧.facts link }
    {
        GateLink {
            link,
            gate,
            opens_at,
            turns,
            shut: 0,
        }
    }

    /// All bytes that were written to the link.
    pub fn held(&self) -> &[u8]
        ensures { (⟦<GateLink as Link>⟧.facts self.now).held ≡ Some result.now }
    {
        self.link.held()
    }

    // Whether a read may go on.
    fn may_read(&self) -> bool
        ensures opener { 0 < self.now.opens_at → result ≡ true }
        ensures no_turns { self.now.opens_at ≡ 0 → self.now.turns ≡ 0 → result ≡ false }
    {
        0 < self.opens_at || self.finds_open()
    }

    // Looks until the gate is open, and lets other threads run between two looks.
    fn finds_open(&self) -> bool
        ensures { self.now.turns ≡ 0 → result ≡ false }
    {
        for _ in 0..self.turns {
            if self.gate.load(Ordering::SeqCst) != 0 {
                return true;
            }
            yield_now();
        }
        false
    }

    // Whether what is held opens the gate.
    fn opens(&self) -> bool
        ensures { (result ≡ true) ↔ ((0 < self.now.opens_at) × (self.now.opens_at ≤ length self.now.link.held)) }
    {
        0 < self.opens_at && self.opens_at <= self.link.held().len() as u64
    }

    // Lets a read go on, or counts that it met a shut gate.
    fn pass(&mut self, may_go: bool) -> Result<(), Fault>
        requires { self.old.opens_at ≡ 0 ⊎ may_go ≡ true }
        ensures shut { may_go ≡ false → MetShut self.old self.new result }
        ensures goes_on { may_go ≡ true → IsOk result × (self.new ≡ self.old) }
        ensures cause { CountsFault (gated_facts self.old).read_faults (gated_facts self.new).read_faults result }
    {
        if !may_go {
            self.shut = self.shut.saturating_add(1);
            return Err(Fault::Failed);
        }
        Ok(())
    }
}

impl Link for GateLink {
    ghost facts = { gated_facts };

    ghost most = { λ s. s.link.most };

    /// Reads as the link does, or fails at a shut gate.
    fn read(&mut self, buf: &mut [u8]) -> Result<usize, Fault>
        ensures answer { MetShut self.old self.new result ⊎ WentOn self.old self.new result buf.new }
        ensures opener { 0 < self.old.opens_at → WentOn self.old self.new result buf.new }
        ensures no_turns { self.old.opens_at ≡ 0 → self.old.turns ≡ 0 → MetShut self.old self.new result }
        ensures bound { ReadsAtMost result buf.new }
        ensures at_most { IfOk result (λ n. n ≤ self.old.link.most) }
        ensures bytes { ReadConsumes (Some self.old.link.left) (Some self.new.link.left) result buf.new }
        ensures taken { ExtendsBy (Some self.old.link.taken) (Some self.new.link.taken) result buf.new }
        ensures cause { CountsFault (gated_facts self.old).read_faults (gated_facts self.new).read_faults result }
        ensures end { EndHasCause self.old.link.ends self.new.link.ends result buf.new }
        ensures held { self.new.link.held ≡ self.old.link.held }
        ensures write_faults { self.new.link.write_faults ≡ self.old.link.write_faults }
        ensures kept { (self.new.link.most ≡ self.old.link.most) × (self.new.opens_at ≡ self.old.opens_at) × (self.new.turns ≡ self.old.turns) }
    {
        let may_go = self.may_read();
        self.pass(may_go)?;
        self.link.read(buf)
    }

    /// Writes as the link does.
    fn write(&mut self, piece: &[u8]) -> Result<usize, Fault>
        ensures planned { IsPlanned self.old.link.plan result }
        ensures count { IfOk result (λ n. n ≡ min (length piece.now) self.old.link.most) }
        ensures plan { self.new.link.plan ≡ called self.old.link.plan }
        ensures kept { (self.new.link.most ≡ self.old.link.most) × (self.new.shut ≡ self.old.shut) × (self.new.opens_at ≡ self.old.opens_at) × (self.new.turns ≡ self.old.turns) }
        ensures bound { WritesAtMost result piece.now }
        ensures moves { TakesSome result piece.now }
        ensures bytes { ExtendsBy (Some self.old.link.held) (Some self.new.link.held) result piece.now }
        ensures cause { CountsFault self.old.link.write_faults self.new.link.write_faults result }
        ensures left { self.new.link.left ≡ self.old.link.left }
        ensures taken { self.new.link.taken ≡ self.old.link.taken }
        ensures read_faults { (gated_facts self.new).read_faults ≡ (gated_facts self.old).read_faults }
        ensures ends { self.new.link.ends ≡ self.old.link.ends }
    {
        let answer = self.link.write(piece);
        if self.opens() {
            self.gate.store(1, Ordering::SeqCst);
        }
        answer
    }
}
