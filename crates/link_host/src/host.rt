//! What is done with each link that comes.

ghost use Rattle.std.specs.Thread.{IsSync};
ghost use Rattle.willow_outside.specs.Facts.{LinkFacts};

use std::alloc::Global;
use std::sync::Wait;
use std::thread::Threads;
use willow_outside::Link;

/// What is done with each link that comes. Threads share the host.
///
/// `may` says which jobs it may be given. `does` says of the host, a job, the link as it was handed out, what is handed on
/// and the link as it then is, that one visit may be so.
pub trait Host<L: Link + Send>: Sync {
    /// What one visit is given.
    type Job: Send + Drop;

    /// What one visit hands on.
    type Parting: Send + Drop;

    ghost may: { Self → Self.Job → Type 0 };

    ghost does: { Self → Self.Job → LinkFacts → Self.Parting → LinkFacts → Type 0 };

    /// Talks over the link, and hands on what came of it.
    fn visit<R: Wait + Threads + Sync>(
        &self,
        rt: &R,
        alloc: Global,
        job: Self::Job,
        link: &mut L,
    ) -> Self::Parting
        requires may { may self.now job }
        requires sync { IsSync R.row }
        ensures { does self.now job (L.facts link.old) result (L.facts link.new) };
}
