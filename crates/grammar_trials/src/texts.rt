//! Texts against texts made elsewhere.

use mc_cap::{ChainRefusal, RowRefusal};
use peer_text::{row_refusal_text, session_end_text};
use session_end::{HelloRefusal, SessionEnd};
use std::alloc::Global;
use sync_msg::CoreRefusal;

// Whether the refusal has this text.
fn tells(alloc: Global, refusal: RowRefusal, wanted: &str) -> Option<bool> {
    let mut out = Vec::new(alloc);
    row_refusal_text(refusal, &mut out).ok()?;
    Some(out.as_slice() == wanted.as_bytes())
}

#[test]
fn refusals_told(rt: HostRuntime) {
    let chain = |refusal: ChainRefusal| RowRefusal::Chain(refusal);
    for (refusal, text) in [
        (RowRefusal::WrongNamespace, "WrongNamespace"),
        (RowRefusal::NotWrite, "NotWrite"),
        (chain(ChainRefusal::NotCommunal), "Chain NotCommunal"),
        (chain(ChainRefusal::NotOwned), "Chain NotOwned"),
        (chain(ChainRefusal::BadInitial), "Chain BadInitial"),
        (
            chain(ChainRefusal::AreaGrows { at: 1 }),
            "Chain AreaGrows 1",
        ),
        (
            chain(ChainRefusal::BadSignature { at: 8 }),
            "Chain BadSignature 8",
        ),
        (
            chain(ChainRefusal::TooManyDelegations),
            "Chain TooManyDelegations",
        ),
        (RowRefusal::OutsideGrant, "OutsideGrant"),
        (RowRefusal::BadEntrySignature, "BadEntrySignature"),
    ] {
        assert_eq!(rt; tells(rt.alloc(), refusal, text), Some(true));
    }
}

// Whether the session's end has this text.
fn ends(alloc: Global, end: SessionEnd, wanted: &str) -> Option<bool> {
    let mut out = Vec::new(alloc);
    session_end_text(&end, &mut out).ok()?;
    Some(out.as_slice() == wanted.as_bytes())
}

#[test]
fn ends_told(rt: HostRuntime) {
    let hello = |refusal: HelloRefusal| SessionEnd::Hello(refusal);
    let core = |refusal: CoreRefusal| SessionEnd::Core(refusal);
    for (end, text) in [
        (SessionEnd::LinkRead, "read fault"),
        (SessionEnd::LinkWrite, "write fault"),
        (
            SessionEnd::ClosedEarly { at: 5 },
            "session refused: ClosedEarly 5",
        ),
        (
            SessionEnd::BadMessage { at: 0 },
            "session refused: BadMessage 0",
        ),
        (
            hello(HelloRefusal::VersionUnknown),
            "session refused: VersionUnknown",
        ),
        (
            hello(HelloRefusal::Chain(ChainRefusal::AreaGrows { at: 2 })),
            "session refused: Chain AreaGrows 2",
        ),
        (
            hello(HelloRefusal::AskOutsideGrant),
            "session refused: AskOutsideGrant",
        ),
        (hello(HelloRefusal::BadProof), "session refused: BadProof"),
        (core(CoreRefusal::BadCut), "session refused: BadCut"),
        (
            core(CoreRefusal::TooManyItems { items: 70_000 }),
            "session refused: TooManyItems",
        ),
        (SessionEnd::SignFault, "session refused: SignFault"),
        (SessionEnd::LogFull { missed: 3 }, "log full"),
        (SessionEnd::NoMemory, "no memory"),
    ] {
        assert_eq!(rt; ends(rt.alloc(), end, text), Some(true));
    }
}
