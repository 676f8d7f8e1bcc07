//! The status and the report's lines of ends, against lines that were written by hand.

use mc_cap::{RefusedRow, RowRefusal};
use peer_report::end_run;
use peer_stage::{Done, FollowCounts, Hosted, Origin, SessionCounts, Stop, Stopped, WatchCounts};
use session_end::SessionEnd;
use std::alloc::Global;
use willow_outside::SureSink;

// Whether an end has this status and these lines.
fn reports(alloc: Global, end: &Result<Done, Stop>, status: u8, lines: &str) -> bool {
    let mut report = SureSink::new(alloc, Vec::new(alloc));
    let given = end_run(alloc, end, &mut report);
    given == status && report.held() == lines.as_bytes()
}

// The row of this number, refused.
fn refused(row: u64) -> Option<RefusedRow> {
    Some(RefusedRow {
        row,
        refusal: RowRefusal::OutsideGrant,
    })
}

fn watched(first: Option<RefusedRow>, left: u32) -> Result<Done, Stop> {
    Ok(Done::Watched(WatchCounts {
        rows: 4,
        stored: 2,
        kept: 1,
        refused: 1,
        first,
        left,
    }))
}

#[test]
fn watches(rt: HostRuntime) {
    for (first, left, status, lines) in [
        (None, 0, 0, "rows 4 stored 2 kept 1 refused 1\n"),
        (None, 2, 0, "rows 4 stored 2 kept 1 refused 1\nleft 2\n"),
        (
            refused(7),
            0,
            1,
            "rows 4 stored 2 kept 1 refused 1\nfirst refused row 7: OutsideGrant\n",
        ),
        (
            refused(7),
            1,
            1,
            "rows 4 stored 2 kept 1 refused 1\nleft 1\nfirst refused row 7: OutsideGrant\n",
        ),
    ] {
        let end = watched(first, left);
        assert_eq!(rt; reports(rt.alloc(), &end, status, lines), true, "{lines}");
    }
}

// A session that was done.
fn session() -> Result<SessionCounts, SessionEnd> {
    Ok(SessionCounts {
        opened: 3,
        closed: 5,
        stored: 2,
        kept: 1,
        refused: 0,
        sent: 4,
        read: 3,
    })
}

// A feed that was read whole.
fn feed() -> Option<Result<FollowCounts, SessionEnd>> {
    Some(Ok(FollowCounts {
        read: 3,
        stored: 1,
        kept: 1,
        refused: 1,
    }))
}

// Whether the lines of a call, behind that of its session, are these.
fn follows(
    alloc: Global,
    followed: Option<Result<FollowCounts, SessionEnd>>,
    put: bool,
    status: u8,
    lines: &str,
) -> Option<bool> {
    let mut sessions = Vec::new(alloc);
    sessions.push(session()).ok()?;
    let mut tails = Vec::new(alloc);
    tails.push(followed).ok()?;
    let end = Ok(Done::Hosted(Hosted {
        awaited: false,
        sessions,
        tails,
        all_came: true,
        first: refused(9),
        left: 0,
        kept: None,
        put,
    }));
    let own = "opened 3 closed 5 stored 2 kept 1 refused 0 sent 4 read 3\n";
    let all = format!(in alloc; "{own}{lines}").ok()?;
    Some(reports(alloc, &end, status, all.as_str()))
}

#[test]
fn calls(rt: HostRuntime) {
    for (followed, put, status, lines) in [
        (None, true, 1, "first refused row 9: OutsideGrant\n"),
        (None, false, 4, "write fault\n"),
        (
            feed(),
            true,
            1,
            "followed 3 stored 1 kept 1 refused 1\nfirst refused row 9: OutsideGrant\n",
        ),
        (
            feed(),
            false,
            4,
            "followed 3 stored 1 kept 1 refused 1\nwrite fault\n",
        ),
    ] {
        assert_eq!(rt;
            follows(rt.alloc(), followed, put, status, lines),
            Some(true),
            "{lines}"
        );
    }
}

#[test]
fn calls_that_lost_their_feed(rt: HostRuntime) {
    for (end, put, status, lines) in [
        (
            SessionEnd::ClosedEarly { at: 6 },
            true,
            6,
            "session refused: ClosedEarly 6\n",
        ),
        (
            SessionEnd::ClosedEarly { at: 6 },
            false,
            4,
            "session refused: ClosedEarly 6\nwrite fault\n",
        ),
        (SessionEnd::LinkRead, true, 3, "read fault\n"),
        (SessionEnd::LogFull { missed: 1 }, true, 8, "log full\n"),
    ] {
        assert_eq!(rt;
            follows(rt.alloc(), Some(Err(end)), put, status, lines),
            Some(true),
            "{lines}"
        );
    }
}

// Whether the lines of a server of one link, whose feed ended so, are these.
fn serves(
    alloc: Global,
    (tail, left, kept): (Option<Result<FollowCounts, SessionEnd>>, u32, Option<u64>),
    (all_came, put): (bool, bool),
    status: u8,
    lines: &str,
) -> Option<bool> {
    let mut sessions = Vec::new(alloc);
    sessions.push(session()).ok()?;
    let mut tails = Vec::new(alloc);
    tails.push(tail).ok()?;
    let end = Ok(Done::Hosted(Hosted {
        awaited: true,
        sessions,
        tails,
        all_came,
        first: refused(9),
        left,
        kept,
        put,
    }));
    let own = "link 1: opened 3 closed 5 stored 2 kept 1 refused 0 sent 4 read 3\n";
    let all = format!(in alloc; "{own}{lines}").ok()?;
    Some(reports(alloc, &end, status, all.as_str()))
}

#[test]
fn servers(rt: HostRuntime) {
    for (left, kept, lines) in [
        (0, None, "first refused row 9: OutsideGrant\n"),
        (1, None, "left 1\nfirst refused row 9: OutsideGrant\n"),
        (
            2,
            Some(12),
            "left 2\nfirst refused row 9: OutsideGrant\nkept 12\n",
        ),
    ] {
        assert_eq!(rt;
            serves(rt.alloc(), (None, left, kept), (true, true), 1, lines),
            Some(true),
            "{lines}"
        );
    }
}

#[test]
fn servers_that_failed(rt: HostRuntime) {
    for (left, kept, whole, status, lines) in [
        (0, Some(0), (false, true), 3, "kept 0\nread fault\n"),
        (
            3,
            Some(7),
            (true, false),
            4,
            "left 3\nkept 7\nwrite fault\n",
        ),
        (
            0,
            Some(18446744073709551615),
            (false, false),
            3,
            "kept 18446744073709551615\nread fault\nwrite fault\n",
        ),
    ] {
        assert_eq!(rt;
            serves(rt.alloc(), (None, left, kept), whole, status, lines),
            Some(true),
            "{lines}"
        );
    }
}

#[test]
fn servers_of_a_stopped_feed(rt: HostRuntime) {
    for (told, whole, status, lines) in [
        (
            (Some(Err(SessionEnd::LinkWrite)), 0, None),
            (true, true),
            4,
            "link 1: write fault\n",
        ),
        (
            (Some(Err(SessionEnd::LinkWrite)), 2, Some(3)),
            (false, false),
            3,
            "link 1: write fault\nleft 2\nkept 3\nread fault\nwrite fault\n",
        ),
        (
            (Some(Err(SessionEnd::NoMemory)), 1, None),
            (false, true),
            7,
            "link 1: no memory\nleft 1\nread fault\n",
        ),
    ] {
        assert_eq!(rt;
            serves(rt.alloc(), told, whole, status, lines),
            Some(true),
            "{lines}"
        );
    }
}

// Feeds of three links: the lines of those that were stopped have the numbers of their links.
fn feeds(alloc: Global) -> Option<bool> {
    let mut tails = Vec::new(alloc);
    for tail in [
        Some(Err(SessionEnd::LinkWrite)),
        None,
        Some(Err(SessionEnd::NoMemory)),
    ] {
        tails.push(tail).ok()?;
    }
    let end = Ok(Done::Hosted(Hosted {
        awaited: true,
        sessions: Vec::new(alloc),
        tails,
        all_came: true,
        first: None,
        left: 0,
        kept: None,
        put: true,
    }));
    let lines = "link 1: write fault\nlink 3: no memory\n";
    Some(reports(alloc, &end, 7, lines))
}

#[test]
fn stopped_feeds(rt: HostRuntime) {
    assert_eq!(rt; feeds(rt.alloc()), Some(true));
}

#[test]
fn stops_with_a_log_open(rt: HostRuntime) {
    for (stop, kept, status, lines) in [
        (Stop::ReadFault, 0, 3, "read fault\nkept 0\n"),
        (
            Stop::WriteFault,
            18446744073709551615,
            4,
            "write fault\nkept 18446744073709551615\n",
        ),
        (
            Stop::BadInput {
                origin: Origin::Input,
                at: 8,
            },
            7,
            5,
            "bad input - at 8\nkept 7\n",
        ),
        (Stop::NoMemory, 12, 7, "no memory\nkept 12\n"),
        (Stop::LogFull, 65536, 8, "log full\nkept 65536\n"),
        (Stop::KeySpent, 1, 9, "key spent\nkept 1\n"),
    ] {
        let end = Ok(Done::Stopped(Stopped { stop, kept }));
        assert_eq!(rt; reports(rt.alloc(), &end, status, lines), true, "{lines}");
    }
}
