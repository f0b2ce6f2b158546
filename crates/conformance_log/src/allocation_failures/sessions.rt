//! Sessions that are saved and loaded, and deltas between them, also with a log that is kept apart.

use crate::allocation_failures::logged_sessions::{
    check_history, history_of, lacks_memory, latest, number, one_commit, two_commits,
    two_commits_delta,
};
use crate::checks::expect;
use bitmap_core::bitmap::codec::RangeCfg;
use bitmap_session::session::{SaveError, Session};
use commit_log::{HistoryError, Log};
use std::alloc::Global;
use std::process::Abort;

// The session has this length and this latest commit.
fn is_at(session: &Session<1>, len: u64, commit: u64) -> bool {
    number(&session.len()) == len && latest(&session.latest()) == Some(commit)
}

// A session after two commits with its history, or `None` if an allocation fails.
fn saved_session(alloc: Global) -> Option<(Session<1>, Vec<u8>)> {
    let session = two_commits(alloc)?.into_session();
    let history = history_of(alloc, &session)?;
    Some((session, history))
}

fn is_unsaved(saved: &Result<(), SaveError>) -> bool {
    matches!(saved, Err(SaveError::Memory(_)))
}

// Some bytes, or `None` if an allocation fails.
fn copied(alloc: Global, bytes: &[u8]) -> Option<Vec<u8>> {
    let mut out = Vec::new(alloc);
    out.extend_from_slice(bytes).ok()?;
    Some(out)
}

// After a failure the vector has the bytes that it had, and no part of the history.
#[test]
fn history_saved(rt: HostRuntime) {
    let Some((session, copy)) = saved_session(rt.alloc()) else {
        return;
    };
    let Some(mut out) = copied(rt.alloc(), b"before") else {
        return;
    };
    let failed = is_unsaved(&session.save(&mut out))
        && {
            expect(&rt, out.as_slice() == b"before".as_slice());
            is_unsaved(&session.save(&mut out))
        };
    let after: &[u8] = if failed { b"" } else { &copy };
    expect(&rt, out.strip_prefix(b"before") == Some(after));
    expect(&rt, is_at(&session, 4, 5));
}

// After a failure no byte of the input is taken.
#[test]
fn history_loaded(rt: HostRuntime) {
    let Some((_, history)) = saved_session(rt.alloc()) else {
        return;
    };
    let any = RangeCfg::any();
    for _ in 0..2 {
        let mut from = history.as_slice();
        match Session::<1>::load(rt.alloc(), &mut from, &any, &any) {
            Ok(session) => {
                expect(&rt, from.is_empty() && is_at(&session, 4, 5));
                check_history(&rt, rt.alloc(), &session, &history);
            }
            Err(why) => {
                expect(&rt, matches!(why, HistoryError::Memory(_)));
                expect(&rt, from == history.as_slice());
            }
        }
    }
}

#[test]
fn delta_made(rt: HostRuntime) {
    let Some((session, history)) = saved_session(rt.alloc()) else {
        return;
    };
    let Some(copy) = two_commits_delta(rt.alloc()) else {
        return;
    };
    for _ in 0..2 {
        match session.delta(1, 5) {
            Ok(found) => {
                expect(
                    &rt,
                    found.is_some_and(|bytes| bytes.as_slice() == copy.as_slice()),
                );
            }
            Err(why) => expect(&rt, matches!(why, SaveError::Memory(_))),
        }
        expect(&rt, is_at(&session, 4, 5));
    }
    check_history(&rt, rt.alloc(), &session, &history);
}

// Applies a delta twice at most: after a failed allocation the session is as its copy.
fn check_applied(
    rt: &impl Abort,
    alloc: Global,
    session: &mut Session<1>,
    delta: &[u8],
    copy: &[u8],
) {
    if lacks_memory(&session.apply_delta(delta)) {
        expect(rt, is_at(session, 3, 1));
        check_history(rt, alloc, session, copy);
        if lacks_memory(&session.apply_delta(delta)) {
            expect(rt, is_at(session, 3, 1));
            return;
        }
    }
    expect(rt, is_at(session, 4, 5));
}

#[test]
fn delta_applied_to_a_session(rt: HostRuntime) {
    let Some(delta) = two_commits_delta(rt.alloc()) else {
        return;
    };
    let Some(session) = one_commit(rt.alloc()) else {
        return;
    };
    let mut session = session.into_session();
    let Some(copy) = history_of(rt.alloc(), &session) else {
        return;
    };
    check_applied(&rt, rt.alloc(), &mut session, &delta, &copy);
}

// Applies a delta twice at most: after a failed allocation the session is as its copy, and the log has no entry of the delta.
fn check_applied_apart(
    rt: &impl Abort,
    alloc: Global,
    session: &mut Session<1>,
    log: &mut Log<1>,
    delta: &[u8],
    copy: &[u8],
) {
    let before = (log.position(), log.digest());
    if lacks_memory(&session.apply_delta_with_entry(delta, log)) {
        expect(rt, is_at(session, 3, 1));
        expect(rt, (log.position(), log.digest()) == before);
        check_history(rt, alloc, session, copy);
        if lacks_memory(&session.apply_delta_with_entry(delta, log)) {
            expect(rt, is_at(session, 3, 1));
            expect(rt, (log.position(), log.digest()) == before);
            return;
        }
    }
    expect(rt, is_at(session, 4, 5));
    expect(rt, before.0 < log.position());
}

#[test]
fn delta_with_its_entry_in_a_log_apart(rt: HostRuntime) {
    let Some(delta) = two_commits_delta(rt.alloc()) else {
        return;
    };
    let Some(session) = one_commit(rt.alloc()) else {
        return;
    };
    let (mut session, mut log) = session.into_parts();
    let Some(copy) = history_of(rt.alloc(), &session) else {
        return;
    };
    check_applied_apart(&rt, rt.alloc(), &mut session, &mut log, &delta, &copy);
}
