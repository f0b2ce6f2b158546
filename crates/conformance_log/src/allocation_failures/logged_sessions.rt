//! Commands of a session with a log, and deltas that it applies: each makes its change and appends its entry, or does neither. And its recovery.

use crate::checks::expect;
use bitmap_session::command::Command;
use bitmap_session::logged::LoggedSession;
use bitmap_session::reply::{Refusal, Reply};
use bitmap_session::session::{ApplyDeltaError, LogError, Session};
use commit_log::{DeltaError, RecoverError};
use std::alloc::Global;
use std::process::Abort;

// What a command changes, if it is served: the end of the log, the length of the bitmap and its latest commit.
#[derive(Clone, Copy, PartialEq, Eq)]
struct Ends {
    position: u64,
    digest: u64,
    len: u64,
    latest: Option<u64>,
}

// The number of a reply, or 0 if it has none.
pub(super) fn number(reply: &Reply<1>) -> u64 {
    match reply {
        Reply::Number(number) => *number,
        _ => 0,
    }
}

// The latest commit of a reply, if it has one.
pub(super) fn latest(reply: &Reply<1>) -> Option<u64> {
    match reply {
        Reply::Maybe(found) => *found,
        _ => None,
    }
}

fn ends_of(session: &LoggedSession<1>) -> Ends {
    Ends {
        position: session.position(),
        digest: session.digest(),
        len: number(&session.session().len()),
        latest: latest(&session.session().latest()),
    }
}

fn is_done(reply: &Result<Reply<1>, LogError>) -> bool {
    matches!(reply, Ok(Reply::Done))
}

fn is_out_of_memory(reply: &Result<Reply<1>, LogError>) -> bool {
    matches!(
        reply,
        Ok(Reply::Refused(Refusal::NoMemory)) | Err(LogError::Memory(_))
    )
}

// A session with a log, after the bits 101 are committed as 1, or `None` if an allocation fails.
pub(super) fn one_commit(alloc: Global) -> Option<LoggedSession<1>> {
    let Ok(mut session) = LoggedSession::begin(alloc, Session::new(alloc)) else {
        return None;
    };
    for command in &[
        Command::Begin,
        Command::Push(true),
        Command::Push(false),
        Command::Push(true),
        Command::Commit(1),
    ] {
        if !is_done(&session.serve(command)) {
            return None;
        }
    }
    Some(session)
}

// The same session in a batch with one more bit, or `None` if an allocation fails.
fn batch_after_one(alloc: Global) -> Option<LoggedSession<1>> {
    let mut session = one_commit(alloc)?;
    for command in &[Command::Begin, Command::Push(true)] {
        if !is_done(&session.serve(command)) {
            return None;
        }
    }
    Some(session)
}

// The same session with that batch committed as 5, or `None` if an allocation fails.
pub(super) fn two_commits(alloc: Global) -> Option<LoggedSession<1>> {
    let mut session = batch_after_one(alloc)?;
    if is_done(&session.serve(&Command::Commit(5))) {
        Some(session)
    } else {
        None
    }
}

// The bytes of the log recover to the session, unless an allocation fails.
fn check_recovered(rt: &impl Abort, alloc: Global, session: &LoggedSession<1>) {
    if let Ok(found) = LoggedSession::<1>::recover(alloc, session.bytes()) {
        expect(
            rt,
            !found.torn && ends_of(&found.session) == ends_of(session),
        );
    }
}

// Serves a command twice at most: after a failed allocation nothing is changed. Once it is served, these are the ends.
fn check_served(
    rt: &impl Abort,
    alloc: Global,
    session: &mut LoggedSession<1>,
    command: &Command<1>,
    after: (u64, Option<u64>),
) {
    let before = ends_of(session);
    if is_out_of_memory(&session.serve(command)) {
        expect(rt, ends_of(session) == before);
        if is_out_of_memory(&session.serve(command)) {
            expect(rt, ends_of(session) == before);
            return;
        }
    }
    let now = ends_of(session);
    expect(rt, before.position < now.position);
    expect(rt, (now.len, now.latest) == after);
    check_recovered(rt, alloc, session);
}

// If the history is not written, the session is returned as it was.
#[test]
fn log_begun(rt: HostRuntime) {
    let mut session = Session::<1>::new(rt.alloc());
    for command in &[Command::Begin, Command::Push(true), Command::Commit(1)] {
        if !matches!(session.serve(command), Reply::Done) {
            return;
        }
    }
    match LoggedSession::begin(rt.alloc(), session) {
        Ok(logged) => check_recovered(&rt, rt.alloc(), &logged),
        Err((session, _)) => {
            expect(&rt, number(&session.len()) == 1);
            expect(&rt, latest(&session.latest()) == Some(1));
        }
    }
}

#[test]
fn commit_with_its_entry(rt: HostRuntime) {
    let Some(mut session) = batch_after_one(rt.alloc()) else {
        return;
    };
    let position = session.position();
    let mut reply = session.serve(&Command::Commit(5));
    if is_out_of_memory(&reply) {
        expect(&rt, session.position() == position);
        expect(&rt, number(&session.session().len()) == 4);
        reply = session.serve(&Command::Commit(5));
    }
    if is_out_of_memory(&reply) {
        expect(&rt, session.position() == position);
        expect(&rt, is_done(&session.serve(&Command::Abort)));
        expect(&rt, number(&session.session().len()) == 3);
    } else {
        expect(&rt, is_done(&reply));
        expect(&rt, latest(&session.session().latest()) == Some(5));
    }
    check_recovered(&rt, rt.alloc(), &session);
}

#[test]
fn rewind_with_its_entry(rt: HostRuntime) {
    let Some(mut session) = two_commits(rt.alloc()) else {
        return;
    };
    check_served(
        &rt,
        rt.alloc(),
        &mut session,
        &Command::Rewind(1),
        (3, Some(1)),
    );
}

#[test]
fn drop_with_its_entry(rt: HostRuntime) {
    let Some(mut session) = two_commits(rt.alloc()) else {
        return;
    };
    check_served(
        &rt,
        rt.alloc(),
        &mut session,
        &Command::DropBefore(5),
        (4, Some(5)),
    );
}

#[test]
fn clear_with_its_entry(rt: HostRuntime) {
    let Some(mut session) = two_commits(rt.alloc()) else {
        return;
    };
    check_served(&rt, rt.alloc(), &mut session, &Command::Clear, (4, None));
}

// The history of a session, or `None` if an allocation fails.
pub(super) fn history_of(alloc: Global, session: &Session<1>) -> Option<Vec<u8>> {
    let mut bytes = Vec::new(alloc);
    session.save(&mut bytes).ok()?;
    Some(bytes)
}

// The delta from commit 1 to commit 5 of a session, or `None` if an allocation fails.
pub(super) fn two_commits_delta(alloc: Global) -> Option<Vec<u8>> {
    let session = two_commits(alloc)?;
    session.session().delta(1, 5).ok()?
}

pub(super) fn lacks_memory(applied: &Result<(), ApplyDeltaError>) -> bool {
    matches!(applied, Err(ApplyDeltaError::Delta(DeltaError::Memory(_))))
}

// The session keeps what its history says, unless an allocation fails.
pub(super) fn check_history(rt: &impl Abort, alloc: Global, session: &Session<1>, history: &[u8]) {
    if let Some(now) = history_of(alloc, session) {
        expect(rt, now.as_slice() == history);
    }
}

// Applies a delta twice at most: after a failed allocation the session is as its copy, and its log as before.
fn check_applied(
    rt: &impl Abort,
    alloc: Global,
    session: &mut LoggedSession<1>,
    delta: &[u8],
    copy: &[u8],
) {
    let before = ends_of(session);
    if lacks_memory(&session.apply_delta(delta)) {
        expect(rt, ends_of(session) == before);
        check_history(rt, alloc, session.session(), copy);
        if lacks_memory(&session.apply_delta(delta)) {
            expect(rt, ends_of(session) == before);
            return;
        }
    }
    let now = ends_of(session);
    expect(rt, before.position < now.position);
    expect(rt, (now.len, now.latest) == (4, Some(5)));
    check_recovered(rt, alloc, session);
}

#[test]
fn delta_with_its_entry(rt: HostRuntime) {
    let Some(delta) = two_commits_delta(rt.alloc()) else {
        return;
    };
    let Some(mut session) = one_commit(rt.alloc()) else {
        return;
    };
    let Some(copy) = history_of(rt.alloc(), session.session()) else {
        return;
    };
    check_applied(&rt, rt.alloc(), &mut session, &delta, &copy);
}

// A failed recovery is out of memory, and not damage.
#[test]
fn session_recovered(rt: HostRuntime) {
    let Some(session) = two_commits(rt.alloc()) else {
        return;
    };
    for _ in 0..2 {
        match LoggedSession::<1>::recover(rt.alloc(), session.bytes()) {
            Ok(found) => {
                expect(
                    &rt,
                    !found.torn && ends_of(&found.session) == ends_of(&session),
                );
            }
            Err(why) => expect(&rt, matches!(why, RecoverError::Memory(_))),
        }
    }
}
