//! Sessions that are saved and loaded, and a replica that follows by a delta.

use crate::checks::{equal, expect};
use crate::commands::{is_done, len, run_one};
use bitmap_core::bitmap::codec::RangeCfg;
use bitmap_session::command::Command;
use bitmap_session::reply::Reply;
use bitmap_session::session::Session;
use std::alloc::Global;
use std::process::Abort;

// Appends a set bit, and commits.
fn push_and_commit(rt: &impl Abort, alloc: Global, session: &mut Session<3>, number: u64) {
    expect(rt, is_done(rt, alloc, session, Command::Begin));
    expect(rt, is_done(rt, alloc, session, Command::Push(true)));
    expect(rt, is_done(rt, alloc, session, Command::Commit(number)));
}

// The history of a session outside a batch.
fn saved(rt: &impl Abort, alloc: Global, session: &Session<3>) -> Vec<u8> {
    let mut bytes = Vec::new(alloc);
    expect(rt, session.save(&mut bytes).is_ok());
    bytes
}

// The session of a history, which is all of the bytes.
fn loaded(rt: &impl Abort, alloc: Global, bytes: &[u8]) -> Session<3> {
    let mut from = bytes;
    let range = RangeCfg::at_most(100);
    let Ok(session) = Session::load(alloc, &mut from, &range, &range) else {
        panic!(rt; "the history is not loaded");
    };
    equal(rt, from.len(), 0);
    session
}

// A session of two commits is loaded with both, and its last number is used already.
#[test]
fn two_commits_saved_and_loaded(rt: HostRuntime) {
    let mut session = Session::<3>::new(rt.alloc());
    push_and_commit(&rt, rt.alloc(), &mut session, 4);
    push_and_commit(&rt, rt.alloc(), &mut session, 9);
    let mut same = loaded(&rt, rt.alloc(), &saved(&rt, rt.alloc(), &session));
    equal(&rt, len(&rt, rt.alloc(), &mut same), Some(2));
    let latest = run_one(&rt, rt.alloc(), &mut same, Command::Latest);
    expect(&rt, matches!(latest, Reply::Maybe(Some(9))));
    expect(&rt, is_done(&rt, rt.alloc(), &mut same, Command::Rewind(4)));
    equal(&rt, len(&rt, rt.alloc(), &mut same), Some(1));
}

// In a batch nothing is saved, and no delta is applied.
#[test]
fn nothing_saved_in_a_batch(rt: HostRuntime) {
    let mut session = Session::<3>::new(rt.alloc());
    expect(&rt, is_done(&rt, rt.alloc(), &mut session, Command::Begin));
    let mut bytes = Vec::new(rt.alloc());
    expect(&rt, session.save(&mut bytes).is_err());
    equal(&rt, bytes.len(), 0);
    expect(&rt, session.apply_delta(&[]).is_err());
    expect(&rt, is_done(&rt, rt.alloc(), &mut session, Command::Abort));
}

// A replica at the first commit applies the delta to the second one, once.
#[test]
fn replica_at_the_second_commit(rt: HostRuntime) {
    let mut session = Session::<3>::new(rt.alloc());
    push_and_commit(&rt, rt.alloc(), &mut session, 4);
    let mut replica = loaded(&rt, rt.alloc(), &saved(&rt, rt.alloc(), &session));
    push_and_commit(&rt, rt.alloc(), &mut session, 9);
    let Ok(Some(delta)) = session.delta(4, 9) else {
        panic!(rt; "there is no delta");
    };
    expect(&rt, replica.apply_delta(&delta).is_ok());
    equal(&rt, len(&rt, rt.alloc(), &mut replica), Some(2));
    expect(&rt, replica.apply_delta(&delta).is_err());
    let again = run_one(&rt, rt.alloc(), &mut replica, Command::Begin);
    expect(&rt, matches!(again, Reply::Done));
    let reply = run_one(&rt, rt.alloc(), &mut replica, Command::Commit(9));
    expect(&rt, matches!(reply, Reply::Refused(_)));
}
