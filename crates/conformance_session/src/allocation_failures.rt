//! Scenarios for runs in which allocations fail.
//!
//! A tool runs each test many times, and makes another allocation fail in each run. As a plain test, no allocation fails.

use crate::checks::{equal, expect};
use bitmap_core::bitmap::Readable;
use bitmap_core::bitmap::codec::{CodecError, RangeCfg};
use bitmap_session::command::Command;
use bitmap_session::reply::{Refusal, Reply};
use bitmap_session::session::Session;

// Whether the session replies `len` as its length. A failed allocation counts as true.
fn has_len(session: &mut Session<4>, replies: &mut Vec<Reply<4>>, len: u64) -> bool {
    session.run(&[Command::Len], replies).is_err()
        || matches!(replies.last(), Some(Reply::Number(number)) if *number == len)
}

// If the space for the replies cannot be allocated, no command has run, and the replies are unchanged.
#[test]
fn space_for_the_replies(rt: HostRuntime) {
    let mut session = Session::<4>::new(rt.alloc());
    let mut replies = Vec::new(rt.alloc());
    let first = [Command::Begin, Command::Push(true)];
    if session.run(&first, &mut replies).is_err() {
        expect(&rt, replies.is_empty());
        expect(&rt, has_len(&mut session, &mut replies, 0));
        return;
    }
    let len = u64::from(matches!(replies.last(), Some(Reply::Done)));
    let then = [
        Command::Abort,
        Command::Begin,
        Command::Len,
        Command::Len,
        Command::Len,
        Command::Len,
    ];
    let failed = session.run(&then, &mut replies).is_err();
    equal(&rt, replies.len(), if failed { 2 } else { 8 });
    expect(
        &rt,
        has_len(&mut session, &mut replies, if failed { len } else { 0 }),
    );
}

// A batch of 96 ones committed as 1, and a second batch begun. Returns whether each command is done.
fn begin_after_three_chunks(session: &mut Session<4>, replies: &mut Vec<Reply<4>>) -> bool {
    let commands = [
        Command::Begin,
        Command::PushChunk([0xff; 4]),
        Command::PushChunk([0xff; 4]),
        Command::PushChunk([0xff; 4]),
        Command::Commit(1),
        Command::Begin,
    ];
    session.run(&commands, replies).is_ok()
        && replies.iter().all(|reply| matches!(reply, Reply::Done))
}

fn is_refused(reply: &Reply<4>) -> bool {
    matches!(reply, Reply::Refused(Refusal::NoMemory))
}

fn is_number(reply: &Reply<4>, want: u64) -> bool {
    matches!(reply, Reply::Number(number) if *number == want)
}

// Whether the first commit is read as 96 ones, or cannot be read because an allocation fails or the batch is not committed.
fn is_first_commit(reply: &Reply<4>, committed: bool) -> bool {
    match reply {
        Reply::Snapshot(Some(bitmap)) => {
            bitmap.pruned_chunks() == 0 && bitmap.len() == 96 && bitmap.ones_iter_from(0).eq(0..96)
        }
        Reply::Refused(Refusal::NoMemory) => true,
        Reply::Refused(Refusal::WrongMode) => !committed,
        _ => false,
    }
}

// A `Prune` that is refused because an allocation fails prunes nothing, and the batch is committed without it.
#[test]
fn prune_of_two_chunks(rt: HostRuntime) {
    let mut session = Session::<4>::new(rt.alloc());
    let mut replies = Vec::new(rt.alloc());
    if !begin_after_three_chunks(&mut session, &mut replies) {
        return;
    }
    let mut replies = Vec::new(rt.alloc());
    let commands = [
        Command::Prune(64),
        Command::Commit(2),
        Command::PrunedChunks,
        Command::Len,
        Command::At(1),
    ];
    if session.run(&commands, &mut replies).is_err() {
        return;
    }
    let [prune, commit, pruned, len, first] = replies.as_slice() else {
        panic!(rt; "another number of replies");
    };
    let committed = matches!(commit, Reply::Done);
    expect(&rt, is_refused(prune) || matches!(prune, Reply::Done));
    expect(&rt, is_refused(commit) || committed);
    expect(
        &rt,
        is_number(pruned, if is_refused(prune) { 0 } else { 2 }),
    );
    expect(&rt, is_number(len, 96));
    expect(&rt, is_first_commit(first, committed));
}

// Commits 256 zeros as 1, and then one of them replaced as 2. Returns whether each command is done.
fn commit_zeros(session: &mut Session<4>, replies: &mut Vec<Reply<4>>) -> bool {
    let commands = [
        Command::Begin,
        Command::PushChunk([0; 4]),
        Command::PushChunk([0; 4]),
        Command::PushChunk([0; 4]),
        Command::PushChunk([0; 4]),
        Command::PushChunk([0; 4]),
        Command::PushChunk([0; 4]),
        Command::PushChunk([0; 4]),
        Command::PushChunk([0; 4]),
        Command::Commit(1),
        Command::Begin,
        Command::Set(0, true),
        Command::Commit(2),
    ];
    session.run(&commands, replies).is_ok()
        && replies.iter().all(|reply| matches!(reply, Reply::Done))
}

// An `OnesAt` of all chunks builds the version that it lists. If that fails, it searches for each chunk, and the reply is the same.
#[test]
fn past_positions_without_a_built_version(rt: HostRuntime) {
    let mut session = Session::<4>::new(rt.alloc());
    let mut replies = Vec::new(rt.alloc());
    if !commit_zeros(&mut session, &mut replies) {
        return;
    }
    let commands = [Command::OnesAt(1, 0, u64::MAX)];
    if session.run(&commands, &mut replies).is_err() {
        return;
    }
    let Some(Reply::Positions(Some(found))) = replies.pop() else {
        panic!(rt; "the positions of commit 1 are not the reply");
    };
    expect(&rt, found.is_empty());
}

// If the chunks of a bitmap that is read cannot be allocated, the bytes are left, and there is no session.
#[test]
fn read_of_two_chunks(rt: HostRuntime) {
    let input = [
        0, 0, 0, 0, 0, 0, 0, 0, 0, 0, 0, 0, 0, 0, 0, 64, 1, 2, 3, 4, 5, 6, 7, 8, 9,
    ];
    let mut from = input.as_slice();
    match Session::<4>::read(rt.alloc(), &mut from, &RangeCfg::any()) {
        Ok(session) => {
            equal(&rt, from.len(), 1);
            expect(&rt, is_number(&session.len(), 64));
        }
        Err(error) => {
            equal(&rt, from.len(), 25);
            expect(&rt, matches!(error, CodecError::OutOfMemory));
        }
    }
}

// A command of `serve` that is refused because an allocation fails leaves the batch as it was.
#[test]
fn serve_of_a_push_and_a_commit(rt: HostRuntime) {
    let mut session = Session::<4>::new(rt.alloc());
    expect(&rt, matches!(session.serve(&Command::Begin), Reply::Done));
    let push = session.serve(&Command::PushChunk([0xff; 4]));
    let pushed = matches!(push, Reply::Done);
    expect(&rt, pushed || is_refused(&push));
    let len = if pushed { 32 } else { 0 };
    expect(&rt, is_number(&session.serve(&Command::Len), len));
    let commit = session.serve(&Command::Commit(1));
    let committed = matches!(commit, Reply::Done);
    expect(&rt, committed || is_refused(&commit));
    expect(&rt, is_number(&session.serve(&Command::Len), len));
    let aborted = matches!(session.serve(&Command::Abort), Reply::Done);
    expect(&rt, aborted != committed);
}

// A copy that is not made because an allocation fails leaves the session as it was.
#[test]
fn copy_of_a_batch(rt: HostRuntime) {
    let mut session = Session::<4>::new(rt.alloc());
    expect(&rt, matches!(session.serve(&Command::Begin), Reply::Done));
    let push = session.serve(&Command::PushChunk([0xff; 4]));
    let len = if matches!(push, Reply::Done) { 32 } else { 0 };
    if let Ok(copy) = session.clone() {
        expect(&rt, is_number(&copy.len(), len));
    }
    expect(&rt, is_number(&session.len(), len));
}
