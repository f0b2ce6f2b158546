//! Runs one command at a time, and reads its reply.

ghost use Rattle.bitmap_bytes.specs.Chunk.{IsWidth};

use crate::checks::expect;
use bitmap_session::command::Command;
use bitmap_session::reply::Reply;
use bitmap_session::session::Session;
use std::alloc::Global;
use std::process::Abort;

/// Runs one command and returns its reply. Fails the test if an allocation fails.
pub fn run_one<const N: usize>(
    rt: &impl Abort,
    alloc: Global,
    session: &mut Session<N>,
    command: Command<N>,
) -> Reply<N> {
    let mut replies = Vec::new(alloc);
    let result = session.run(&[command], &mut replies);
    expect(rt, result.is_ok());
    match replies.pop() {
        Some(reply) => reply,
        None => rt.abort(),
    }
}

/// Runs one command and returns whether the reply is `Done`.
pub fn is_done<const N: usize>(
    rt: &impl Abort,
    alloc: Global,
    session: &mut Session<N>,
    command: Command<N>,
) -> bool
    requires { IsWidth N }
{
    matches!(run_one(rt, alloc, session, command), Reply::Done)
}

/// Returns the length that the session replies.
pub fn len<const N: usize>(rt: &impl Abort, alloc: Global, session: &mut Session<N>) -> Option<u64>
    requires { IsWidth N }
{
    match run_one(rt, alloc, session, Command::Len) {
        Reply::Number(len) => Some(len),
        _ => None,
    }
}
