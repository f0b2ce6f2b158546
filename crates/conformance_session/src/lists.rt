//! Runs of several commands.

use crate::checks::expect;
use bitmap_session::command::Command;
use bitmap_session::reply::Reply;
use bitmap_session::session::Session;

// A batch and its replies continue from one run to the next.
#[test]
fn two_runs_equal_one_run_of_both_lists(rt: HostRuntime) {
    let mut session = Session::<3>::new(rt.alloc());
    let mut replies = Vec::new(rt.alloc());
    let first = session.run(&[Command::Begin, Command::Push(true)], &mut replies);
    expect(&rt, first.is_ok());
    let second = session.run(&[Command::Commit(7), Command::At(7)], &mut replies);
    expect(&rt, second.is_ok());
    expect(&rt, replies.len() == 4);
    expect(&rt, matches!(&replies[2], Reply::Done));
    let Some(Reply::Snapshot(Some(bitmap))) = replies.pop() else {
        panic!(rt; "the commit is not kept");
    };
    expect(&rt, bitmap.pruned_chunks() == 0 && bitmap.len() == 1);
    expect(&rt, bitmap.get_bit(0));
}
