//! Sessions that run one command at a time, beside `run` of the same commands.

use crate::checks::{equal, expect};
use bitmap_session::command::Command;
use bitmap_session::reply::{Refusal, Reply};
use bitmap_session::session::Session;
use std::alloc::Global;
use std::process::Abort;

// Whether two refusals are equal, of those that a command with a method can have.
fn is_same_refusal(left: &Refusal, right: &Refusal) -> bool {
    match (left, right) {
        (Refusal::WrongMode, Refusal::WrongMode) => true,
        (Refusal::OutOfBounds, Refusal::OutOfBounds) => true,
        (Refusal::Pruned, Refusal::Pruned) => true,
        (Refusal::NoRetainedBit, Refusal::NoRetainedBit) => true,
        _ => false,
    }
}

// Whether two replies are equal, of those that a command with a method can have.
fn is_same(left: &Reply<3>, right: &Reply<3>) -> bool {
    match (left, right) {
        (Reply::Done, Reply::Done) => true,
        (Reply::Bit(left), Reply::Bit(right)) => *left == *right,
        (Reply::Number(left), Reply::Number(right)) => *left == *right,
        (Reply::Wide(left), Reply::Wide(right)) => *left == *right,
        (Reply::Chunk(left), Reply::Chunk(right)) => *left == *right,
        (Reply::Maybe(left), Reply::Maybe(right)) => *left == *right,
        (Reply::Bytes(left), Reply::Bytes(right)) => *left == *right,
        (Reply::Refused(left), Reply::Refused(right)) => is_same_refusal(left, right),
        _ => false,
    }
}

// Runs a command by its method, if it has one.
fn call(session: &mut Session<3>, command: &Command<3>) -> Reply<3> {
    match command {
        Command::Push(value) => session.push(*value),
        Command::PushByte(byte) => session.push_byte(*byte),
        Command::PushChunk(bytes) => session.push_chunk(bytes),
        Command::Pop => session.pop(),
        Command::Set(position, value) => session.set(*position, *value),
        Command::Prune(position) => session.prune(*position),
        Command::Len => session.len(),
        Command::PrunedChunks => session.pruned_chunks(),
        Command::Get(position) => session.get(*position),
        Command::Chunk(position) => session.chunk(*position),
        Command::Encode => session.encode(),
        Command::EncodeAt(number) => session.encode_at(*number),
        Command::Exists(number) => session.exists(*number),
        Command::Latest => session.latest(),
        Command::Earliest => session.earliest(),
        Command::Entries => session.entries(),
        _ => session.serve(command),
    }
}

// Runs the commands together by `run`, and one by one by their methods and by `serve`. The replies are the same.
fn check_all(rt: &impl Abort, alloc: Global, commands: &[Command<3>]) {
    let mut by_run = Session::<3>::new(alloc);
    let mut by_method = Session::<3>::new(alloc);
    let mut by_serve = Session::<3>::new(alloc);
    let mut replies = Vec::new(alloc);
    expect(rt, by_run.run(commands, &mut replies).is_ok());
    equal(rt, replies.len(), commands.len());
    for (command, reply) in commands.iter().zip(replies.iter()) {
        expect(rt, is_same(&call(&mut by_method, command), reply));
        expect(rt, is_same(&by_serve.serve(command), reply));
    }
}

// Outside a batch only the reads are accepted.
#[test]
fn commands_outside_a_batch(rt: HostRuntime) {
    let commands = [
        Command::Len,
        Command::Get(0),
        Command::Push(true),
        Command::PushByte(0x0f),
        Command::PushChunk([1, 2, 3]),
        Command::Pop,
        Command::Set(0, true),
        Command::Prune(0),
        Command::Len,
        Command::PrunedChunks,
        Command::Chunk(0),
        Command::Encode,
        Command::EncodeAt(0),
        Command::Exists(0),
        Command::Latest,
        Command::Earliest,
        Command::Entries,
    ];
    check_all(&rt, rt.alloc(), &commands);
}

// Edits and reads of a batch, and their refusals.
#[test]
fn commands_in_a_batch(rt: HostRuntime) {
    let commands = [
        Command::Begin,
        Command::Pop,
        Command::PushChunk([0xff, 0, 0x0f]),
        Command::PushByte(0x35),
        Command::Push(true),
        Command::Set(24, false),
        Command::Set(33, true),
        Command::Get(26),
        Command::Get(33),
        Command::Pop,
        Command::Prune(33),
        Command::Prune(30),
        Command::Get(0),
        Command::Set(0, true),
        Command::Len,
        Command::PrunedChunks,
        Command::Chunk(25),
        Command::Chunk(3),
        Command::Chunk(32),
        Command::Encode,
        Command::EncodeAt(7),
        Command::Exists(7),
        Command::Latest,
        Command::Earliest,
        Command::Entries,
        Command::Commit(7),
        Command::Get(24),
        Command::Get(26),
        Command::Len,
        Command::Begin,
        Command::Set(25, true),
        Command::Commit(8),
        Command::PrunedChunks,
        Command::Chunk(25),
        Command::Chunk(3),
        Command::Encode,
        Command::EncodeAt(6),
        Command::EncodeAt(7),
        Command::EncodeAt(8),
        Command::Exists(6),
        Command::Exists(7),
        Command::Latest,
        Command::Earliest,
        Command::Entries,
        Command::DropBefore(8),
        Command::Earliest,
        Command::Clear,
        Command::Latest,
    ];
    check_all(&rt, rt.alloc(), &commands);
}

fn is_done(reply: &Reply<3>) -> bool {
    matches!(reply, Reply::Done)
}

fn is_number(reply: &Reply<3>, want: u64) -> bool {
    matches!(reply, Reply::Number(number) if *number == want)
}

fn is_bit(reply: &Reply<3>, want: bool) -> bool {
    matches!(reply, Reply::Bit(bit) if *bit == want)
}

// A byte and a bit, of which one bit is replaced and one popped, worked out by hand.
#[test]
fn nine_bits_by_methods(rt: HostRuntime) {
    let mut session = Session::<3>::new(rt.alloc());
    expect(&rt, is_done(&session.serve(&Command::Begin)));
    expect(&rt, is_done(&session.push_byte(0x35)));
    expect(&rt, is_done(&session.push(true)));
    expect(&rt, is_done(&session.set(1, true)));
    expect(&rt, is_bit(&session.pop(), true));
    expect(&rt, is_number(&session.len(), 8));
    expect(&rt, is_bit(&session.get(1), true));
    expect(&rt, is_bit(&session.get(3), false));
    expect(&rt, is_done(&session.push_chunk(&[0xff, 0, 0x0f])));
    expect(&rt, is_done(&session.prune(24)));
    expect(&rt, is_done(&session.serve(&Command::Commit(1))));
    expect(&rt, is_number(&session.len(), 32));
    expect(&rt, is_bit(&session.get(27), true));
    expect(&rt, is_bit(&session.get(28), false));
}
