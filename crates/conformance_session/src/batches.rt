//! Whole batches and their reads, at widths that `replay` does not offer.

ghost use Rattle.bitmap_bytes.specs.Chunk.{IsWidth};

use crate::checks::{equal, expect};
use crate::commands::{is_done, len, run_one};
use bitmap_core::bitmap::Readable;
use bitmap_core::bitmap::codec::RangeCfg;
use bitmap_session::command::Command;
use bitmap_session::reply::{Refusal, Reply};
use bitmap_session::session::Session;
use std::alloc::Global;
use std::process::Abort;

// Runs a command that is done.
fn run_done<const N: usize>(
    rt: &impl Abort,
    alloc: Global,
    session: &mut Session<N>,
    command: Command<N>,
)
    requires { IsWidth N }
{
    expect(rt, is_done(rt, alloc, session, command));
}

// Whether the reply is a list of these positions.
fn has_positions<const N: usize>(reply: &Reply<N>, want: &[u64]) -> bool {
    matches!(reply, Reply::Positions(Some(found)) if found.as_slice() == want)
}

fn is_number<const N: usize>(reply: &Reply<N>, want: u64) -> bool {
    matches!(reply, Reply::Number(number) if *number == want)
}

fn is_bit<const N: usize>(reply: &Reply<N>, want: bool) -> bool {
    matches!(reply, Reply::Bit(bit) if *bit == want)
}

fn is_pruned<const N: usize>(reply: &Reply<N>) -> bool {
    matches!(reply, Reply::Refused(Refusal::Pruned))
}

// Two commits. The first has a chunk, a byte and a bit, with the first bit unset. The second prunes the chunk, replaces the bit by a
// byte and unsets a bit.
fn run_batches<const N: usize>(rt: &impl Abort, alloc: Global, session: &mut Session<N>, width: u64)
    requires { IsWidth N }
{
    run_done(rt, alloc, session, Command::Begin);
    run_done(rt, alloc, session, Command::PushChunk([0xa5; N]));
    run_done(rt, alloc, session, Command::PushByte(0x0f));
    run_done(rt, alloc, session, Command::Push(true));
    run_done(rt, alloc, session, Command::Set(0, false));
    run_done(rt, alloc, session, Command::Commit(1));
    run_done(rt, alloc, session, Command::Begin);
    run_done(rt, alloc, session, Command::Prune(width));
    let second = width.saturating_add(1);
    run_done(rt, alloc, session, Command::Set(second, false));
    expect(rt, is_bit(&run_one(rt, alloc, session, Command::Pop), true));
    run_done(rt, alloc, session, Command::PushByte(0x81));
    run_done(rt, alloc, session, Command::Commit(2));
}

// The current bitmap: one pruned chunk, and the bytes 0x0d and 0x81.
fn check_current<const N: usize>(
    rt: &impl Abort,
    alloc: Global,
    session: &mut Session<N>,
    width: u64,
)
    requires { IsWidth N }
{
    expect(rt, width <= 512);
    equal(rt, len(rt, alloc, session), Some(width + 16));
    let pruned = run_one(rt, alloc, session, Command::PrunedChunks);
    expect(rt, is_number(&pruned, 1));
    let bit = run_one(rt, alloc, session, Command::Get(width + 1));
    expect(rt, is_bit(&bit, false));
    let bit = run_one(rt, alloc, session, Command::Get(width + 15));
    expect(rt, is_bit(&bit, true));
    expect(rt, is_pruned(&run_one(rt, alloc, session, Command::Get(0))));
    let ones = run_one(rt, alloc, session, Command::Ones(0, u64::MAX));
    let want = [width, width + 2, width + 3, width + 8, width + 15];
    expect(rt, has_positions(&ones, &want));
    let chunk = run_one(rt, alloc, session, Command::Chunk(width));
    expect(
        rt,
        matches!(chunk, Reply::Chunk(bytes) if bytes.starts_with(&[0x0d, 0x81])),
    );
}

// The kept commits, and the first of them read in place and rebuilt.
fn check_past<const N: usize>(rt: &impl Abort, alloc: Global, session: &mut Session<N>, width: u64)
    requires { IsWidth N }
{
    expect(rt, width <= 512);
    let commits = run_one(rt, alloc, session, Command::Commits);
    expect(rt, has_positions(&commits, &[1, 2]));
    let ones = run_one(rt, alloc, session, Command::OnesAt(1, 0, 8));
    expect(rt, has_positions(&ones, &[2, 5, 7]));
    let ones = run_one(rt, alloc, session, Command::OnesAt(1, width, u64::MAX));
    let want = [width, width + 1, width + 2, width + 3, width + 8];
    expect(rt, has_positions(&ones, &want));
    let Reply::Snapshot(Some(bitmap)) = run_one(rt, alloc, session, Command::At(1)) else {
        panic!(rt; "the commit is not kept");
    };
    expect(rt, bitmap.pruned_chunks() == 0 && bitmap.len() == width + 9);
    expect(rt, bitmap.ones_iter_from(width).eq(want.iter().copied()));
}

// The encoding of the current bitmap, which decodes to it, and the number of entries, at most one per touched chunk.
fn check_encoding<const N: usize>(
    rt: &impl Abort,
    alloc: Global,
    session: &mut Session<N>,
    width: u64,
)
    requires { IsWidth N }
{
    expect(rt, N <= 64 && width <= 512);
    let Reply::Bytes(Some(bytes)) = run_one(rt, alloc, session, Command::Encode) else {
        panic!(rt; "another reply");
    };
    equal(rt, bytes.len(), 16 + N);
    let decode = Command::Decode(bytes, RangeCfg::exact(16));
    let Reply::Read(bitmap, left) = run_one(rt, alloc, session, decode) else {
        panic!(rt; "another reply");
    };
    equal(rt, left, 0);
    expect(
        rt,
        bitmap.pruned_chunks() == 1 && bitmap.len() == width + 16,
    );
    let entries = run_one(rt, alloc, session, Command::Entries);
    expect(rt, matches!(entries, Reply::Wide(entries) if entries <= 4));
}

// All of this at one width, and the first commit rewound to.
fn check_batches<const N: usize>(rt: &impl Abort, alloc: Global)
    requires { IsWidth N }
{
    expect(rt, N <= 64);
    let width = 8 * N as u64;
    let mut session = Session::<N>::new(alloc);
    run_batches(rt, alloc, &mut session, width);
    check_current(rt, alloc, &mut session, width);
    check_past(rt, alloc, &mut session, width);
    check_encoding(rt, alloc, &mut session, width);
    expect(rt, is_done(rt, alloc, &mut session, Command::Rewind(1)));
    equal(rt, len(rt, alloc, &mut session), Some(width + 9));
    let pruned = run_one(rt, alloc, &mut session, Command::PrunedChunks);
    expect(rt, is_number(&pruned, 0));
}

// Two batches at three widths.
#[test]
fn two_batches_at_other_widths(rt: HostRuntime) {
    check_batches::<7>(&rt, rt.alloc());
    check_batches::<9>(&rt, rt.alloc());
    check_batches::<64>(&rt, rt.alloc());
}
