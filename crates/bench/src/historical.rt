//! Calls of historical bitmaps that can be timed, by name. Each runs many batches, reads in a batch, or reads a bitmap with 1001 commits.

ghost use Rattle.std.specs.Prelude.{◌*◌, ◌^◌, ◌<◌};

use crate::batches::{
    Edits, Positions, SETS, count_random, edit, filled, read_random, read_random_chunk,
};
use crate::past::{self, LAST, read_in_place};
use historical_bitmap::bitmap::historical::CleanBitMap;
use std::alloc::{AllocError, Global};

/// A call that is run many times: a batch that is aborted or committed, a read in a batch, or a call of a bitmap with 1001 commits.
#[derive(Clone, Copy)]
pub enum Call {
    Abort(Edits),
    Commit(Edits),
    Keep(Edits),
    PendingBits,
    PendingChunks,
    Past(past::Call),
}

const NAMES: [(&str, Call); 35] = [
    ("batch_nothing", Call::Abort(Edits::Nothing)),
    ("batch_set_far", Call::Abort(Edits::SetFar)),
    ("batch_set_near", Call::Abort(Edits::SetNear)),
    ("batch_push", Call::Abort(Edits::Push)),
    ("batch_push_byte", Call::Abort(Edits::PushByte)),
    ("batch_push_chunk", Call::Abort(Edits::PushChunk)),
    ("batch_pop", Call::Abort(Edits::Pop)),
    ("batch_push_pop", Call::Abort(Edits::PushPop)),
    ("batch_mixed", Call::Abort(Edits::Mixed)),
    ("batch_slide", Call::Abort(Edits::Slide)),
    ("commit_nothing", Call::Commit(Edits::Nothing)),
    ("commit_set_far", Call::Commit(Edits::SetFar)),
    ("commit_set_near", Call::Commit(Edits::SetNear)),
    ("commit_push", Call::Commit(Edits::Push)),
    ("commit_push_byte", Call::Commit(Edits::PushByte)),
    ("commit_push_chunk", Call::Commit(Edits::PushChunk)),
    ("commit_pop", Call::Commit(Edits::Pop)),
    ("commit_push_pop", Call::Commit(Edits::PushPop)),
    ("commit_mixed", Call::Commit(Edits::Mixed)),
    ("commit_slide", Call::Commit(Edits::Slide)),
    ("keep_set_far", Call::Keep(Edits::SetFar)),
    ("keep_set_near", Call::Keep(Edits::SetNear)),
    ("keep_push", Call::Keep(Edits::Push)),
    ("pending_bits", Call::PendingBits),
    ("pending_chunks", Call::PendingChunks),
    ("read_oldest", Call::Past(past::Call::Oldest)),
    ("read_middle", Call::Past(past::Call::Middle)),
    ("read_newest", Call::Past(past::Call::Newest)),
    ("in_place_oldest", Call::Past(past::Call::InPlaceOldest)),
    ("in_place_newest", Call::Past(past::Call::InPlaceNewest)),
    ("changed_chunks", Call::Past(past::Call::ChangedChunks)),
    ("compared_chunks", Call::Past(past::Call::ComparedChunks)),
    ("clone_commits", Call::Past(past::Call::Clone)),
    ("commit_exists", Call::Past(past::Call::Exists)),
    ("commit_numbers", Call::Past(past::Call::Numbers)),
];

/// Returns the call that `name` names, if there is one.
pub fn named(name: &str) -> Option<Call> {
    NAMES
        .iter()
        .find(|entry| entry.0 == name)
        .map(|entry| entry.1)
}

// Edits a batch, reads one of its bits and aborts it, `times` times.
fn abort_each<const N: usize>(
    mut bitmap: CleanBitMap<N>,
    edits: Edits,
    times: u64,
) -> Result<u64, AllocError> {
    let mut positions = Positions::from_seed(times);
    let mut sum: u64 = 0;
    for _ in 0..times {
        let mut batch = bitmap.into_dirty();
        sum = sum.wrapping_add(edit(&mut batch, edits, &mut positions)?);
        sum = sum.wrapping_add(read_random(&batch, &mut positions));
        sum = sum.wrapping_add(batch.len());
        bitmap = batch.abort();
    }
    Ok(sum.wrapping_add(bitmap.len()))
}

// Edits a batch and commits it, `times` times. Earlier commits are dropped.
fn commit_each<const N: usize>(
    mut bitmap: CleanBitMap<N>,
    edits: Edits,
    times: u64,
) -> Result<u64, AllocError> {
    let mut positions = Positions::from_seed(times);
    let mut sum: u64 = 0;
    for round in 0..times {
        let mut batch = bitmap.into_dirty();
        sum = sum.wrapping_add(edit(&mut batch, edits, &mut positions)?);
        bitmap = batch.commit(round + 1).map_err(|_| AllocError)?;
        let _ = bitmap.prune_commits_before(round + 1);
    }
    let read = count_random(bitmap.current(), &mut positions, SETS);
    Ok(sum.wrapping_add(bitmap.len()).wrapping_add(read))
}

// Edits a batch and commits it, `times` times. All commits are kept.
fn with_commits<const N: usize>(
    mut bitmap: CleanBitMap<N>,
    edits: Edits,
    times: u64,
) -> Result<CleanBitMap<N>, AllocError> {
    let mut positions = Positions::from_seed(times);
    for round in 0..times {
        let mut batch = bitmap.into_dirty();
        let _ = edit(&mut batch, edits, &mut positions)?;
        bitmap = batch.commit(round + 1).map_err(|_| AllocError)?;
    }
    Ok(bitmap)
}

// Edits and commits, `times` times, with all commits kept. Then reads random bits of the newest commit, and of the one before it.
fn keep_each<const N: usize>(
    bitmap: CleanBitMap<N>,
    edits: Edits,
    times: u64,
) -> Result<u64, AllocError> {
    let bitmap = with_commits(bitmap, edits, times)?;
    let newest = read_in_place(&bitmap, times, 1);
    let earlier = read_in_place(&bitmap, times.saturating_sub(1), 1);
    Ok(newest.wrapping_add(earlier).wrapping_add(bitmap.len()))
}

// Reads random bits of a batch that has set random bits.
fn read_pending_bits<const N: usize>(
    bitmap: CleanBitMap<N>,
    times: u64,
) -> Result<u64, AllocError> {
    let mut positions = Positions::from_seed(times);
    let mut batch = bitmap.into_dirty();
    let mut sum = edit(&mut batch, Edits::SetFar, &mut positions)?;
    for _ in 0..times {
        sum = sum.wrapping_add(read_random(&batch, &mut positions));
    }
    Ok(sum)
}

// Reads random chunks of a batch that has set random bits.
fn read_pending_chunks<const N: usize>(
    bitmap: CleanBitMap<N>,
    times: u64,
) -> Result<u64, AllocError> {
    let mut positions = Positions::from_seed(times);
    let mut batch = bitmap.into_dirty();
    let mut sum = edit(&mut batch, Edits::SetFar, &mut positions)?;
    for _ in 0..times {
        sum = sum.wrapping_add(read_random_chunk(&batch, &mut positions));
    }
    Ok(sum)
}

/// Runs a call `times` times on a bitmap of `bytes` bytes, and returns a number that depends on its results.
pub fn run<const N: usize>(
    alloc: Global,
    call: Call,
    bytes: u64,
    times: u64,
) -> Result<u64, AllocError>
    requires positive { 0 < N }
    requires fits { 8 * N < 2 ^ 64 }
{
    let bitmap = filled::<N>(alloc, bytes)?;
    match call {
        Call::Abort(edits) => abort_each(bitmap, edits, times),
        Call::Commit(edits) => commit_each(bitmap, edits, times),
        Call::Keep(edits) => keep_each(bitmap, edits, times),
        Call::PendingBits => read_pending_bits(bitmap, times),
        Call::PendingChunks => read_pending_chunks(bitmap, times),
        Call::Past(call) => past::run(call, &with_commits(bitmap, Edits::SetFar, LAST)?, times),
    }
}
