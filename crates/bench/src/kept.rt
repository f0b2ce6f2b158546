//! Calls of a historical bitmap with many small commits, by name: they show what grows with the kept commits. Each commit sets one random bit.

ghost use Rattle.std.specs.Prelude.{◌*◌, ◌^◌, ◌<◌};

use crate::batches::{Positions, count_random, filled, set_one};
use historical_bitmap::bitmap::Readable;
use historical_bitmap::bitmap::historical::CleanBitMap;
use std::alloc::{AllocError, Global};

/// A call that is run many times on a bitmap with small commits.
#[derive(Clone, Copy)]
pub enum Call {
    Commit,
    Window,
    Rewind,
    Rebuild,
    Get,
    Scan,
    IndexedGet,
    IndexedScan,
}

const NAMES: [(&str, Call); 8] = [
    ("kept_commit", Call::Commit),
    ("kept_window", Call::Window),
    ("kept_rewind", Call::Rewind),
    ("kept_rebuild", Call::Rebuild),
    ("kept_get", Call::Get),
    ("kept_scan", Call::Scan),
    ("indexed_get", Call::IndexedGet),
    ("indexed_scan", Call::IndexedScan),
];

/// Returns the call that `name` names, if there is one.
pub fn named(name: &str) -> Option<Call> {
    NAMES
        .iter()
        .find(|entry| entry.0 == name)
        .map(|entry| entry.1)
}

// Sets a random bit, and commits that under a number.
fn commit_one<const N: usize>(
    bitmap: CleanBitMap<N>,
    positions: &mut Positions,
    number: u64,
) -> Result<CleanBitMap<N>, AllocError> {
    let mut batch = bitmap.into_dirty();
    let drawn = positions.step();
    let bits = batch.len().max(1);
    set_one(&mut batch, (drawn >> 1) % bits, drawn & 1 == 1)?;
    batch.commit(number).map_err(|_| AllocError)
}

// Adds the commits from 1 to `count`.
fn with_commits<const N: usize>(
    mut bitmap: CleanBitMap<N>,
    positions: &mut Positions,
    count: u64,
) -> Result<CleanBitMap<N>, AllocError> {
    for number in 0..count {
        bitmap = commit_one(bitmap, positions, number + 1)?;
    }
    Ok(bitmap)
}

// Commits, `times` times, on top of `count` commits. If `window` is true, then drops the oldest kept commit each time.
fn commit_each<const N: usize>(
    mut bitmap: CleanBitMap<N>,
    positions: &mut Positions,
    count: u64,
    times: u64,
    window: bool,
) -> Result<u64, AllocError> {
    for round in 0..times {
        let number = count.wrapping_add(round).wrapping_add(1);
        bitmap = commit_one(bitmap, positions, number)?;
        if window {
            let _ = bitmap.prune_commits_before(round + 1);
        }
    }
    Ok(bitmap.commits().count() as u64)
}

// Commits on top of `count` commits and rewinds to the last of these, `times` times.
fn rewind_each<const N: usize>(
    mut bitmap: CleanBitMap<N>,
    positions: &mut Positions,
    count: u64,
    times: u64,
) -> Result<u64, AllocError> {
    for _ in 0..times {
        bitmap = commit_one(bitmap, positions, count.wrapping_add(1))?;
        bitmap = bitmap.rewind_to(count).map_err(|_| AllocError)?;
    }
    Ok(bitmap.commits().count() as u64)
}

// Rebuilds the bitmap at the oldest commit.
fn rebuild_each<const N: usize>(bitmap: &CleanBitMap<N>, times: u64) -> Result<u64, AllocError> {
    let mut sum: u64 = 0;
    for _ in 0..times {
        if let Some(found) = bitmap.get_at_commit(0)? {
            sum = sum.wrapping_add(found.len());
        }
    }
    Ok(sum)
}

// Lists all set positions of a bitmap, `times` times.
fn scan_each<B: Readable<N>, const N: usize>(found: &B, times: u64) -> u64 {
    // The prover learns the bounds of `N` from this call.
    let _ = found.len();
    let mut sum: u64 = 0;
    for _ in 0..times {
        sum = sum.wrapping_add(found.ones_iter_from(0).count() as u64);
    }
    sum
}

// Reads random bits, or all set positions, of the oldest commit in place.
fn read_oldest<const N: usize>(
    bitmap: &CleanBitMap<N>,
    positions: &mut Positions,
    scans: bool,
    times: u64,
) -> u64 {
    match bitmap.at(0) {
        Some(oldest) if scans => scan_each(&oldest, times),
        Some(oldest) => count_random(&oldest, positions, times),
        None => 0,
    }
}

// The same, with an index.
fn read_indexed<const N: usize>(
    bitmap: CleanBitMap<N>,
    positions: &mut Positions,
    scans: bool,
    times: u64,
) -> Result<u64, AllocError> {
    match bitmap.indexed() {
        Ok(bitmap) => Ok(read_oldest(&bitmap, positions, scans, times)),
        Err((_, why)) => Err(why),
    }
}

/// Runs a call `times` times on a bitmap of `bytes` bytes with `count` commits, and returns a number that depends on its results.
pub fn run<const N: usize>(
    alloc: Global,
    call: Call,
    bytes: u64,
    count: u64,
    times: u64,
) -> Result<u64, AllocError>
    requires positive { 0 < N }
    requires fits { 8 * N < 2 ^ 64 }
{
    let mut positions = Positions::from_seed(4);
    let bitmap = with_commits(filled::<N>(alloc, bytes)?, &mut positions, count)?;
    match call {
        Call::Commit => commit_each(bitmap, &mut positions, count, times, false),
        Call::Window => commit_each(bitmap, &mut positions, count, times, true),
        Call::Rewind => rewind_each(bitmap, &mut positions, count, times),
        Call::Rebuild => rebuild_each(&bitmap, times),
        Call::Get => Ok(read_oldest(&bitmap, &mut positions, false, times)),
        Call::Scan => Ok(read_oldest(&bitmap, &mut positions, true, times)),
        Call::IndexedGet => read_indexed(bitmap, &mut positions, false, times),
        Call::IndexedScan => read_indexed(bitmap, &mut positions, true, times),
    }
}
