//! Calls of the log of a historical bitmap, by name: commits with an entry and without one, and what is made of many logged commits.

ghost use Rattle.std.specs.Prelude.{◌*◌, ◌^◌, ◌<◌};

use crate::batches::{Positions, SETS, count_random, filled, set_one};
use bitmap_core::bitmap::codec::RangeCfg;
use commit_log::{Log, commit_logged, delta, read_history, recover, write_history};
use historical_bitmap::bitmap::historical::{CleanBitMap, DirtyBitMap};
use std::alloc::{AllocError, Global};

// The number of random bits that a timed commit sets.
const MANY_SETS: u64 = 100;

// The number of random bits that each commit sets of which there are many.
const FEW_SETS: u64 = 10;

/// A call that is run many times on a bitmap with logged commits.
#[derive(Clone, Copy)]
pub enum Call {
    Logged,
    Plain,
    Bytes,
    Recover,
    Make,
    Delta,
    IndexedDelta,
    WriteHistory,
    IndexedWriteHistory,
    ReadHistory,
}

const NAMES: [(&str, Call); 10] = [
    ("log_commit", Call::Logged),
    ("plain_commit", Call::Plain),
    ("log_bytes", Call::Bytes),
    ("log_recover", Call::Recover),
    ("log_make", Call::Make),
    ("log_delta", Call::Delta),
    ("log_indexed_delta", Call::IndexedDelta),
    ("log_write_history", Call::WriteHistory),
    ("log_indexed_write_history", Call::IndexedWriteHistory),
    ("log_read_history", Call::ReadHistory),
];

/// Returns the call that `name` names, if there is one.
pub fn named(name: &str) -> Option<Call> {
    NAMES
        .iter()
        .find(|entry| entry.0 == name)
        .map(|entry| entry.1)
}

// Begins a batch, and sets random bits in it.
fn set_random<const N: usize>(
    bitmap: CleanBitMap<N>,
    positions: &mut Positions,
    sets: u64,
) -> Result<DirtyBitMap<N>, AllocError> {
    let mut batch = bitmap.into_dirty();
    let bits = batch.len().max(1);
    for _ in 0..sets {
        let drawn = positions.step();
        set_one(&mut batch, (drawn >> 1) % bits, drawn & 1 == 1)?;
    }
    Ok(batch)
}

// Returns a number that depends on the commits and on the current bits of a bitmap.
fn read_state<const N: usize>(bitmap: &CleanBitMap<N>) -> u64 {
    let mut positions = Positions::from_seed(5);
    let read = count_random(bitmap.current(), &mut positions, SETS);
    read.wrapping_add(bitmap.commits().count() as u64)
}

// Adds the commits from 1 to `count`. Each sets a few bits, which are the same for each bitmap of one length.
fn with_commits<const N: usize>(
    mut bitmap: CleanBitMap<N>,
    count: u64,
) -> Result<CleanBitMap<N>, AllocError> {
    let mut positions = Positions::from_seed(6);
    for number in 0..count {
        let batch = set_random(bitmap, &mut positions, FEW_SETS)?;
        bitmap = batch.commit(number + 1).map_err(|_| AllocError)?;
    }
    Ok(bitmap)
}

// The same, with an index.
fn with_indexed_commits<const N: usize>(
    bitmap: CleanBitMap<N>,
    count: u64,
) -> Result<CleanBitMap<N>, AllocError> {
    match with_commits(bitmap, count)?.indexed() {
        Ok(bitmap) => Ok(bitmap),
        Err((_, why)) => Err(why),
    }
}

// Adds the same commits, with a log that begins with the bitmap and has the entries of these commits.
fn with_entries<const N: usize>(
    alloc: Global,
    mut bitmap: CleanBitMap<N>,
    count: u64,
) -> Result<(CleanBitMap<N>, Log<N>), AllocError> {
    let mut log = Log::begin(alloc, &bitmap)?;
    let mut positions = Positions::from_seed(6);
    for number in 0..count {
        let batch = set_random(bitmap, &mut positions, FEW_SETS)?;
        bitmap = commit_logged(batch, number + 1, &mut log).map_err(|_| AllocError)?;
    }
    Ok((bitmap, log))
}

// Commits, `times` times, on top of `count` commits. Drops the oldest kept commit each time.
fn commit_each<const N: usize>(
    mut bitmap: CleanBitMap<N>,
    count: u64,
    times: u64,
) -> Result<u64, AllocError> {
    let mut positions = Positions::from_seed(7);
    for round in 0..times {
        let batch = set_random(bitmap, &mut positions, MANY_SETS)?;
        let number = count.wrapping_add(round).wrapping_add(1);
        bitmap = batch.commit(number).map_err(|_| AllocError)?;
        let _ = bitmap.prune_commits_before(round + 1);
    }
    Ok(read_state(&bitmap))
}

// The same commits, each with its entry in a log. The drops have no entry. Returns the number of bytes that the entries take in the log.
fn log_each<const N: usize>(
    mut bitmap: CleanBitMap<N>,
    mut log: Log<N>,
    count: u64,
    times: u64,
) -> Result<u64, AllocError> {
    let mut positions = Positions::from_seed(7);
    let first = log.position();
    log.forget();
    for round in 0..times {
        let batch = set_random(bitmap, &mut positions, MANY_SETS)?;
        let number = count.wrapping_add(round).wrapping_add(1);
        bitmap = commit_logged(batch, number, &mut log).map_err(|_| AllocError)?;
        log.forget();
        let _ = bitmap.prune_commits_before(round + 1);
    }
    Ok(log.position().wrapping_sub(first))
}

// Recovers a log.
fn recover_each<const N: usize>(alloc: Global, log: &[u8], times: u64) -> Result<u64, AllocError>
    requires positive { 0 < N }
    requires fits { 8 * N < 2 ^ 64 }
{
    let mut sum: u64 = 0;
    for _ in 0..times {
        let found = recover::<N>(alloc, log).map_err(|_| AllocError)?;
        sum = sum.wrapping_add(read_state(&found.bitmap));
    }
    Ok(sum)
}

// Makes the bitmap with `count` commits, without a log.
fn make_each<const N: usize>(
    bitmap: &CleanBitMap<N>,
    count: u64,
    times: u64,
) -> Result<u64, AllocError> {
    let mut sum: u64 = 0;
    for _ in 0..times {
        let made = with_commits(bitmap.clone()?, count)?;
        sum = sum.wrapping_add(read_state(&made));
    }
    Ok(sum)
}

// Makes the delta between two consecutive commits, in the middle of `count` commits.
fn delta_each<const N: usize>(
    alloc: Global,
    bitmap: &CleanBitMap<N>,
    count: u64,
    times: u64,
) -> Result<u64, AllocError> {
    let mut sum: u64 = 0;
    for round in 0..times {
        let number = count / 2 + round % 8;
        if let Some(bytes) = delta(alloc, bitmap, number, number + 1)? {
            sum = sum.wrapping_add(bytes.len() as u64);
        }
    }
    Ok(sum)
}

// Writes the history into existing capacity.
fn write_each<const N: usize>(
    alloc: Global,
    bitmap: &CleanBitMap<N>,
    times: u64,
) -> Result<u64, AllocError> {
    let mut bytes = Vec::new(alloc);
    let _ = write_history(bitmap, &mut bytes)?;
    for _ in 0..times {
        bytes.clear();
        let _ = write_history(bitmap, &mut bytes)?;
    }
    Ok(bytes.len() as u64)
}

// Reads the history back.
fn read_each<const N: usize>(
    alloc: Global,
    bitmap: &CleanBitMap<N>,
    times: u64,
) -> Result<u64, AllocError> {
    // The prover learns the bounds of `N` from this call.
    let _ = bitmap.len();
    let mut bytes = Vec::new(alloc);
    let _ = write_history(bitmap, &mut bytes)?;
    let mut sum: u64 = 0;
    for _ in 0..times {
        let mut from = bytes.as_slice();
        let any = RangeCfg::any();
        let same = read_history::<N>(alloc, &mut from, &any, &any).map_err(|_| AllocError)?;
        sum = sum.wrapping_add(read_state(&same));
    }
    Ok(sum)
}

/// Runs a call `times` times on a bitmap of `bytes` bytes with `count` commits.
///
/// Returns a number that depends on its results: for `log_bytes` it is the mean number of bytes that an entry takes in the log.
pub fn run<const N: usize>(
    alloc: Global,
    call: Call,
    bytes: u64,
    count: u64,
    times: u64,
) -> Result<u64, AllocError>
    requires positive { 0 < N }
    requires fits { 8 * N < 2 ^ 64 }
{
    let first = filled::<N>(alloc, bytes)?;
    match call {
        Call::Logged => {
            let (bitmap, log) = with_entries(alloc, first, count)?;
            log_each(bitmap, log, count, times)
        }
        Call::Bytes => {
            let (bitmap, log) = with_entries(alloc, first, count)?;
            Ok(log_each(bitmap, log, count, times)? / times.max(1))
        }
        Call::Recover => {
            let (_, log) = with_entries(alloc, first, count)?;
            recover_each::<N>(alloc, log.bytes(), times)
        }
        Call::Plain => commit_each(with_commits(first, count)?, count, times),
        Call::Make => make_each(&first, count, times),
        Call::Delta => delta_each(alloc, &with_commits(first, count)?, count, times),
        Call::IndexedDelta => delta_each(alloc, &with_indexed_commits(first, count)?, count, times),
        Call::WriteHistory => write_each(alloc, &with_commits(first, count)?, times),
        Call::IndexedWriteHistory => write_each(alloc, &with_indexed_commits(first, count)?, times),
        Call::ReadHistory => read_each(alloc, &with_indexed_commits(first, count)?, times),
    }
}
