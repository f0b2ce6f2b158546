//! Calls of a bitmap with 1001 commits: a first one, and 1000 that each set random bits.

use crate::batches::{Positions, SETS, count_random};
use bitmap_core::chunk::chunk_count;
use historical_bitmap::bitmap::Readable;
use historical_bitmap::bitmap::historical::{AtCommit, CleanBitMap};
use std::alloc::AllocError;

/// The number of the last commit.
pub const LAST: u64 = 1000;

/// A call that is run many times.
#[derive(Clone, Copy)]
pub enum Call {
    Oldest,
    Middle,
    Newest,
    InPlaceOldest,
    InPlaceNewest,
    ChangedChunks,
    ComparedChunks,
    Clone,
    Exists,
    Numbers,
}

// Rebuilds a past state as a bitmap, and reads one of its bits.
fn read_owned<const N: usize>(
    bitmap: &CleanBitMap<N>,
    number: u64,
    times: u64,
) -> Result<u64, AllocError> {
    let mut positions = Positions::from_seed(times);
    let mut sum: u64 = 0;
    for _ in 0..times {
        if let Some(found) = bitmap.get_at_commit(number)? {
            sum = sum.wrapping_add(count_random(&found, &mut positions, 1));
        }
    }
    Ok(sum)
}

/// Reads random bits of a past state in place, and returns how many are set.
pub fn read_in_place<const N: usize>(bitmap: &CleanBitMap<N>, number: u64, times: u64) -> u64 {
    let mut positions = Positions::from_seed(times);
    let mut sum: u64 = 0;
    for _ in 0..times {
        if let Some(found) = bitmap.at(number) {
            sum = sum.wrapping_add(count_random(&found, &mut positions, SETS));
        }
    }
    sum
}

// Lists the chunks that differ between two consecutive commits, in the middle of the commits.
fn list_changes<const N: usize>(bitmap: &CleanBitMap<N>, times: u64) -> u64 {
    let mut sum: u64 = 0;
    for round in 0..times {
        let number = LAST / 2 + round % 8;
        if let Some(changes) = bitmap.changed_chunks(number, number + 1) {
            sum = sum.wrapping_add(changes.count() as u64);
        }
    }
    sum
}

// Returns the number of the chunks that differ between two past states. Each chunk is compared.
fn count_differences<const N: usize>(older: &AtCommit<'_, N>, newer: &AtCommit<'_, N>) -> u64 {
    let mut sum: u64 = 0;
    for chunk in 0..chunk_count::<N>(newer.len()) {
        let differs = older.retained_bytes(chunk) != newer.retained_bytes(chunk);
        sum = sum.wrapping_add(u64::from(differs));
    }
    sum
}

// The same by a comparison of all chunks.
fn compare_chunks<const N: usize>(bitmap: &CleanBitMap<N>, times: u64) -> u64 {
    let mut sum: u64 = 0;
    for round in 0..times {
        let number = LAST / 2 + round % 8;
        if let (Some(older), Some(newer)) = (bitmap.at(number), bitmap.at(number + 1)) {
            sum = sum.wrapping_add(count_differences(&older, &newer));
        }
    }
    sum
}

// Clones the bitmap with its history.
fn clone_each<const N: usize>(bitmap: &CleanBitMap<N>, times: u64) -> Result<u64, AllocError> {
    let mut sum: u64 = 0;
    for _ in 0..times {
        sum = sum.wrapping_add(bitmap.clone()?.len());
    }
    Ok(sum)
}

// Asks for random commit numbers, about half of which are kept.
fn exists_each<const N: usize>(bitmap: &CleanBitMap<N>, times: u64) -> u64 {
    let mut positions = Positions::from_seed(times);
    let mut sum: u64 = 0;
    for _ in 0..times {
        let exists = bitmap.commit_exists(positions.step() % (2 * LAST));
        sum = sum.wrapping_add(u64::from(exists));
    }
    sum
}

// Lists the numbers of all kept commits.
fn number_each<const N: usize>(bitmap: &CleanBitMap<N>, times: u64) -> u64 {
    let mut sum: u64 = 0;
    for _ in 0..times {
        for number in bitmap.commits() {
            sum = sum.wrapping_mul(31).wrapping_add(number);
        }
    }
    sum
}

/// Runs a call `times` times, and returns a number that depends on its results.
pub fn run<const N: usize>(
    call: Call,
    bitmap: &CleanBitMap<N>,
    times: u64,
) -> Result<u64, AllocError> {
    match call {
        Call::Oldest => read_owned(bitmap, 0, times),
        Call::Middle => read_owned(bitmap, LAST / 2, times),
        Call::Newest => read_owned(bitmap, LAST, times),
        Call::InPlaceOldest => Ok(read_in_place(bitmap, 0, times)),
        Call::InPlaceNewest => Ok(read_in_place(bitmap, LAST - 1, times)),
        Call::ChangedChunks => Ok(list_changes(bitmap, times)),
        Call::ComparedChunks => Ok(compare_chunks(bitmap, times)),
        Call::Clone => clone_each(bitmap, times),
        Call::Exists => Ok(exists_each(bitmap, times)),
        Call::Numbers => Ok(number_each(bitmap, times)),
    }
}
