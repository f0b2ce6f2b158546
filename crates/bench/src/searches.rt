//! Searches and counts of a dense bitmap, and calls on two bitmaps or a range, by name.
//! Each function returns a number that depends on all results, so that the compiler keeps the calls.
//! Each search begins or ends at one of eight positions, so that no result can be reused.

use crate::batches::Positions;
use crate::reads::ones_iter;
use bitmap_core::bitmap::{BitMap, Readable};
use std::alloc::AllocError;

// One bit in so many is set in a sparse bitmap.
const SPARSE: u64 = 1000;

/// A call that is run many times.
#[derive(Clone, Copy)]
pub enum Call {
    NextOne,
    NextZero,
    PrevOne,
    CountOnesRange,
    SelectOne,
    ZerosIter,
    SparseOnesIter,
    SetRange,
    AndNot,
    IsSubset,
}

const NAMES: [(&str, Call); 10] = [
    ("next_one", Call::NextOne),
    ("next_zero", Call::NextZero),
    ("prev_one", Call::PrevOne),
    ("count_ones_range", Call::CountOnesRange),
    ("select_one", Call::SelectOne),
    ("zeros_iter", Call::ZerosIter),
    ("sparse_ones_iter", Call::SparseOnesIter),
    ("set_range", Call::SetRange),
    ("and_not", Call::AndNot),
    ("is_subset", Call::IsSubset),
];

/// Returns the call that `name` names, if there is one.
pub fn named(name: &str) -> Option<Call> {
    NAMES
        .iter()
        .find(|entry| entry.0 == name)
        .map(|entry| entry.1)
}

// Searches forward for a set bit. There is none, so that each word is read.
fn next_one<const N: usize>(map: &mut BitMap<N>, times: u64) -> u64 {
    map.set_all(false);
    let mut sum: u64 = 0;
    for round in 0..times {
        sum = sum.wrapping_add(map.next_one(round % 8).unwrap_or(round));
    }
    sum
}

// Searches forward for a bit that is not set. There is none.
fn next_zero<const N: usize>(map: &mut BitMap<N>, times: u64) -> u64 {
    map.set_all(true);
    let mut sum: u64 = 0;
    for round in 0..times {
        sum = sum.wrapping_add(map.next_zero(round % 8).unwrap_or(round));
    }
    sum
}

// Searches backward for a set bit. There is none.
fn prev_one<const N: usize>(map: &mut BitMap<N>, times: u64) -> u64 {
    map.set_all(false);
    let len = map.len();
    let mut sum: u64 = 0;
    for round in 0..times {
        let end = len.saturating_sub(round % 8);
        sum = sum.wrapping_add(map.prev_one(end).unwrap_or(round));
    }
    sum
}

// Counts the set bits of a range that leaves out at most seven bits.
fn count_ones_range<const N: usize>(map: &BitMap<N>, times: u64) -> u64 {
    // The prover learns the bounds of `N` from this call.
    let _ = map.len();
    let mut sum: u64 = 0;
    for round in 0..times {
        sum = sum.wrapping_add(map.count_ones_range(round % 8..u64::MAX));
    }
    sum
}

// Finds one of the last eight set bits by its number.
fn select_one<const N: usize>(map: &BitMap<N>, times: u64) -> u64 {
    let ones = map.count_ones();
    let mut sum: u64 = 0;
    for round in 0..times {
        let k = ones.saturating_sub(1 + round % 8);
        sum = sum.wrapping_add(map.select_one(k).unwrap_or(round));
    }
    sum
}

// Iterates over the positions that are not set.
fn zeros_iter<const N: usize>(map: &BitMap<N>, times: u64) -> u64 {
    // The prover learns the bounds of `N` from this call.
    let _ = map.len();
    let mut sum: u64 = 0;
    for round in 0..times {
        for position in map.zeros_iter_from(round % 8) {
            sum = sum.wrapping_add(position);
        }
    }
    sum
}

// Clears all bits but about one in `SPARSE`, which are at random positions.
fn thin<const N: usize>(map: &mut BitMap<N>) {
    map.set_all(false);
    let mut positions = Positions::from_seed(SPARSE);
    for _ in 0..map.len() / SPARSE {
        let position = positions.step() % map.len().max(1);
        if position < map.len() {
            map.set(position, true);
        }
    }
}

// Iterates over the set positions of a bitmap that has few.
fn sparse_ones_iter<const N: usize>(map: &mut BitMap<N>, times: u64) -> u64 {
    thin(map);
    ones_iter(map, times)
}

// Sets and clears a range that leaves out at most seven bits, in turn.
fn set_range<const N: usize>(map: &mut BitMap<N>, times: u64) -> u64 {
    for round in 0..times {
        let len = map.len();
        map.set_range(round % 8..len, round % 2 == 0);
    }
    map.count_ones()
}

// Clears the bits that another bitmap has set, which has none.
fn and_not<const N: usize>(map: &mut BitMap<N>, times: u64) -> Result<u64, AllocError> {
    let mut other = map.clone()?;
    other.set_all(false);
    for _ in 0..times {
        if map.len() == other.len() {
            map.and_not(&other);
        }
    }
    Ok(map.count_ones())
}

// Tests whether each set bit is set in an equal bitmap. One bit of both changes in each round.
fn is_subset<const N: usize>(map: &mut BitMap<N>, times: u64) -> Result<u64, AllocError> {
    let mut other = map.clone()?;
    let mut sum: u64 = 0;
    for _ in 0..times {
        if !map.is_empty() && map.len() == other.len() {
            map.flip(0);
            other.flip(0);
            sum = sum.wrapping_add(u64::from(map.is_subset(&other)));
        }
    }
    Ok(sum)
}

/// Runs a call `times` times on a bitmap, and returns a number that depends on its results.
pub fn run<const N: usize>(call: Call, mut map: BitMap<N>, times: u64) -> Result<u64, AllocError> {
    match call {
        Call::NextOne => Ok(next_one(&mut map, times)),
        Call::NextZero => Ok(next_zero(&mut map, times)),
        Call::PrevOne => Ok(prev_one(&mut map, times)),
        Call::CountOnesRange => Ok(count_ones_range(&map, times)),
        Call::SelectOne => Ok(select_one(&map, times)),
        Call::ZerosIter => Ok(zeros_iter(&map, times)),
        Call::SparseOnesIter => Ok(sparse_ones_iter(&mut map, times)),
        Call::SetRange => Ok(set_range(&mut map, times)),
        Call::AndNot => and_not(&mut map, times),
        Call::IsSubset => is_subset(&mut map, times),
    }
}
