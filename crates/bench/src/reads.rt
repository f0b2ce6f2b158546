//! Calls that read a bitmap. Each function returns a number that depends on all results, so that the compiler keeps the calls.

use bitmap_core::bitmap::BitMap;
use std::alloc::AllocError;
use std::hash::{DefaultHasher, Hash, Hasher};

/// Reads each bit.
pub fn get<const N: usize>(map: &BitMap<N>, times: u64) -> u64 {
    let mut sum: u64 = 0;
    for _ in 0..times {
        for position in 0..map.len() {
            sum = sum.wrapping_add(u64::from(map.get(position)));
        }
    }
    sum
}

/// Compares with an equal bitmap. One bit of both changes in each round, so that no result can be reused.
pub fn equal<const N: usize>(map: &mut BitMap<N>, times: u64) -> Result<u64, AllocError> {
    let mut other = map.clone()?;
    let mut sum: u64 = 0;
    for _ in 0..times {
        if !map.is_empty() && !other.is_empty() {
            map.flip(0);
            other.flip(0);
        }
        sum = sum.wrapping_add(u64::from(*map == other));
    }
    Ok(sum)
}

/// Hashes the bitmap.
pub fn hash<const N: usize>(map: &BitMap<N>, times: u64) -> u64 {
    let mut state = DefaultHasher::new();
    for _ in 0..times {
        map.hash(&mut state);
    }
    state.finish()
}

/// Counts the set bits.
pub fn count_ones<const N: usize>(map: &BitMap<N>, times: u64) -> u64 {
    let mut sum: u64 = 0;
    for _ in 0..times {
        sum = sum.wrapping_add(map.count_ones());
    }
    sum
}

/// Tests whether all bits are zero. They are, so that each is read.
pub fn is_unset<const N: usize>(map: &mut BitMap<N>, times: u64) -> u64 {
    map.set_all(false);
    let mut sum: u64 = 0;
    for _ in 0..times {
        sum = sum.wrapping_add(u64::from(map.is_unset(0..map.len())));
    }
    sum
}

/// Iterates over the bits.
pub fn iter<const N: usize>(map: &BitMap<N>, times: u64) -> u64 {
    let mut sum: u64 = 0;
    for _ in 0..times {
        for bit in map.iter() {
            sum = sum.wrapping_add(u64::from(bit));
        }
    }
    sum
}

/// Iterates over the set positions.
pub fn ones_iter<const N: usize>(map: &BitMap<N>, times: u64) -> u64 {
    // The prover learns the bounds of `N` from this call.
    let _ = map.len();
    let mut sum: u64 = 0;
    for _ in 0..times {
        for position in map.ones_iter() {
            sum = sum.wrapping_add(position);
        }
    }
    sum
}
