//! Calls that edit a dense bitmap. Each function returns a number that depends on the result, so that the compiler keeps the calls.

ghost use Rattle.std.specs.Prelude.{◌+◌, ◌^◌, ◌<◌, length};

use bitmap_core::bitmap::BitMap;
use std::alloc::AllocError;

// Appends bits, one by one.
fn push_each<const N: usize>(map: &mut BitMap<N>, bits: u64) -> Result<(), AllocError>
    requires { length map.old + bits < 2 ^ 64 }
{
    for position in 0..bits {
        map.push(position % 3 == 0)?;
    }
    Ok(())
}

/// Empties the bitmap and appends as many bits as before, one by one. The capacity is reused.
pub fn push<const N: usize>(map: &mut BitMap<N>, times: u64) -> Result<u64, AllocError> {
    let bits = map.len();
    for _ in 0..times {
        map.truncate(0);
        push_each(map, bits)?;
    }
    Ok(map.count_ones())
}

// Removes all bits, one by one, and returns how many were set.
fn pop_each<const N: usize>(map: &mut BitMap<N>) -> u64 {
    let mut sum: u64 = 0;
    while !map.is_empty() {
        sum = sum.wrapping_add(u64::from(map.pop()));
    }
    sum
}

/// Removes all bits, one by one. Each later round first appends zeros, all at once.
pub fn pop<const N: usize>(map: &mut BitMap<N>, times: u64) -> Result<u64, AllocError> {
    let bits = map.len();
    let mut sum: u64 = 0;
    for _ in 0..times {
        map.extend_to(bits)?;
        sum = sum.wrapping_add(pop_each(map));
    }
    Ok(sum)
}

// Sets each bit to a value.
fn set_each<const N: usize>(map: &mut BitMap<N>, round: u64) {
    for position in 0..map.len() {
        map.set(position, (position ^ round) % 3 == 0);
    }
}

/// Sets each bit to a value.
pub fn set<const N: usize>(map: &mut BitMap<N>, times: u64) -> u64 {
    for round in 0..times {
        set_each(map, round);
    }
    map.count_ones()
}

/// Flips all bits.
pub fn flip_all<const N: usize>(map: &mut BitMap<N>, times: u64) -> u64 {
    for _ in 0..times {
        map.flip_all();
    }
    map.count_ones()
}

/// Sets all bits and clears all bits, in turn.
pub fn set_all<const N: usize>(map: &mut BitMap<N>, times: u64) -> u64 {
    for round in 0..times {
        map.set_all(round % 2 == 0);
    }
    map.count_ones()
}

/// Combines with an equal bitmap by `and`.
pub fn and<const N: usize>(map: &mut BitMap<N>, times: u64) -> Result<u64, AllocError> {
    let other = map.clone()?;
    for _ in 0..times {
        if map.len() == other.len() {
            map.and(&other);
        }
    }
    Ok(map.count_ones())
}

/// Combines with an equal bitmap by `or`.
pub fn or<const N: usize>(map: &mut BitMap<N>, times: u64) -> Result<u64, AllocError> {
    let other = map.clone()?;
    for _ in 0..times {
        if map.len() == other.len() {
            map.or(&other);
        }
    }
    Ok(map.count_ones())
}

/// Combines with an equal bitmap by `xor`.
pub fn xor<const N: usize>(map: &mut BitMap<N>, times: u64) -> Result<u64, AllocError> {
    let other = map.clone()?;
    for _ in 0..times {
        if map.len() == other.len() {
            map.xor(&other);
        }
    }
    Ok(map.count_ones())
}
