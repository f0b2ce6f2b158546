//! Calls that make a bitmap, bytes or booleans from a bitmap. Each function returns a number that depends on the result.

ghost use Rattle.std.specs.Prelude.{◌+◌, ◌^◌, ◌<◌, length};

use bitmap_core::bitmap::BitMap;
use bitmap_core::bitmap::codec::{RangeCfg, Read, Write};
use std::alloc::{AllocError, Global};

/// Copies the encoding of the bitmap into existing capacity. This is a lower bound for `write`.
pub fn copy<const N: usize>(alloc: Global, map: &BitMap<N>, times: u64) -> Result<u64, AllocError> {
    let mut bytes = Vec::new(alloc);
    map.write(&mut bytes)?;
    let mut copy = bytes.clone()?;
    for _ in 0..times {
        copy.clear();
        copy.extend_from_slice(bytes.as_slice())?;
    }
    Ok(copy.len() as u64)
}

/// Appends a bitmap to the bits of `target`. The capacity is reused.
pub fn extend<const N: usize, const M: usize>(
    map: &BitMap<N>,
    target: &mut BitMap<M>,
    times: u64,
) -> Result<u64, AllocError>
    requires { length map.now + length target.old < 2 ^ 64 }
{
    let first = target.len();
    target.extend_from_bitmap(map)?;
    for _ in 0..times {
        target.truncate(first.min(target.len()));
        target.extend_from_bitmap(map)?;
    }
    Ok(target.count_ones())
}

/// Makes a bitmap of zeros of the same length.
pub fn extend_to<const N: usize>(
    alloc: Global,
    map: &BitMap<N>,
    times: u64,
) -> Result<u64, AllocError> {
    let bits = map.len();
    let mut sum: u64 = 0;
    for _ in 0..times {
        let mut zeros = BitMap::<N>::new(alloc);
        zeros.extend_to(bits)?;
        sum = sum.wrapping_add(zeros.len());
    }
    Ok(sum)
}

/// Removes all bits, and appends as many zeros. The capacity is reused.
pub fn truncate<const N: usize>(map: &mut BitMap<N>, times: u64) -> Result<u64, AllocError> {
    let bits = map.len();
    for _ in 0..times {
        map.truncate(0);
        map.extend_to(bits)?;
    }
    Ok(map.count_ones())
}

/// Clones the bitmap.
pub fn clone<const N: usize>(map: &BitMap<N>, times: u64) -> Result<u64, AllocError> {
    let mut sum: u64 = 0;
    for _ in 0..times {
        sum = sum.wrapping_add(map.clone()?.len());
    }
    Ok(sum)
}

/// Makes a vector of booleans.
pub fn to_bools<const N: usize>(map: &BitMap<N>, times: u64) -> Result<u64, AllocError> {
    let mut sum: u64 = 0;
    for _ in 0..times {
        sum = sum.wrapping_add(map.to_bools()?.len() as u64);
    }
    Ok(sum)
}

/// Makes a bitmap from booleans.
pub fn from_bools<const N: usize>(
    alloc: Global,
    map: &BitMap<N>,
    times: u64,
) -> Result<u64, AllocError> {
    // The prover learns the bounds of `N` from this call.
    let _ = map.len();
    let bools = map.to_bools()?;
    let mut sum: u64 = 0;
    for _ in 0..times {
        sum = sum.wrapping_add(BitMap::<N>::from_bools(alloc, bools.as_slice())?.len());
    }
    Ok(sum)
}

/// Encodes the bitmap into existing capacity.
pub fn write<const N: usize>(
    alloc: Global,
    map: &BitMap<N>,
    times: u64,
) -> Result<u64, AllocError> {
    let mut bytes = Vec::new(alloc);
    map.write(&mut bytes)?;
    for _ in 0..times {
        bytes.clear();
        map.write(&mut bytes)?;
    }
    Ok(bytes.len() as u64)
}

/// Decodes the bitmap.
pub fn read<const N: usize>(alloc: Global, map: &BitMap<N>, times: u64) -> Result<u64, AllocError> {
    // The prover learns the bounds of `N` from this call.
    let _ = map.len();
    let mut bytes = Vec::new(alloc);
    map.write(&mut bytes)?;
    let mut sum: u64 = 0;
    for _ in 0..times {
        let mut from = bytes.as_slice();
        if let Ok(same) = BitMap::<N>::read_cfg(alloc, &mut from, &RangeCfg::any()) {
            sum = sum.wrapping_add(same.len());
        }
    }
    Ok(sum)
}
