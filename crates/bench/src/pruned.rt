//! Calls of bitmaps with a pruned prefix. Each function returns a number that depends on the results of its calls.

ghost use Rattle.std.specs.Prelude.{◌≡◌, ◌+◌, ◌^◌, ◌<◌, IfOk};
ghost use Rattle.bitmap_core.specs.PrunedBits.{bit_len, plain_bits};

use bitmap_core::bitmap::{BitMap, Prunable};
use std::alloc::{AllocError, Global};

// Appends bits, one by one.
fn push_each<const N: usize>(log: &mut Prunable<N>, bits: u64) -> Result<(), AllocError>
    requires { bit_len N log.old + bits < 2 ^ 64 }
{
    for position in 0..bits {
        log.push(position % 3 == 0)?;
    }
    Ok(())
}

/// Appends as many bits as the bitmap has, one by one. The capacity is reused.
pub fn push<const N: usize>(alloc: Global, map: &BitMap<N>, times: u64) -> Result<u64, AllocError> {
    let mut log = copied(alloc, map)?;
    let bits = log.len();
    for _ in 0..times {
        log.truncate(log.pruned_bits());
        let space = u64::MAX - log.len();
        push_each(&mut log, bits.min(space))?;
    }
    Ok(log.len())
}

// Removes the retained bits, one by one, and returns how many were set.
fn pop_each<const N: usize>(log: &mut Prunable<N>) -> u64 {
    let mut sum: u64 = 0;
    while log.len() > log.pruned_bits() {
        sum = sum.wrapping_add(u64::from(log.pop()));
    }
    sum
}

/// Removes all bits, one by one. Each later round first appends zeros, all at once.
pub fn pop<const N: usize>(alloc: Global, map: &BitMap<N>, times: u64) -> Result<u64, AllocError> {
    let mut log = copied(alloc, map)?;
    let bits = log.len();
    let mut sum: u64 = 0;
    for _ in 0..times {
        log.extend_to(bits)?;
        sum = sum.wrapping_add(pop_each(&mut log));
    }
    Ok(sum)
}

// A bitmap with the same bits, nothing pruned.
fn copied<const N: usize>(alloc: Global, map: &BitMap<N>) -> Result<Prunable<N>, AllocError>
    ensures { IfOk result (λ log. log ≡ plain_bits map.now) }
{
    // The prover learns the bounds of `N` from this call.
    let _ = map.len();
    let mut log = Prunable::new(alloc);
    log.extend_from_bitmap(map)?;
    Ok(log)
}

/// Appends the bits byte by byte, each after a test that there is space. The capacity is reused.
pub fn push_byte<const N: usize>(
    alloc: Global,
    map: &BitMap<N>,
    times: u64,
) -> Result<u64, AllocError> {
    let mut log = copied(alloc, map)?;
    let bytes = log.len() / 8;
    for _ in 0..times {
        log.truncate(log.pruned_bits());
        for byte in 0..bytes {
            if log.len() % 8 == 0 && log.len() < 1 << 40 {
                log.push_byte((byte % 256) as u8)?;
            }
        }
    }
    Ok(log.len())
}

/// Appends the bits chunk by chunk, each after a test that there is space. The capacity is reused.
pub fn push_chunk<const N: usize>(
    alloc: Global,
    map: &BitMap<N>,
    times: u64,
) -> Result<u64, AllocError> {
    let mut log = copied(alloc, map)?;
    let chunks = log.complete_chunks();
    let space = u64::MAX - 8 * N as u64;
    for _ in 0..times {
        log.truncate(log.pruned_bits());
        for _ in 0..chunks {
            if log.is_chunk_aligned() && log.len() < space {
                log.push_chunk(&[105; N])?;
            }
        }
    }
    Ok(log.len())
}

// Restores chunks, if at least as many are pruned.
fn restore<const N: usize>(log: &mut Prunable<N>, chunks: &[[u8; N]]) -> Result<(), AllocError> {
    if chunks.len() <= log.pruned_chunks() {
        log.unprune(chunks)?;
    }
    Ok(())
}

// As many chunks as the bitmap has complete ones.
fn chunks_of<const N: usize>(alloc: Global, log: &Prunable<N>) -> Result<Vec<[u8; N]>, AllocError> {
    let mut chunks = Vec::new(alloc);
    for _ in 0..log.complete_chunks() {
        chunks.push([105; N])?;
    }
    Ok(chunks)
}

/// Prunes chunk by chunk, and restores all chunks at once.
pub fn prune<const N: usize>(
    alloc: Global,
    map: &BitMap<N>,
    times: u64,
) -> Result<u64, AllocError> {
    let mut log = copied(alloc, map)?;
    let chunks = chunks_of(alloc, &log)?;
    for _ in 0..times {
        for position in (0..log.len()).step_by(8 * N) {
            log.prune_to_bit(position.min(log.len()));
        }
        log.prune_to_bit(log.len());
        restore(&mut log, chunks.as_slice())?;
    }
    Ok(log.pruned_bits())
}

/// Prunes all chunks at once, and restores them at once.
pub fn unprune<const N: usize>(
    alloc: Global,
    map: &BitMap<N>,
    times: u64,
) -> Result<u64, AllocError> {
    let mut log = copied(alloc, map)?;
    let chunks = chunks_of(alloc, &log)?;
    for _ in 0..times {
        log.prune_to_bit(log.len());
        restore(&mut log, chunks.as_slice())?;
    }
    Ok(log.pruned_bits())
}

/// Reads each retained bit of a bitmap whose first chunk is pruned.
pub fn get_bit<const N: usize>(
    alloc: Global,
    map: &BitMap<N>,
    times: u64,
) -> Result<u64, AllocError> {
    let mut log = copied(alloc, map)?;
    log.prune_to_bit((8 * N as u64).min(log.len()));
    let mut sum: u64 = 0;
    for _ in 0..times {
        for position in log.pruned_bits()..log.len() {
            sum = sum.wrapping_add(u64::from(log.get_bit(position)));
        }
    }
    Ok(sum)
}

// Sets each retained bit to a value.
fn set_each<const N: usize>(log: &mut Prunable<N>, round: u64) {
    for position in log.pruned_bits()..log.len() {
        log.set_bit(position, (position ^ round) % 3 == 0);
    }
}

/// Sets each retained bit of a bitmap whose first chunk is pruned.
pub fn set_bit<const N: usize>(
    alloc: Global,
    map: &BitMap<N>,
    times: u64,
) -> Result<u64, AllocError> {
    let mut log = copied(alloc, map)?;
    log.prune_to_bit((8 * N as u64).min(log.len()));
    for round in 0..times {
        set_each(&mut log, round);
    }
    let last = log.len();
    if log.pruned_bits() < last {
        return Ok(u64::from(log.get_bit(last - 1)));
    }
    Ok(last)
}
