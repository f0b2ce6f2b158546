//! Calls that have a condition, or whose error is known. Each asserts it, so that callers need not prove it.

use commit_log::{Log, commit_logged};
use historical_bitmap::bitmap::historical::{CleanBitMap, DirtyBitMap, Error};
use std::alloc::AllocError;
use std::process::Abort;
use test_support::compare::has_bits;

/// Appends bits, where `1` is a set bit.
pub fn try_push_digits<const N: usize>(
    rt: &impl Abort,
    batch: &mut DirtyBitMap<N>,
    digits: &[u8],
) -> Result<(), AllocError> {
    for digit in digits {
        assert!(rt; batch.len() < u64::MAX);
        batch.push(*digit == b'1')?;
    }
    Ok(())
}

/// Replaces the bits of a chunk of which the pending bitmap retains a bit.
pub fn try_set_chunk<const N: usize>(
    rt: &impl Abort,
    batch: &mut DirtyBitMap<N>,
    index: usize,
    chunk: &[u8; N],
) -> Result<(), AllocError> {
    // The prover learns the bounds of `N` from this call.
    let _ = batch.len();
    let start = (8 * N as u64).checked_mul(index as u64);
    assert!(rt; start.is_some());
    assert!(rt; batch.pruned_chunks() <= index && start.unwrap_or(0) < batch.len());
    batch.set_chunk(index, chunk)?;
    Ok(())
}

/// Prunes each chunk before the one that contains `bit`, which is at most the pending length.
pub fn try_prune_to_bit<const N: usize>(
    rt: &impl Abort,
    batch: &mut DirtyBitMap<N>,
    bit: u64,
) -> Result<(), AllocError> {
    assert!(rt; bit <= batch.len());
    batch.prune_to_bit(bit)?;
    Ok(())
}

/// Commits at a number that is allowed.
pub fn try_commit<const N: usize>(
    rt: &impl Abort,
    batch: DirtyBitMap<N>,
    number: u64,
) -> Result<CleanBitMap<N>, AllocError> {
    match batch.commit(number) {
        Ok(map) => Ok(map),
        Err((_, why)) => {
            assert!(rt; why == Error::Memory(AllocError), "{number}");
            Err(AllocError)
        }
    }
}

/// Commits at a number that is allowed, and appends the entry of the commit.
pub fn try_commit_logged<const N: usize>(
    rt: &impl Abort,
    batch: DirtyBitMap<N>,
    number: u64,
    log: &mut Log<N>,
) -> Result<CleanBitMap<N>, AllocError> {
    match commit_logged(batch, number, log) {
        Ok(map) => Ok(map),
        Err((_, why)) => {
            assert!(rt; why == Error::Memory(AllocError), "{number}");
            Err(AllocError)
        }
    }
}

/// Returns whether `numbers` are the kept commits, in order.
pub fn keeps<const N: usize>(map: &CleanBitMap<N>, numbers: &[u64]) -> bool {
    map.commits().eq(numbers.iter().copied())
}

/// Returns whether `number` is a kept commit whose bitmap has these pruned chunks and digits. Does not allocate.
pub fn had_bits<const N: usize>(
    map: &CleanBitMap<N>,
    number: u64,
    pruned_chunks: usize,
    digits: &[u8],
) -> bool {
    match map.at(number) {
        Some(old) => has_bits(&old, pruned_chunks, digits),
        None => false,
    }
}

/// Returns whether a log has these bytes that are not taken, no others before them, and this digest.
pub fn is_log<const N: usize>(log: &Log<N>, bytes: &[u8], digest: u64) -> bool {
    log.bytes() == bytes && log.position() == bytes.len() as u64 && log.digest() == digest
}
