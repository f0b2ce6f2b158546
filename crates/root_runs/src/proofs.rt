//! Proofs of the chunks of versions, as bytes.

use authenticated_bitmap::encoding::Proof;
use authenticated_bitmap::range_encoding::RangeProof;
use authenticated_history::AuthenticatedBitMap;
use bitmap_core::bitmap::Prunable;
use bitmap_core::chunk::{chunk_index, chunk_width};
use conformance_authenticated::sha::Sha;
use std::alloc::{AllocError, Global};

/// Returns the encoding of the proof of the chunk at a position of a version. Returns `None` if the version is not kept, or does not retain the bit.
pub fn proof_at<const N: usize>(
    alloc: Global,
    map: &AuthenticatedBitMap<N, Sha>,
    number: u64,
    position: u64,
) -> Result<Option<Vec<u8>>, AllocError> {
    let Some(bits) = map.bits().get_at_commit(number)? else {
        return Ok(None);
    };
    if position < bits.pruned_bits() || bits.len() <= position {
        return Ok(None);
    }
    let index = chunk_index::<N>(position);
    let Some(path) = map.prove_at(number, index)? else {
        return Ok(None);
    };
    let proof = Proof {
        len: bits.len(),
        pruned: bits.pruned_chunks() as u64,
        index: index as u64,
        chunk: bits.get_chunk_containing(position),
        path: &path,
    };
    Ok(Some(proof.write(alloc)?))
}

// Returns the chunk at an index, or `None` if the bitmap does not retain its first bit.
fn retained_chunk<const N: usize>(bits: &Prunable<N>, index: usize) -> Option<[u8; N]> {
    let (pruned, len) = (bits.pruned_bits(), bits.len());
    let position = (index as u64).saturating_mul(chunk_width::<N>());
    if position < pruned || len <= position {
        return None;
    }
    Some(*bits.get_chunk_containing(position))
}

/// Returns the encoding of the proof of so many chunks of a version, from an index on. Returns `None` if the version is not kept, or does not retain
/// these chunks, or if there are none.
pub fn range_proof_at<const N: usize>(
    alloc: Global,
    map: &AuthenticatedBitMap<N, Sha>,
    number: u64,
    first: usize,
    count: usize,
) -> Result<Option<Vec<u8>>, AllocError> {
    let Some(bits) = map.bits().get_at_commit(number)? else {
        return Ok(None);
    };
    let Some(siblings) = map.prove_range_at(number, first, count)? else {
        return Ok(None);
    };
    let mut chunks = Vec::new(alloc);
    for index in first..first.saturating_add(count) {
        let Some(chunk) = retained_chunk(&bits, index) else {
            return Ok(None);
        };
        chunks.push(chunk)?;
    }
    let proof = RangeProof {
        len: bits.len(),
        pruned: bits.pruned_chunks() as u64,
        first: first as u64,
        chunks: &chunks,
        siblings: &siblings,
    };
    Ok(Some(proof.write(alloc)?))
}
