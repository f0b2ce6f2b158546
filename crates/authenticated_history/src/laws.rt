//! What follows from the contracts of authenticated bitmaps, each as the contract of a function.

ghost use Rattle.std.specs.Prelude.{◌≡◌, ◌+◌, ◌^◌, ◌<◌, ◌≤◌, ℕ, IfOk, IsTrue, Some, length, map};
ghost use Rattle.std.specs.List.{range_with_len};
ghost use Rattle.bitmap_core.specs.PrunedBits.{bit_len, chunk, pushed};
ghost use Rattle.historical_bitmap.specs.Changes.{chunk_total};
ghost use Rattle.historical_bitmap.specs.View.{pending_of};
ghost use Rattle.authenticated_history.specs.Versions.{Follows};

use crate::clean::AuthenticatedBitMap;
use crate::dirty::DirtyAuthenticatedBitMap;
use authenticated_bitmap::hash::Digest;
use authenticated_bitmap::range::verify_range;
use authenticated_bitmap::root::verify_chunk;
use historical_bitmap::bitmap::historical::Error;
use std::alloc::AllocError;

/// Appends a bit to the pending bitmap of a batch. The digests follow the batch as before, so that it can be committed or aborted.
///
/// # Errors
/// `AllocError` if an allocation fails. The batch can then be committed or aborted too.
///
/// # Memory
/// That of `try_push`.
///
/// # Complexity
/// That of `try_push`.
pub fn edits_keep_the_digests<const N: usize, D: Digest>(
    batch: &mut DirtyAuthenticatedBitMap<N, D>,
    value: bool,
) -> Result<(), AllocError>
    requires fits { bit_len N (pending_of N batch.old.bits) + 1 < 2 ^ 64 }
    requires follows { Follows (D.digest_of batch.old.hash) N batch.old.bits batch.old.digests }
    ensures pushed { IfOk result (λ _.
        pending_of N batch.new.bits ≡ pushed (pending_of N batch.old.bits) value) }
    ensures follows { Follows (D.digest_of batch.new.hash) N batch.new.bits batch.new.digests }
{
    batch.edits().try_push(value)
}

/// Commits a batch, and returns the current root, and the root under the number: they are equal.
///
/// # Errors
/// Those of `commit`.
///
/// # Memory
/// That of `commit`.
///
/// # Complexity
/// That of `commit`, `root` and `root_at`.
pub fn root_is_kept<const N: usize, D: Digest>(
    batch: DirtyAuthenticatedBitMap<N, D>,
    number: u64,
) -> Result<
    (AuthenticatedBitMap<N, D>, [u8; 32], Option<[u8; 32]>),
    (DirtyAuthenticatedBitMap<N, D>, Error),
>
    requires { Follows (D.digest_of batch.hash) N batch.bits batch.digests }
    ensures { IfOk result (λ found. found.2 ≡ Some found.1) }
{
    let bitmap = batch.commit(number)?;
    let root = bitmap.root();
    let kept = bitmap.root_at(number);
    Ok((bitmap, root, kept))
}

/// Makes the audit path of a retained chunk of the current bitmap, and verifies the chunk against the root: it always verifies.
///
/// # Errors
/// `AllocError` if an allocation fails.
///
/// # Memory
/// That of `prove`.
///
/// # Complexity
/// That of `root`, `prove` and `verify_chunk`.
pub fn proofs_verify<const N: usize, D: Digest>(
    bitmap: &AuthenticatedBitMap<N, D>,
    index: usize,
) -> Result<bool, AllocError>
    requires retained { bitmap.now.bits.current.pruned ≤ index }
    requires within { index < chunk_total N bitmap.now.bits.current }
    ensures { IfOk result (λ verified. IsTrue verified) }
{
    let root = bitmap.root();
    let path = bitmap.prove(index)?;
    let bits = bitmap.bits().current();
    let len = bits.len();
    let pruned = bits.pruned_chunks() as u64;
    let chunk = bits.get_chunk(index);
    Ok(verify_chunk(
        bitmap.hash(),
        &root,
        len,
        pruned,
        index as u64,
        chunk,
        path.as_slice(),
    ))
}

/// Makes the siblings of retained chunks of the current bitmap, and verifies the chunks against the root: they always verify.
///
/// `chunks` has the bytes of the chunks of the current bitmap from `first` on, of which there is at least one.
///
/// # Errors
/// `AllocError` if an allocation fails.
///
/// # Memory
/// That of `prove_range`.
///
/// # Complexity
/// That of `root`, `prove_range` and `verify_range`.
pub fn range_proofs_verify<const N: usize, D: Digest>(
    bitmap: &AuthenticatedBitMap<N, D>,
    first: usize,
    chunks: &[[u8; N]],
) -> Result<bool, AllocError>
    requires some { 0 < length chunks.now }
    requires retained { bitmap.now.bits.current.pruned ≤ first }
    requires within { first + length chunks.now ≤ chunk_total N bitmap.now.bits.current }
    requires bytes { chunks.now
        ≡ map (chunk N bitmap.now.bits.current) (range_with_len first (length chunks.now)) }
    ensures { IfOk result (λ verified. IsTrue verified) }
{
    let root = bitmap.root();
    let siblings = bitmap.prove_range(first, chunks.len())?;
    let bits = bitmap.bits().current();
    let len = bits.len();
    let pruned = bits.pruned_chunks() as u64;
    Ok(verify_range(
        bitmap.hash(),
        &root,
        len,
        pruned,
        first as u64,
        chunks,
        siblings.as_slice(),
    ))
}
