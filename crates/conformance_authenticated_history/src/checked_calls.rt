//! Edits and commits that assert their condition first, so that callers need not prove it, and that fail the test if an allocation fails. After each
//! edit the digests follow the batch, as a commit requires.

ghost use Rattle.sha2.specs.Sha256.{sha256};
ghost use Rattle.authenticated_history.specs.Versions.{Follows};

use authenticated_history::{AuthenticatedBitMap, DirtyAuthenticatedBitMap};
use conformance_authenticated::sha::Sha;
use std::alloc::AllocError;
use std::process::Abort;

/// An authenticated bitmap in chunks of four bytes.
pub type Map = AuthenticatedBitMap<4, Sha>;

/// A batch of one.
pub type Batch = DirtyAuthenticatedBitMap<4, Sha>;

/// Appends the bits of a chunk, and returns an error if an allocation fails.
pub fn try_push_chunk(rt: &impl Abort, batch: &mut Batch, chunk: &[u8; 4]) -> Result<(), AllocError>
    requires { Follows sha256 4 batch.old.bits batch.old.digests }
    ensures { Follows sha256 4 batch.new.bits batch.new.digests }
{
    assert!(rt; batch.bits().len() < 1 << 63);
    batch.edits().try_push_chunk(chunk)
}

/// The same, but fails the test if an allocation fails.
pub fn push_chunk(rt: &impl Abort, batch: &mut Batch, chunk: &[u8; 4])
    requires { Follows sha256 4 batch.old.bits batch.old.digests }
    ensures { Follows sha256 4 batch.new.bits batch.new.digests }
{
    assert!(rt; try_push_chunk(rt, batch, chunk).is_ok());
}

/// Appends a bit.
pub fn push(rt: &impl Abort, batch: &mut Batch, bit: bool)
    requires { Follows sha256 4 batch.old.bits batch.old.digests }
    ensures { Follows sha256 4 batch.new.bits batch.new.digests }
{
    assert!(rt; batch.bits().len() < 1 << 63);
    assert!(rt; batch.edits().try_push(bit).is_ok());
}

/// Prunes each chunk before the one that contains `bit`, which is at most the pending length.
pub fn prune_to_bit(rt: &impl Abort, batch: &mut Batch, bit: u64)
    requires { Follows sha256 4 batch.old.bits batch.old.digests }
    ensures { Follows sha256 4 batch.new.bits batch.new.digests }
{
    assert!(rt; bit <= batch.bits().len());
    assert!(rt; batch.edits().try_prune_to_bit(bit).is_ok());
}

/// Removes the last bit of a bitmap of which nothing is pruned.
pub fn pop(rt: &impl Abort, batch: &mut Batch) -> bool
    requires { Follows sha256 4 batch.old.bits batch.old.digests }
    ensures { Follows sha256 4 batch.new.bits batch.new.digests }
{
    assert!(rt; batch.bits().pruned_chunks() == 0 && 0 < batch.bits().len());
    batch.edits().pop()
}

/// Commits at a number that is allowed.
pub fn commit(rt: &impl Abort, batch: Batch, number: u64) -> Map
    requires { Follows sha256 4 batch.bits batch.digests }
{
    match batch.commit(number) {
        Ok(map) => map,
        Err((_, why)) => panic!(rt; "{number}: {why}"),
    }
}

/// Returns the siblings of chunks of the current bitmap, which has them, or an error if an allocation fails.
pub fn siblings_of(
    rt: &impl Abort,
    map: &Map,
    first: usize,
    count: usize,
) -> Result<Vec<[u8; 32]>, AllocError> {
    let chunks = map.bits().current().chunks_len();
    assert!(rt; 0 < count && first <= chunks && count <= chunks - first);
    map.prove_range(first, count)
}

/// Rewinds to a kept commit.
pub fn rewind(rt: &impl Abort, map: Map, number: u64) -> Map {
    match map.rewind_to(number) {
        Ok(map) => map,
        Err((_, why)) => panic!(rt; "{number}: {why}"),
    }
}
