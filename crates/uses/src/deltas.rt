//! A replica that follows a bitmap by deltas: a sender makes the delta between two versions, and a receiver applies it.

ghost use Rattle.std.specs.Prelude.{◌≡◌, ℕ, ◌<◌, Some, IfOk, IsSomeAnd, MatchResult, OnErr, alloc_error};
ghost use Rattle.bitmap_core.specs.PrunedBits.{PrunedBits};
ghost use Rattle.commit_log.specs.Delta.{committed};
ghost use Rattle.commit_log.specs.Kept.{kept_of};
ghost use Rattle.commit_log.specs.declared.deltas.DeltaError.TheVariants.{Memory};
ghost use Rattle.historical_bitmap.specs.History.{kept_under};
ghost use Rattle.historical_bitmap.specs.View.{history_of};
ghost use Rattle.uses.specs.Replicas.{IsDelta};

use commit_log::{DeltaError, apply_delta, delta};
use historical_bitmap::bitmap::historical::CleanBitMap;
use std::alloc::{AllocError, Global};

/// Returns the delta from one version to a later one. Returns `None` unless both are kept and `from` is below `to`.
pub fn delta_to_send(
    alloc: Global,
    versions: &CleanBitMap<8>,
    from: u64,
    to: u64,
) -> Result<Option<Vec<u8>>, AllocError>
    ensures { (older newer : PrunedBits) → from < to
        → kept_under (history_of 8 versions.now) from ≡ Some older
        → kept_under (history_of 8 versions.now) to ≡ Some newer
        → IfOk result (λ found. IsSomeAnd found
        (λ bytes. IsDelta 8 from older to newer bytes.items)) }
{
    delta(alloc, versions, from, to)
}

/// Applies a delta to a replica, as its next commit. After an error the replica is unchanged.
pub fn follow(replica: CleanBitMap<8>, bytes: &[u8]) -> (CleanBitMap<8>, Result<(), DeltaError>)
    ensures newer { (from to : ℕ) (newer : PrunedBits) → replica.last ≡ Some from
        → IsDelta 8 from replica.current to newer bytes.now
        → MatchResult result.1
        (λ done. kept_of 8 result.0 ≡ committed (kept_of 8 replica) to newer)
        (λ error. error ≡ Memory alloc_error) }
    ensures unchanged { OnErr result.1 (result.0 ≡ replica) }
{
    match apply_delta(replica, bytes) {
        Ok(replica) => (replica, Ok(())),
        Err((replica, error)) => (replica, Err(error)),
    }
}

#[cfg(test)]
mod tests {
    use super::*;
    use crate::checks::{equal, ok, with_bit};
    use historical_bitmap::bitmap::Readable;
    use std::process::Abort;

    // Returns a delta that there is.
    fn sent(rt: &impl Abort, found: Option<Vec<u8>>) -> Vec<u8> {
        match found {
            Some(bytes) => bytes,
            None => panic!(rt; "a version is not kept"),
        }
    }

    // The delta has 88 bytes, and 16 for its one chunk: the index and the bytes.
    #[test]
    fn brings_a_replica_to_the_newest_version(rt: HostRuntime) {
        let versions = with_bit(&rt, CleanBitMap::new(rt.alloc()), true, 3);
        let versions = with_bit(&rt, versions, false, 4);
        let versions = with_bit(&rt, versions, true, 7);
        let replica = with_bit(&rt, CleanBitMap::new(rt.alloc()), true, 3);
        let bytes = sent(&rt, ok(&rt, delta_to_send(rt.alloc(), &versions, 3, 7)));
        equal(&rt, bytes.len(), 104);
        let (replica, result) = follow(replica, &bytes);
        equal(&rt, result, Ok(()));
        equal(&rt, (replica.len(), replica.latest_commit()), (3, Some(7)));
        equal(
            &rt,
            (replica.current().next_one(1), replica.commits().count()),
            (Some(2), 2),
        );
    }

    #[test]
    fn leaves_a_replica_at_another_version(rt: HostRuntime) {
        let versions = with_bit(&rt, CleanBitMap::new(rt.alloc()), true, 3);
        let versions = with_bit(&rt, versions, false, 4);
        let bytes = sent(&rt, ok(&rt, delta_to_send(rt.alloc(), &versions, 3, 4)));
        let replica = with_bit(&rt, CleanBitMap::new(rt.alloc()), true, 2);
        let (replica, result) = follow(replica, &bytes);
        equal(&rt, result, Err(DeltaError::NotAtBase));
        let (replica, result) = follow(replica, &[]);
        equal(&rt, result, Err(DeltaError::Short));
        equal(&rt, (replica.len(), replica.latest_commit()), (1, Some(2)));
    }

    #[test]
    fn is_between_kept_versions(rt: HostRuntime) {
        let versions = with_bit(&rt, CleanBitMap::new(rt.alloc()), true, 3);
        let versions = with_bit(&rt, versions, false, 4);
        assert!(rt; ok(&rt, delta_to_send(rt.alloc(), &versions, 4, 3)).is_none());
        assert!(rt; ok(&rt, delta_to_send(rt.alloc(), &versions, 3, 5)).is_none());
    }
}
