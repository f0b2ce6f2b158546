//! One digest per chunk, kept up to date from version to version.

ghost use Rattle.std.specs.Prelude.{◌≡◌, ℕ, ◌*◌, ◌^◌, ◌<◌, Ok, IfSome, IfOk, OnErr, None, is_some};
ghost use Rattle.std.specs.Option.{option_map};
ghost use Rattle.historical_bitmap.specs.Changes.{changed_between};
ghost use Rattle.historical_bitmap.specs.History.{kept_under};
ghost use Rattle.historical_bitmap.specs.View.{history_of};
ghost use Rattle.uses.specs.Digests.{digest_at, digests_of};

use bitmap_core::bitmap::Readable;
use bitmap_core::chunk::chunk_count;
use historical_bitmap::bitmap::historical::{AtCommit, CleanBitMap};
use historical_bitmap::laws::changes::changes_make_the_newer_state;
use std::alloc::{AllocError, Global};

/// A digest of the bytes of a chunk, such as a hash.
pub trait Digest<const N: usize> {
    ghost use Rattle.std.specs.Prelude.{ℕ, List};

    /// The digest of some bytes. It depends on the value and on the bytes alone.
    ghost of: { Self → List ℕ → ℕ };

    /// Returns the digest of a chunk.
    fn digest(&self, chunk: &[u8; N]) -> u64
        ensures { result ≡ of self.now chunk.now };
}

// Returns the digest of a chunk of a version, or `None` if the chunk is pruned.
fn digest_of_chunk<D: Digest<N>, const N: usize>(
    digest: &D,
    version: &AtCommit<'_, N>,
    chunk: usize,
) -> Option<u64>
    requires { 8 * N * chunk < 2 ^ 64 }
    ensures { result ≡ digest_at N (D.of digest.now) version.now chunk }
{
    // The prover learns the bounds of `N` from this call.
    let _ = version.len();
    match version.retained_bytes(chunk) {
        Some(bytes) => Some(digest.digest(&bytes)),
        None => None,
    }
}

/// Returns the digests of the chunks of a version, or `None` if it is not kept.
///
/// # Errors
/// `AllocError` if an allocation fails.
pub fn all_digests<D: Digest<N>, const N: usize>(
    alloc: Global,
    digest: &D,
    versions: &CleanBitMap<N>,
    number: u64,
) -> Result<Option<Vec<Option<u64>>>, AllocError>
    ensures { IfOk result (λ found.
        option_map (λ digests. digests.items) found
        ≡ option_map (digests_of N (D.of digest.now))
        (kept_under (history_of N versions.now) number)) }
{
    let Some(version) = versions.at(number) else {
        return Ok(None);
    };
    let mut digests = Vec::new(alloc);
    for chunk in 0..chunk_count::<N>(version.len()) {
        digests.push(digest_of_chunk(digest, &version, chunk))?;
    }
    Ok(Some(digests))
}

/// Brings the digests of the chunks of one version to those of a later one. Only the chunks that differ are digested.
///
/// Returns `None`, and changes nothing, if one of the versions is not kept, or if `from` is greater than `to`.
///
/// # Errors
/// `AllocError` if an allocation fails; the digests are unchanged then.
pub fn update_digests<D: Digest<N>, const N: usize>(
    digests: &mut Vec<Option<u64>>,
    digest: &D,
    versions: &CleanBitMap<N>,
    from: u64,
    to: u64,
) -> Result<Option<()>, AllocError>
    requires { IfSome (kept_under (history_of N versions.now) from)
        (λ version. digests.old.items ≡ digests_of N (D.of digest.now) version) }
    ensures updated { IfOk result
        (λ done. IfSome done (λ _.
        IfSome (kept_under (history_of N versions.now) to)
        (λ version. digests.new.items ≡ digests_of N (D.of digest.now) version))) }
    ensures done { IfOk result
        (λ done. is_some done ≡ is_some (changed_between N (history_of N versions.now) from to)) }
    ensures absent { result ≡ Ok None → digests.new.items ≡ digests.old.items }
    ensures err { OnErr result (digests.new.items ≡ digests.old.items) }
{
    let Some((_, version, changes)) = changes_make_the_newer_state(versions, from, to) else {
        return Ok(None);
    };
    digests.resize(chunk_count::<N>(version.len()), None)?;
    for chunk in changes {
        if chunk < digests.len() {
            digests[chunk] = digest_of_chunk(digest, &version, chunk);
        }
    }
    Ok(Some(()))
}

#[cfg(test)]
mod tests {
    use super::*;
    use crate::checks::{equal, ok};
    use historical_bitmap::bitmap::historical::DirtyBitMap;
    use std::process::Abort;

    // The digest of a chunk is its only byte.
    struct OnlyByte;

    impl Digest<1> for OnlyByte {
        ghost use Rattle.std.specs.Prelude.{slice_index};

        ghost of = { λ _ bytes. slice_index bytes 0 };

        fn digest(&self, chunk: &[u8; 1]) -> u64 {
            u64::from(chunk[0])
        }
    }

    // Version 1 has the bytes 5d, 03; version 2 has 5d, 02, 07; version 3 has the last two of these, the first one pruned.
    fn three_versions(rt: &impl Abort, alloc: Global) -> CleanBitMap<1> {
        let mut batch = CleanBitMap::<1>::new(alloc).into_dirty();
        ok(rt, batch.try_push_byte(0x5d));
        assert!(rt; batch.len() < 100);
        ok(rt, batch.try_push_byte(0x03));
        let mut batch = committed(rt, batch, 1).into_dirty();
        assert!(rt; batch.pruned_chunks() == 0 && 8 < batch.len());
        ok(rt, batch.try_set_bit(8, false));
        assert!(rt; batch.len() < 100);
        ok(rt, batch.try_push_byte(0x07));
        let mut batch = committed(rt, batch, 2).into_dirty();
        assert!(rt; 8 <= batch.len());
        ok(rt, batch.try_prune_to_bit(8));
        committed(rt, batch, 3)
    }

    fn committed(rt: &impl Abort, batch: DirtyBitMap<1>, number: u64) -> CleanBitMap<1> {
        match batch.commit(number) {
            Ok(versions) => versions,
            Err(_) => panic!(rt; "commit {number} failed"),
        }
    }

    #[test]
    fn follows_each_version(rt: HostRuntime) -> Result<(), AllocError> {
        let alloc = rt.alloc();
        let versions = three_versions(&rt, alloc);
        let Some(mut digests) = all_digests(alloc, &OnlyByte, &versions, 1)? else {
            panic!(&rt; "version 1 is not kept");
        };
        equal(&rt, digests.as_slice(), &[Some(0x5d), Some(3)]);
        equal(
            &rt,
            update_digests(&mut digests, &OnlyByte, &versions, 1, 3)?,
            Some(()),
        );
        equal(&rt, digests.as_slice(), &[None, Some(2), Some(7)]);
        Ok(())
    }
}
