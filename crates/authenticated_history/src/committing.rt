//! The commit of the digests that belongs to a prepared commit of the bits.

ghost use Rattle.std.specs.Prelude.{◌≡◌, [], ◌∷◌, ◌++◌, ℕ, IfErr, IfOk, Some};
ghost use Rattle.bitmap_bytes.specs.Chunk.{IsWidth};
ghost use Rattle.historical_bitmap.specs.Changes.{chunk_total};
ghost use Rattle.historical_bitmap.specs.View.{history_of, pending_of};
ghost use Rattle.authenticated_bitmap.specs.LeafDigests.{Authenticates, HasTreeSize, leaves_in, next_leaves};

use authenticated_bitmap::follow::update_digests;
use authenticated_bitmap::hash::Digest;
use historical_bitmap::bitmap::historical::{CleanBitMap, PreparedBitMap};

// Commits the digests of the state that a prepared commit will leave, under its number. `count` is
// the number of chunks of the current bitmap. If the commit fails, returns the digests unchanged.
pub(crate) fn commit_digests<D: Digest, const N: usize>(
    hash: &D,
    prepared: &PreparedBitMap<N>,
    digests: CleanBitMap<32>,
    count: u64,
) -> Result<CleanBitMap<32>, CleanBitMap<32>>
    requires width { IsWidth N }
    requires size { HasTreeSize count digests.current }
    ensures unchanged { IfErr result (λ e. e ≡ digests) }
    ensures next { let batch = prepared.now.batch in count ≡ chunk_total N batch.current
        → Authenticates (D.digest_of hash.now) N batch.current digests.current
        → IfOk result (λ next. Authenticates (D.digest_of hash.now) N (pending_of N batch)
        next.current) }
    ensures leaves { let batch = prepared.now.batch in count ≡ chunk_total N batch.current
        → Authenticates (D.digest_of hash.now) N batch.current digests.current
        → IfOk result (λ next. leaves_in (chunk_total N (pending_of N batch)) next.current
        ≡ next_leaves (D.digest_of hash.now) N (leaves_in count digests.current)
        (pending_of N batch)) }
    ensures history { IfOk result (λ next. history_of 32 next
        ≡ history_of 32 digests ++ (prepared.now.number, next.current) ∷ []) }
    ensures last { IfOk result (λ next. next.last ≡ Some prepared.now.number) }
{
    let mut stored = digests.into_dirty();
    let Ok(()) = update_digests(hash, prepared, &mut stored, count) else {
        return Err(stored.abort());
    };
    match stored.commit(prepared.number()) {
        Ok(next) => Ok(next),
        Err((stored, _)) => Err(stored.abort()),
    }
}
