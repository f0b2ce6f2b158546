//! A delta that is applied with its entry: the commit that it makes is appended to a log, or neither is done.

ghost use Rattle.std.specs.Prelude.{◌≡◌, ℕ, ◌^◌, ◌<◌, ◌≤◌, Some, IfOk, IfErr, OnErr, OnOk, MatchResult, alloc_error, length, drop};
ghost use Rattle.bitmap_core.specs.PrunedBits.{PrunedBits};
ghost use Rattle.commit_log.specs.Accepted.{Accepts};
ghost use Rattle.commit_log.specs.Delta.{Brings, IsDeltaError, IsStep, before_digest, committed, delta_between, encode_delta};
ghost use Rattle.commit_log.specs.Entries.{encode_change, encode_entry, view_change};
ghost use Rattle.commit_log.specs.Entries.Entry.{Commit};
ghost use Rattle.commit_log.specs.Kept.{Kept, after, entry_to, kept_of};
ghost use Rattle.commit_log.specs.Logs.{MayFollow, appended};
ghost use Rattle.commit_log.specs.declared.deltas.DeltaError.TheVariants.{Memory};

use crate::apply::apply_accepted;
use crate::deltas::{DeltaError, read_accepted};
use crate::entry::Change;
use crate::log::Log;
use historical_bitmap::bitmap::historical::CleanBitMap;
use std::alloc::AllocError;

// Returns the bytes of the change of a delta: those before its last digest, from byte 56 on.
fn change_bytes(bytes: &[u8]) -> &[u8]
    requires { 88 ≤ length bytes.now }
    ensures { result.now ≡ drop 56 (before_digest bytes.now) }
{
    let (fields, _) = bytes.split_at(bytes.len() - 8);
    let (_, change) = fields.split_at(56);
    change
}

// Applies a change that the bitmap accepts, and appends its entry. The change has this encoding.
#[tactic(auto, unfolding(crate::specs::Entries::encode_entry))]
fn apply_accepted_logged<const N: usize>(
    bitmap: CleanBitMap<N>,
    change: &Change<'_>,
    encoded: &[u8],
    log: &mut Log<N>,
) -> Result<CleanBitMap<N>, (CleanBitMap<N>, AllocError)>
    requires accepted { Accepts N (kept_of N bitmap) (Commit (view_change N change.now)) }
    requires encoding { encoded.now ≡ encode_change (view_change N change.now) }
    ensures written { OnOk result (log.new
        ≡ appended log.old (Commit (view_change N change.now))) }
    ensures small { OnOk result (length
        (encode_entry (Commit (view_change N change.now))) < 2 ^ 64) }
    ensures entry { IfOk result (λ b. kept_of N b
        ≡ after N (kept_of N bitmap.entry) (Commit (view_change N change.now))) }
    ensures nothing { OnErr result (log.new ≡ log.old) }
    ensures unchanged { IfErr result (λ e. e.0 ≡ bitmap.entry) }
{
    let len = log.bytes().len();
    let place = log.place();
    let Ok(()) = log.push_encoded_change(encoded) else {
        return Err((bitmap, AllocError));
    };
    match apply_accepted(bitmap, change) {
        Ok(bitmap) => Ok(bitmap),
        Err(refused) => {
            log.cut_back(len, place);
            Err(refused)
        }
    }
}

/// Applies a delta, which is all of the bytes, as [`apply_delta`](crate::apply_delta) does, and appends the entry of its commit to the log.
///
/// The entry is the one that [`commit_logged`](crate::commit_logged) appends for a batch that makes the same bitmap under the same number.
///
/// # Errors
/// Returns the bitmap, unchanged, with the error of [`apply_delta`](crate::apply_delta). The error is also `Memory` if the bitmap accepts the delta
/// and the log would have 2^64 bytes or more. The log is unchanged then.
///
/// # Memory
/// As [`apply_delta`](crate::apply_delta). Also allocates for the entry if the log has no capacity for it: as many bytes as the delta has at most.
/// Does not allocate before the delta is accepted.
///
/// # Complexity
/// As [`apply_delta`](crate::apply_delta). The entry is linear in the bytes of the delta. Amortized, if it allocates.
pub fn apply_delta_logged<const N: usize>(
    bitmap: CleanBitMap<N>,
    bytes: &[u8],
    log: &mut Log<N>,
) -> Result<CleanBitMap<N>, (CleanBitMap<N>, DeltaError)>
    ensures written { IfOk result (λ b. log.new
        ≡ appended log.old (entry_to N (kept_of N bitmap.entry) (kept_of N b))) }
    ensures follows { IfOk result (λ b. MayFollow N (kept_of N bitmap.entry)
        (entry_to N (kept_of N bitmap.entry) (kept_of N b))) }
    ensures entry { IfOk result (λ b. kept_of N b
        ≡ after N (kept_of N bitmap.entry) (entry_to N (kept_of N bitmap.entry) (kept_of N b))) }

    // As for `apply_delta`.
    ensures brings { IfOk result (λ b.
        Brings N bytes.now (kept_of N bitmap.entry) (kept_of N b)) }
    ensures error { IfErr result (λ e. IsDeltaError N (kept_of N bitmap.entry) bytes.now e.1) }
    ensures nothing { OnErr result (log.new ≡ log.old) }
    ensures unchanged { IfErr result (λ e. e.0 ≡ bitmap.entry) }
    ensures complete { (t : Kept) → Brings N bytes.now (kept_of N bitmap.entry) t
        → IfErr result (λ e. e.1 ≡ Memory alloc_error) }
    ensures newer { (from to : ℕ) (new : PrunedBits) → IsStep N from bitmap.entry.current to new
        → bitmap.entry.last ≡ Some from
        → bytes.now ≡ encode_delta N (delta_between N from bitmap.entry.current to new)
        → MatchResult result (λ b. kept_of N b ≡ committed (kept_of N bitmap.entry) to new)
        (λ e. e.1 ≡ Memory alloc_error) }
{
    let _ = bitmap.len();
    let delta = match read_accepted(&bitmap, bytes) {
        Ok(delta) => delta,
        Err(error) => return Err((bitmap, error)),
    };
    match apply_accepted_logged(bitmap, &delta.change, change_bytes(bytes), log) {
        Ok(bitmap) => Ok(bitmap),
        Err((bitmap, error)) => Err((bitmap, DeltaError::Memory(error))),
    }
}
