//! Deltas: what brings a replica from one kept state to a later one.
//!
//! A delta lists the chunks in which the two states differ, with their new bytes. It names the older state by its number, its length and its
//! pruned count, and by a digest of the old bytes of the listed chunks.

ghost use Rattle.std.specs.Prelude.{◌≡◌, ℕ, ◌+◌, ◌-◌, ◌^◌, ◌<◌, ◌≤◌, ◌++◌, Some, IfOk, IfErr, OnOk, MatchResult, alloc_error, length, take, drop};
ghost use Rattle.std.specs.Bool.{Decides};
ghost use Rattle.std.specs.Option.{option_map};
ghost use Rattle.log_frames.specs.Frames.{be64, number_at as number_in};
ghost use Rattle.bitmap_core.specs.PrunedBits.{PrunedBits, bit_len};
ghost use Rattle.historical_bitmap.specs.Changes.{changed};
ghost use Rattle.historical_bitmap.specs.History.{kept_under};
ghost use Rattle.historical_bitmap.specs.View.{history_of};
ghost use Rattle.commit_log.specs.Delta.{Brings, FitsDelta, IsDeltaError, IsStep, StartsAt, committed, decode_delta, delta_between, delta_of};
ghost use Rattle.commit_log.specs.Delta.{encode_delta, older_fields, view_delta};
ghost use Rattle.commit_log.specs.Accepted.{Accepts};
ghost use Rattle.commit_log.specs.Entries.{Gives};
ghost use Rattle.commit_log.specs.Entries.Entry.{Commit};
ghost use Rattle.commit_log.specs.Kept.{Kept, kept_of};
ghost use Rattle.commit_log.specs.declared.deltas.DeltaError.TheVariants.{Memory};

use crate::apply::apply_accepted;
use crate::change::push_change;
use crate::check::check_change;
use crate::digest::{digest_of, digest_of_replaced};
use crate::entry::{Change, read_change};
use crate::error::EntryError;
use bitmap_core::bitmap::Readable;
use historical_bitmap::bitmap::historical::{AtCommit, ChangedChunks, CleanBitMap};
use std::alloc::{AllocError, Global};
use thiserror::Error as ErrorDerive;

// The bytes that every delta begins with.
const MAGIC: [u8; 8] = *b"MPBDELTA";

// The version of the format.
const VERSION: u64 = 1;

/// Why a delta was not applied. If several reasons apply, the first one in the order of [`apply_delta`] is reported.
#[derive(Clone, Copy, Debug, PartialEq, Eq, ErrorDerive)]
pub enum DeltaError {
    /// There are fewer than 88 bytes, or the bytes of the chunks are not whole.
    #[error("the bytes end within a field of the delta")]
    Short,

    /// The first eight bytes are not `MPBDELTA`.
    #[error("the bytes are not a delta")]
    NotADelta,

    /// The delta has this version of the format, which is not 1.
    #[error("the delta has version {0} of the format, and not 1")]
    Version(u64),

    /// The last eight bytes are not the digest of those before them.
    #[error("the digest of the delta is not that of its bytes")]
    BadDigest,

    /// The delta has this width, which is not that of the bitmap.
    #[error("the delta has chunks of {0} bytes, which is not the width of the bitmap")]
    Width(u64),

    /// The number, the length, the pruned count or the digest of the older state is not that of the bitmap.
    #[error("the delta starts at another state")]
    NotAtBase,

    /// The bitmap does not accept the change of the delta.
    #[error("the bitmap does not accept the change of the delta")]
    Change(EntryError),

    /// An allocation failed.
    #[error("out of memory")]
    Memory(AllocError),
}

// The fields of a delta, as they are in its bytes.
#[derive(Drop)]
pub(crate) struct DeltaFields<'a> {
    // The number of the older state.
    number: u64,

    // The length of the older state in bits, pruned bits included.
    len: u64,

    // The pruned count of the older state.
    pruned: u64,

    // The digest of the bytes that the change replaces in the older state.
    replaced_digest: u64,

    // The change to the newer state.
    pub(crate) change: Change<'a>,
}

// Appends what a delta from an older state begins with. After an error, a part of it may be appended.
fn push_older<const N: usize>(
    out: &mut Vec<u8>,
    from: u64,
    older: &AtCommit<'_, N>,
) -> Result<(), AllocError>
    ensures { OnOk result (out.new.items
        ≡ out.old.items ++ older_fields N from (bit_len N older.now) older.now.pruned) }
{
    out.extend_from_slice(&MAGIC)?;
    out.extend_from_slice(&VERSION.to_be_bytes())?;
    out.extend_from_slice(&(N as u64).to_be_bytes())?;
    out.extend_from_slice(&from.to_be_bytes())?;
    out.extend_from_slice(&older.len().to_be_bytes())?;
    out.extend_from_slice(&(older.pruned_chunks() as u64).to_be_bytes())?;
    Ok(())
}

// Replaces the eight bytes from `start` on by those of a number, most significant byte first.
fn replace_number(bytes: &mut [u8], start: usize, number: u64)
    requires { start + 8 ≤ length bytes.old }
    ensures { bytes.new ≡ take start bytes.old ++ (be64 number ++ drop (start + 8) bytes.old) }
{
    bytes[start..start + 8].copy_from_slice(&number.to_be_bytes());
}

// Returns the bytes of the delta from an older state to a newer one, if these are the chunks that differ.
fn delta_bytes<const N: usize>(
    alloc: Global,
    from: u64,
    older: &AtCommit<'_, N>,
    to: u64,
    newer: &AtCommit<'_, N>,
    changes: ChangedChunks<'_, N>,
) -> Result<Vec<u8>, AllocError>
    requires { changes ≡ changed N older.now newer.now }
    ensures { IfOk result (λ bytes. bytes.items
        ≡ encode_delta N (delta_between N from older.now to newer.now)) }
{
    let _ = newer.len();
    let mut out = Vec::new(alloc);
    push_older(&mut out, from, older)?;
    // The place of the digest of the replaced bytes, which is known once the chunks are listed.
    out.extend_from_slice(&0u64.to_be_bytes())?;
    push_change(&mut out, to, newer, changes)?;
    let (_, chunks) = out.split_at(80);
    let replaced = digest_of_replaced(older, chunks);
    replace_number(&mut out, 48, replaced);
    let digest = digest_of(&out);
    out.extend_from_slice(&digest.to_be_bytes())?;
    Ok(out)
}

/// Returns the delta from the state under one number to that under another, as its encoding.
///
/// Returns `None` unless both are kept and `from` is below `to`. A replica at the older state applies it by [`apply_delta`].
///
/// # Errors
/// Returns `AllocError` if an allocation fails.
///
/// # Memory
/// Allocates the encoding: 88 bytes, and `8 + N` bytes per listed chunk. A chunk is listed if it differs and the newer state retains it.
///
/// # Complexity
/// That of `changed_chunks` and of its iterator, as `ChangedChunks` says. In addition, a read of the newer state per chunk that differs, a read of
/// the older state per listed chunk, and the digests, which are linear in the bytes of the delta.
pub fn delta<const N: usize>(
    alloc: Global,
    versions: &CleanBitMap<N>,
    from: u64,
    to: u64,
) -> Result<Option<Vec<u8>>, AllocError>
    ensures value { IfOk result (λ found. option_map (λ bytes. bytes.items) found
        ≡ delta_of N (history_of N versions.now) from to) }
    // The replica at the older state accepts it.
    ensures step { (old new : PrunedBits) → from < to
        → kept_under (history_of N versions.now) from ≡ Some old
        → kept_under (history_of N versions.now) to ≡ Some new → IsStep N from old to new }
{
    versions.pruned_counts_rise();
    if to <= from {
        return Ok(None);
    }
    let (Some(older), Some(newer), Some(changes)) = (
        versions.at(from),
        versions.at(to),
        versions.changed_chunks(from, to),
    ) else {
        return Ok(None);
    };
    let _ = older.len();
    let _ = newer.len();
    Ok(Some(delta_bytes(alloc, from, &older, to, &newer, changes)?))
}

// Returns the number in the eight bytes from `start` on, most significant byte first.
fn number_at(bytes: &[u8], start: usize) -> u64
    requires { start + 8 ≤ length bytes.now }
    ensures { result ≡ number_in start bytes.now }
{
    let (number, _) = bytes[start..].split_first_chunk::<8>().unwrap();
    u64::from_be_bytes(*number)
}

// Reads a delta, which is all of the bytes.
#[tactic(auto, using(crate::proofs::DeltaBytes::delta_steps), unfolding(crate::specs::Delta::decode_delta))]
fn read_delta<const N: usize>(bytes: &[u8]) -> Result<DeltaFields<'_>, DeltaError>
    requires { 8 + N < 2 ^ 64 }
    ensures { Gives (view_delta N) result (decode_delta N bytes.now) }
{
    if bytes.len() < 88 {
        return Err(DeltaError::Short);
    }
    if !bytes.starts_with(&MAGIC) {
        return Err(DeltaError::NotADelta);
    }
    let version = number_at(bytes, 8);
    if version != VERSION {
        return Err(DeltaError::Version(version));
    }
    let (fields, _) = bytes.split_at(bytes.len() - 8);
    if number_at(bytes, bytes.len() - 8) != digest_of(fields) {
        return Err(DeltaError::BadDigest);
    }
    let width = number_at(bytes, 16);
    if width != N as u64 {
        return Err(DeltaError::Width(width));
    }
    let (_, change) = fields.split_at(56);
    let Ok(change) = read_change::<N>(change) else {
        return Err(DeltaError::Short);
    };
    Ok(DeltaFields {
        number: number_at(bytes, 24),
        len: number_at(bytes, 32),
        pruned: number_at(bytes, 40),
        replaced_digest: number_at(bytes, 48),
        change,
    })
}

// Whether a delta starts at the current state of a bitmap.
fn starts_at<const N: usize>(bitmap: &CleanBitMap<N>, delta: &DeltaFields<'_>) -> bool
    ensures { Decides result (StartsAt N (kept_of N bitmap.now) (view_delta N delta.now)) }
{
    let current = bitmap.current();
    let Some(number) = bitmap.last_number() else {
        return false;
    };
    if number != delta.number {
        return false;
    }
    if current.len() != delta.len {
        return false;
    }
    if current.pruned_chunks() as u64 != delta.pruned {
        return false;
    }
    digest_of_replaced(current, delta.change.chunks) == delta.replaced_digest
}

// Reads a delta, which is all of the bytes. It starts at the current state of the bitmap, which accepts its change.
pub(crate) fn read_accepted<'a, const N: usize>(
    bitmap: &CleanBitMap<N>,
    bytes: &'a [u8],
) -> Result<DeltaFields<'a>, DeltaError>
    ensures fits { IfOk result (λ d. FitsDelta N (view_delta N d)) }
    ensures encoded { IfOk result (λ d. bytes.now ≡ encode_delta N (view_delta N d)) }
    ensures starts { IfOk result (λ d. StartsAt N (kept_of N bitmap.now) (view_delta N d)) }
    ensures accepted { IfOk result (λ d. Accepts N (kept_of N bitmap.now)
        (Commit (view_delta N d).change)) }
    ensures error { IfErr result (λ e. IsDeltaError N (kept_of N bitmap.now) bytes.now e) }
{
    let _ = bitmap.len();
    let delta = match read_delta::<N>(bytes) {
        Ok(delta) => delta,
        Err(error) => return Err(error),
    };
    if !starts_at(bitmap, &delta) {
        return Err(DeltaError::NotAtBase);
    }
    match check_change(bitmap, &delta.change) {
        Ok(()) => Ok(delta),
        Err(error) => Err(DeltaError::Change(error)),
    }
}

/// Applies a delta, which is all of the bytes, as the next commit of a replica.
///
/// The replica need not keep its current state, but its last number, its length, its pruned count and the digest of its own bytes of the listed
/// chunks have to be those of the older state. So bits in chunks that are not listed are not compared, and bits in listed chunks only by their
/// digest: a replica that differs there is found unless the digests collide.
///
/// # Errors
/// Returns the bitmap, unchanged, with the first of these errors that applies:
///
/// | Error | When |
/// |---|---|
/// | `Short` | there are fewer than 88 bytes |
/// | `NotADelta` | the first eight bytes are not `MPBDELTA` |
/// | `Version` | the version is not 1 |
/// | `BadDigest` | the last eight bytes are not the digest of those before them |
/// | `Width` | the width is not `N` |
/// | `Short` | the number of bytes less 88 is no multiple of `8 + N` |
/// | `NotAtBase` | the number, length, pruned count or digest of the older state is not that of the replica |
/// | `Change` | the error of `check_change`: `Number`, `Length` or `Chunks` |
/// | `Memory` | an allocation fails |
///
/// # Memory
/// Does not allocate before the delta is accepted. Then it allocates what `apply_change` does: at most 8 bytes per byte of the delta, and 64 bytes
/// per chunk that the delta lists, cuts off or prunes, beside a few kilobytes. The bytes of a chunk that is cut off or pruned count as bytes of the
/// delta. This is measured and not proved, because contracts do not speak of the sizes of allocations.
///
/// # Complexity
/// Linear in the bytes, and then that of `apply_change`.
pub fn apply_delta<const N: usize>(
    bitmap: CleanBitMap<N>,
    bytes: &[u8],
) -> Result<CleanBitMap<N>, (CleanBitMap<N>, DeltaError)>
    ensures entry { IfOk result (λ b. Brings N bytes.now (kept_of N bitmap.entry) (kept_of N b)) }
    ensures error { IfErr result (λ e. IsDeltaError N (kept_of N bitmap.entry) bytes.now e.1) }
    ensures unchanged { IfErr result (λ e. e.0 ≡ bitmap.entry) }
    // What brings the bitmap to another state is refused by nothing but out of memory.
    ensures complete { (t : Kept) → Brings N bytes.now (kept_of N bitmap.entry) t
        → IfErr result (λ e. e.1 ≡ Memory alloc_error) }
    // At the older state, the delta to a newer one commits that one under its number.
    ensures newer { (from to : ℕ) (new : PrunedBits) → IsStep N from bitmap.entry.current to new
        → bitmap.entry.last ≡ Some from
        → bytes.now ≡ encode_delta N (delta_between N from bitmap.entry.current to new)
        → MatchResult result (λ b. kept_of N b ≡ committed (kept_of N bitmap.entry) to new)
        (λ e. e.1 ≡ Memory alloc_error) }
{
    let _ = bitmap.len();
    let delta = match read_accepted(&bitmap, bytes) {
        Ok(delta) => delta,
        Err(error) => return Err((bitmap, error)),
    };
    match apply_accepted(bitmap, &delta.change) {
        Ok(bitmap) => Ok(bitmap),
        Err((bitmap, error)) => Err((bitmap, DeltaError::Memory(error))),
    }
}
