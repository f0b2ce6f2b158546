//! A history that is read back from its bytes.

ghost use Rattle.std.specs.Prelude.{◌≡◌, ◌≢◌, ◌⊎◌, ℕ, ◌+◌, ◌^◌, ◌<◌, ◌≤◌, ◌++◌, List, length, take, IfOk, IfErr, IsErrOf, OnErr, alloc_error};
ghost use Rattle.bitmap_bytes.specs.Chunk.{IsWidth};
ghost use Rattle.bitmap_core.specs.Decoding.{admits};
ghost use Rattle.commit_log.specs.Entries.{Gives, view_change};
ghost use Rattle.commit_log.specs.History.{HasLog, IsHistory, history_bytes};
ghost use Rattle.commit_log.specs.Kept.{Kept, kept_of};
ghost use Rattle.commit_log.specs.Reading.{BeginsWithHistory, CommitsNext, IsCutOff, IsHistoryError, IsNextError, IsWithin, ReadsPart, decode_commit, ranges, stop_error};
ghost use Rattle.commit_log.specs.declared.base.BaseError.TheVariants.{Memory as BaseMemory};
ghost use Rattle.commit_log.specs.declared.reading.HistoryError.TheVariants.{Base as BadBase, Header, Memory};
ghost use Rattle.log_frames.specs.declared.header.HeaderError.TheVariants.{Short as HeaderShort};

use crate::apply::apply_accepted;
use crate::base::{BaseError, count, from_base, read_base_within};
use crate::check::check_change;
use crate::entry::{COMMIT, Change, DecodeError, read_change};
use crate::error::EntryError;
use bitmap_core::bitmap::codec::RangeCfg;
use bitmap_core::chunk::chunk_width;
use historical_bitmap::bitmap::historical::CleanBitMap;
use log_frames::{HeaderError, Place, Stop, next_frame, read_header};
use std::alloc::{AllocError, Global};
use thiserror::Error as ErrorDerive;

/// Why bytes were not read as a history.
#[derive(Debug, Drop, ErrorDerive)]
pub enum HistoryError {
    /// The bytes do not begin with the header of a history of this width.
    #[error("the bytes do not begin with the header of a history of this width")]
    Header(HeaderError),

    /// The bytes end before the history does: within a frame, or before a commit that the base counts.
    #[error("the bytes end before the history does")]
    Short,

    /// The head of a frame is not one that was written there.
    #[error("the head of a frame is damaged")]
    BadHead,

    /// The digest of a frame is not that of its body and of the bytes before it.
    #[error("the digest of a frame is not that of its body")]
    BadDigest,

    /// The first frame is whole. Its body has this error as a base, which is not `Memory`.
    #[error("the first frame has no base: {0}")]
    Base(BaseError),

    /// The base counts this number of commits, which is not admitted.
    #[error("the history has {0} commits, which are not admitted")]
    Count(u64),

    /// A frame is whole, and its body has this error as the next commit.
    #[error("a frame has no commit that the bitmap accepts")]
    Entry(EntryError),

    /// After a commit this number of bits is retained, which is not admitted.
    #[error("a commit leaves {0} retained bits, which are not admitted")]
    Bits(u64),

    /// An allocation failed.
    #[error("out of memory")]
    Memory(AllocError),
}

impl From<AllocError> for HistoryError {
    ghost use Rattle.std.specs.Prelude.{◌≡◌};
    ghost use Rattle.commit_log.specs.declared.reading.HistoryError.TheVariants.{Memory};

    ghost from_gives = { λ e r. r ≡ Memory e };

    fn from(error: AllocError) -> HistoryError {
        HistoryError::Memory(error)
    }
}

// Returns the error of a frame that is not whole.
fn frame_error(stop: Stop) -> HistoryError
    ensures { result ≡ stop_error stop }
{
    match stop {
        Stop::Torn => HistoryError::Short,
        Stop::BadHead => HistoryError::BadHead,
        Stop::BadDigest => HistoryError::BadDigest,
    }
}

// Returns the error of a history whose base was not read.
fn base_error(error: BaseError) -> HistoryError
    ensures { (result ≡ Memory alloc_error) × (error ≡ BaseMemory alloc_error)
        ⊎ (result ≡ BadBase error) × (error ≢ BaseMemory alloc_error) }
{
    match error {
        BaseError::Memory(error) => HistoryError::Memory(error),
        other => HistoryError::Base(other),
    }
}

// Reads a commit, which is all of the bytes, and returns its change.
#[tactic(auto, unfolding(crate::specs::Reading::decode_commit))]
fn read_commit<const N: usize>(body: &[u8]) -> Result<Change<'_>, DecodeError>
    requires { 8 + N < 2 ^ 64 }
    ensures { Gives (view_change N) result (decode_commit N body.now) }
{
    match body {
        [COMMIT, rest @ ..] => read_change::<N>(rest),
        _ => Err(DecodeError::Kind),
    }
}

// Applies the commit that a body encodes, if the range admits the number of bits that are retained after it.
fn apply_commit<const N: usize>(
    bitmap: CleanBitMap<N>,
    body: &[u8],
    bits: &RangeCfg,
) -> Result<CleanBitMap<N>, HistoryError>
    requires { IsWidth N }
    ensures made { IfOk result (λ b.
        CommitsNext N (admits bits.now) (kept_of N bitmap.entry) body.now (kept_of N b)) }
    ensures error { IfErr result
        (IsNextError N (admits bits.now) (kept_of N bitmap.entry) body.now) }
{
    let change = match read_commit::<N>(body) {
        Ok(change) => change,
        Err(error) => return Err(HistoryError::Entry(EntryError::Decode(error))),
    };
    match check_change(&bitmap, &change) {
        Ok(()) => {}
        Err(error) => return Err(HistoryError::Entry(error)),
    }
    let retained = change.len - chunk_width::<N>() * change.pruned;
    if !bits.contains(retained) {
        return Err(HistoryError::Bits(retained));
    }
    match apply_accepted(bitmap, &change) {
        Ok(bitmap) => Ok(bitmap),
        Err((_, error)) => Err(HistoryError::Memory(error)),
    }
}

// Reads the header and the base. Returns the bitmap that the base is, the number of commits that follow it, the place after it, and the bytes
// from there on.
fn read_start<'a, const N: usize>(
    alloc: Global,
    bytes: &'a [u8],
    bits: &RangeCfg,
    commits: &RangeCfg,
) -> Result<(CleanBitMap<N>, u64, Place, &'a [u8]), HistoryError>
    requires { IsWidth N }
    ensures part { IfOk result (λ found. ReadsPart N (ranges bits.now commits.now) bytes.now
        (kept_of N found.0) found.2 found.1 found.3.now) }
    ensures end { IfOk result (λ found. found.2.at + length found.3.now ≡ length bytes.now) }
    ensures error { IfErr result (IsHistoryError N (ranges bits.now commits.now) bytes.now) }
{
    let (first, frames) = match read_header(bytes, N as u64) {
        Ok(found) => found,
        Err(error) => return Err(HistoryError::Header(error)),
    };
    let frame = match next_frame(first, frames) {
        Ok(frame) => frame,
        Err(stop) => return Err(frame_error(stop)),
    };
    let (state, past) = match read_base_within::<N>(alloc, frame.body, bits) {
        Ok(base) => base,
        Err(error) => return Err(base_error(error)),
    };
    let count = count(past);
    if !commits.contains(count) {
        return Err(HistoryError::Count(count));
    }
    let bitmap = from_base(alloc, state, past)?;
    Ok((bitmap, count, frame.next, frame.rest))
}

// Reads a history, and returns the bitmap with the bytes after it.
fn read_all<'a, const N: usize>(
    alloc: Global,
    bytes: &'a [u8],
    bits: &RangeCfg,
    commits: &RangeCfg,
) -> Result<(CleanBitMap<N>, &'a [u8]), HistoryError>
    requires { IsWidth N }
    ensures history { IfOk result (λ found. BeginsWithHistory N (ranges bits.now commits.now)
        bytes.now (kept_of N found.0) found.1.now) }
    ensures error { IfErr result (IsHistoryError N (ranges bits.now commits.now) bytes.now) }
{
    let (mut bitmap, mut left, mut place, mut rest) = read_start::<N>(alloc, bytes, bits, commits)?;
    while left > 0 {
        let frame = match next_frame(place, rest) {
            Ok(frame) => frame,
            Err(stop) => return Err(frame_error(stop)),
        };
        bitmap = apply_commit(bitmap, frame.body, bits)?;
        place = frame.next;
        rest = frame.rest;
        left -= 1;
    }
    Ok((bitmap, rest))
}

/// Reads the history that the bytes begin with, and advances `from` past it. `N` is at least 1, and `8N` fits `u64`.
///
/// The bytes are those that `write_history` appends for the bitmap that is returned, and then any others. `bits` limits the number of retained bits of the current
/// state and of each kept state, and `commits` the number of commits: that of the kept states after the first one, or 0 if no state is kept.
///
/// # Errors
/// Returns the first of these errors from the first byte on. `from` is then unchanged.
///
/// 1. `Header`: the bytes do not begin with the header of a history of this width.
/// 2. `Short`, `BadHead` or `BadDigest`: there is no whole frame after the header.
/// 3. `Base`: its body has this error as a base. If `bits` does not admit the number of retained bits, the error of the state is `InvalidLength`.
/// 4. `Count`: `commits` does not admit the number of commits.
/// 5. `Short`, `BadHead` or `BadDigest`: a commit is left, and there is no whole frame for it.
/// 6. `Entry`: the frame has no commit that the bitmap accepts after those before it. If it has another entry, the error is `Decode(Kind)`.
/// 7. `Bits`: `bits` does not admit the number of bits that are retained after the commit.
///
/// If an allocation fails, the error is `Memory`, and what comes later in the bytes is not looked at.
///
/// # Memory
/// Allocates at most 8 bytes per byte that is read and 64 bytes per chunk in these bytes, in the base or in the list of a commit, beside a few
/// kilobytes. So it is at most `8 + 64/N` bytes per byte that is read. This holds also if an error is returned. It is measured and not proved,
/// because contracts do not speak of the sizes of allocations. A commit whose number of retained bits is not admitted is not applied.
///
/// # Complexity
/// Linear in the bytes of the history, and in what the commits take in the bitmap: `apply_change` says what this is.
pub fn read_history<const N: usize>(
    alloc: Global,
    from: &mut &[u8],
    bits: &RangeCfg,
    commits: &RangeCfg,
) -> Result<CleanBitMap<N>, HistoryError>
    requires { IsWidth N }
    // What is read has exactly this encoding.
    ensures value { IfOk result (λ b.
        from.old.now ≡ history_bytes N (kept_of N b) ++ from.new.now) }
    ensures ends { IfOk result (λ b. IsHistory (kept_of N b)) }
    ensures admitted { IfOk result (λ b. IsWithin (ranges bits.now commits.now) (kept_of N b)) }
    ensures unchanged { OnErr result (from.new ≡ from.old) }

    // From the history of a state, this state is read, and nothing after it.
    ensures again { (s : Kept) (rest : List ℕ) → HasLog N s → IsHistory s
        → from.old.now ≡ history_bytes N s ++ rest
        → IfOk result (λ b. (kept_of N b ≡ s) × (from.new.now ≡ rest)) }
    // An admitted history is read from its bytes, unless an allocation fails.
    ensures complete { (s : Kept) (rest : List ℕ) → HasLog N s
        → IsWithin (ranges bits.now commits.now) s → from.old.now ≡ history_bytes N s ++ rest
        → IfErr result (λ e. e ≡ Memory alloc_error) }

    // One that is cut off lacks bytes of its header, or of a frame.
    ensures header { length from.old.now < 32 → IsErrOf result (Header HeaderShort) }
    ensures cut { (s : Kept) (m : ℕ) → HasLog N s → IsWithin (ranges bits.now commits.now) s
        → 32 ≤ m → m < length (history_bytes N s) → from.old.now ≡ take m (history_bytes N s)
        → IsCutOff result }

    // Which error it is, and why.
    ensures error { IfErr result (IsHistoryError N (ranges bits.now commits.now) from.old.now) }
{
    let (bitmap, rest) = read_all::<N>(alloc, *from, bits, commits)?;
    *from = rest;
    Ok(bitmap)
}
