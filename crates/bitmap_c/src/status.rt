//! The statuses that the functions return. The declarations in C, Rust and Python have their numbers from here.

ghost use Rattle.std.specs.Prelude.{◌≡◌, ◌<◌};
ghost use Rattle.bitmap_session.specs.Abstraction.{reason};
ghost use Rattle.bitmap_c.specs.Statuses.{apply_status, base_status, damage_status, delta_status, edit_refusal_status, header_status, history_status, recover_status, refusal_status};

use bitmap_core::bitmap::codec::CodecError;
use bitmap_session::reply::Refusal;
use bitmap_session::session::ApplyDeltaError;
use commit_log::{BaseError, Damage, DeltaError, HistoryError, RecoverError};
use log_frames::HeaderError;

/// The call succeeded.
pub const DONE: u32 = 0;

/// There is a batch, and the call needs that there is none.
pub const IN_BATCH: u32 = 1;

/// The position is at or past the length; for a prune, past it.
pub const OUT_OF_BOUNDS: u32 = 2;

/// The position is pruned.
pub const PRUNED: u32 = 3;

/// The length in bits would pass 2^64 - 1.
pub const TOO_LONG: u32 = 4;

/// There is no retained bit to pop.
pub const NO_RETAINED_BIT: u32 = 5;

/// The commit number is 2^64 - 1.
pub const RESERVED_COMMIT_NUMBER: u32 = 6;

/// The commit number is not above the last one.
pub const NON_MONOTONIC_COMMIT: u32 = 7;

/// The number of pruned bits would pass 2^64 - 1.
pub const PRUNED_CHUNKS_OVERFLOW: u32 = 8;

/// The bytes end before the encoding does.
pub const END_OF_BUFFER: u32 = 9;

/// The encoded number of retained bits is out of range.
pub const INVALID_LENGTH: u32 = 10;

/// The bytes are not an encoding.
pub const INVALID: u32 = 11;

/// No commit is kept under the number.
pub const NO_SUCH_COMMIT: u32 = 12;

/// An allocation failed.
pub const NO_MEMORY: u32 = 13;

/// There is nothing to return.
pub const NONE: u32 = 14;

/// The handle is empty.
pub const EMPTY_HANDLE: u32 = 15;

/// The handle is not empty.
pub const FULL_HANDLE: u32 = 16;

/// The width is not 1, 8, 32 or 64 bytes.
pub const NO_SUCH_WIDTH: u32 = 17;

/// The buffer has the wrong size.
pub const WRONG_SIZE: u32 = 18;

/// The bytes do not begin as a history, a log or a delta of this width does.
pub const WRONG_HEADER: u32 = 19;

/// The bytes end before the history, the delta or the first bitmap of the log does.
pub const CUT_OFF: u32 = 20;

/// A digest is not that of the bytes before it.
pub const DAMAGED: u32 = 21;

/// A part of the bytes is no bitmap, or no commit or other entry that can follow.
pub const NOT_ACCEPTED: u32 = 22;

/// A number of retained bits or of commits is out of range.
pub const OUT_OF_RANGE: u32 = 23;

/// The delta does not start at the current bitmap.
pub const NOT_AT_BASE: u32 = 24;

/// The bitmap keeps a log.
pub const HAS_LOG: u32 = 25;

/// The bitmap keeps no log.
pub const NO_LOG: u32 = 26;

/// There is no batch, and the call needs one.
pub const NOT_IN_BATCH: u32 = 27;

/// The proof does not verify against the root, or it is of another chunk.
pub const NOT_VERIFIED: u32 = 28;

/// Returns the status of a decode error.
pub fn codec_status(error: &CodecError) -> u32
    ensures { result ≡ refusal_status (reason (Refusal.Codec error.now)) }
{
    match error {
        CodecError::EndOfBuffer => END_OF_BUFFER,
        CodecError::InvalidLength(_) => INVALID_LENGTH,
        _ => INVALID,
    }
}

/// Returns the status of a refusal of a call that needs that there is no batch.
pub fn refusal_status(refusal: &Refusal) -> u32
    ensures { result ≡ refusal_status (reason refusal.now) }
{
    match refusal {
        Refusal::WrongMode => IN_BATCH,
        Refusal::OutOfBounds => OUT_OF_BOUNDS,
        Refusal::Pruned => PRUNED,
        Refusal::TooLong => TOO_LONG,
        Refusal::NoRetainedBit => NO_RETAINED_BIT,
        Refusal::ReservedCommitNumber => RESERVED_COMMIT_NUMBER,
        Refusal::NonMonotonicCommit { .. } => NON_MONOTONIC_COMMIT,
        Refusal::PrunedChunksOverflow => PRUNED_CHUNKS_OVERFLOW,
        Refusal::Codec(error) => codec_status(error),
        Refusal::NoSuchCommit => NO_SUCH_COMMIT,
        Refusal::NoMemory => NO_MEMORY,
    }
}

/// Returns the status of a refusal of a call that needs a batch.
pub fn edit_refusal_status(refusal: &Refusal) -> u32
    ensures { result ≡ edit_refusal_status (reason refusal.now) }
{
    match refusal {
        Refusal::WrongMode => NOT_IN_BATCH,
        _ => refusal_status(refusal),
    }
}

// Returns the status of an error of a header.
fn header_status(error: &HeaderError) -> u32
    ensures { result ≡ header_status error.now }
{
    match error {
        HeaderError::Short => CUT_OFF,
        _ => WRONG_HEADER,
    }
}

// Returns the status of an error of a base, which is in a whole frame.
fn base_status(error: &BaseError) -> u32
    ensures { result ≡ base_status error.now }
{
    match error {
        BaseError::State(CodecError::InvalidLength(_)) => OUT_OF_RANGE,
        BaseError::Memory(_) => NO_MEMORY,
        _ => NOT_ACCEPTED,
    }
}

/// Returns the status of an error of bytes that are loaded as a history.
pub fn history_status(error: &HistoryError) -> u32
    ensures { result ≡ history_status error.now }
{
    match error {
        HistoryError::Header(error) => header_status(error),
        HistoryError::Short => CUT_OFF,
        HistoryError::BadHead | HistoryError::BadDigest => DAMAGED,
        HistoryError::Base(error) => base_status(error),
        HistoryError::Entry(_) => NOT_ACCEPTED,
        HistoryError::Count(_) | HistoryError::Bits(_) => OUT_OF_RANGE,
        HistoryError::Memory(_) => NO_MEMORY,
    }
}

// Returns the status of the damage of a log.
fn damage_status(damage: &Damage) -> u32
    ensures { result ≡ damage_status damage.now }
{
    match damage {
        Damage::Head | Damage::Digest => DAMAGED,
        Damage::Base(_) | Damage::Entry(_) => NOT_ACCEPTED,
    }
}

/// Returns the status of an error of bytes that are recovered as a log.
pub fn recover_status(error: &RecoverError) -> u32
    ensures { result ≡ recover_status error.now }
{
    match error {
        RecoverError::Header(error) => header_status(error),
        RecoverError::NoBase => CUT_OFF,
        RecoverError::Damaged { damage, .. } => damage_status(damage),
        RecoverError::Memory(_) => NO_MEMORY,
    }
}

// Returns the status of an error of a delta.
fn delta_status(error: &DeltaError) -> u32
    ensures status { result ≡ delta_status error.now }
    ensures error { 0 < result }
{
    match error {
        DeltaError::Short => CUT_OFF,
        DeltaError::NotADelta | DeltaError::Version(_) | DeltaError::Width(_) => WRONG_HEADER,
        DeltaError::BadDigest => DAMAGED,
        DeltaError::NotAtBase => NOT_AT_BASE,
        DeltaError::Change(_) => NOT_ACCEPTED,
        DeltaError::Memory(_) => NO_MEMORY,
    }
}

/// Returns the status of an error of a session that does not apply a delta.
pub fn apply_status(error: &ApplyDeltaError) -> u32
    ensures status { result ≡ apply_status error.now }
    ensures error { 0 < result }
{
    match error {
        ApplyDeltaError::InBatch => IN_BATCH,
        ApplyDeltaError::Delta(error) => delta_status(error),
    }
}
