//! A log that is read back from what a crash has left of it.

ghost use Rattle.std.specs.Prelude.{◌≡◌, ◌⊎◌, ℕ, ◌≤◌, ◌++◌, List, false, length, IfErr, IfOk, alloc_error};
ghost use Rattle.bitmap_bytes.specs.Chunk.{IsWidth};
ghost use Rattle.commit_log.specs.Base.{Base};
ghost use Rattle.commit_log.specs.Entries.{Entry};
ghost use Rattle.commit_log.specs.Kept.{kept_of};
ghost use Rattle.commit_log.specs.Logs.{IsLog, log_bytes, place_of, state_of};
ghost use Rattle.commit_log.specs.Recovered.{HasFirstFrame, IsRecoverError, Recovers};
ghost use Rattle.commit_log.specs.declared.recovery.RecoverError.TheVariants.{Memory};
ghost use Rattle.log_store.specs.Gate.{IsUnfinished};
ghost use Rattle.log_store.specs.Opened.{ReadsUpTo};

use crate::unfinished::before_gate;
use commit_log::{Log, RecoverError, recover};
use historical_bitmap::bitmap::historical::CleanBitMap;
use log_frames::Place;
use std::alloc::Global;

// Returns the place after a log.
pub(crate) fn place_after<const N: usize>(log: &Log<N>) -> Place
    ensures { result ≡ log.now.place }
{
    Place {
        at: log.position(),
        digest: log.digest(),
    }
}

// Returns the second error if an allocation failed, and the first one otherwise.
fn memory_or(second: RecoverError, first: RecoverError) -> RecoverError
    ensures memory { second ≡ Memory alloc_error → result ≡ Memory alloc_error }
    ensures either { (result ≡ first)
        ⊎ ((result ≡ Memory alloc_error) × (second ≡ Memory alloc_error)) }
{
    match second {
        RecoverError::Memory(error) => RecoverError::Memory(error),
        _ => first,
    }
}

// Reads a log of which all frames are whole. If it is not one, returns the given error.
fn recover_whole<const N: usize>(
    alloc: Global,
    bytes: &[u8],
    error: RecoverError,
) -> Result<(CleanBitMap<N>, Place), RecoverError>
    requires { IsWidth N }
    ensures state { IfOk result (λ found. Recovers N bytes.now (kept_of N found.0) found.1 false) }
    ensures cause { IfErr result (λ e. (e ≡ error)
        ⊎ ((e ≡ Memory alloc_error) × HasFirstFrame N bytes.now)) }
    ensures log { (base : Base) (entries : List Entry) → IsLog N base entries
        → bytes.now ≡ log_bytes N base entries → IfOk result (λ found.
        (kept_of N found.0 ≡ state_of N base entries) × (found.1 ≡ place_of N base entries)) }
    ensures complete { (base : Base) (entries : List Entry) → IsLog N base entries
        → bytes.now ≡ log_bytes N base entries → IfErr result (λ e. e ≡ Memory alloc_error) }
{
    match recover::<N>(alloc, bytes) {
        Ok(found) => {
            if found.torn {
                return Err(error);
            }
            Ok((found.bitmap, place_after(&found.log)))
        }
        Err(second) => Err(memory_or(second, error)),
    }
}

// Reads a log up to a frame that is not finished, if there is one.
pub(crate) fn recover_left<const N: usize>(
    alloc: Global,
    bytes: &[u8],
) -> Result<(CleanBitMap<N>, Place), RecoverError>
    requires { IsWidth N }
    ensures state { IfOk result (λ found. ReadsUpTo N bytes.now (kept_of N found.0) found.1) }
    ensures good { IfOk result (λ found. found.1.at ≤ length bytes.now) }
    ensures cause { IfErr result (IsRecoverError N bytes.now) }
    ensures left { (base : Base) (entries : List Entry) (rest : List ℕ) → IsLog N base entries
        → bytes.now ≡ log_bytes N base entries ++ rest → IsUnfinished (place_of N base entries) rest
        → IfOk result (λ found. (kept_of N found.0 ≡ state_of N base entries)
        × (found.1 ≡ place_of N base entries)) }
    ensures complete { (base : Base) (entries : List Entry) (rest : List ℕ) → IsLog N base entries
        → bytes.now ≡ log_bytes N base entries ++ rest → IsUnfinished (place_of N base entries) rest
        → IfErr result (λ e. e ≡ Memory alloc_error) }
{
    let error = match recover::<N>(alloc, bytes) {
        Ok(found) => return Ok((found.bitmap, place_after(&found.log))),
        Err(error) => error,
    };
    match before_gate(bytes, N as u64) {
        Some(good) => recover_whole(alloc, good, error),
        None => Err(error),
    }
}
