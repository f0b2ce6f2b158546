//! The history of a bitmap as bytes: a compacted log, with its kept states and no other entries.

ghost use Rattle.std.specs.Prelude.{◌≡◌, ◌^◌, ◌<◌, ◌++◌, map, take, length, is_ok, IfOk, IfSome, OnOk, if◌then◌else◌, slice_get};
ghost use Rattle.std.specs.List.{AllByRecursion};
ghost use Rattle.bitmap_core.specs.PrunedBits.{bit_len};
ghost use Rattle.historical_bitmap.specs.View.{history_of};
ghost use Rattle.log_frames.specs.Frames.{frames, place_after};
ghost use Rattle.commit_log.specs.Base.{encode_base};
ghost use Rattle.commit_log.specs.Entries.{encode_entry};
ghost use Rattle.commit_log.specs.History.{HasLog, IsHistory, history_base, history_bytes, history_entries, history_place};
ghost use Rattle.commit_log.specs.History.{past_without as known_without};
ghost use Rattle.commit_log.specs.Kept.{kept_of};

use crate::base::{Past, base_bytes};
use crate::change::push_commit;
use crate::log::Log;
use historical_bitmap::bitmap::historical::CleanBitMap;
use log_frames::{Place, push_frame, push_header};
use std::alloc::{AllocError, Global};

// Returns what is known of the commits of a bitmap that keeps none.
fn past_without(last: Option<u64>) -> Past
    ensures { result ≡ known_without last }
{
    match last {
        Some(number) => Past::Dropped(number),
        None => Past::NoCommit,
    }
}

// Returns the encoding of the base of a history.
fn history_base_bytes<const N: usize>(
    alloc: Global,
    bitmap: &CleanBitMap<N>,
) -> Result<Vec<u8>, AllocError>
    ensures bytes { IfOk result (λ bytes. bytes.items
        ≡ encode_base N (history_base (kept_of N bitmap.now))) }
    ensures first_len { OnOk result (IfSome (slice_get (history_of N bitmap.now) 0)
        (λ first. bit_len N first.1 < 2 ^ 64)) }
{
    let mut numbers = bitmap.commits();
    let Some(number) = numbers.next() else {
        return base_bytes(alloc, bitmap.current(), past_without(bitmap.last_number()));
    };
    let count = numbers.count() as u64;
    let first = bitmap.get_at_commit(number)?.unwrap();
    // The prover learns from this call that the length fits 64 bits.
    let _ = first.len();
    base_bytes(alloc, &first, Past::KeptUnder { number, count })
}

// Appends a frame for each commit of a history, the first one at a place, and returns the place after them.
fn push_commits<const N: usize>(
    out: &mut Vec<u8>,
    bitmap: &CleanBitMap<N>,
    place: Place,
) -> Result<Place, AllocError>
    requires { IfSome (slice_get (history_of N bitmap.now) 0)
        (λ first. bit_len N first.1 < 2 ^ 64) }
    ensures bytes { OnOk result (out.new.items ≡ out.old.items
        ++ frames place (map encode_entry (history_entries N (kept_of N bitmap.now)))) }
    ensures after { IfOk result (λ after. after
        ≡ place_after place (map encode_entry (history_entries N (kept_of N bitmap.now)))) }
    ensures begins { take (length out.old.items) out.new.items ≡ out.old.items }
    ensures lens { OnOk result (AllByRecursion (λ kept. bit_len N kept.1 < 2 ^ 64)
        (history_of N bitmap.now)) }
{
    let mut place = place;
    let mut numbers = bitmap.commits();
    let Some(mut from) = numbers.next() else {
        return Ok(place);
    };
    let mut body = Vec::new(*out.allocator());
    while let Some(to) = numbers.next() {
        body.clear();
        push_commit(&mut body, bitmap, from, to)?;
        place = push_frame(out, place, &body)?;
        from = to;
    }
    Ok(place)
}

// Appends a history, and returns the place after it. After an error, `out` may have a part of it.
fn push_history<const N: usize>(
    out: &mut Vec<u8>,
    bitmap: &CleanBitMap<N>,
) -> Result<Place, AllocError>
    ensures bytes { OnOk result (out.new.items
        ≡ out.old.items ++ history_bytes N (kept_of N bitmap.now)) }
    ensures after { IfOk result (λ after. after ≡ history_place N (kept_of N bitmap.now)) }
    ensures begins { take (length out.old.items) out.new.items ≡ out.old.items }
    ensures lens { OnOk result (AllByRecursion (λ kept. bit_len N kept.1 < 2 ^ 64)
        (history_of N bitmap.now)) }
{
    let base = history_base_bytes(*out.allocator(), bitmap)?;
    let place = push_header(out, N as u64)?;
    let place = push_frame(out, place, &base)?;
    push_commits(out, bitmap, place)
}

/// Appends the history of a bitmap to `out`, and returns the place after it, at which a log that begins with the history goes on.
///
/// A history is a log of the kept states and nothing else: its base is the first kept state, or the current bitmap if no state is kept, and each
/// further kept state is a commit with the change from the state before it.
///
/// What is written is read back whole: `read_history`, with ranges that admit it, and `recover` return a bitmap with the same current bitmap, the
/// same kept states under the same numbers, and the same last number. Only an allocation that fails prevents this.
///
/// # Errors
/// Returns `AllocError` if an allocation fails. `out` then has the same bytes as before.
///
/// # Memory
/// Allocates from the allocator of `out`: the history, temporarily the first kept state, and temporarily the base and one commit after another.
///
/// # Complexity
/// That of `get_at_commit` for the first kept state, per pair of neighbouring kept states that of `changed_chunks`, and per listed chunk a read of
/// the newer state through `AtCommit`. In addition linear in the bytes of the history, amortized. Call `indexed` before if many commits are
/// kept: without an index such a read looks through the reverse records of the later commits.
pub fn write_history<const N: usize>(
    bitmap: &CleanBitMap<N>,
    out: &mut Vec<u8>,
) -> Result<Place, AllocError>
    ensures bytes { out.new.items ≡ (if is_ok result
        then out.old.items ++ history_bytes N (kept_of N bitmap.now) else out.old.items) }
    ensures after { IfOk result (λ after. after ≡ history_place N (kept_of N bitmap.now)) }
    // What is written is a log, which makes the bitmap again.
    ensures log { OnOk result (HasLog N (kept_of N bitmap.now)) }
    ensures ends { IsHistory (kept_of N bitmap.now) }
{
    // The prover learns from these calls what holds of every history. That the number of its bytes fits 64 bits, it learns from the vector.
    bitmap.pruned_counts_rise();
    let _ = bitmap.len();
    let _ = bitmap.commits();
    let _ = bitmap.last_number();
    let len = out.len();
    match push_history(out, bitmap) {
        Ok(place) => {
            let _ = out.len();
            Ok(place)
        }
        Err(error) => {
            out.truncate(len);
            Err(error)
        }
    }
}

impl<const N: usize> Log<N> {
    /// Begins a log with the history of a bitmap. The bytes of the history are those that the program writes first.
    ///
    /// As [`write_history`] says, what is written is read back whole, and so is the log with the entries that are appended to it.
    ///
    /// # Errors
    /// Returns `AllocError` if an allocation fails.
    ///
    /// # Memory
    /// As [`write_history`].
    ///
    /// # Complexity
    /// As [`write_history`].
    pub fn begin(alloc: Global, bitmap: &CleanBitMap<N>) -> Result<Self, AllocError>
        ensures value { IfOk result (λ log. log ≡ record {
          bytes = history_bytes N (kept_of N bitmap.now);
          place = history_place N (kept_of N bitmap.now);
        }) }
        // What is written is a log, which makes the bitmap again.
        ensures log { OnOk result (HasLog N (kept_of N bitmap.now)) }
        ensures ends { IsHistory (kept_of N bitmap.now) }
    {
        let mut bytes = Vec::new(alloc);
        let place = write_history(bitmap, &mut bytes)?;
        Ok(Log::after(alloc, bytes, place))
    }
}
