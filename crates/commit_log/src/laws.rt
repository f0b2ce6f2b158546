//! Laws of changes, deltas and logs: what holds of all of them. A law is the contract of a function whose body makes the calls that the law is
//! about, or is empty.

ghost use Rattle.std.specs.Prelude.{⊤, ◌≡◌, ℕ, ◌*◌, ◌^◌, ◌<◌, ◌≤◌, ◌++◌, ◌↔◌, Bool, false, List, [], ◌∷◌, Some, IfErr, IfOk, IfSome, MatchResult, alloc_error, take};
ghost use Rattle.bitmap_bytes.specs.Chunk.{IsWidth};
ghost use Rattle.bitmap_core.specs.PrunedBits.{PrunedBits};
ghost use Rattle.log_frames.specs.Frames.{frame, next};
ghost use Rattle.log_frames.specs.declared.frame.Place.{Place};
ghost use Rattle.commit_log.specs.Accepted.{IsCanonical};
ghost use Rattle.commit_log.specs.Base.{Base};
ghost use Rattle.commit_log.specs.Entries.{Change, Entry, encode_entry};
ghost use Rattle.commit_log.specs.Delta.{Brings, IsStep, committed, delta_between, encode_delta};
ghost use Rattle.commit_log.specs.declared.deltas.DeltaError.TheVariants.{Memory};
ghost use Rattle.commit_log.specs.declared.reading.HistoryError.TheVariants.{Memory as HistoryMemory};
ghost use Rattle.commit_log.specs.declared.recovery.RecoverError.TheVariants.{Memory as RecoverMemory};
ghost use Rattle.commit_log.specs.History.{HasLog, IsHistory, history_base, history_bytes, history_entries, history_place, last_of};
ghost use Rattle.commit_log.specs.Kept.{Kept, after, applied, change_to, kept_of};
ghost use Rattle.commit_log.specs.ListOfChanges.{IsListOfChanges};
ghost use Rattle.commit_log.specs.Logs.{IsLog, MayFollow, log_bytes, place_of, state_of};
ghost use Rattle.commit_log.specs.Reading.{IsWithin, ranges};
ghost use Rattle.commit_log.specs.Recovered.{IsMadeIn, IsPrefixOf, Recovers};
ghost use Rattle.historical_bitmap.specs.History.{kept_under};
ghost use Rattle.historical_bitmap.specs.View.{View, history_of};

use crate::deltas::{DeltaError, apply_delta, delta};
use crate::history::write_history;
use crate::log::Log;
use crate::reading::{HistoryError, read_history};
use crate::recovery::{RecoverError, Recovered, recover};
use bitmap_core::bitmap::codec::RangeCfg;
use historical_bitmap::bitmap::historical::CleanBitMap;
use std::alloc::{AllocError, Global};

/// The change from a bitmap to another, applied to the first, makes the second.
pub fn a_change_makes_the_newer_state()
    ensures { (n number : ℕ) (old new : PrunedBits) → 0 < n
        → applied n old (change_to n number old new) ≡ new }
{}

/// A change is the one to the bitmap that it makes if and only if it lists the chunks that differ, and no others.
///
/// So no two changes under a number make one bitmap from another, and each new chunk is listed with its bytes.
pub fn a_change_has_one_list()
    ensures { (n : ℕ) (old : PrunedBits) (c : Change) → 0 < n → 8 * n * c.pruned ≤ c.len
        → IsListOfChanges n old c ↔ IsCanonical n old c }
{}

/// If the bytes of a log are cut off anywhere after its base, there is a state that they recover to: what the entries make that are whole in them.
pub fn any_prefix_recovers_a_state()
    ensures { (n : ℕ) (base : Base) (entries : List Entry) (m : ℕ) (bytes : List ℕ)
        → IsPrefixOf n base entries m bytes → (state : Kept) × (place : Place) × (torn : Bool)
        × Recovers n bytes state place torn × IsMadeIn n base entries m state place torn }
{}

/// Bytes recover to one state at most, with one place after it, and they are torn or they are not.
pub fn only_one_recovery()
    ensures { (n : ℕ) (bytes : List ℕ) (state other : Kept) (place after : Place)
        (torn tears : Bool) → 0 < n → Recovers n bytes state place torn
        → Recovers n bytes other after tears
        → (state ≡ other) × (place ≡ after) × (torn ≡ tears) }
{}

/// The delta from a state to a newer bitmap, applied to that state, commits the newer bitmap under its number.
///
/// So the bytes of `delta` bring a replica that is at the older state to the newer one.
pub fn a_delta_makes_the_newer_state()
    ensures { (n from to : ℕ) (s : Kept) (new : PrunedBits) → IsWidth n → s.last ≡ Some from
        → IsStep n from s.current to new
        → Brings n (encode_delta n (delta_between n from s.current to new)) s (committed s to new) }
{}

/// Two deltas, one after the other, make the same bitmap as the delta from the first state to the last one.
pub fn two_deltas_make_one()
    ensures { (n i j k : ℕ) (a b c : PrunedBits) → 0 < n
        → applied n (applied n a (delta_between n i a j b).change) (delta_between n j b k c).change
        ≡ applied n a (delta_between n i a k c).change }
{}

/// A log goes on with each entry that may follow its state: the frame of the entry comes after its bytes, and the entry makes its next state.
///
/// So the calls that append their entry to a log keep what it records equal to the bitmap. A log without its last entries is a log too.
pub fn a_log_goes_on()
    ensures bytes { (n : ℕ) (base : Base) (entries : List Entry) (e : Entry)
        → log_bytes n base (entries ++ e ∷ [])
        ≡ log_bytes n base entries ++ frame (place_of n base entries) (encode_entry e) }
    ensures place { (n : ℕ) (base : Base) (entries : List Entry) (e : Entry)
        → place_of n base (entries ++ e ∷ []) ≡ next (place_of n base entries) (encode_entry e) }
    ensures state { (n : ℕ) (base : Base) (entries : List Entry) (e : Entry)
        → state_of n base (entries ++ e ∷ []) ≡ after n (state_of n base entries) e }
    ensures more { (n : ℕ) (base : Base) (entries : List Entry) (e : Entry) → IsLog n base entries
        → MayFollow n (state_of n base entries) e → IsLog n base (entries ++ e ∷ []) }
    ensures prefix { (n : ℕ) (base : Base) (entries : List Entry) (k : ℕ) → IsLog n base entries
        → IsLog n base (take k entries) }
{}

/// The history of a state, read as a log, makes this state again: its current bitmap, its kept states and its last number.
///
/// It is a log if the numbers rise, the pruned counts do not fall, and all fits 64 bits. By the contract of `write_history` this holds of each
/// history that is written. The last kept state of a historical bitmap is the current one, so that only the last number has to be that of the last
/// kept state.
pub fn a_compacted_log_makes_each_state()
    ensures made { (n : ℕ) (s : Kept) → 0 < n → IsHistory s
        → state_of n (history_base s) (history_entries n s) ≡ s }
    ensures is_log { (n : ℕ) (s : Kept) → 0 < n → HasLog n s
        → IsLog n (history_base s) (history_entries n s) }
    // The last kept state of each historical bitmap is the current one.
    ensures current { (n : ℕ) (b : View ⊤) → IfSome (last_of (history_of n b))
        (λ kept. b.current ≡ kept.1) }
{}

/// No two states have the same history, and no history is the beginning of another one.
pub fn a_history_has_one_state()
    ensures { (n : ℕ) (s t : Kept) (rest left : List ℕ) → 0 < n → HasLog n s → HasLog n t
        → IsHistory s → IsHistory t → history_bytes n s ++ rest ≡ history_bytes n t ++ left
        → (s ≡ t) × (rest ≡ left) }
{}

/// Writes the history of a bitmap, and reads it back.
///
/// The bitmap that is read has the same current bitmap, the same kept states under the same numbers, and the same last number. By the clause
/// `complete` it is read unless an allocation fails, if the ranges admit it.
///
/// # Errors
/// Those of `write_history`, and those of `read_history`.
pub fn a_written_history_is_read<const N: usize>(
    alloc: Global,
    bitmap: &CleanBitMap<N>,
    bits: &RangeCfg,
    commits: &RangeCfg,
) -> Result<Result<CleanBitMap<N>, HistoryError>, AllocError>
    ensures same { IfOk result (λ read. IfOk read (λ b. kept_of N b ≡ kept_of N bitmap.now)) }
    ensures complete { IsWithin (ranges bits.now commits.now) (kept_of N bitmap.now)
        → IfOk result (λ read. IfErr read (λ e. e ≡ HistoryMemory alloc_error)) }
{
    // The prover learns the width from this call.
    let _ = bitmap.len();
    let mut bytes = Vec::new(alloc);
    write_history(bitmap, &mut bytes)?;
    let mut from = bytes.as_slice();
    Ok(read_history(alloc, &mut from, bits, commits))
}

/// Begins a log with the history of a bitmap, and recovers it.
///
/// The bitmap that is recovered has the same current bitmap, the same kept states under the same numbers, and the same last number. The log goes on
/// at the same place, and no byte is torn. By the clause `complete` it is recovered unless an allocation fails.
///
/// # Errors
/// Those of `Log::begin`, and those of `recover`.
pub fn a_begun_log_is_recovered<const N: usize>(
    alloc: Global,
    bitmap: &CleanBitMap<N>,
) -> Result<Result<Recovered<N>, RecoverError>, AllocError>
    ensures same { IfOk result (λ recovered. IfOk recovered (λ found.
        (kept_of N found.bitmap ≡ kept_of N bitmap.now)
        × (found.log.place ≡ history_place N (kept_of N bitmap.now)) × (found.torn ≡ false))) }
    ensures complete { IfOk result (λ recovered.
        IfErr recovered (λ e. e ≡ RecoverMemory alloc_error)) }
{
    a_compacted_log_makes_each_state();
    // The prover learns the width from this call.
    let _ = bitmap.len();
    let mut log = Log::begin(alloc, bitmap)?;
    let bytes = log.take();
    Ok(recover(alloc, &bytes))
}

/// Writes the delta between two kept states, and applies it to a replica.
///
/// If the replica is at the older state, it is then at the newer one, unless an allocation fails.
///
/// # Errors
/// Those of `delta` and of `apply_delta`, with the replica unchanged.
pub fn a_replica_follows<const N: usize>(
    alloc: Global,
    versions: &CleanBitMap<N>,
    from: u64,
    to: u64,
    replica: CleanBitMap<N>,
) -> Result<CleanBitMap<N>, (CleanBitMap<N>, DeltaError)>
    ensures newer { (new : PrunedBits) → from < to
        → kept_under (history_of N versions.now) from ≡ Some replica.entry.current
        → kept_under (history_of N versions.now) to ≡ Some new → replica.entry.last ≡ Some from
        → MatchResult result (λ b. kept_of N b ≡ committed (kept_of N replica.entry) to new)
        (λ e. e.1 ≡ Memory alloc_error) }
    ensures unchanged { IfErr result (λ e. e.0 ≡ replica.entry) }
{
    match delta(alloc, versions, from, to) {
        Ok(Some(bytes)) => apply_delta(replica, &bytes),
        Ok(None) => Ok(replica),
        Err(error) => Err((replica, DeltaError::Memory(error))),
    }
}
