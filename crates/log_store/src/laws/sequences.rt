//! Laws of sequences of calls of a store, with compactions among them, and of a crash at any moment of such a sequence. A law is the contract of a
//! function whose body makes the calls that the law is about, or is empty.

ghost use Rattle.std.specs.Prelude.{◌≡◌, ℕ, ◌++◌, ◌∷◌, [], List, Contains, IfErr, IfOk, MatchResult, false};
ghost use Rattle.bitmap_bytes.specs.Chunk.{IsWidth};
ghost use Rattle.commit_log.specs.Base.{Base};
ghost use Rattle.commit_log.specs.Entries.{Entry};
ghost use Rattle.commit_log.specs.Entries.Entry.{Clear, DropBefore, Rewind};
ghost use Rattle.commit_log.specs.Kept.{Kept, entry_of_commit, kept_of};
ghost use Rattle.log_store.specs.Moments.{IsAtRest, LeavesOnly};
ghost use Rattle.log_store.specs.Opened.{IsPassing};
ghost use Rattle.log_store.specs.Sequences.{GoesOnWith, HasState, IsSequence, ReadsToOneOf, states_after};
ghost use Rattle.log_store.specs.Store.{Becomes, IsStored, LeavesLog};
ghost use Rattle.log_store.specs.declared.error.StoreError.TheVariants.{ReadOnly};

use crate::device::Device;
use crate::error::StoreError;
use crate::opening::OpenError;
use crate::replacing::Replaceable;
use crate::store::{Store, StoreBatch};
use crate::stored_log::StoredLog;
use commit_log::a_compacted_log_makes_each_state;
use std::alloc::Global;

/// Commits, rewinds, drops and clears of a store, also those that failed, are a sequence: each entry that was begun is one more state.
///
/// What the contracts of these calls say of a log that was written to is that it becomes another one.
pub fn calls_are_a_sequence<const N: usize, D: Device>(old: &StoredLog<D>, new: &StoredLog<D>)
    ensures { (base : Base) (begun further : List Entry) (kept now : ℕ) (state later : Kept)
        → IsStored N D.Device base begun kept state old.now → old.now.is_read_only ≡ false
        → Becomes N D.Device base begun kept old.now further now later new.now
        → IsSequence N D.Device old.now.device (state ∷ states_after N state further) later
        new.now }
{}

/// Makes a commit, with which any sequence goes on: it begins one other state at most.
///
/// # Errors
/// Those of [`StoreBatch::commit`].
pub fn a_commit_goes_on<const N: usize, D: Device>(
    batch: StoreBatch<N, D>,
    number: u64,
) -> Result<Store<N, D>, (StoreBatch<N, D>, StoreError)>
    ensures { (device : D) (states : List Kept)
        → IsSequence N D.Device device states (kept_of N batch.batch) batch.log
        → MatchResult result (λ store. GoesOnWith N D.Device device states (kept_of N batch.batch)
        (entry_of_commit N batch.batch number) (kept_of N store.bitmap) store.log)
        (λ e. GoesOnWith N D.Device device states (kept_of N batch.batch)
        (entry_of_commit N batch.batch number) (kept_of N e.0.batch) e.0.log) }
{
    batch.commit(number)
}

/// Rewinds a store, with which any sequence goes on in the same way.
///
/// # Errors
/// Those of [`Store::rewind_to`].
pub fn a_rewind_goes_on<const N: usize, D: Device>(
    store: Store<N, D>,
    number: u64,
) -> Result<Store<N, D>, (Store<N, D>, StoreError)>
    ensures { (device : D) (states : List Kept)
        → IsSequence N D.Device device states (kept_of N store.bitmap) store.log
        → MatchResult result (λ after. GoesOnWith N D.Device device states (kept_of N store.bitmap)
        (Rewind number) (kept_of N after.bitmap) after.log)
        (λ e. GoesOnWith N D.Device device states (kept_of N store.bitmap)
        (Rewind number) (kept_of N e.0.bitmap) e.0.log) }
{
    store.rewind_to(number)
}

/// Drops commits of a store, with which any sequence goes on in the same way.
///
/// # Errors
/// Those of [`Store::drop_before`].
pub fn a_drop_goes_on<const N: usize, D: Device>(
    store: &mut Store<N, D>,
    number: u64,
) -> Result<(), StoreError>
    ensures { (device : D) (states : List Kept)
        → IsSequence N D.Device device states (kept_of N store.old.bitmap) store.old.log
        → GoesOnWith N D.Device device states (kept_of N store.old.bitmap) (DropBefore number)
        (kept_of N store.new.bitmap) store.new.log }
{
    store.drop_before(number)
}

/// Drops all commits of a store, with which any sequence goes on in the same way.
///
/// # Errors
/// Those of [`Store::clear`].
pub fn a_clear_goes_on<const N: usize, D: Device>(store: &mut Store<N, D>) -> Result<(), StoreError>
    ensures { (device : D) (states : List Kept)
        → IsSequence N D.Device device states (kept_of N store.old.bitmap) store.old.log
        → GoesOnWith N D.Device device states (kept_of N store.old.bitmap) Clear
        (kept_of N store.new.bitmap) store.new.log }
{
    store.clear()
}

/// Makes a compaction of a store, with which any sequence goes on: it begins no other state, whether it fails or not.
///
/// # Errors
/// Those of [`Store::compact`].
pub fn a_compaction_begins_no_state<const N: usize, D: Replaceable>(
    store: &mut Store<N, D>,
) -> Result<(), StoreError>
    requires { IsWidth N }
    ensures { (device : D) (states : List Kept)
        → IsSequence N D.Device device states (kept_of N store.old.bitmap) store.old.log
        → IsSequence N D.Device device states (kept_of N store.new.bitmap) store.new.log }
{
    a_compacted_log_makes_each_state();
    store.compact()
}

/// Compacts the log of a store if it has grown. Any sequence goes on with it in the same way, whether the log is compacted or left alone.
///
/// # Errors
/// Those of [`Store::compact_if_grown`].
pub fn a_compaction_if_grown_begins_no_state<const N: usize, D: Replaceable>(
    store: &mut Store<N, D>,
) -> Result<bool, StoreError>
    requires { IsWidth N }
    ensures { (device : D) (states : List Kept)
        → IsSequence N D.Device device states (kept_of N store.old.bitmap) store.old.log
        → IsSequence N D.Device device states (kept_of N store.new.bitmap) store.new.log }
{
    a_compacted_log_makes_each_state();
    store.compact_if_grown()
}

/// A sequence of calls, and a further one that begins with the state that the first one has made, are a sequence.
///
/// No call at all is a sequence too. A call that a read-only log refuses leaves the log and its sequence as they were.
pub fn sequences_in_a_row<const N: usize, D: Device>(
    old: &D,
    mid: &StoredLog<D>,
    new: &StoredLog<D>,
)
    ensures more { (states further : List Kept) (state later : Kept)
        → IsSequence N D.Device old.now states state mid.now
        → IsSequence N D.Device mid.now.device (state ∷ further) later new.now
        → IsSequence N D.Device old.now (states ++ further) later new.now }
    ensures refused { (states : List Kept) (state : Kept)
        → IsSequence N D.Device old.now states state mid.now
        → LeavesLog D.Device mid.now ReadOnly new.now
        → IsSequence N D.Device old.now states state new.now }
    ensures none { (state : Kept) → HasState N D.Device state mid.now
        → mid.now.is_read_only ≡ false
        → IsSequence N D.Device mid.now.device (state ∷ []) state mid.now }
{}

/// Opens a device that has what a crash left at any moment of a sequence of calls.
///
/// The store has one of the states that the calls had begun to make. The first of them is the state before the sequence: so if the calls after the
/// last one that had returned `Ok` are taken as the sequence, the state is not older than the one that this call had made.
///
/// # Errors
/// Those of [`Store::open`]. The device or an allocation has then failed, and a crash leaves one of these states as before.
pub fn a_sequence_is_opened<const N: usize, D: Device>(
    alloc: Global,
    old: &D,
    new: &StoredLog<D>,
    device: D,
) -> Result<Store<N, D>, (D, OpenError)>
    requires { IsWidth N }
    // The store has one of the states, or the device or an allocation has failed.
    ensures opened { (states : List Kept) (state : Kept)
        → IsSequence N D.Device old.now states state new.now
        → D.left_since new.now.device (D.moment old.now) (D.seen device)
        → IsAtRest D.Device device → MatchResult result
        (λ store. Contains states (kept_of N store.bitmap)) (λ e. IsPassing e.1) }
    // The opening begins another sequence, in which a crash leaves the same state.
    ensures begins { (states : List Kept) (state : Kept)
        → IsSequence N D.Device old.now states state new.now
        → D.left_since new.now.device (D.moment old.now) (D.seen device)
        → IsAtRest D.Device device → IfOk result (λ store. IsSequence N D.Device device
        (kept_of N store.bitmap ∷ []) (kept_of N store.bitmap) store.log) }
    // A crash at any moment of an opening that fails leaves one of the states too.
    ensures fails { (states : List Kept) (state : Kept)
        → IsSequence N D.Device old.now states state new.now
        → D.left_since new.now.device (D.moment old.now) (D.seen device)
        → IsAtRest D.Device device
        → IfErr result (λ e. LeavesOnly D.Device device e.0 (ReadsToOneOf N states)) }
    ensures written { IsAtRest D.Device device
        → IfOk result (λ store. store.log.is_read_only ≡ false) }
{
    Store::open(alloc, device)
}
