//! Laws of stores: what holds of any sequence of calls, and after a crash at any moment of it. A law is the contract of a function whose body makes
//! the calls that the law is about, or is empty.

ghost use Rattle.std.specs.Prelude.{◌≡◌, ℕ, ◌+◌, ◌++◌, [], List, IfOk, MatchResult, false, length};
ghost use Rattle.bitmap_bytes.specs.Chunk.{IsWidth};
ghost use Rattle.commit_log.specs.Base.{Base};
ghost use Rattle.commit_log.specs.Entries.{Entry};
ghost use Rattle.commit_log.specs.Kept.{Kept, kept_of};
ghost use Rattle.commit_log.specs.Logs.{entries_in};
ghost use Rattle.commit_log.specs.Recovered.{IsPrefixOf};
ghost use Rattle.log_store.specs.Buffered.{IsBuffered};
ghost use Rattle.log_store.specs.Compacted.{IsCompacting};
ghost use Rattle.log_store.specs.Moments.{IsAtRest, LeavesOnly};
ghost use Rattle.log_store.specs.Opened.{IsOpenedWith, IsPassing, IsTornAfter, OpensTo, RecoversTo};
ghost use Rattle.log_store.specs.Store.{Becomes, IsStored};

mod sequences;

use crate::buffered::BufferedStore;
use crate::device::Device;
use crate::error::StoreError;
use crate::opening::OpenError;
use crate::replacing::Replaceable;
use crate::store::Store;
use crate::stored_log::StoredLog;
use commit_log::a_compacted_log_makes_each_state;
pub use sequences::{
    a_clear_goes_on, a_commit_goes_on, a_compaction_begins_no_state,
    a_compaction_if_grown_begins_no_state, a_drop_goes_on, a_rewind_goes_on, a_sequence_is_opened,
    calls_are_a_sequence, sequences_in_a_row,
};
use std::alloc::Global;

/// Calls, and further calls after them, are calls: what the contracts of the calls of a store say of each one holds of any sequence of them.
///
/// No call at all is a sequence too.
pub fn calls_in_a_row<const N: usize, D: Device>(
    old: &StoredLog<D>,
    mid: &StoredLog<D>,
    new: &StoredLog<D>,
)
    ensures more { (base : Base) (begun further more : List Entry) (kept now last : ℕ)
        (state later : Kept) → Becomes N D.Device base begun kept old.now further now state mid.now
        → Becomes N D.Device base (begun ++ further) now mid.now more last later new.now
        → Becomes N D.Device base begun kept old.now (further ++ more) last later new.now }
    ensures none { (base : Base) (begun : List Entry) (kept : ℕ) (state : Kept)
        → IsStored N D.Device base begun kept state old.now
        → Becomes N D.Device base begun kept old.now [] kept state old.now }
{}

/// A crash at any moment of some calls leaves bytes that recover to the state after some first ones of the entries that were begun, among them all
/// that were kept when the calls began.
pub fn a_crash_keeps_what_is_kept<const N: usize, D: Device>(old: &StoredLog<D>, new: &StoredLog<D>)
    ensures { (base : Base) (begun further : List Entry) (kept now : ℕ) (state : Kept)
        → Becomes N D.Device base begun kept old.now further now state new.now
        → (c : List ℕ) → D.left_since new.now.device (D.moment old.now.device) c
        → RecoversTo N base (begun ++ further) kept c }
{}

/// Opens a device that has what a crash left at any moment of some calls of a store.
///
/// The store is opened with some first ones of the entries that were begun, among them all that were kept when the calls began. So of all entries
/// whose call had begun when the crash came, those are there whose call had returned `Ok`: the calls after the last of these are taken as the calls.
///
/// # Errors
/// Those of [`Store::open`]. The device or an allocation has then failed.
pub fn a_crash_is_opened<const N: usize, D: Device>(
    alloc: Global,
    old: &StoredLog<D>,
    new: &StoredLog<D>,
    device: D,
) -> Result<Store<N, D>, (D, OpenError)>
    requires { IsWidth N }
    ensures { (base : Base) (begun further : List Entry) (kept now : ℕ) (state : Kept)
        → Becomes N D.Device base begun kept old.now further now state new.now
        → D.left_since new.now.device (D.moment old.now.device) (D.seen device)
        → IsAtRest D.Device device → MatchResult result (λ store. OpensTo N D.Device base
        (begun ++ further) kept (kept_of N store.bitmap) store.log) (λ e. IsPassing e.1) }
{
    Store::open(alloc, device)
}

/// The first bytes of a log, in which its base is whole, are what a crash may leave of the entries that are whole in them.
///
/// So what the contract of [`Store::open`] says of the bytes that a crash left, it says of each such prefix of a log. In a shorter one the base is
/// not whole, and `open` reports `Header(Short)` or `NoBase`.
pub fn any_prefix_is_a_torn_log()
    ensures { (n : ℕ) (base : Base) (entries : List Entry) (m : ℕ) (bytes : List ℕ)
        → IsPrefixOf n base entries m bytes
        → IsTornAfter n base (entries_in m n base entries) bytes }
{}

/// Opens a device that has the first bytes of a log, in which its base is whole: as a copy of a log that was cut off anywhere.
///
/// The store is opened with the entries that are whole in these bytes, and with no other.
///
/// # Errors
/// Those of [`Store::open`]. The device or an allocation has then failed.
pub fn a_prefix_is_opened<const N: usize, D: Device>(
    alloc: Global,
    device: D,
) -> Result<Store<N, D>, (D, OpenError)>
    requires { IsWidth N }
    ensures { (base : Base) (entries : List Entry) (m : ℕ)
        → IsPrefixOf N base entries m (D.seen device) → IsAtRest D.Device device
        → MatchResult result (λ store. IsOpenedWith N D.Device base (entries_in m N base entries)
        (kept_of N store.bitmap) store.log) (λ e. IsPassing e.1) }
{
    any_prefix_is_a_torn_log();
    Store::open(alloc, device)
}

/// Opens a device that has what a crash left at any moment of a call of [`Store::compact`], which did not refuse it as read-only.
///
/// The store has the bitmap that it had: the crash left the old log, of which all entries are kept, or the new one.
///
/// # Errors
/// Those of [`Store::open`]. The device or an allocation has then failed.
pub fn a_compaction_is_opened<const N: usize, D: Replaceable>(
    alloc: Global,
    old: &StoredLog<D>,
    new: &StoredLog<D>,
    device: D,
) -> Result<Store<N, D>, (D, OpenError)>
    requires { IsWidth N }
    ensures { (base : Base) (begun : List Entry) (kept : ℕ) (state : Kept)
        → IsStored N D.Device base begun kept state old.now → old.now.is_read_only ≡ false
        → LeavesOnly D.Device old.now.device new.now.device (IsCompacting N base begun kept state)
        → D.Device.left_since new.now.device (D.Device.moment old.now.device) (D.Device.seen device)
        → IsAtRest D.Device device
        → MatchResult result (λ store. kept_of N store.bitmap ≡ state) (λ e. IsPassing e.1) }
{
    a_compacted_log_makes_each_state();
    Store::open(alloc, device)
}

/// Opens a device that has what a crash left of a buffered store while entries waited.
///
/// The store is opened as it was at the last sync: with the entries that were kept then, and with none that waited. No call but a sync writes
/// anything, so `new` is the store after any number of other calls.
///
/// # Errors
/// Those of [`Store::open`]. The device or an allocation has then failed.
pub fn waiting_writes_nothing<const N: usize, D: Device>(
    alloc: Global,
    old: &BufferedStore<N, D>,
    new: &BufferedStore<N, D>,
    device: D,
) -> Result<Store<N, D>, (D, OpenError)>
    requires { IsWidth N }
    ensures { (base : Base) (begun waiting : List Entry) (kept : ℕ) (state : Kept)
        → IsBuffered N D.Device base begun kept waiting state old.now.log old.now.waiting
        → old.now.log.is_read_only ≡ false → new.now.log ≡ old.now.log
        → D.left_since new.now.log.device (D.moment old.now.log.device) (D.seen device)
        → IsAtRest D.Device device
        → MatchResult result (λ store. IsOpenedWith N D.Device base begun
        (kept_of N store.bitmap) store.log) (λ e. IsPassing e.1) }
{
    Store::open(alloc, device)
}

/// Syncs a buffered store, and opens a device that has what a crash left at any later moment.
///
/// The store is opened as it was at the sync or after some first ones of the entries that were begun later: no entry that waited is lost. The calls
/// after the sync are any of which the contracts say what they make of a buffered store in which no entry waits.
///
/// # Errors
/// Returns the device with the error of [`BufferedStore::sync`], or those of [`Store::open`]. The device or an allocation has then failed.
pub fn a_sync_is_opened<const N: usize, D: Device>(
    alloc: Global,
    store: &mut BufferedStore<N, D>,
    new: &StoredLog<D>,
    device: D,
) -> Result<Result<Store<N, D>, (D, OpenError)>, (D, StoreError)>
    requires { IsWidth N }
    ensures { (base : Base) (begun waiting further : List Entry) (kept now : ℕ) (later : Kept)
        → IsBuffered N D.Device base begun kept waiting (kept_of N store.old.bitmap)
        store.old.log store.old.waiting
        → IfOk result (λ opened. (IsBuffered N D.Device base (begun ++ waiting)
        (kept + length waiting) [] (kept_of N store.new.bitmap) store.new.log store.new.waiting
        → Becomes N D.Device base (begun ++ waiting) (kept + length waiting)
        store.new.log further now later new.now)
        → D.left_since new.now.device (D.moment store.new.log.device) (D.seen device)
        → IsAtRest D.Device device → MatchResult opened (λ s. OpensTo N D.Device base
        ((begun ++ waiting) ++ further) (kept + length waiting) (kept_of N s.bitmap) s.log)
        (λ e. IsPassing e.1)) }
{
    if let Err(error) = store.sync() {
        return Err((device, error));
    }
    Ok(Store::open(alloc, device))
}
