//! A historical bitmap whose commits are kept on a device.
//!
//! Each call that changes what a [`Store`] keeps writes its entry to the device first, syncs it, and then makes its change in memory. So when the
//! call returns `Ok`, the entry is kept (clause `keeps`). The entry is written behind a closed gate: a byte in the place of its first one until
//! all others are kept. So a crash leaves an entry that is read as whole, or one that is known as not finished, whatever blocks the disk wrote. If the call fails, the bitmap is unchanged, and the entry is begun or not (`fails`). The
//! law [`calls_in_a_row`](crate::calls_in_a_row) says the same of any sequence of calls, and the law
//! [`a_crash_is_opened`](crate::a_crash_is_opened) what [`Store::open`] makes of what a crash leaves at any moment of it. If there are compactions
//! among the calls, the law [`a_sequence_is_opened`](crate::a_sequence_is_opened) says it.
//!
//! The contracts hold while the device behaves as the model that [`Device`] describes.

ghost use Rattle.std.specs.Prelude.{◌≡◌, ℕ, ◌++◌, ◌∷◌, [], List, is_some, true, if◌then◌else◌, IfErr, IfOk, IsErrOf, MatchResult, OnErr, OnOk, alloc_error};
ghost use Rattle.std.specs.Result.{result_err};
ghost use Rattle.commit_log.specs.Accepted.{Accepts};
ghost use Rattle.historical_bitmap.specs.History.{kept_under};
ghost use Rattle.historical_bitmap.specs.View.{commit_error, history_of, pending_of};
ghost use Rattle.commit_log.specs.Base.{Base};
ghost use Rattle.commit_log.specs.Entries.{Entry, FitsEntry, encode_entry};
ghost use Rattle.commit_log.specs.Entries.Entry.{Clear, DropBefore, Rewind};
ghost use Rattle.commit_log.specs.Kept.{entry_of_commit, kept_of};
ghost use Rattle.log_store.specs.Store.{Fails, IsStored, Keeps, LeavesLog, commit_refusal};
ghost use Rattle.log_store.specs.declared.error.StoreError.TheVariants.{Memory, NoSuchCommit, ReadOnly};

use crate::device::Device;
use crate::encoding::{encode_clear, encode_commit, encode_drop, encode_rewind};
use crate::error::StoreError;
use crate::stored_log::StoredLog;
use commit_log::{clear_is_an_entry, commit_is_an_entry, drop_is_an_entry, rewind_is_an_entry};
use historical_bitmap::bitmap::historical::{CleanBitMap, DirtyBitMap, Error};
use std::alloc::{AllocError, Global};

/// A historical bitmap whose commits, rewinds and drops are kept on a device: after a crash it is opened again as it was.
///
/// If a call fails after it has begun to write, the store is read-only from then on: what the device has is not known. Its bitmap is as it was before
/// the call, and can be read. [`open`](Store::open) the device again to go on. `N` is the number of bytes of a chunk.
#[derive(Drop)]
pub struct Store<const N: usize, D: Device> {
    pub(crate) alloc: Global,
    pub(crate) bitmap: CleanBitMap<N>,
    pub(crate) log: StoredLog<D>,
}

/// A batch of a store: the pending edits, and the log to which their commit is appended.
#[derive(Drop)]
pub struct StoreBatch<const N: usize, D: Device> {
    alloc: Global,
    /// The batch, which the calls of `DirtyBitMap` edit. It is not to be replaced by the batch of another bitmap.
    pub batch: DirtyBitMap<N>,
    log: StoredLog<D>,
}

impl<const N: usize, D: Device> Store<N, D> {
    /// Returns the bitmap.
    ///
    /// Does not allocate; constant time.
    pub fn bitmap(&self) -> &CleanBitMap<N>
        ensures { result.now ≡ self.now.bitmap }
    {
        &self.bitmap
    }

    /// Returns the number of bytes of the log up to the last entry that is kept.
    ///
    /// Does not allocate; constant time.
    pub fn position(&self) -> u64
        ensures { result ≡ self.now.log.place.at }
    {
        self.log.place.at
    }

    /// Returns the device.
    ///
    /// Does not allocate; constant time.
    pub fn device(&self) -> &D
        ensures { result.now ≡ self.now.log.device }
    {
        &self.log.device
    }

    /// Returns whether the store can only be read, since a call failed after it had begun to write. It can be edited once it is opened again.
    ///
    /// Does not allocate; constant time.
    pub fn is_read_only(&self) -> bool
        ensures { result ≡ self.now.log.is_read_only }
    {
        self.log.is_read_only
    }

    /// Returns the device, without the store.
    ///
    /// The bitmap is freed. Does not allocate.
    pub fn into_device(self) -> D
        ensures { result ≡ self.log.device }
    {
        self.log.device
    }

    /// Begins a batch, with no pending edits.
    ///
    /// Does not allocate; constant time.
    pub fn into_batch(self) -> StoreBatch<N, D>
        ensures kept { kept_of N result.batch ≡ kept_of N self.bitmap }
        ensures pending { pending_of N result.batch ≡ self.bitmap.current }
        ensures log { result.log ≡ self.log }
    {
        StoreBatch {
            alloc: self.alloc,
            batch: self.bitmap.into_dirty(),
            log: self.log,
        }
    }
}

// Returns the encoding of the entry of a rewind, which the bitmap accepts.
pub(crate) fn encode_accepted_rewind<const N: usize>(
    alloc: Global,
    bitmap: &CleanBitMap<N>,
    number: u64,
) -> Result<Vec<u8>, StoreError>
    ensures encoded { IfOk result (λ bytes. bytes.items ≡ encode_entry (Rewind number)) }
    ensures accepted { OnOk result (Accepts N (kept_of N bitmap.now) (Rewind number)) }
    ensures refused { IfErr result (λ e. e
        ≡ (if is_some (kept_under (history_of N bitmap.now) number) then Memory alloc_error
        else NoSuchCommit)) }
{
    if !bitmap.commit_exists(number) {
        return Err(StoreError::NoSuchCommit);
    }
    match encode_rewind(alloc, number) {
        Ok(body) => Ok(body),
        Err(error) => Err(StoreError::Memory(error)),
    }
}

impl<const N: usize, D: Device> Store<N, D> {
    /// Rewinds to commit `number`, as `rewind_to` of the bitmap does, and returns once the rewind is kept.
    ///
    /// # Errors
    /// Returns the store, whose bitmap is unchanged, with the first error that applies:
    ///
    /// - `ReadOnly` if an earlier call failed after it had begun to write;
    /// - `NoSuchCommit` if no commit is kept under the number;
    /// - `Memory` if an allocation fails before the device is called, or if the entry is too long: a frame of 2^56 bytes, or a log of 2^64;
    /// - `Device` if the device fails or runs out of memory, and `NotApplied` if an allocation fails once the entry is kept. The store is then
    ///   read-only.
    ///
    /// # Memory
    /// As `rewind_to` of the bitmap. Temporarily also the entry and its frame, and what the calls of the device allocate.
    ///
    /// # Complexity
    /// As `rewind_to` of the bitmap, with one append, one byte set and two syncs of the device.
    pub fn rewind_to(self, number: u64) -> Result<Store<N, D>, (Store<N, D>, StoreError)>
        // The entry of the rewind is kept, and makes the new state.
        ensures keeps { (base : Base) (begun : List Entry) (kept : ℕ)
            → IsStored N D.Device base begun kept (kept_of N self.bitmap) self.log
            → IfOk result (λ store. Keeps N D.Device base begun kept self.log
            (Rewind number) (kept_of N store.bitmap) store.log) }
        // After an error the entry is begun or not, and no other.
        ensures fails { (base : Base) (begun : List Entry) (kept : ℕ)
            → IsStored N D.Device base begun kept (kept_of N self.bitmap) self.log
            → IfErr result (λ e. Fails N D.Device base begun kept self.log
            (Rewind number) (kept_of N e.0.bitmap) e.0.log) }
        ensures unchanged { IfErr result (λ e. e.0.bitmap ≡ self.bitmap) }
        ensures log { IfErr result (λ e. LeavesLog D.Device self.log e.1 e.0.log) }
        ensures read_only { self.log.is_read_only ≡ true
            → MatchResult result (λ store. ⊥) (λ e. e.1 ≡ ReadOnly) }
    {
        if self.log.is_read_only {
            return Err((self, StoreError::ReadOnly));
        }
        let Store { alloc, bitmap, log } = self;
        let mut log = log;
        let rewind = match encode_accepted_rewind(alloc, &bitmap, number) {
            Ok(rewind) => rewind,
            Err(error) => return Err((Store { alloc, bitmap, log }, error)),
        };
        if let Err(error) = log.append::<N>(alloc, &rewind) {
            return Err((Store { alloc, bitmap, log }, error));
        }
        match rewind_is_an_entry(bitmap, number) {
            Ok(bitmap) => Ok(Store { alloc, bitmap, log }),
            Err(refused) => {
                let (bitmap, _) = refused;
                log.is_read_only = true;
                Err((
                    Store { alloc, bitmap, log },
                    StoreError::NotApplied(AllocError),
                ))
            }
        }
    }

    /// Drops the commits before a number, as `prune_commits_before` of the bitmap does, and returns once the drop is kept.
    ///
    /// The entry is written even if no commit is dropped.
    ///
    /// # Errors
    /// Returns the first error that applies, with the bitmap unchanged:
    ///
    /// - `ReadOnly` if an earlier call failed after it had begun to write;
    /// - `Memory` if an allocation fails before the device is called, or if the entry is too long: a frame of 2^56 bytes, or a log of 2^64;
    /// - `Device` if the device fails or runs out of memory. The store is then read-only.
    ///
    /// # Memory
    /// Temporarily the entry and its frame, and what the calls of the device allocate.
    ///
    /// # Complexity
    /// As `prune_commits_before` of the bitmap, with one append, one byte set and two syncs of the device.
    pub fn drop_before(&mut self, number: u64) -> Result<(), StoreError>
        ensures keeps { (base : Base) (begun : List Entry) (kept : ℕ)
            → IsStored N D.Device base begun kept (kept_of N self.old.bitmap) self.old.log
            → OnOk result (Keeps N D.Device base begun kept self.old.log
            (DropBefore number) (kept_of N self.new.bitmap) self.new.log) }
        ensures fails { (base : Base) (begun : List Entry) (kept : ℕ)
            → IsStored N D.Device base begun kept (kept_of N self.old.bitmap) self.old.log
            → OnErr result (Fails N D.Device base begun kept self.old.log
            (DropBefore number) (kept_of N self.new.bitmap) self.new.log) }
        ensures unchanged { OnErr result (self.new.bitmap ≡ self.old.bitmap) }
        ensures log { IfErr result (λ e. LeavesLog D.Device self.old.log e self.new.log) }
        ensures read_only { self.old.log.is_read_only ≡ true → IsErrOf result ReadOnly }
    {
        if self.log.is_read_only {
            return Err(StoreError::ReadOnly);
        }
        let Ok(body) = encode_drop(self.alloc, number) else {
            return Err(StoreError::Memory(AllocError));
        };
        self.log.append::<N>(self.alloc, &body)?;
        drop_is_an_entry(&mut self.bitmap, number);
        Ok(())
    }

    /// Drops all commits, as `clear_history` of the bitmap does, and returns once this is kept.
    ///
    /// The entry is written even if no commit is kept.
    ///
    /// # Errors
    /// As [`drop_before`](Store::drop_before).
    ///
    /// # Memory
    /// As [`drop_before`](Store::drop_before).
    ///
    /// # Complexity
    /// As `clear_history` of the bitmap, with one append, one byte set and two syncs of the device.
    pub fn clear(&mut self) -> Result<(), StoreError>
        ensures keeps { (base : Base) (begun : List Entry) (kept : ℕ)
            → IsStored N D.Device base begun kept (kept_of N self.old.bitmap) self.old.log
            → OnOk result (Keeps N D.Device base begun kept self.old.log
            Clear (kept_of N self.new.bitmap) self.new.log) }
        ensures fails { (base : Base) (begun : List Entry) (kept : ℕ)
            → IsStored N D.Device base begun kept (kept_of N self.old.bitmap) self.old.log
            → OnErr result (Fails N D.Device base begun kept self.old.log
            Clear (kept_of N self.new.bitmap) self.new.log) }
        ensures unchanged { OnErr result (self.new.bitmap ≡ self.old.bitmap) }
        ensures log { IfErr result (λ e. LeavesLog D.Device self.old.log e self.new.log) }
        ensures read_only { self.old.log.is_read_only ≡ true → IsErrOf result ReadOnly }
    {
        if self.log.is_read_only {
            return Err(StoreError::ReadOnly);
        }
        let Ok(body) = encode_clear(self.alloc) else {
            return Err(StoreError::Memory(AllocError));
        };
        self.log.append::<N>(self.alloc, &body)?;
        clear_is_an_entry(&mut self.bitmap);
        Ok(())
    }
}

// Tests the number of a commit, given the last number.
fn check_number(last: Option<u64>, number: u64) -> Result<(), Error>
    ensures { result_err result ≡ commit_error last number }
{
    if number == u64::MAX {
        return Err(Error::ReservedCommitNumber);
    }
    match last {
        Some(previous) if number <= previous => Err(Error::NonMonotonicCommit {
            previous,
            attempted: number,
        }),
        _ => Ok(()),
    }
}

// Returns the encoding of the entry of a commit, which the bitmap accepts.
pub(crate) fn encode_accepted<const N: usize>(
    alloc: Global,
    batch: &DirtyBitMap<N>,
    number: u64,
) -> Result<Vec<u8>, StoreError>
    ensures encoded { IfOk result (λ bytes. bytes.items
        ≡ encode_entry (entry_of_commit N batch.now number)) }
    ensures fits { OnOk result (FitsEntry N (entry_of_commit N batch.now number)) }
    ensures accepted { OnOk result (Accepts N (kept_of N batch.now)
        (entry_of_commit N batch.now number)) }
    ensures refused { IfErr result (λ e. e ≡ commit_refusal (commit_error batch.now.last number)) }
{
    let _ = batch.len();
    let _ = batch.newly_pruned_chunks();
    if let Err(error) = check_number(batch.last_number(), number) {
        return Err(StoreError::Number(error));
    }
    match encode_commit(alloc, batch, number) {
        Ok(body) => Ok(body),
        Err(error) => Err(StoreError::Memory(error)),
    }
}

impl<const N: usize, D: Device> StoreBatch<N, D> {
    /// Drops the pending edits, and returns the store as it was.
    ///
    /// Does not allocate.
    pub fn abort(self) -> Store<N, D>
        ensures kept { kept_of N result.bitmap ≡ kept_of N self.batch }
        ensures log { result.log ≡ self.log }
    {
        Store {
            alloc: self.alloc,
            bitmap: self.batch.abort(),
            log: self.log,
        }
    }

    /// Commits the batch, as `commit` of `DirtyBitMap` does, and returns once the commit is kept.
    ///
    /// # Errors
    /// Returns the batch, unchanged, with the first error that applies:
    ///
    /// - `ReadOnly` if an earlier call failed after it had begun to write;
    /// - `Number` if the number is `u64::MAX`, or if it is not above the last number;
    /// - `Memory` if an allocation fails before the device is called, or if the entry is too long: a frame of 2^56 bytes, or a log of 2^64;
    /// - `Device` if the device fails or runs out of memory, and `NotApplied` if an allocation fails once the entry is kept. The store is then
    ///   read-only.
    ///
    /// # Memory
    /// As `commit` of `DirtyBitMap`. Temporarily also the entry and its frame, and what the calls of the device allocate.
    ///
    /// # Complexity
    /// As `commit` of `DirtyBitMap`, and linear in the bytes of the marked chunks, with a few searches among the edited chunks for each one. One
    /// append, one byte set and two syncs of the device.
    pub fn commit(self, number: u64) -> Result<Store<N, D>, (StoreBatch<N, D>, StoreError)>
        // The entry of the commit is kept, and makes the new state.
        ensures keeps { (base : Base) (begun : List Entry) (kept : ℕ)
            → IsStored N D.Device base begun kept (kept_of N self.batch) self.log
            → IfOk result (λ store. Keeps N D.Device base begun kept self.log
            (entry_of_commit N self.batch number) (kept_of N store.bitmap) store.log) }
        // After an error the entry is begun or not, and no other.
        ensures fails { (base : Base) (begun : List Entry) (kept : ℕ)
            → IsStored N D.Device base begun kept (kept_of N self.batch) self.log
            → IfErr result (λ e. Fails N D.Device base begun kept self.log
            (entry_of_commit N self.batch number) (kept_of N e.0.batch) e.0.log) }

        // As for `commit` of a batch.
        ensures current { IfOk result (λ s. s.bitmap.current ≡ pending_of N self.batch) }
        ensures history { IfOk result (λ s. history_of N s.bitmap
            ≡ history_of N self.batch ++ (number, pending_of N self.batch) ∷ []) }
        ensures unchanged { IfErr result (λ e. e.0.batch ≡ self.batch) }
        ensures log { IfErr result (λ e. LeavesLog D.Device self.log e.1 e.0.log) }
        ensures read_only { self.log.is_read_only ≡ true
            → MatchResult result (λ store. ⊥) (λ e. e.1 ≡ ReadOnly) }
    {
        let StoreBatch { alloc, batch, log } = self;
        let mut log = log;
        if log.is_read_only {
            return Err((StoreBatch { alloc, batch, log }, StoreError::ReadOnly));
        }
        let body = match encode_accepted(alloc, &batch, number) {
            Ok(body) => body,
            Err(error) => return Err((StoreBatch { alloc, batch, log }, error)),
        };
        if let Err(error) = log.append::<N>(alloc, &body) {
            return Err((StoreBatch { alloc, batch, log }, error));
        }
        match commit_is_an_entry(batch, number) {
            Ok(bitmap) => Ok(Store { alloc, bitmap, log }),
            Err(refused) => {
                let (batch, _) = refused;
                log.is_read_only = true;
                Err((
                    StoreBatch { alloc, batch, log },
                    StoreError::NotApplied(AllocError),
                ))
            }
        }
    }
}
