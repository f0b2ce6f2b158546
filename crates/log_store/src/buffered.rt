//! A store whose entries wait in memory until they are synced.
//!
//! Each call that changes a [`BufferedStore`] makes its change in memory at once, and its entry waits: nothing is written to the device (clause
//! `nothing`). [`sync`](BufferedStore::sync) writes all waiting entries behind one gate, with as many syncs of the device as a [`Store`] makes for
//! one entry. When it returns `Ok`, they are kept (clause `keeps`). A crash before it loses all of them: the law
//! [`waiting_writes_nothing`](crate::waiting_writes_nothing) says that the store is then opened as it was at the last sync. The law
//! [`a_sync_is_opened`](crate::a_sync_is_opened) says that no crash loses what was synced.
//!
//! It is a type of its own, since `Ok` of its calls does not mean that the change is kept.

ghost use Rattle.std.specs.Prelude.{◌≡◌, ℕ, ◌+◌, ◌++◌, ◌∷◌, [], List, false, is_some, true, length, take, if◌then◌else◌, IfErr, IfOk, IsErrOf, MatchResult, OnErr, OnOk, alloc_error};
ghost use Rattle.historical_bitmap.specs.History.{kept_under};
ghost use Rattle.historical_bitmap.specs.View.{commit_error, history_of, pending_of};
ghost use Rattle.commit_log.specs.Accepted.{Accepts};
ghost use Rattle.commit_log.specs.Base.{Base};
ghost use Rattle.commit_log.specs.Entries.{Entry};
ghost use Rattle.commit_log.specs.Entries.Entry.{Clear, DropBefore, Rewind};
ghost use Rattle.commit_log.specs.Kept.{after, entry_of_commit, kept_of};
ghost use Rattle.commit_log.specs.Logs.{state_of};
ghost use Rattle.log_store.specs.Buffered.{IsBuffered, IsWaiting};
ghost use Rattle.log_store.specs.Store.{Becomes, FailsToAppend, IsAppendError, IsStored, LeavesLog, commit_refusal};
ghost use Rattle.log_store.specs.declared.error.StoreError.TheVariants.{Memory, NoSuchCommit, ReadOnly};

use crate::device::Device;
use crate::encoding::{encode_clear, encode_drop};
use crate::error::StoreError;
use crate::store::{Store, encode_accepted, encode_accepted_rewind};
use crate::stored_log::StoredLog;
use crate::waiting::Waiting;
use commit_log::{clear_is_an_entry, commit_is_an_entry, drop_is_an_entry, rewind_is_an_entry};
use historical_bitmap::bitmap::historical::{CleanBitMap, DirtyBitMap};
use std::alloc::{AllocError, Global};

/// A store whose commits, rewinds and drops are kept on its device once they are synced.
///
/// A program that makes many small changes syncs them together, and so waits for the disk once. What waits is lost if the program ends, by a crash
/// or by dropping the store: [`sync`](BufferedStore::sync) it before, or turn it into a [`Store`] by [`into_store`](BufferedStore::into_store).
///
/// If a sync fails after it has begun to write, the store is read-only from then on: what the device has is not known. Its bitmap can be read, and has
/// the changes that waited. [`open`](Store::open) the device again to go on. `N` is the number of bytes of a chunk.
#[derive(Drop)]
pub struct BufferedStore<const N: usize, D: Device> {
    pub(crate) alloc: Global,
    pub(crate) bitmap: CleanBitMap<N>,
    pub(crate) log: StoredLog<D>,
    pub(crate) waiting: Waiting,
}

/// A batch of a buffered store: the pending edits, and the entries that wait, to which that of their commit is added.
#[derive(Drop)]
pub struct BufferedBatch<const N: usize, D: Device> {
    alloc: Global,
    /// The batch, which the calls of `DirtyBitMap` edit. It is not to be replaced by the batch of another bitmap.
    pub batch: DirtyBitMap<N>,
    log: StoredLog<D>,
    waiting: Waiting,
}

// Rewinds a bitmap to a kept commit, and lets the entry of the rewind wait. After an error both are unchanged.
fn rewind_waiting<const N: usize>(
    alloc: Global,
    bitmap: CleanBitMap<N>,
    number: u64,
    waiting: &mut Waiting,
) -> Result<CleanBitMap<N>, (CleanBitMap<N>, StoreError)>
    ensures waits { (base : Base) (begun entries : List Entry)
        → IsWaiting N base begun entries (kept_of N bitmap.entry) waiting.old
        → IfOk result (λ b. IsWaiting N base begun (entries ++ Rewind number ∷ []) (kept_of N b)
        waiting.new) }
    ensures state { IfOk result (λ b. kept_of N b
        ≡ after N (kept_of N bitmap.entry) (Rewind number)) }
    ensures accepted { OnOk result (Accepts N (kept_of N bitmap.entry) (Rewind number)) }
    ensures refused { IfErr result (λ e. e.1
        ≡ (if is_some (kept_under (history_of N bitmap.entry) number) then Memory alloc_error
        else NoSuchCommit)) }
    ensures nothing { OnErr result (waiting.new ≡ waiting.old) }
    ensures unchanged { IfErr result (λ e. e.0 ≡ bitmap.entry) }
{
    let body = match encode_accepted_rewind(alloc, &bitmap, number) {
        Ok(body) => body,
        Err(error) => return Err((bitmap, error)),
    };
    let before = waiting.end();
    if let Err(error) = waiting.push::<N>(&body) {
        return Err((bitmap, StoreError::Memory(error)));
    }
    match rewind_is_an_entry(bitmap, number) {
        Ok(bitmap) => Ok(bitmap),
        Err(refused) => {
            let (bitmap, _) = refused;
            waiting.cut_back(before);
            Err((bitmap, StoreError::Memory(AllocError)))
        }
    }
}

// Commits a batch, and lets the entry of the commit wait. After an error both are unchanged.
fn commit_waiting<const N: usize>(
    alloc: Global,
    batch: DirtyBitMap<N>,
    number: u64,
    waiting: &mut Waiting,
) -> Result<CleanBitMap<N>, (DirtyBitMap<N>, StoreError)>
    ensures waits { (base : Base) (begun entries : List Entry)
        → IsWaiting N base begun entries (kept_of N batch.entry) waiting.old
        → IfOk result (λ b. IsWaiting N base begun
        (entries ++ entry_of_commit N batch.entry number ∷ []) (kept_of N b) waiting.new) }
    ensures state { IfOk result (λ b. kept_of N b
        ≡ after N (kept_of N batch.entry) (entry_of_commit N batch.entry number)) }
    ensures current { IfOk result (λ b. b.current ≡ pending_of N batch.entry) }
    ensures history { IfOk result (λ b. history_of N b
        ≡ history_of N batch.entry ++ (number, pending_of N batch.entry) ∷ []) }
    ensures accepted { OnOk result (Accepts N (kept_of N batch.entry)
        (entry_of_commit N batch.entry number)) }
    ensures refused { IfErr result (λ e. e.1
        ≡ commit_refusal (commit_error batch.entry.last number)) }
    ensures nothing { OnErr result (waiting.new ≡ waiting.old) }
    ensures unchanged { IfErr result (λ e. e.0 ≡ batch.entry) }
{
    let body = match encode_accepted(alloc, &batch, number) {
        Ok(body) => body,
        Err(error) => return Err((batch, error)),
    };
    let before = waiting.end();
    if let Err(error) = waiting.push::<N>(&body) {
        return Err((batch, StoreError::Memory(error)));
    }
    match commit_is_an_entry(batch, number) {
        Ok(bitmap) => Ok(bitmap),
        Err(refused) => {
            let (batch, _) = refused;
            waiting.cut_back(before);
            Err((batch, StoreError::Memory(AllocError)))
        }
    }
}

impl<const N: usize, D: Device> Store<N, D> {
    /// Returns the store with the same bitmap and log, whose changes wait in memory from now on until they are synced.
    ///
    /// Does not allocate; constant time.
    pub fn into_buffered(self) -> BufferedStore<N, D>
        // No entry waits.
        ensures buffered { (base : Base) (begun : List Entry) (kept : ℕ)
            → IsStored N D.Device base begun kept (kept_of N self.bitmap) self.log
            → IsBuffered N D.Device base begun kept [] (kept_of N result.bitmap)
            result.log result.waiting }
        ensures bitmap { result.bitmap ≡ self.bitmap }
        ensures log { result.log ≡ self.log }
    {
        let waiting = Waiting::none(self.alloc, self.log.place);
        BufferedStore {
            alloc: self.alloc,
            bitmap: self.bitmap,
            log: self.log,
            waiting,
        }
    }
}

impl<const N: usize, D: Device> BufferedStore<N, D> {
    /// Returns the bitmap, with the changes that wait.
    ///
    /// Does not allocate; constant time.
    pub fn bitmap(&self) -> &CleanBitMap<N>
        ensures { result.now ≡ self.now.bitmap }
    {
        &self.bitmap
    }

    /// Returns the number of bytes of the log up to the last entry that is kept. The entries that wait are not counted.
    ///
    /// Does not allocate; constant time.
    pub fn position(&self) -> u64
        ensures { result ≡ self.now.log.place.at }
    {
        self.log.place.at
    }

    /// Returns the number of bytes that wait to be written to the log.
    ///
    /// Does not allocate; constant time.
    pub fn waiting_bytes(&self) -> usize
        ensures { result ≡ length self.now.waiting.bytes }
    {
        self.waiting.bytes().len()
    }

    /// Returns the device. It has no byte of the entries that wait.
    ///
    /// Does not allocate; constant time.
    pub fn device(&self) -> &D
        ensures { result.now ≡ self.now.log.device }
    {
        &self.log.device
    }

    /// Returns whether the store can only be read, since a call failed after it had begun to write. It can be edited once it is opened again.
    ///
    /// Does not allocate; constant time.
    pub fn is_read_only(&self) -> bool
        ensures { result ≡ self.now.log.is_read_only }
    {
        self.log.is_read_only
    }

    /// Returns the device, without the store. The entries that wait are lost.
    ///
    /// The bitmap is freed. Does not allocate.
    pub fn into_device(self) -> D
        ensures { result ≡ self.log.device }
    {
        self.log.device
    }

    /// Begins a batch, with no pending edits.
    ///
    /// Does not allocate; constant time.
    pub fn into_batch(self) -> BufferedBatch<N, D>
        ensures kept { kept_of N result.batch ≡ kept_of N self.bitmap }
        ensures pending { pending_of N result.batch ≡ self.bitmap.current }
        ensures log { result.log ≡ self.log }
        ensures waiting { result.waiting ≡ self.waiting }
    {
        BufferedBatch {
            alloc: self.alloc,
            batch: self.bitmap.into_dirty(),
            log: self.log,
            waiting: self.waiting,
        }
    }

    /// Writes all entries that wait, and returns once they are kept. If none waits, does nothing.
    ///
    /// The entries are written behind one gate, so a crash during the call leaves all of them or none. The contract says less: some first ones.
    ///
    /// # Errors
    /// Returns the first error that applies, with the bitmap unchanged:
    ///
    /// - `ReadOnly` if an earlier call failed after it had begun to write;
    /// - `Memory` if an allocation fails before the device is called. Nothing was written then, and a later sync writes the entries.
    /// - `Device` if the device fails or runs out of memory. The store is then read-only.
    ///
    /// # Memory
    /// What the calls of the device allocate. Also allocates if there is no capacity for one byte more than those that wait. The capacity is kept.
    ///
    /// # Complexity
    /// One append of the bytes that wait, one byte set and two syncs of the device. Constant if nothing waits.
    pub fn sync(&mut self) -> Result<(), StoreError>
        // The entries that waited are kept, and make the state.
        ensures keeps { (base : Base) (begun waiting : List Entry) (kept : ℕ)
            → IsBuffered N D.Device base begun kept waiting (kept_of N self.old.bitmap)
            self.old.log self.old.waiting
            → OnOk result (Becomes N D.Device base begun kept self.old.log waiting
            (kept + length waiting) (kept_of N self.new.bitmap) self.new.log) }
        // No entry waits then.
        ensures empty { (base : Base) (begun waiting : List Entry) (kept : ℕ)
            → IsBuffered N D.Device base begun kept waiting (kept_of N self.old.bitmap)
            self.old.log self.old.waiting
            → OnOk result (IsBuffered N D.Device base (begun ++ waiting) (kept + length waiting) []
            (kept_of N self.new.bitmap) self.new.log self.new.waiting) }
        // After an error the entries are begun or not, and no others.
        ensures fails { (base : Base) (begun waiting : List Entry) (kept : ℕ)
            → IsBuffered N D.Device base begun kept waiting (kept_of N self.old.bitmap)
            self.old.log self.old.waiting
            → OnErr result (FailsToAppend N D.Device base begun kept self.old.log waiting
            (state_of N base (take kept begun)) self.new.log) }
        // They still wait then.
        ensures waits { OnErr result (self.new.waiting ≡ self.old.waiting) }
        ensures unchanged { self.new.bitmap ≡ self.old.bitmap }
        ensures error { IfErr result IsAppendError }
        ensures log { IfErr result (λ e. LeavesLog D.Device self.old.log e self.new.log) }
        ensures stays { OnOk result (self.new.log.is_read_only ≡ false) }
        ensures read_only { self.old.log.is_read_only ≡ true → IsErrOf result ReadOnly }
    {
        if self.log.is_read_only {
            return Err(StoreError::ReadOnly);
        }
        if self.waiting.is_empty() {
            return Ok(());
        }
        if let Err(error) = self.log.append_all::<N>(&mut self.waiting) {
            return Err(error);
        }
        self.waiting.forget();
        Ok(())
    }

    /// Writes all entries that wait, as [`sync`](BufferedStore::sync) does, and returns the store whose calls write theirs at once.
    ///
    /// # Errors
    /// Returns the store, with the bitmap unchanged and the error of [`sync`](BufferedStore::sync).
    ///
    /// # Memory
    /// As [`sync`](BufferedStore::sync).
    ///
    /// # Complexity
    /// As [`sync`](BufferedStore::sync).
    pub fn into_store(self) -> Result<Store<N, D>, (BufferedStore<N, D>, StoreError)>
        ensures keeps { (base : Base) (begun waiting : List Entry) (kept : ℕ)
            → IsBuffered N D.Device base begun kept waiting (kept_of N self.bitmap)
            self.log self.waiting
            → IfOk result (λ store. Becomes N D.Device base begun kept self.log waiting
            (kept + length waiting) (kept_of N store.bitmap) store.log) }
        ensures fails { (base : Base) (begun waiting : List Entry) (kept : ℕ)
            → IsBuffered N D.Device base begun kept waiting (kept_of N self.bitmap)
            self.log self.waiting
            → IfErr result (λ e. FailsToAppend N D.Device base begun kept self.log waiting
            (state_of N base (take kept begun)) e.0.log) }
        ensures waits { IfErr result (λ e. e.0.waiting ≡ self.waiting) }
        ensures unchanged { MatchResult result (λ store. store.bitmap ≡ self.bitmap)
            (λ e. e.0.bitmap ≡ self.bitmap) }
        ensures error { IfErr result (λ e. IsAppendError e.1) }
        ensures log { IfErr result (λ e. LeavesLog D.Device self.log e.1 e.0.log) }
        ensures stays { IfOk result (λ store. store.log.is_read_only ≡ false) }
        ensures read_only { self.log.is_read_only ≡ true
            → MatchResult result (λ store. ⊥) (λ e. e.1 ≡ ReadOnly) }
    {
        let mut store = self;
        if let Err(error) = store.sync() {
            return Err((store, error));
        }
        Ok(Store {
            alloc: store.alloc,
            bitmap: store.bitmap,
            log: store.log,
        })
    }

    /// Rewinds to commit `number`, as `rewind_to` of the bitmap does. The entry of the rewind waits.
    ///
    /// # Errors
    /// Returns the store, unchanged, with the first error that applies:
    ///
    /// - `ReadOnly` if an earlier call failed after it had begun to write;
    /// - `NoSuchCommit` if no commit is kept under the number;
    /// - `Memory` if an allocation fails, or if too much would wait: 2^56 bytes, or a log of 2^64.
    ///
    /// # Memory
    /// As `rewind_to` of the bitmap. Also allocates for the frame of the entry if there is no capacity for it, and temporarily for the entry.
    ///
    /// # Complexity
    /// As `rewind_to` of the bitmap. The entry takes constant time, amortized if it allocates.
    pub fn rewind_to(
        self,
        number: u64,
    ) -> Result<BufferedStore<N, D>, (BufferedStore<N, D>, StoreError)>
        // The entry of the rewind waits, and makes the new state.
        ensures waits { (base : Base) (begun waiting : List Entry) (kept : ℕ)
            → IsBuffered N D.Device base begun kept waiting (kept_of N self.bitmap)
            self.log self.waiting → IfOk result (λ store.
            IsBuffered N D.Device base begun kept (waiting ++ Rewind number ∷ [])
            (kept_of N store.bitmap) store.log store.waiting) }
        // Nothing is written.
        ensures nothing { MatchResult result (λ store. store.log ≡ self.log)
            (λ e. e.0.log ≡ self.log) }
        ensures state { IfOk result (λ store. kept_of N store.bitmap
            ≡ after N (kept_of N self.bitmap) (Rewind number)) }
        ensures accepted { OnOk result (Accepts N (kept_of N self.bitmap) (Rewind number)) }
        ensures refused { self.log.is_read_only ≡ false → IfErr result (λ e. e.1
            ≡ (if is_some (kept_under (history_of N self.bitmap) number) then Memory alloc_error
            else NoSuchCommit)) }
        ensures unchanged { IfErr result (λ e. (e.0.bitmap ≡ self.bitmap)
            × (e.0.waiting ≡ self.waiting)) }
        ensures read_only { self.log.is_read_only ≡ true
            → MatchResult result (λ store. ⊥) (λ e. e.1 ≡ ReadOnly) }
    {
        let mut store = self;
        if store.log.is_read_only {
            return Err((store, StoreError::ReadOnly));
        }
        match rewind_waiting(store.alloc, store.bitmap, number, &mut store.waiting) {
            Ok(bitmap) => {
                store.bitmap = bitmap;
                Ok(store)
            }
            Err(refused) => {
                let (bitmap, error) = refused;
                store.bitmap = bitmap;
                Err((store, error))
            }
        }
    }

    /// Drops the commits before a number, as `prune_commits_before` of the bitmap does. The entry of the drop waits.
    ///
    /// The entry is written later even if no commit is dropped.
    ///
    /// # Errors
    /// Returns the first error that applies, with the store unchanged:
    ///
    /// - `ReadOnly` if an earlier call failed after it had begun to write;
    /// - `Memory` if an allocation fails, or if too much would wait: 2^56 bytes, or a log of 2^64.
    ///
    /// # Memory
    /// Allocates for the frame of the entry if there is no capacity for it, and temporarily for the entry.
    ///
    /// # Complexity
    /// As `prune_commits_before` of the bitmap. The entry takes constant time, amortized if it allocates.
    pub fn drop_before(&mut self, number: u64) -> Result<(), StoreError>
        ensures waits { (base : Base) (begun waiting : List Entry) (kept : ℕ)
            → IsBuffered N D.Device base begun kept waiting (kept_of N self.old.bitmap)
            self.old.log self.old.waiting → OnOk result (IsBuffered N D.Device base begun kept
            (waiting ++ DropBefore number ∷ []) (kept_of N self.new.bitmap)
            self.new.log self.new.waiting) }
        ensures nothing { self.new.log ≡ self.old.log }
        ensures state { OnOk result (kept_of N self.new.bitmap
            ≡ after N (kept_of N self.old.bitmap) (DropBefore number)) }
        ensures refused { self.old.log.is_read_only ≡ false
            → IfErr result (λ e. e ≡ Memory alloc_error) }
        ensures unchanged { OnErr result ((self.new.bitmap ≡ self.old.bitmap)
            × (self.new.waiting ≡ self.old.waiting)) }
        ensures read_only { self.old.log.is_read_only ≡ true → IsErrOf result ReadOnly }
    {
        if self.log.is_read_only {
            return Err(StoreError::ReadOnly);
        }
        let Ok(body) = encode_drop(self.alloc, number) else {
            return Err(StoreError::Memory(AllocError));
        };
        let Ok(()) = self.waiting.push::<N>(&body) else {
            return Err(StoreError::Memory(AllocError));
        };
        drop_is_an_entry(&mut self.bitmap, number);
        Ok(())
    }

    /// Drops all commits, as `clear_history` of the bitmap does. The entry of this waits.
    ///
    /// The entry is written later even if no commit is kept.
    ///
    /// # Errors
    /// As [`drop_before`](BufferedStore::drop_before).
    ///
    /// # Memory
    /// As [`drop_before`](BufferedStore::drop_before).
    ///
    /// # Complexity
    /// As `clear_history` of the bitmap. The entry takes constant time, amortized if it allocates.
    pub fn clear(&mut self) -> Result<(), StoreError>
        ensures waits { (base : Base) (begun waiting : List Entry) (kept : ℕ)
            → IsBuffered N D.Device base begun kept waiting (kept_of N self.old.bitmap)
            self.old.log self.old.waiting → OnOk result (IsBuffered N D.Device base begun kept
            (waiting ++ Clear ∷ []) (kept_of N self.new.bitmap)
            self.new.log self.new.waiting) }
        ensures nothing { self.new.log ≡ self.old.log }
        ensures state { OnOk result (kept_of N self.new.bitmap
            ≡ after N (kept_of N self.old.bitmap) Clear) }
        ensures refused { self.old.log.is_read_only ≡ false
            → IfErr result (λ e. e ≡ Memory alloc_error) }
        ensures unchanged { OnErr result ((self.new.bitmap ≡ self.old.bitmap)
            × (self.new.waiting ≡ self.old.waiting)) }
        ensures read_only { self.old.log.is_read_only ≡ true → IsErrOf result ReadOnly }
    {
        if self.log.is_read_only {
            return Err(StoreError::ReadOnly);
        }
        let Ok(body) = encode_clear(self.alloc) else {
            return Err(StoreError::Memory(AllocError));
        };
        let Ok(()) = self.waiting.push::<N>(&body) else {
            return Err(StoreError::Memory(AllocError));
        };
        clear_is_an_entry(&mut self.bitmap);
        Ok(())
    }
}

impl<const N: usize, D: Device> BufferedBatch<N, D> {
    /// Drops the pending edits, and returns the store as it was.
    ///
    /// Does not allocate.
    pub fn abort(self) -> BufferedStore<N, D>
        ensures kept { kept_of N result.bitmap ≡ kept_of N self.batch }
        ensures log { result.log ≡ self.log }
        ensures waiting { result.waiting ≡ self.waiting }
    {
        BufferedStore {
            alloc: self.alloc,
            bitmap: self.batch.abort(),
            log: self.log,
            waiting: self.waiting,
        }
    }

    /// Commits the batch, as `commit` of `DirtyBitMap` does. The entry of the commit waits.
    ///
    /// # Errors
    /// Returns the batch, unchanged, with the first error that applies:
    ///
    /// - `ReadOnly` if an earlier call failed after it had begun to write;
    /// - `Number` if the number is `u64::MAX`, or if it is not above the last number;
    /// - `Memory` if an allocation fails, or if too much would wait: 2^56 bytes, or a log of 2^64.
    ///
    /// # Memory
    /// As `commit` of `DirtyBitMap`. Also allocates for the frame of the entry if there is no capacity for it, and temporarily for the entry.
    ///
    /// # Complexity
    /// As `commit` of `DirtyBitMap`, and linear in the bytes of the marked chunks, with a few searches among the edited chunks for each one.
    /// Amortized, if it allocates.
    pub fn commit(
        self,
        number: u64,
    ) -> Result<BufferedStore<N, D>, (BufferedBatch<N, D>, StoreError)>
        // The entry of the commit waits, and makes the new state.
        ensures waits { (base : Base) (begun waiting : List Entry) (kept : ℕ)
            → IsBuffered N D.Device base begun kept waiting (kept_of N self.batch)
            self.log self.waiting → IfOk result (λ store.
            IsBuffered N D.Device base begun kept
            (waiting ++ entry_of_commit N self.batch number ∷ [])
            (kept_of N store.bitmap) store.log store.waiting) }
        // Nothing is written.
        ensures nothing { MatchResult result (λ store. store.log ≡ self.log)
            (λ e. e.0.log ≡ self.log) }

        // As for `commit` of a batch.
        ensures state { IfOk result (λ s. kept_of N s.bitmap
            ≡ after N (kept_of N self.batch) (entry_of_commit N self.batch number)) }
        ensures current { IfOk result (λ s. s.bitmap.current ≡ pending_of N self.batch) }
        ensures history { IfOk result (λ s. history_of N s.bitmap
            ≡ history_of N self.batch ++ (number, pending_of N self.batch) ∷ []) }
        ensures accepted { OnOk result (Accepts N (kept_of N self.batch)
            (entry_of_commit N self.batch number)) }
        ensures refused { self.log.is_read_only ≡ false → IfErr result (λ e. e.1
            ≡ commit_refusal (commit_error self.batch.last number)) }
        ensures unchanged { IfErr result (λ e. (e.0.batch ≡ self.batch)
            × (e.0.waiting ≡ self.waiting)) }
        ensures read_only { self.log.is_read_only ≡ true
            → MatchResult result (λ store. ⊥) (λ e. e.1 ≡ ReadOnly) }
    {
        let mut batch = self;
        if batch.log.is_read_only {
            return Err((batch, StoreError::ReadOnly));
        }
        match commit_waiting(batch.alloc, batch.batch, number, &mut batch.waiting) {
            Ok(bitmap) => Ok(BufferedStore {
                alloc: batch.alloc,
                bitmap,
                log: batch.log,
                waiting: batch.waiting,
            }),
            Err(refused) => {
                let (pending, error) = refused;
                batch.batch = pending;
                Err((batch, error))
            }
        }
    }
}
