//! The log of a historical bitmap, and the calls that change the bitmap and append their entry.
//!
//! Each call makes its change and appends its entry, or does neither. It appends exactly the bytes of that entry's frame at the end of the log
//! (clause `written`), the entry may follow the state that the bitmap has (`follows`), and makes of it the state that the bitmap then has (`entry`).
//! So if the bytes before a call are those of a log whose entries make the state of the bitmap, the bytes after it are too: the law
//! [`a_log_goes_on`](crate::a_log_goes_on) says this for all logs, and so for all sequences of these calls.

ghost use Rattle.std.specs.Prelude.{◌≡◌, ◌^◌, ◌<◌, ◌++◌, ◌∷◌, [], length, take, is_some, unwrap_or, IfOk, IfErr, OnOk, OnErr, alloc_error, if◌then◌else◌};
ghost use Rattle.std.specs.Int.{w64, to_be_bytes};
ghost use Rattle.std.specs.List.{flat_map};
ghost use Rattle.historical_bitmap.specs.Changes.{changed, listed};
ghost use Rattle.historical_bitmap.specs.History.{kept_under, up_to_number};
ghost use Rattle.historical_bitmap.specs.View.{AddsCost, commit_error, costs_of, history_of, pending_of};
ghost use Rattle.historical_bitmap.specs.declared.bitmap.historical.error.Error.TheVariants as commit_errors;
ghost use Rattle.historical_bitmap.specs.declared.bitmap.historical.error.RewindError.TheVariants.{Memory, NoSuchCommit};
ghost use Rattle.commit_log.specs.Entries.{encode_chunk, encode_entry};
ghost use Rattle.commit_log.specs.Entries.Entry.{Clear, DropBefore, Rewind};
ghost use Rattle.commit_log.specs.Kept.{after, entry_of_commit, kept_of};
ghost use Rattle.commit_log.specs.Logs.{MayFollow, appended, framed};

use crate::calls::{clear_is_an_entry, drop_is_an_entry, rewind_is_an_entry};
use crate::entry::{CLEAR, COMMIT, DROP_BEFORE, REWIND, push_chunk};
use historical_bitmap::bitmap::historical::{
    CleanBitMap, DirtyBitMap, Error, PreparedBitMap, RewindError,
};
use log_frames::{Place, push_frame};
use std::alloc::{AllocError, Global};
use std::marker::Model;
use std::mem;

/// The end of the log of a historical bitmap: the bytes that were appended to it and not taken yet, and the place after them.
///
/// [`commit_logged`], [`rewind_logged`], [`drop_before_logged`], [`clear_logged`] and [`apply_delta_logged`](crate::apply_delta_logged) append to
/// it. A program writes [`bytes`](Log::bytes) to its file, and then calls [`forget`](Log::forget). `N` is the number of bytes of a chunk of the bitmap.
#[derive(Debug, Drop)]
pub struct Log<const N: usize> {
    // The bytes that were appended and not taken yet.
    bytes: Vec<u8>,
    // The place after them.
    place: Place,
    // Where an entry is encoded, kept for its capacity.
    scratch: Vec<u8>,
}

impl<const N: usize> Model for Log<N> {
    ghost use Rattle.commit_log.specs.Logs.{LogView};

    ghost Value = { LogView };

    ghost view = { λ log. record { bytes = log.bytes.items; place = log.place } };
}

impl<const N: usize> Log<N> {
    // Returns the end of a log with these bytes that are not taken yet, and the place after them. Does not allocate.
    pub(crate) fn after(alloc: Global, bytes: Vec<u8>, place: Place) -> Log<N>
        ensures { result ≡ record { bytes = bytes.items; place = place } }
    {
        Log {
            bytes,
            place,
            scratch: Vec::new(alloc),
        }
    }

    /// Returns the bytes that were appended and not taken yet.
    ///
    /// Does not allocate; constant time.
    pub fn bytes(&self) -> &[u8]
        ensures { result.now ≡ self.now.bytes }
    {
        &self.bytes
    }

    /// Returns the number of bytes of the whole log, those that were taken included.
    ///
    /// Does not allocate; constant time.
    pub fn position(&self) -> u64
        ensures { result ≡ self.now.place.at }
    {
        self.place.at
    }

    /// Returns the digest of the whole log: that of its last frame, which depends on all frames before it.
    ///
    /// If two logs of one width have the same position and the same digest, they have the same bytes, unless two inputs of the digest collide.
    /// Does not allocate; constant time.
    pub fn digest(&self) -> u64
        ensures { result ≡ self.now.place.digest }
    {
        self.place.digest
    }

    /// Removes the bytes, once the program has written them to its file. The capacity for them is kept.
    ///
    /// Does not allocate.
    pub fn forget(&mut self)
        ensures { self.new ≡ record { bytes = []; place = self.old.place } }
    {
        self.bytes.clear();
    }

    /// Removes the bytes and returns them. The capacity for them goes with them, so the next entry allocates.
    ///
    /// Does not allocate; constant time.
    pub fn take(&mut self) -> Vec<u8>
        ensures taken { result.items ≡ self.old.bytes }
        ensures left { self.new ≡ record { bytes = []; place = self.old.place } }
    {
        let none = Vec::new(*self.bytes.allocator());
        mem::replace(&mut self.bytes, none)
    }

    // Appends the entry of a prepared commit.
    fn push_commit(&mut self, prepared: &PreparedBitMap<N>) -> Result<(), AllocError>
        ensures ok { OnOk result (self.new
            ≡ appended self.old (entry_of_commit N prepared.now.batch prepared.now.number)) }
        ensures small { OnOk result (length
            (encode_entry (entry_of_commit N prepared.now.batch prepared.now.number)) < 2 ^ 64) }
        ensures err { OnErr result (self.new ≡ self.old) }
    {
        encode_commit(&mut self.scratch, prepared)?;
        self.place = push_frame(&mut self.bytes, self.place, &self.scratch)?;
        Ok(())
    }

    // Appends the entry of a commit, of whose change these bytes are the encoding.
    pub(crate) fn push_encoded_change(&mut self, change: &[u8]) -> Result<(), AllocError>
        ensures ok { OnOk result (self.new ≡ framed self.old (1 ∷ change.now)) }
        ensures small { OnOk result (length (1 ∷ change.now) < 2 ^ 64) }
        ensures err { OnErr result (self.new ≡ self.old) }
    {
        self.scratch.clear();
        self.scratch.push(COMMIT)?;
        self.scratch.extend_from_slice(change)?;
        self.place = push_frame(&mut self.bytes, self.place, &self.scratch)?;
        Ok(())
    }

    // Appends an entry that has a number and no other field.
    fn push_number(&mut self, kind: u8, number: u64) -> Result<(), AllocError>
        ensures ok { OnOk result (self.new ≡ framed self.old (kind ∷ to_be_bytes w64 number)) }
        ensures err { OnErr result (self.new ≡ self.old) }
    {
        self.scratch.clear();
        self.scratch.push(kind)?;
        self.scratch.extend_from_slice(&number.to_be_bytes())?;
        self.place = push_frame(&mut self.bytes, self.place, &self.scratch)?;
        Ok(())
    }

    // Appends an entry that has no field.
    fn push_kind(&mut self, kind: u8) -> Result<(), AllocError>
        ensures ok { OnOk result (self.new ≡ framed self.old (kind ∷ [])) }
        ensures err { OnErr result (self.new ≡ self.old) }
    {
        self.place = push_frame(&mut self.bytes, self.place, &[kind])?;
        Ok(())
    }

    // Returns the place after the bytes.
    pub(crate) fn place(&self) -> Place
        ensures { result ≡ self.now.place }
    {
        self.place
    }

    // Removes the bytes after the first `len`, at whose end the log has this place.
    pub(crate) fn cut_back(&mut self, len: usize, place: Place)
        ensures { self.new ≡ record { bytes = take len self.old.bytes; place = place } }
    {
        self.bytes.truncate(len);
        self.place = place;
    }
}

// Appends the chunks that a prepared commit changes and that the pending bitmap retains, each with its index.
fn push_changed<const N: usize>(
    out: &mut Vec<u8>,
    prepared: &PreparedBitMap<N>,
) -> Result<(), AllocError>
    ensures { OnOk result (let new = pending_of N prepared.now.batch in out.new.items
        ≡ out.old.items ++ flat_map encode_chunk
        (listed N new (changed N prepared.now.batch.current new))) }
{
    let mut changes = prepared.changed_chunks();
    while let Some(change) = changes.next() {
        push_chunk(out, change.0 as u64, &change.1)?;
    }
    Ok(())
}

// Replaces the bytes of `out` by the encoding of the entry of a prepared commit.
#[tactic(auto, unfolding(crate::specs::Entries::encode_entry, crate::specs::Entries::encode_change))]
fn encode_commit<const N: usize>(
    out: &mut Vec<u8>,
    prepared: &PreparedBitMap<N>,
) -> Result<(), AllocError>
    ensures { OnOk result (out.new.items
        ≡ encode_entry (entry_of_commit N prepared.now.batch prepared.now.number)) }
{
    out.clear();
    out.push(COMMIT)?;
    out.extend_from_slice(&prepared.number().to_be_bytes())?;
    out.extend_from_slice(&prepared.pending_len().to_be_bytes())?;
    out.extend_from_slice(&(prepared.pending_pruned_chunks() as u64).to_be_bytes())?;
    push_changed(out, prepared)
}

/// Commits a batch, as `commit` does, and appends the entry of the commit to the log.
///
/// # Errors
/// Returns the batch, unchanged, with the error of `commit`: that of the number, even if memory is out too, or `Memory` if an allocation fails or
/// if the log would have 2^64 bytes or more. The log is unchanged then.
///
/// # Memory
/// As `commit`. Also allocates for the entry if the log has no capacity for it. A log whose bytes are removed by `forget` keeps its capacity, and
/// so allocates only for an entry that is longer than those before it.
///
/// # Complexity
/// As `commit`, and linear in the bytes of the marked chunks, with at most one search among the edited chunks for each one. Amortized, if it
/// allocates.
pub fn commit_logged<const N: usize>(
    batch: DirtyBitMap<N>,
    number: u64,
    log: &mut Log<N>,
) -> Result<CleanBitMap<N>, (DirtyBitMap<N>, Error)>
    ensures written { OnOk result (log.new
        ≡ appended log.old (entry_of_commit N batch.entry number)) }
    ensures follows { OnOk result (MayFollow N (kept_of N batch.entry)
        (entry_of_commit N batch.entry number)) }
    ensures entry { IfOk result (λ b. kept_of N b
        ≡ after N (kept_of N batch.entry) (entry_of_commit N batch.entry number)) }

    // As for `commit`.
    ensures current { IfOk result (λ b. b.current ≡ pending_of N batch.entry) }
    ensures history { IfOk result (λ b. history_of N b
        ≡ history_of N batch.entry ++ (number, pending_of N batch.entry) ∷ []) }
    ensures costs { IfOk result (AddsCost N batch.entry number) }

    // The number is tested first.
    ensures refused { IfErr result (λ e. e.1
        ≡ unwrap_or (commit_error batch.entry.last number) (commit_errors.Memory alloc_error)) }
    ensures nothing { OnErr result (log.new ≡ log.old) }
    ensures unchanged { IfErr result (λ e. e.0 ≡ batch.entry) }
{
    let _ = batch.len();
    let _ = batch.newly_pruned_chunks();
    let prepared = batch.prepare(number)?;
    let Ok(()) = log.push_commit(&prepared) else {
        return Err((prepared.into_dirty(), Error::Memory(AllocError)));
    };
    Ok(prepared.commit())
}

/// Rewinds a bitmap to a kept commit, as `rewind_to` does, and appends the entry of the rewind to the log.
///
/// # Errors
/// Returns the bitmap, unchanged, with the error of `rewind_to`: `NoSuchCommit` if no commit is kept under the number, even if memory is out too,
/// or `Memory` if an allocation fails or if the log would have 2^64 bytes or more. The log is unchanged then.
///
/// # Memory
/// As `rewind_to`. Also allocates for the entry if the log has no capacity for it.
///
/// # Complexity
/// As `rewind_to`. The entry takes constant time, amortized if it allocates.
#[tactic(auto, unfolding(crate::specs::Entries::encode_entry))]
pub fn rewind_logged<const N: usize>(
    bitmap: CleanBitMap<N>,
    number: u64,
    log: &mut Log<N>,
) -> Result<CleanBitMap<N>, (CleanBitMap<N>, RewindError)>
    ensures written { OnOk result (log.new ≡ appended log.old (Rewind number)) }
    ensures follows { OnOk result (MayFollow N (kept_of N bitmap.entry) (Rewind number)) }
    ensures entry { IfOk result (λ b. kept_of N b
        ≡ after N (kept_of N bitmap.entry) (Rewind number)) }
    // As for `rewind_to`.
    ensures costs { IfOk result (λ b. costs_of b ≡ up_to_number number (costs_of bitmap.entry)) }

    // The number is tested first.
    ensures refused { IfErr result (λ e. e.1
        ≡ (if is_some (kept_under (history_of N bitmap.entry) number) then Memory alloc_error
        else NoSuchCommit)) }
    ensures nothing { OnErr result (log.new ≡ log.old) }
    ensures unchanged { IfErr result (λ e. e.0 ≡ bitmap.entry) }
{
    if !bitmap.commit_exists(number) {
        return Err((bitmap, RewindError::NoSuchCommit));
    }
    let len = log.bytes().len();
    let place = log.place;
    let Ok(()) = log.push_number(REWIND, number) else {
        return Err((bitmap, RewindError::Memory(AllocError)));
    };
    match rewind_is_an_entry(bitmap, number) {
        Ok(bitmap) => Ok(bitmap),
        Err(refused) => {
            log.cut_back(len, place);
            Err(refused)
        }
    }
}

/// Drops the commits before a number, as `prune_commits_before` does, and appends the entry of the drop to the log.
///
/// The entry is appended even if no commit is dropped.
///
/// # Errors
/// Returns `AllocError` if an allocation fails, or if the log would have 2^64 bytes or more. The bitmap and the log are unchanged then.
///
/// # Memory
/// Allocates for the entry if the log has no capacity for it.
///
/// # Complexity
/// As `prune_commits_before`. The entry takes constant time, amortized if it allocates.
#[tactic(auto, unfolding(crate::specs::Entries::encode_entry))]
pub fn drop_before_logged<const N: usize>(
    bitmap: &mut CleanBitMap<N>,
    number: u64,
    log: &mut Log<N>,
) -> Result<(), AllocError>
    ensures written { OnOk result (log.new ≡ appended log.old (DropBefore number)) }
    ensures follows { OnOk result (MayFollow N (kept_of N bitmap.old) (DropBefore number)) }
    ensures entry { OnOk result (kept_of N bitmap.new
        ≡ after N (kept_of N bitmap.old) (DropBefore number)) }
    ensures nothing { OnErr result (log.new ≡ log.old) }
    ensures unchanged { OnErr result (bitmap.new ≡ bitmap.old) }
{
    log.push_number(DROP_BEFORE, number)?;
    drop_is_an_entry(bitmap, number);
    Ok(())
}

/// Drops all commits, as `clear_history` does, and appends the entry of this to the log.
///
/// The entry is appended even if no commit is kept.
///
/// # Errors
/// Returns `AllocError` if an allocation fails, or if the log would have 2^64 bytes or more. The bitmap and the log are unchanged then.
///
/// # Memory
/// Allocates for the entry if the log has no capacity for it.
///
/// # Complexity
/// As `clear_history`. The entry takes constant time, amortized if it allocates.
#[tactic(auto, unfolding(crate::specs::Entries::encode_entry))]
pub fn clear_logged<const N: usize>(
    bitmap: &mut CleanBitMap<N>,
    log: &mut Log<N>,
) -> Result<(), AllocError>
    ensures written { OnOk result (log.new ≡ appended log.old Clear) }
    ensures follows { OnOk result (MayFollow N (kept_of N bitmap.old) Clear) }
    ensures entry { OnOk result (kept_of N bitmap.new ≡ after N (kept_of N bitmap.old) Clear) }
    ensures nothing { OnErr result (log.new ≡ log.old) }
    ensures unchanged { OnErr result (bitmap.new ≡ bitmap.old) }
{
    log.push_kind(CLEAR)?;
    clear_is_an_entry(bitmap);
    Ok(())
}
