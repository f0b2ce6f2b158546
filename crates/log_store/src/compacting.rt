//! A log that is replaced by the history of the bitmap.

ghost use Rattle.std.specs.Prelude.{◌≡◌, ◌⊎◌, ℕ, ◌*◌, ◌≤◌, List, false, length, true, IfErr, IfOk, IsErrOf, OnErr, OnOk};
ghost use Rattle.commit_log.specs.Base.{Base};
ghost use Rattle.commit_log.specs.Entries.{Entry};
ghost use Rattle.commit_log.specs.History.{history_bytes, history_place};
ghost use Rattle.commit_log.specs.Kept.{kept_of};
ghost use Rattle.log_store.specs.Compacted.{IsCompacted, IsCompacting, is_grown};
ghost use Rattle.log_store.specs.Moments.{LeavesOnly};
ghost use Rattle.log_store.specs.Store.{IsStored, LeavesLog};
ghost use Rattle.log_store.specs.declared.error.StoreError.TheVariants.{ReadOnly};

use crate::error::StoreError;
use crate::opening::whole_log;
use crate::replacing::{Replaceable, replace_synced};
use crate::store::Store;
use commit_log::{a_compacted_log_makes_each_state, history_size};
use std::alloc::AllocError;

impl<const N: usize, D: Replaceable> Store<N, D> {
    /// Replaces the log by the history of the bitmap, which has one commit for each kept state after the first, and no rewind or drop. Returns once
    /// it is kept.
    ///
    /// The bitmap is unchanged. A crash during the call leaves the old log or the new one, and [`open`](Store::open) makes the same bitmap of both.
    ///
    /// # Errors
    /// Returns the first error that applies:
    ///
    /// - `ReadOnly` if an earlier call failed after it had begun to write;
    /// - `Memory` if an allocation fails before the device is called, or if the new log would have 2^64 bytes or more. Nothing was written.
    /// - `Device` if the device fails or runs out of memory. The store is then read-only.
    ///
    /// # Memory
    /// Temporarily the bytes of the new log, and what the calls of the device allocate.
    ///
    /// # Complexity
    /// As [`write_history`](commit_log::write_history), with one replacement of all bytes of the device.
    pub fn compact(&mut self) -> Result<(), StoreError>
        // The log has the history of the bitmap, and is kept.
        ensures compacted { (base : Base) (begun : List Entry) (kept : ℕ)
            → IsStored N D.Device base begun kept (kept_of N self.old.bitmap) self.old.log
            → OnOk result (IsCompacted N D.Device (kept_of N self.old.bitmap) self.new.log) }
        // A crash at any moment of the call leaves the old log or the new one.
        ensures any_moment { (base : Base) (begun : List Entry) (kept : ℕ)
            → IsStored N D.Device base begun kept (kept_of N self.old.bitmap) self.old.log
            → LeavesOnly D.Device self.old.log.device self.new.log.device
            (IsCompacting N base begun kept (kept_of N self.old.bitmap)) }
        ensures place { OnOk result
            (self.new.log.place ≡ history_place N (kept_of N self.old.bitmap)) }
        ensures unchanged { self.new.bitmap ≡ self.old.bitmap }
        ensures log { IfErr result (λ e. LeavesLog D.Device self.old.log e self.new.log) }
        ensures read_only { self.old.log.is_read_only ≡ true → IsErrOf result ReadOnly }
    {
        if self.log.is_read_only {
            return Err(StoreError::ReadOnly);
        }
        // The prover learns from these calls that the history makes the bitmap again.
        a_compacted_log_makes_each_state();
        let _ = self.bitmap.len();
        let Ok((bytes, place)) = whole_log(self.alloc, &self.bitmap) else {
            return Err(StoreError::Memory(AllocError));
        };
        if let Err(error) = replace_synced(&mut self.log.device, &bytes) {
            self.log.is_read_only = true;
            return Err(StoreError::Device(error));
        }
        self.log.place = place;
        Ok(())
    }

    // Returns whether the log has more than twice the bytes of the history of the bitmap.
    fn has_grown(&self) -> bool
        ensures { result ≡ is_grown N (kept_of N self.now.bitmap) self.now.log.place.at }
    {
        let bytes = self.position();
        match history_size(&self.bitmap) {
            Some(size) => bytes.saturating_sub(size) > size,
            None => false,
        }
    }

    /// Compacts the log, as [`compact`](Store::compact) does, if it has more than twice the bytes that it then has. Returns whether it did.
    ///
    /// The bytes of the log are those up to the last entry that is kept, as [`position`](Store::position) counts them. Each compaction of this call
    /// writes fewer bytes than it removes. A crash during the call leaves what a crash during `compact` does.
    ///
    /// # Errors
    /// Returns the first error that applies:
    ///
    /// - `ReadOnly` if an earlier call failed after it had begun to write;
    /// - `Memory` and `Device` as `compact`, and only if the log has so many bytes.
    ///
    /// # Memory
    /// None if the log is left alone, and otherwise as `compact`.
    ///
    /// # Complexity
    /// As [`history_size`](commit_log::history_size): at least linear in the number of kept commits, and in that of the chunks that they changed. If
    /// the log has so many bytes, also as `compact`.
    pub fn compact_if_grown(&mut self) -> Result<bool, StoreError>
        // Whether it has so many bytes decides.
        ensures grown { IfOk result (λ did. did
            ≡ is_grown N (kept_of N self.old.bitmap) self.old.log.place.at) }
        // If it has, the log has the history of the bitmap, and is kept.
        ensures compacted { (base : Base) (begun : List Entry) (kept : ℕ)
            → IsStored N D.Device base begun kept (kept_of N self.old.bitmap) self.old.log
            → IfOk result (λ did. did ≡ true
            → IsCompacted N D.Device (kept_of N self.old.bitmap) self.new.log) }
        // If not, the log is as it was.
        ensures left { IfOk result (λ did. did ≡ false → self.new.log ≡ self.old.log) }
        // After the call, the log has at most twice the bytes of the history.
        ensures bounded { OnOk result (self.new.log.place.at
            ≤ 2 * length (history_bytes N (kept_of N self.new.bitmap))) }
        // A crash at any moment of the call leaves the old log or the new one.
        ensures any_moment { (base : Base) (begun : List Entry) (kept : ℕ)
            → IsStored N D.Device base begun kept (kept_of N self.old.bitmap) self.old.log
            → LeavesOnly D.Device self.old.log.device self.new.log.device
            (IsCompacting N base begun kept (kept_of N self.old.bitmap)) }
        // Any other error than `ReadOnly` comes from a compaction.
        ensures tried { OnErr result ((self.old.log.is_read_only ≡ true)
            ⊎ (is_grown N (kept_of N self.old.bitmap) self.old.log.place.at ≡ true)) }
        ensures unchanged { self.new.bitmap ≡ self.old.bitmap }
        ensures log { IfErr result (λ e. LeavesLog D.Device self.old.log e self.new.log) }
        ensures read_only { self.old.log.is_read_only ≡ true → IsErrOf result ReadOnly }
    {
        if self.log.is_read_only {
            return Err(StoreError::ReadOnly);
        }
        if !self.has_grown() {
            return Ok(false);
        }
        self.compact()?;
        Ok(true)
    }
}
