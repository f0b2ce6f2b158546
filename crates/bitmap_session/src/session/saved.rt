//! Sessions that outlive their process: their history as bytes, and deltas.
//!
//! A history has the current bitmap, the kept bitmaps and the last number of a session. It has no batch.

ghost use Rattle.std.specs.Prelude.{◌≡◌, ℕ, ◌<◌, ◌≤◌, ◌++◌, List, length, take, if◌then◌else◌, Some, IfOk, IfErr, IsErrOf, MatchResult, OnErr, OnOk, alloc_error};
ghost use Rattle.std.specs.Option.{option_map};
ghost use Rattle.bitmap_bytes.specs.Chunk.{IsWidth};
ghost use Rattle.bitmap_core.specs.PrunedBits.{PrunedBits};
ghost use Rattle.commit_log.specs.Delta.{Brings, IsStep, committed, delta_between, delta_of, encode_delta};
ghost use Rattle.commit_log.specs.declared.deltas.DeltaError.TheVariants.{Memory as DeltaMemory};
ghost use Rattle.commit_log.specs.declared.reading.HistoryError.TheVariants.{Header, Memory as HistoryMemory};
ghost use Rattle.commit_log.specs.History.{HasLog, IsHistory, history_bytes};
ghost use Rattle.commit_log.specs.Kept.{Kept};
ghost use Rattle.commit_log.specs.Reading.{IsCutOff, IsHistoryError, IsWithin, ranges};
ghost use Rattle.log_frames.specs.declared.header.HeaderError.TheVariants.{Short};
ghost use Rattle.bitmap_session.specs.Abstraction.{clean, machine_of};
ghost use Rattle.bitmap_session.specs.Machine.{is_dirty};
ghost use Rattle.bitmap_session.specs.Saved.{AppliesDelta, IsApplyDeltaError, IsOutside, KeepsStep, kept_part};
ghost use Rattle.bitmap_session.specs.declared.session.saved.ApplyDeltaError.TheVariants.{Delta};
ghost use Rattle.bitmap_session.specs.declared.session.saved.SaveError.TheVariants.{InBatch, Memory};

use crate::session::{Session, State};
use bitmap_core::bitmap::codec::RangeCfg;
use commit_log::{DeltaError, HistoryError, read_history, write_history};
use historical_bitmap::bitmap::historical::CleanBitMap;
use std::alloc::{AllocError, Global};
use std::mem;
use thiserror::Error as ErrorDerive;

/// Why the history of a session, or a delta between two of its commits, was not written.
#[derive(Clone, Copy, Debug, PartialEq, Eq, ErrorDerive)]
pub enum SaveError {
    /// The session is in a batch.
    #[error("the session is in a batch")]
    InBatch,

    /// An allocation failed.
    #[error("out of memory")]
    Memory(AllocError),
}

/// Why a session did not apply a delta.
#[derive(Clone, Copy, Debug, PartialEq, Eq, ErrorDerive)]
pub enum ApplyDeltaError {
    /// The session is in a batch.
    #[error("the session is in a batch")]
    InBatch,

    /// The bytes have this error as a delta, or an allocation failed.
    #[error("{0}")]
    Delta(DeltaError),
}

// Applies a delta to a bitmap. Returns the result, and the bitmap after it as a state.
fn applied_outside<const N: usize>(
    bitmap: CleanBitMap<N>,
    bytes: &[u8],
) -> (Result<(), ApplyDeltaError>, State<N>)
    ensures { AppliesDelta N bytes.now (clean N bitmap.entry) result.0 (machine_of result.1) }
{
    match commit_log::apply_delta(bitmap, bytes) {
        Ok(bitmap) => {
            // The prover learns from these calls that the kept numbers rise up to the last number.
            let _ = bitmap.commits();
            let _ = bitmap.last_number();
            (Ok(()), State::Clean(bitmap))
        }
        Err((bitmap, error)) => (Err(ApplyDeltaError::Delta(error)), State::Clean(bitmap)),
    }
}

// Applies a delta to a state outside a batch. Returns the result, and the state after it.
fn applied<const N: usize>(state: State<N>, bytes: &[u8]) -> (Result<(), ApplyDeltaError>, State<N>)
    ensures { AppliesDelta N bytes.now (machine_of state.entry) result.0 (machine_of result.1) }
{
    match state {
        State::Clean(bitmap) => applied_outside(bitmap, bytes),
        State::Dirty(bitmap) => (Err(ApplyDeltaError::InBatch), State::Dirty(bitmap)),
    }
}

impl<const N: usize> Session<N> {
    // Makes a session outside a batch of a bitmap.
    pub(crate) fn outside(alloc: Global, bitmap: CleanBitMap<N>) -> Self
        ensures { result ≡ clean N bitmap.entry }
    {
        // The prover learns from these calls the width, and that the kept numbers rise up to the last number.
        let _ = bitmap.len();
        let _ = bitmap.commits();
        let _ = bitmap.last_number();
        Session {
            state: State::Clean(bitmap),
            alloc,
        }
    }

    /// Appends the history of the session to `out`: its current bitmap, its kept commits and its last number.
    ///
    /// [`Session::load`] with ranges that admit it reads it back, unless an allocation fails. The bytes are those of
    /// `commit_log::write_history`.
    ///
    /// # Errors
    ///
    /// Returns `InBatch` in a batch, and `Memory` if an allocation fails. `out` then has the same bytes as before.
    ///
    /// # Memory
    ///
    /// Allocates as `commit_log::write_history`, from the allocator of `out`.
    ///
    /// # Complexity
    ///
    /// As `commit_log::write_history`. In a batch, constant.
    pub fn save(&self, out: &mut Vec<u8>) -> Result<(), SaveError>
        ensures written { OnOk result (out.new.items
            ≡ out.old.items ++ history_bytes N (kept_part self.now.state)) }
        ensures outside { OnOk result (IsOutside self.now) }
        // What is written is a log, which makes the session again.
        ensures log { OnOk result (HasLog N (kept_part self.now.state)) }
        ensures ends { OnOk result (IsHistory (kept_part self.now.state)) }
        ensures refused { IfErr result (λ e. e
            ≡ (if is_dirty self.now.state then InBatch else Memory alloc_error)) }
        ensures unchanged { OnErr result (out.new.items ≡ out.old.items) }
    {
        match &self.state {
            State::Clean(bitmap) => match write_history(bitmap, out) {
                Ok(_) => Ok(()),
                Err(error) => Err(SaveError::Memory(error)),
            },
            State::Dirty(_) => Err(SaveError::InBatch),
        }
    }

    /// Reads the history that the bytes begin with, and advances `from` past it. Returns a session outside a batch with this history.
    ///
    /// The current bitmap, the kept commits and the last number are those of the session that was saved. A kept commit may have
    /// fewer entries than in that session, so `Entries` may reply a smaller number.
    ///
    /// `bits` limits the number of retained bits of the current bitmap and of each kept one, and `commits` the number of commits
    /// after the first kept one. `N` is at least 1, and `8N` fits `u64`. The bitmaps of the session allocate from `alloc`.
    ///
    /// # Errors
    ///
    /// Returns the first error of the bytes, in the order that `commit_log::read_history` lists. `from` is then unchanged.
    ///
    /// # Memory
    ///
    /// Allocates as `commit_log::read_history`.
    ///
    /// # Complexity
    ///
    /// As `commit_log::read_history`.
    pub fn load(
        alloc: Global,
        from: &mut &[u8],
        bits: &RangeCfg,
        commits: &RangeCfg,
    ) -> Result<Self, HistoryError>
        requires width { IsWidth N }
        // What is read has exactly this encoding.
        ensures value { IfOk result (λ s.
            from.old.now ≡ history_bytes N (kept_part s.state) ++ from.new.now) }
        ensures outside { IfOk result (λ s. IsOutside s) }
        ensures ends { IfOk result (λ s. IsHistory (kept_part s.state)) }
        ensures admitted { IfOk result (λ s.
            IsWithin (ranges bits.now commits.now) (kept_part s.state)) }
        ensures unchanged { OnErr result (from.new ≡ from.old) }

        // From the history of a state, this state is read, and nothing after it.
        ensures again { (kept : Kept) (rest : List ℕ) → HasLog N kept → IsHistory kept
            → from.old.now ≡ history_bytes N kept ++ rest
            → IfOk result (λ s. (kept_part s.state ≡ kept) × (from.new.now ≡ rest)) }
        // An admitted history is read from its bytes, unless an allocation fails.
        ensures complete { (kept : Kept) (rest : List ℕ) → HasLog N kept
            → IsWithin (ranges bits.now commits.now) kept
            → from.old.now ≡ history_bytes N kept ++ rest
            → IfErr result (λ e. e ≡ HistoryMemory alloc_error) }

        // One that is cut off lacks bytes of its header, or of a frame.
        ensures header { length from.old.now < 32 → IsErrOf result (Header Short) }
        ensures cut { (kept : Kept) (m : ℕ) → HasLog N kept
            → IsWithin (ranges bits.now commits.now) kept
            → 32 ≤ m → m < length (history_bytes N kept)
            → from.old.now ≡ take m (history_bytes N kept) → IsCutOff result }

        // Which error it is, and why.
        ensures error { IfErr result
            (IsHistoryError N (ranges bits.now commits.now) from.old.now) }
    {
        match read_history(alloc, from, bits, commits) {
            Ok(bitmap) => Ok(Session::outside(alloc, bitmap)),
            Err(error) => Err(error),
        }
    }

    /// Returns the delta from the bitmap at one commit to the bitmap at another, as its encoding.
    ///
    /// Returns `None` unless both commits are kept and `from` is below `to`. A session whose current bitmap is that at `from`, and
    /// whose last number is `from`, applies it by [`Session::apply_delta`].
    ///
    /// # Errors
    ///
    /// Returns `InBatch` in a batch, and `Memory` if an allocation fails.
    ///
    /// # Memory
    ///
    /// Allocates as `commit_log::delta`.
    ///
    /// # Complexity
    ///
    /// As `commit_log::delta`. In a batch, constant.
    pub fn delta(&self, from: u64, to: u64) -> Result<Option<Vec<u8>>, SaveError>
        ensures value { IfOk result (λ found. option_map (λ bytes. bytes.items) found
            ≡ delta_of N self.now.state.history from to) }
        // A session at the older bitmap accepts it.
        ensures step { KeepsStep N self.now from to }
        ensures outside { OnOk result (IsOutside self.now) }
        ensures refused { IfErr result (λ e. e
            ≡ (if is_dirty self.now.state then InBatch else Memory alloc_error)) }
    {
        let State::Clean(bitmap) = &self.state else {
            return Err(SaveError::InBatch);
        };
        match commit_log::delta(self.alloc, bitmap, from, to) {
            Ok(found) => Ok(found),
            Err(_) => Err(SaveError::Memory(AllocError)),
        }
    }

    /// Applies a delta, which is all of the bytes, as the next commit of the session.
    ///
    /// The session is at the older bitmap of the delta if its last number, its length, its pruned count and the digest of its own
    /// bytes of the listed chunks are those of that bitmap. It need not keep a commit of it. Afterwards the newer bitmap is current
    /// and kept under its number, and the commit costs what its reverse record has in entries.
    ///
    /// # Errors
    ///
    /// Returns `InBatch` in a batch, and otherwise the error of `commit_log::apply_delta` as `Delta`. The session is then unchanged.
    ///
    /// # Memory
    ///
    /// Allocates as `commit_log::apply_delta`.
    ///
    /// # Complexity
    ///
    /// As `commit_log::apply_delta`. In a batch, constant.
    pub fn apply_delta(&mut self, bytes: &[u8]) -> Result<(), ApplyDeltaError>
        ensures outside { OnOk result (IsOutside self.old × IsOutside self.new) }
        ensures entry { OnOk result (Brings N bytes.now
            (kept_part self.old.state) (kept_part self.new.state)) }
        ensures error { IfErr result (λ e. IsApplyDeltaError N self.old bytes.now e) }
        ensures unchanged { OnErr result (self.new ≡ self.old) }

        // What brings the session to another state is refused by nothing but out of memory.
        ensures complete { (t : Kept) → IsOutside self.old
            → Brings N bytes.now (kept_part self.old.state) t
            → IfErr result (λ e. e ≡ Delta (DeltaMemory alloc_error)) }
        // At the older bitmap, the delta to a newer one commits that one under its number.
        ensures newer { (from to : ℕ) (new : PrunedBits) → IsOutside self.old
            → IsStep N from self.old.state.current to new
            → self.old.state.last ≡ Some from
            → bytes.now ≡ encode_delta N (delta_between N from self.old.state.current to new)
            → MatchResult result
            (λ _. kept_part self.new.state ≡ committed (kept_part self.old.state) to new)
            (λ e. e ≡ Delta (DeltaMemory alloc_error)) }
    {
        let alloc = self.alloc;
        let empty = State::Clean(CleanBitMap::new(alloc));
        let state = mem::replace(&mut self.state, empty);
        let (result, state) = applied(state, bytes);
        self.state = state;
        result
    }

    // States that the width of a session is at least 1, and that a chunk has fewer than 2^64 bits. Does not allocate.
    pub(crate) fn has_width(&self)
        ensures { IsWidth N }
    {
        let _ = &self.state;
    }
}
