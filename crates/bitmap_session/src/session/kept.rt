//! Calls on the kept commits: a session of its own of one of them, and the index of all of them.

ghost use Rattle.std.specs.Prelude.{◌≡◌, false, None, Some, IfErr, IfOk, IsOk, OnOk, unwrap_or};
ghost use Rattle.std.specs.Option.{option_map};
ghost use Rattle.historical_bitmap.specs.History.{kept_under};
ghost use Rattle.bitmap_session.specs.Machine.{checkout_refusal, machine_with, wants_no_batch};
ghost use Rattle.bitmap_session.specs.Replies as replies;
ghost use Rattle.bitmap_session.specs.Abstraction.{clean, machine_of, reason};

use crate::reply::Refusal;
use crate::session::{Session, State};
use historical_bitmap::bitmap::historical::CleanBitMap;
use std::mem;

// Adds an index of the kept commits to a bitmap, or drops it. Returns the result, and the bitmap after it as a state.
fn indexed_outside<const N: usize>(
    bitmap: CleanBitMap<N>,
    on: bool,
) -> (Result<(), Refusal>, State<N>)
    ensures same { machine_of result.1 ≡ clean N bitmap.entry }
    ensures memory { IfErr result.0 (λ e. reason e ≡ replies.Refusal.NoMemory) }
    ensures off { on ≡ false → IsOk result.0 }
{
    if !on {
        return (Ok(()), State::Clean(bitmap.without_index()));
    }
    match bitmap.indexed() {
        Ok(bitmap) => (Ok(()), State::Clean(bitmap)),
        Err((bitmap, _)) => (Err(Refusal::NoMemory), State::Clean(bitmap)),
    }
}

// Does the same for a state. In a batch it stays as it is.
fn indexed<const N: usize>(state: State<N>, on: bool) -> (Result<(), Refusal>, State<N>)
    ensures same { machine_of result.1 ≡ machine_of state.entry }
    ensures accepted { OnOk result.0 (wants_no_batch (machine_of state.entry).state ≡ None) }
    ensures refused { IfErr result.0 (λ e. reason e
        ≡ unwrap_or (wants_no_batch (machine_of state.entry).state) replies.Refusal.NoMemory) }
    ensures off { on ≡ false → IfErr result.0 (λ e. reason e ≡ replies.Refusal.WrongMode) }
{
    match state {
        State::Clean(bitmap) => indexed_outside(bitmap, on),
        State::Dirty(bitmap) => (Err(Refusal::WrongMode), State::Dirty(bitmap)),
    }
}

impl<const N: usize> Session<N> {
    /// Makes a session of the bitmap kept under a number: outside a batch, with this current bitmap, no commits and no last number.
    ///
    /// This session does not change. The bitmaps of the other one allocate from the same allocator.
    ///
    /// # Errors
    ///
    /// Returns the first of these that applies:
    ///
    /// - `WrongMode` in a batch;
    /// - `NoSuchCommit` if no commit is kept under the number;
    /// - `NoMemory` if an allocation fails.
    ///
    /// # Memory
    ///
    /// Allocates as `get_at_commit` of `CleanBitMap`.
    ///
    /// # Complexity
    ///
    /// As `get_at_commit` of `CleanBitMap`. In a batch, constant.
    pub fn checkout(&self, number: u64) -> Result<Self, Refusal>
        ensures value { IfOk result (λ s. Some s
            ≡ option_map machine_with (kept_under self.now.state.history number)) }
        ensures accepted { OnOk result (checkout_refusal self.now.state number ≡ None) }
        ensures refused { IfErr result (λ e. reason e
            ≡ unwrap_or (checkout_refusal self.now.state number) replies.Refusal.NoMemory) }
    {
        let State::Clean(bitmap) = &self.state else {
            return Err(Refusal::WrongMode);
        };
        match bitmap.get_at_commit(number) {
            Ok(Some(kept)) => Ok(Session {
                state: State::Clean(CleanBitMap::from_bitmap(self.alloc, kept)),
                alloc: self.alloc,
            }),
            Ok(None) => Err(Refusal::NoSuchCommit),
            Err(_) => Err(Refusal::NoMemory),
        }
    }

    /// Adds an index of the kept commits if `on` is true, and drops it otherwise.
    ///
    /// With the index, [`Session::at`] reads a chunk of any kept commit by one search, however many commits are kept. `Commit`,
    /// `Rewind`, `DropBefore`, `Clear` and `apply_delta` keep the index, and a clone has a copy of it. `Start` makes a session without
    /// one. Nothing that a call replies depends on the index, but a commit also allocates the entries of the index for it.
    ///
    /// # Errors
    ///
    /// Returns `WrongMode` in a batch. Returns `NoMemory` if an allocation fails, and the session is then without an index.
    /// The bitmap and the commits do not change in any case.
    ///
    /// # Memory
    ///
    /// Allocates as `indexed` of `CleanBitMap` if `on` is true. Otherwise does not allocate.
    ///
    /// # Complexity
    ///
    /// As `indexed` or `without_index` of `CleanBitMap`. In a batch, constant.
    pub fn set_indexed(&mut self, on: bool) -> Result<(), Refusal>
        ensures unchanged { self.new ≡ self.old }
        ensures accepted { OnOk result (wants_no_batch self.old.state ≡ None) }
        ensures refused { IfErr result (λ e. reason e
            ≡ unwrap_or (wants_no_batch self.old.state) replies.Refusal.NoMemory) }
        ensures off { on ≡ false → IfErr result (λ e. reason e ≡ replies.Refusal.WrongMode) }
    {
        let empty = State::Clean(CleanBitMap::new(self.alloc));
        let state = mem::replace(&mut self.state, empty);
        let (result, state) = indexed(state, on);
        self.state = state;
        result
    }
}
