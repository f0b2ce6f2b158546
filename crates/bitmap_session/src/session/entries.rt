//! Commands and deltas that are run with their entry: each makes its change and appends the entry to a log, or does neither.

ghost use Rattle.std.specs.Prelude.{◌≡◌, ℕ, ◌∷◌, [], false, if◌then◌else◌, IfErr, IfOk, IsErrOf, OnErr, OnOk, alloc_error};
ghost use Rattle.commit_log.specs.Entries.{Entry};
ghost use Rattle.commit_log.specs.History.{history_bytes, history_place};
ghost use Rattle.commit_log.specs.Logs.{GoesOn};
ghost use Rattle.bitmap_session.specs.Abstraction.{clean, dirty, machine_of, value_of};
ghost use Rattle.bitmap_session.specs.Laws.{HasRisingNumbers};
ghost use Rattle.bitmap_session.specs.Logged.{IsLogError, IsLogged, LogsDelta, Serves, appended_all};
ghost use Rattle.bitmap_session.specs.Machine.{is_dirty};
ghost use Rattle.bitmap_session.specs.Saved.{IsOutside, kept_part};
ghost use Rattle.bitmap_session.specs.declared.command.Command.TheVariants.{Start};
ghost use Rattle.bitmap_session.specs.declared.session.entries.LogError.TheVariants.{Memory, NoEntry};
ghost use Rattle.bitmap_session.specs.declared.session.saved.SaveError.TheVariants.{InBatch};
ghost use Rattle.bitmap_session.specs.declared.session.saved.SaveError.TheVariants.{Memory as SaveMemory};

use crate::command::Command;
use crate::reply::{Refusal, Reply};
use crate::session::saved::{ApplyDeltaError, SaveError};
use crate::session::{Session, State};
use commit_log::{
    Log, a_compacted_log_makes_each_state, apply_delta_logged, clear_logged, commit_logged,
    drop_before_logged, rewind_logged,
};
use historical_bitmap::bitmap::historical::{CleanBitMap, DirtyBitMap};
use std::alloc::{AllocError, Global};
use std::mem;
use thiserror::Error as ErrorDerive;

/// Why a session with a log did not run a command. Nothing is changed then.
#[derive(Clone, Copy, Debug, PartialEq, Eq, ErrorDerive)]
pub enum LogError {
    /// The command is `Start`, for which a log has no entry.
    #[error("a log has no entry for this command")]
    NoEntry,

    /// The entry of `DropBefore` or `Clear` was not appended: an allocation failed, or the log would have 2^64 bytes or more.
    #[error("out of memory")]
    Memory(AllocError),
}

// Commits a batch with its entry. Returns the reply, and the state after the commit.
fn commit_batch<const N: usize>(
    batch: DirtyBitMap<N>,
    number: u64,
    log: &mut Log<N>,
) -> (Reply<N>, State<N>)
    ensures served { Serves N
        (record { machine = dirty N batch.entry; log = log.old }) (Command.Commit number)
        (value_of result.0) (record { machine = machine_of result.1; log = log.new }) }
    ensures rises { HasRisingNumbers (dirty N batch.entry).state
        → HasRisingNumbers (machine_of result.1).state }
{
    match commit_logged(batch, number, log) {
        Ok(bitmap) => {
            // The prover learns from these calls that the kept numbers rise up to the last number.
            let _ = bitmap.commits();
            let _ = bitmap.last_number();
            (Reply::Done, State::Clean(bitmap))
        }
        Err((batch, error)) => (Reply::Refused(Refusal::from(error)), State::Dirty(batch)),
    }
}

// Commits a state with its entry. Returns the reply, and the state after the command.
fn commit<const N: usize>(state: State<N>, number: u64, log: &mut Log<N>) -> (Reply<N>, State<N>)
    ensures served { Serves N
        (record { machine = machine_of state.entry; log = log.old }) (Command.Commit number)
        (value_of result.0) (record { machine = machine_of result.1; log = log.new }) }
    ensures rises { HasRisingNumbers (machine_of state.entry).state
        → HasRisingNumbers (machine_of result.1).state }
{
    match state {
        State::Dirty(batch) => commit_batch(batch, number, log),
        State::Clean(bitmap) => (Reply::Refused(Refusal::WrongMode), State::Clean(bitmap)),
    }
}

// Rewinds a bitmap with its entry. Returns the reply, and the state after the rewind.
fn rewind_bitmap<const N: usize>(
    bitmap: CleanBitMap<N>,
    number: u64,
    log: &mut Log<N>,
) -> (Reply<N>, State<N>)
    ensures served { Serves N
        (record { machine = clean N bitmap.entry; log = log.old }) (Command.Rewind number)
        (value_of result.0) (record { machine = machine_of result.1; log = log.new }) }
    ensures rises { HasRisingNumbers (clean N bitmap.entry).state
        → HasRisingNumbers (machine_of result.1).state }
{
    match rewind_logged(bitmap, number, log) {
        Ok(bitmap) => {
            // The prover learns from these calls that the kept numbers rise up to the last number.
            let _ = bitmap.commits();
            let _ = bitmap.last_number();
            (Reply::Done, State::Clean(bitmap))
        }
        Err((bitmap, error)) => (Reply::Refused(Refusal::from(error)), State::Clean(bitmap)),
    }
}

// Rewinds a state with its entry. Returns the reply, and the state after the command.
fn rewind<const N: usize>(state: State<N>, number: u64, log: &mut Log<N>) -> (Reply<N>, State<N>)
    ensures served { Serves N
        (record { machine = machine_of state.entry; log = log.old }) (Command.Rewind number)
        (value_of result.0) (record { machine = machine_of result.1; log = log.new }) }
    ensures rises { HasRisingNumbers (machine_of state.entry).state
        → HasRisingNumbers (machine_of result.1).state }
{
    match state {
        State::Clean(bitmap) => rewind_bitmap(bitmap, number, log),
        State::Dirty(batch) => (Reply::Refused(Refusal::WrongMode), State::Dirty(batch)),
    }
}

// Applies a delta to a bitmap with its entry. Returns the result, and the bitmap after it as a state.
fn delta_outside<const N: usize>(
    bitmap: CleanBitMap<N>,
    bytes: &[u8],
    log: &mut Log<N>,
) -> (Result<(), ApplyDeltaError>, State<N>)
    ensures { LogsDelta N bytes.now (record { machine = clean N bitmap.entry; log = log.old })
        result.0 (record { machine = machine_of result.1; log = log.new }) }
{
    match apply_delta_logged(bitmap, bytes, log) {
        Ok(bitmap) => {
            // The prover learns from these calls that the kept numbers rise up to the last number.
            let _ = bitmap.commits();
            let _ = bitmap.last_number();
            (Ok(()), State::Clean(bitmap))
        }
        Err((bitmap, error)) => (Err(ApplyDeltaError::Delta(error)), State::Clean(bitmap)),
    }
}

// Applies a delta to a state with its entry. Returns the result, and the state after it.
fn delta<const N: usize>(
    state: State<N>,
    bytes: &[u8],
    log: &mut Log<N>,
) -> (Result<(), ApplyDeltaError>, State<N>)
    ensures { LogsDelta N bytes.now (record { machine = machine_of state.entry; log = log.old })
        result.0 (record { machine = machine_of result.1; log = log.new }) }
{
    match state {
        State::Clean(bitmap) => delta_outside(bitmap, bytes, log),
        State::Dirty(batch) => (Err(ApplyDeltaError::InBatch), State::Dirty(batch)),
    }
}

impl<const N: usize> Session<N> {
    /// Begins a log with the history of the session. The bytes of the log are those of the history, which the program writes first.
    ///
    /// A program that keeps the session and its log apart goes on with the log by [`Session::serve_with_entry`] and
    /// [`Session::apply_delta_with_entry`]. A `LoggedSession` keeps both together.
    ///
    /// # Errors
    ///
    /// Returns `InBatch` in a batch, and `Memory` if an allocation fails.
    ///
    /// # Memory
    ///
    /// Allocates as `commit_log::write_history`, from `alloc`.
    ///
    /// # Complexity
    ///
    /// As `commit_log::write_history`. In a batch, constant.
    pub fn begin_log(&self, alloc: Global) -> Result<Log<N>, SaveError>
        ensures log { IfOk result (λ log. log ≡ record {
          bytes = history_bytes N (kept_part self.now.state);
          place = history_place N (kept_part self.now.state);
        }) }
        ensures outside { OnOk result (IsOutside self.now) }
        // The bytes are a log that makes what the session keeps.
        ensures logged { IfOk result (λ log.
            IsLogged N [] (record { machine = self.now; log = log })) }
        ensures refused { IfErr result (λ e. e
            ≡ (if is_dirty self.now.state then InBatch else SaveMemory alloc_error)) }
    {
        a_compacted_log_makes_each_state();
        self.has_width();
        match &self.state {
            State::Clean(bitmap) => match Log::begin(alloc, bitmap) {
                Ok(log) => Ok(log),
                Err(error) => Err(SaveError::Memory(error)),
            },
            State::Dirty(_) => Err(SaveError::InBatch),
        }
    }

    // Runs `Commit` with its entry.
    fn commit_with_entry(&mut self, number: u64, log: &mut Log<N>) -> Reply<N>
        ensures { Serves N
            (record { machine = self.old; log = log.old }) (Command.Commit number)
            (value_of result) (record { machine = self.new; log = log.new }) }
    {
        let alloc = self.alloc;
        let empty = State::Clean(CleanBitMap::new(alloc));
        let state = mem::replace(&mut self.state, empty);
        let (reply, state) = commit(state, number, log);
        self.state = state;
        reply
    }

    // Runs `Rewind` with its entry.
    fn rewind_with_entry(&mut self, number: u64, log: &mut Log<N>) -> Reply<N>
        ensures { Serves N
            (record { machine = self.old; log = log.old }) (Command.Rewind number)
            (value_of result) (record { machine = self.new; log = log.new }) }
    {
        let alloc = self.alloc;
        let empty = State::Clean(CleanBitMap::new(alloc));
        let state = mem::replace(&mut self.state, empty);
        let (reply, state) = rewind(state, number, log);
        self.state = state;
        reply
    }

    // Appends the entry of a drop outside a batch, and nothing in one.
    //
    // The entry is the same for every bitmap. So it is appended with an empty one, and the drop itself, which cannot fail, is left to the caller.
    fn push_drop(&self, number: u64, log: &mut Log<N>) -> Result<(), LogError>
        ensures log { OnOk result (log.new ≡ appended_all log.old
            (if is_dirty self.now.state then [] else Entry.DropBefore number ∷ [])) }
        ensures follows { OnOk result (GoesOn N (kept_part self.now.state)
            (if is_dirty self.now.state then [] else Entry.DropBefore number ∷ [])) }
        ensures error { IfErr result (λ e.
            (e ≡ Memory alloc_error) × (is_dirty self.now.state ≡ false)) }
        ensures unchanged { OnErr result (log.new ≡ log.old) }
    {
        match &self.state {
            State::Clean(_) => {
                let mut empty = CleanBitMap::<N>::new(self.alloc);
                match drop_before_logged(&mut empty, number, log) {
                    Ok(()) => Ok(()),
                    Err(error) => Err(LogError::Memory(error)),
                }
            }
            State::Dirty(_) => Ok(()),
        }
    }

    // Appends the entry of a clear outside a batch, and nothing in one, as `push_drop` does.
    fn push_clear(&self, log: &mut Log<N>) -> Result<(), LogError>
        ensures log { OnOk result (log.new ≡ appended_all log.old
            (if is_dirty self.now.state then [] else Entry.Clear ∷ [])) }
        ensures follows { OnOk result (GoesOn N (kept_part self.now.state)
            (if is_dirty self.now.state then [] else Entry.Clear ∷ [])) }
        ensures error { IfErr result (λ e.
            (e ≡ Memory alloc_error) × (is_dirty self.now.state ≡ false)) }
        ensures unchanged { OnErr result (log.new ≡ log.old) }
    {
        match &self.state {
            State::Clean(_) => {
                let mut empty = CleanBitMap::<N>::new(self.alloc);
                match clear_logged(&mut empty, log) {
                    Ok(()) => Ok(()),
                    Err(error) => Err(LogError::Memory(error)),
                }
            }
            State::Dirty(_) => Ok(()),
        }
    }

    /// Runs one command as [`Session::serve`] does, and appends the entry of the command to the log if it has one and is accepted.
    ///
    /// A `Commit`, a `Rewind`, a `DropBefore` and a `Clear` have an entry. Any other command leaves the log unchanged, and so does a refused
    /// one. What the session keeps afterwards is what the entry makes of what it kept before. So a log that makes what the session keeps, as
    /// after [`Session::begin_log`], still does afterwards if each change of what is kept is made by this call or by
    /// [`Session::apply_delta_with_entry`].
    ///
    /// # Errors
    ///
    /// Returns an error, and leaves the session and the log unchanged, in these cases:
    ///
    /// - `NoEntry` if the command is `Start`, since a log goes on from its base;
    /// - `Memory` if the command is `DropBefore` or `Clear` outside a batch, and its entry was not appended: an allocation failed, or the log
    ///   would have 2^64 bytes or more. For `Commit` and `Rewind` the reply is then `Refused(NoMemory)`.
    ///
    /// # Memory
    ///
    /// Allocates as [`Session::serve`]. Also allocates for the entry if the log has no capacity for it.
    ///
    /// # Complexity
    ///
    /// As [`Session::serve`]. The entry of a commit takes time as `commit_log::commit_logged` says, and any other one constant time, amortized
    /// if it allocates.
    pub fn serve_with_entry(
        &mut self,
        command: &Command<N>,
        log: &mut Log<N>,
    ) -> Result<Reply<N>, LogError>
        ensures served { IfOk result (λ reply. Serves N
            (record { machine = self.old; log = log.old }) command.now
            (value_of reply) (record { machine = self.new; log = log.new })) }
        ensures error { IfErr result (IsLogError N self.old command.now) }
        ensures start { (chunks : ℕ) → command.now ≡ Start chunks → IsErrOf result NoEntry }
        ensures unchanged { OnErr result (self.new ≡ self.old) }
        ensures unlogged { OnErr result (log.new ≡ log.old) }
    {
        match command {
            Command::Start(_) => Err(LogError::NoEntry),
            Command::Commit(number) => Ok(self.commit_with_entry(*number, log)),
            Command::Rewind(number) => Ok(self.rewind_with_entry(*number, log)),
            Command::DropBefore(number) => match self.push_drop(*number, log) {
                Ok(()) => Ok(self.serve(command)),
                Err(error) => Err(error),
            },
            Command::Clear => match self.push_clear(log) {
                Ok(()) => Ok(self.serve(command)),
                Err(error) => Err(error),
            },
            _ => Ok(self.serve(command)),
        }
    }

    /// Applies a delta, which is all of the bytes, as [`Session::apply_delta`] does, and appends the entry of its commit to the log.
    ///
    /// The entry is the one that a `Commit` with [`Session::serve_with_entry`] appends if it makes the same bitmap under the same number.
    ///
    /// # Errors
    ///
    /// Those of [`Session::apply_delta`]. The error is also `Memory`, as `Delta`, if the session accepts the delta and the log would have 2^64
    /// bytes or more. The session and the log are unchanged then.
    ///
    /// # Memory
    ///
    /// Allocates as `commit_log::apply_delta_logged`.
    ///
    /// # Complexity
    ///
    /// As `commit_log::apply_delta_logged`. In a batch, constant.
    pub fn apply_delta_with_entry(
        &mut self,
        bytes: &[u8],
        log: &mut Log<N>,
    ) -> Result<(), ApplyDeltaError>
        ensures { LogsDelta N bytes.now (record { machine = self.old; log = log.old })
            result (record { machine = self.new; log = log.new }) }
    {
        let alloc = self.alloc;
        let empty = State::Clean(CleanBitMap::new(alloc));
        let state = mem::replace(&mut self.state, empty);
        let (result, state) = delta(state, bytes, log);
        self.state = state;
        result
    }
}
