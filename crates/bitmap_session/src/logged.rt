//! Sessions with a log: a session that is recovered after a crash from the bytes that its commands appended.
//!
//! A `LoggedSession` runs commands as a [`Session`] does. In addition, each accepted `Commit`, `Rewind`, `DropBefore` and `Clear` appends its
//! entry to a log, and so does an applied delta. The program writes [`bytes`](LoggedSession::bytes) to its file, and then calls [`forget`](LoggedSession::forget).
//! [`recover`](LoggedSession::recover) makes the session again from the file: outside a batch, with the same current bitmap, the same kept
//! bitmaps under the same numbers, and the same last number. The edits of a batch that was not committed are lost.

mod edits;

ghost use Rattle.std.specs.Prelude.{◌≡◌, ℕ, ◌++◌, ◌≤◌, ◌<◌, [], List, Bool, false, length, take, if◌then◌else◌, IfErr, IfOk, IsErrOf, OnErr, OnOk, alloc_error};
ghost use Rattle.std.specs.Bool.{Decides};
ghost use Rattle.bitmap_bytes.specs.Chunk.{IsWidth};
ghost use Rattle.commit_log.specs.Base.{Base};
ghost use Rattle.commit_log.specs.Entries.{Entry};
ghost use Rattle.commit_log.specs.History.{history_bytes, history_place};
ghost use Rattle.commit_log.specs.Kept.{Kept, after, after_all, entry_to};
ghost use Rattle.commit_log.specs.Logs.{GoesOn, IsLog, MayFollow, appended, log_bytes, place_of, state_of};
ghost use Rattle.commit_log.specs.Recovered.{IsMadeIn, IsPrefixOf, IsRecoverError, Recovers};
ghost use Rattle.commit_log.specs.declared.recovery.RecoverError.TheVariants.{Header, Memory, NoBase};
ghost use Rattle.log_frames.specs.declared.frame.Place.{Place as LogPlace};
ghost use Rattle.log_frames.specs.declared.header.HeaderError.TheVariants.{Short};
ghost use Rattle.bitmap_session.specs.Abstraction.{value_of};
ghost use Rattle.bitmap_session.specs.Logged.{IsLogError, IsLogged, appended_all, entries_of};
ghost use Rattle.bitmap_session.specs.Machine.{Agrees, StepTo, is_dirty};
ghost use Rattle.bitmap_session.specs.Saved.{AppliesDelta, IsOutside, kept_part};
ghost use Rattle.bitmap_session.specs.declared.command.Command.TheVariants.{Start};
ghost use Rattle.bitmap_session.specs.declared.session.entries.LogError.TheVariants.{NoEntry};
ghost use Rattle.bitmap_session.specs.declared.session.saved.SaveError.TheVariants.{InBatch};
ghost use Rattle.bitmap_session.specs.declared.session.saved.SaveError.TheVariants.{Memory as SaveMemory};

use crate::command::Command;
use crate::reply::Reply;
use crate::session::{ApplyDeltaError, LogError, SaveError, Session};
use commit_log::{Log, RecoverError};
use std::alloc::Global;
use std::marker::Model;

/// A session with its log, to which each accepted command that changes what is kept appends its entry.
///
/// The head of the module has an example. `N` is the number of bytes of a chunk.
#[derive(Drop)]
pub struct LoggedSession<const N: usize> {
    session: Session<N>,
    log: Log<N>,
}

impl<const N: usize> Model for LoggedSession<N> {
    ghost use Rattle.bitmap_session.specs.Logged.{LoggedView};

    ghost Value = { LoggedView };

    ghost view = { λ s. record { machine = s.session; log = s.log } };
}

/// What a log was recovered to.
#[derive(Drop)]
pub struct RecoveredSession<const N: usize> {
    /// The session after the last entry, outside a batch. Its log has no bytes that are not taken, and its position is the number of good bytes.
    pub session: LoggedSession<N>,

    /// Whether there are bytes after the good ones. They have to be cut off before the next entry is written.
    pub torn: bool,
}

impl<const N: usize> LoggedSession<N> {
    /// Begins a log with the history of a session. The bytes of the history are those that the program writes first.
    ///
    /// # Errors
    ///
    /// Returns the session, unchanged, with `InBatch` in a batch, and with `Memory` if an allocation fails.
    ///
    /// # Memory
    ///
    /// Allocates as `commit_log::write_history`, from `alloc`.
    ///
    /// # Complexity
    ///
    /// As `commit_log::write_history`. In a batch, constant.
    pub fn begin(alloc: Global, session: Session<N>) -> Result<Self, (Session<N>, SaveError)>
        ensures machine { IfOk result (λ s. s.machine ≡ session.entry) }
        ensures log { IfOk result (λ s. s.log ≡ record {
          bytes = history_bytes N (kept_part session.entry.state);
          place = history_place N (kept_part session.entry.state);
        }) }
        ensures outside { OnOk result (IsOutside session.entry) }
        // The bytes are a log that makes what the session keeps.
        ensures logged { IfOk result (λ s. IsLogged N [] s) }
        ensures refused { IfErr result (λ e. e.1
            ≡ (if is_dirty session.entry.state then InBatch else SaveMemory alloc_error)) }
        ensures unchanged { IfErr result (λ e. e.0 ≡ session.entry) }
    {
        match session.begin_log(alloc) {
            Ok(log) => Ok(LoggedSession { session, log }),
            Err(error) => Err((session, error)),
        }
    }

    /// Runs one command as `Session::serve` does, and appends the entry of the command to the log if it has one and is accepted.
    ///
    /// A `Commit`, a `Rewind`, a `DropBefore` and a `Clear` have an entry. Any other command leaves the log unchanged, and so does a refused
    /// one. What the session keeps afterwards is what the entry makes of what it kept before.
    ///
    /// # Errors
    ///
    /// Returns an error, and leaves the session and its log unchanged, in these cases:
    ///
    /// - `NoEntry` if the command is `Start`, since a log goes on from its base;
    /// - `Memory` if the command is `DropBefore` or `Clear` outside a batch, and its entry was not appended: an allocation failed, or the log
    ///   would have 2^64 bytes or more. For `Commit` and `Rewind` the reply is then `Refused(NoMemory)`.
    ///
    /// # Memory
    ///
    /// Allocates as `Session::serve`. Also allocates for the entry if the log has no capacity for it.
    ///
    /// # Complexity
    ///
    /// As `Session::serve`. The entry of a commit takes time as `commit_log::commit_logged` says, and any other one constant time, amortized if
    /// it allocates.
    pub fn serve(&mut self, command: &Command<N>) -> Result<Reply<N>, LogError>
        ensures step { IfOk result (λ reply. StepTo N Agrees
            self.old.machine command.now (value_of reply) self.new.machine) }
        ensures log { IfOk result (λ reply. self.new.log ≡ appended_all self.old.log
            (entries_of N self.old.machine.state command.now (value_of reply))) }
        ensures follows { IfOk result (λ reply. GoesOn N (kept_part self.old.machine.state)
            (entries_of N self.old.machine.state command.now (value_of reply))) }
        ensures kept { IfOk result (λ reply. kept_part self.new.machine.state
            ≡ after_all N (kept_part self.old.machine.state)
            (entries_of N self.old.machine.state command.now (value_of reply))) }

        // What is logged before is logged afterwards.
        ensures logged { (taken : List ℕ) → IsLogged N taken self.old → IsLogged N taken self.new }

        // Which error it is, and why.
        ensures error { IfErr result (IsLogError N self.old.machine command.now) }
        ensures start { (chunks : ℕ) → command.now ≡ Start chunks → IsErrOf result NoEntry }
        ensures unchanged { OnErr result (self.new ≡ self.old) }
    {
        self.session.serve_with_entry(command, &mut self.log)
    }

    /// Applies a delta, which is all of the bytes, as [`Session::apply_delta`] does, and appends the entry of its commit to the log.
    ///
    /// The entry is the one that a `Commit` appends if it makes the same bitmap under the same number. What the session keeps afterwards is
    /// what the entry makes of what it kept before.
    ///
    /// # Errors
    ///
    /// Those of [`Session::apply_delta`]. The error is also `Memory`, as `Delta`, if the session accepts the delta and the log would have 2^64
    /// bytes or more. The session and its log are unchanged then.
    ///
    /// # Memory
    ///
    /// Allocates as `commit_log::apply_delta_logged`.
    ///
    /// # Complexity
    ///
    /// As `commit_log::apply_delta_logged`. In a batch, constant.
    pub fn apply_delta(&mut self, bytes: &[u8]) -> Result<(), ApplyDeltaError>
        ensures applied { AppliesDelta N bytes.now self.old.machine result self.new.machine }
        ensures log { OnOk result (self.new.log ≡ appended self.old.log (entry_to N
            (kept_part self.old.machine.state) (kept_part self.new.machine.state))) }
        ensures follows { OnOk result (MayFollow N (kept_part self.old.machine.state) (entry_to N
            (kept_part self.old.machine.state) (kept_part self.new.machine.state))) }
        ensures kept { OnOk result (kept_part self.new.machine.state
            ≡ after N (kept_part self.old.machine.state) (entry_to N
            (kept_part self.old.machine.state) (kept_part self.new.machine.state))) }

        // What is logged before is logged afterwards.
        ensures logged { (taken : List ℕ) → IsLogged N taken self.old → IsLogged N taken self.new }
        ensures unchanged { OnErr result (self.new ≡ self.old) }
    {
        self.session.apply_delta_with_entry(bytes, &mut self.log)
    }

    /// Returns the session, to be read.
    ///
    /// Does not allocate; constant time.
    pub fn session(&self) -> &Session<N>
        ensures { result.now ≡ self.now.machine }
    {
        &self.session
    }

    /// Returns the session without its log.
    ///
    /// The bytes that were not taken from the log are freed. Does not allocate.
    pub fn into_session(self) -> Session<N>
        ensures { result ≡ self.entry.machine }
    {
        self.session
    }

    /// Returns the session and its log.
    ///
    /// The program can go on with both by [`Session::serve_with_entry`] and [`Session::apply_delta_with_entry`]. Does not allocate; constant
    /// time.
    pub fn into_parts(self) -> (Session<N>, Log<N>)
        ensures session { result.0 ≡ self.entry.machine }
        ensures log { result.1 ≡ self.entry.log }
    {
        (self.session, self.log)
    }

    /// Returns the bytes that were appended to the log and not taken yet.
    ///
    /// Does not allocate; constant time.
    pub fn bytes(&self) -> &[u8]
        ensures { result.now ≡ self.now.log.bytes }
    {
        self.log.bytes()
    }

    /// Returns the number of bytes of the whole log, those that were taken included.
    ///
    /// Does not allocate; constant time.
    pub fn position(&self) -> u64
        ensures { result ≡ self.now.log.place.at }
    {
        self.log.position()
    }

    /// Returns the digest of the whole log, as `digest` of `commit_log::Log` does.
    ///
    /// Does not allocate; constant time.
    pub fn digest(&self) -> u64
        ensures { result ≡ self.now.log.place.digest }
    {
        self.log.digest()
    }

    /// Removes the bytes of the log, once the program has written them to its file. The capacity for them is kept.
    ///
    /// Does not allocate.
    pub fn forget(&mut self)
        ensures forgotten { self.new ≡ record {
          machine = self.old.machine;
          log = record { bytes = []; place = self.old.log.place };
        } }
        ensures logged { (taken : List ℕ) → IsLogged N taken self.old
            → IsLogged N (taken ++ self.old.log.bytes) self.new }
    {
        self.log.forget();
    }

    /// Removes the bytes of the log and returns them. The capacity for them goes with them, so the next entry allocates.
    ///
    /// Does not allocate; constant time.
    pub fn take(&mut self) -> Vec<u8>
        ensures taken { result.items ≡ self.old.log.bytes }
        ensures left { self.new ≡ record {
          machine = self.old.machine;
          log = record { bytes = []; place = self.old.log.place };
        } }
        ensures logged { (taken : List ℕ) → IsLogged N taken self.old
            → IsLogged N (taken ++ result.items) self.new }
    {
        self.log.take()
    }

    /// Reads a log back: returns the session that its base and its entries make, with the log at the place of the next entry. `N` is at least 1, and
    /// `8N` fits `u64`.
    ///
    /// `bytes` is a log, or what a crash has left of one. It is read as [`commit_log::recover`] says: bytes after the last whole frame are left
    /// out if they are torn. The session is outside a batch. Its bitmaps allocate from `alloc`.
    ///
    /// # Errors
    ///
    /// Those of [`commit_log::recover`].
    ///
    /// # Memory
    ///
    /// Allocates as [`commit_log::recover`].
    ///
    /// # Complexity
    ///
    /// As [`commit_log::recover`].
    pub fn recover(alloc: Global, bytes: &[u8]) -> Result<RecoveredSession<N>, RecoverError>
        requires { IsWidth N }
        // The bytes are those of a log, which makes this session and ends at this place, and then a torn rest.
        ensures state { IfOk result (λ found. Recovers N bytes.now
            (kept_part found.session.machine.state) found.session.log.place found.torn) }
        ensures outside { IfOk result (λ found. IsOutside found.session.machine) }
        // The log has no bytes that are to be written.
        ensures taken { IfOk result (λ found. found.session.log.bytes ≡ []) }
        // How many bytes are good, and whether there are others.
        ensures good { IfOk result (λ found. found.session.log.place.at ≤ length bytes.now) }
        ensures torn { IfOk result (λ found. Decides found.torn
            (found.session.log.place.at < length bytes.now)) }

        // From a log: what all of its entries make.
        ensures whole { (base : Base) (entries : List Entry) → IsLog N base entries
            → bytes.now ≡ log_bytes N base entries → IfOk result (λ found.
            (kept_part found.session.machine.state ≡ state_of N base entries)
            × (found.session.log.place ≡ place_of N base entries) × (found.torn ≡ false)) }
        // From a prefix of a log: what the entries make whose frames are whole in it.
        ensures prefix { (base : Base) (entries : List Entry) (m : ℕ)
            → IsPrefixOf N base entries m bytes.now → IfOk result (λ found. IsMadeIn N base entries
            m (kept_part found.session.machine.state) found.session.log.place found.torn) }
        // From a prefix of a log, the only error is that an allocation failed.
        ensures complete { (base : Base) (entries : List Entry) (m : ℕ)
            → IsPrefixOf N base entries m bytes.now → IfErr result (λ e. e ≡ Memory alloc_error) }
        // The same holds for all bytes that recover to a state.
        ensures only_memory { (state : Kept) (place : LogPlace) (torn : Bool)
            → Recovers N bytes.now state place torn → IfErr result (λ e. e ≡ Memory alloc_error) }

        // From a prefix of a log in which the header or the base is not whole.
        ensures short { length bytes.now < 32 → IsErrOf result (Header Short) }
        ensures no_base { (base : Base) (entries : List Entry) (m : ℕ) → IsLog N base entries
            → 32 ≤ m → m < length (log_bytes N base [])
            → bytes.now ≡ take m (log_bytes N base entries) → IsErrOf result NoBase }

        // Which error it is, and why.
        ensures cause { IfErr result (IsRecoverError N bytes.now) }
    {
        match commit_log::recover(alloc, bytes) {
            Ok(found) => Ok(RecoveredSession {
                session: LoggedSession {
                    session: Session::outside(alloc, found.bitmap),
                    log: found.log,
                },
                torn: found.torn,
            }),
            Err(error) => Err(error),
        }
    }
}
