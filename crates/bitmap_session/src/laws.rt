//! Laws of the abstract machine of `specs/Machine.antt`, which describes every session.
//!
//! Each law is the contract of a function with an empty body. A proof uses a law by calling its function.
//! `Session::numbers_rise` is a law too: the kept numbers of every session rise.

ghost use Rattle.std.specs.Prelude.{◌≡◌, ℕ, List, ◌++◌, IfOk, IfErr, if◌then◌else◌, alloc_error};
ghost use Rattle.commit_log.specs.Reading.{IsWithin, ranges};
ghost use Rattle.commit_log.specs.declared.reading.HistoryError.TheVariants.{Memory as HistoryMemory};
ghost use Rattle.commit_log.specs.declared.recovery.RecoverError.TheVariants.{Memory as RecoverMemory};
ghost use Rattle.bitmap_session.specs.Edits.{EditsAreRun};
ghost use Rattle.bitmap_session.specs.Logged.{IsLogged, IsRecovered};
ghost use Rattle.bitmap_session.specs.Machine.{first_machine, is_dirty};
ghost use Rattle.bitmap_session.specs.Saved.{IsOutside, kept_part};
ghost use Rattle.bitmap_session.specs.declared.session.saved.SaveError.TheVariants.{InBatch, Memory};
ghost use Rattle.bitmap_session.specs.Laws.{HasRisingNumbers, LatestIsGreatest, NoCommitsRise, NumbersRise, NumbersRiseOn, Rewinding, RunsJoin, StepIsRun, StepsAreRun};

use crate::command::Command;
use crate::logged::{LoggedSession, RecoveredSession};
use crate::reply::Reply;
use crate::session::{ApplyDeltaError, LogError, SaveError, Session};
use bitmap_core::bitmap::codec::RangeCfg;
use commit_log::{HistoryError, Log, RecoverError};
use std::alloc::Global;

/// States that consecutive runs are one run.
///
/// Let a session run some commands and then more, as two calls of `Session::run` do. Then it has run the commands of both
/// lists, joined, with the replies of both.
///
/// Does not allocate; constant time.
pub fn consecutive_runs_join<const N: usize>()
    ensures { RunsJoin N }
{}

/// States that a step is a run of one command.
///
/// Each method of `Session` that runs a command promises one step, and so does `Session::serve`. By the clause `one` that step
/// is a run of one command, with one reply. By the clause `many` consecutive steps are one run of all their commands.
/// With `consecutive_runs_join`, all calls of a session, by methods, `serve` and `run`, are one run.
///
/// Does not allocate; constant time.
pub fn a_step_is_a_run<const N: usize>()
    ensures one { StepIsRun N }
    ensures many { StepsAreRun N }
{}

/// States that a call that edits many bits at once is a run of one command for each edit.
///
/// The methods `set_chunk`, `set_range`, `truncate`, `extend_to` and `push_bits` of `Session` promise `EditsTo`. An accepted call
/// is a run of the commands that make its edits, one after another. A refused call is a run of no command. `set_many` promises
/// consecutive steps, which are one run by `a_step_is_a_run`.
///
/// Does not allocate; constant time.
pub fn edits_are_a_run<const N: usize>()
    ensures { EditsAreRun N }
{}

/// States that the kept commit numbers stay strictly ascending, and that none is above the last number.
///
/// The last number was committed or rewound to. By the clauses `first` and `none` the numbers rise in the first machine and in
/// each machine without commits, such as that of a session from `Session::read`. By the clause `run` they rise after every run
/// from a machine in which they rise, and by the clause `calls` after every run of a session. By the clause `greatest` the
/// latest number is the greatest.
///
/// Does not allocate; constant time.
pub fn kept_numbers_rise<const N: usize>()
    ensures first { HasRisingNumbers first_machine.state }
    ensures none { NoCommitsRise }
    ensures run { NumbersRise N }
    ensures calls { NumbersRiseOn N }
    ensures greatest { LatestIsGreatest }
{}

/// States that a rewind to a commit restores the bitmap of that commit.
///
/// The numbers rise before the commit, as they do in every session. The commit is followed by a run during which its number
/// stays kept, and then by an accepted `Rewind` to it. Afterwards the current bitmap is that of the commit, and the history is
/// the one after the commit, less the commits dropped before the rewind.
///
/// Does not allocate; constant time.
pub fn rewinding_restores<const N: usize>()
    ensures { Rewinding N }
{}

/// Saves a session, and loads what was saved.
///
/// The loaded session is outside a batch, and has the same current bitmap, the same kept bitmaps under the same numbers, and the
/// same last number. By the clause `complete` it is loaded unless an allocation fails, if the ranges admit it.
///
/// # Errors
///
/// Those of `Session::save`, and those of `Session::load`.
pub fn a_saved_session_is_loaded<const N: usize>(
    alloc: Global,
    session: &Session<N>,
    bits: &RangeCfg,
    commits: &RangeCfg,
) -> Result<Result<Session<N>, HistoryError>, SaveError>
    ensures same { IfOk result (λ loaded. IfOk loaded (λ s.
        IsOutside s × (kept_part s.state ≡ kept_part session.now.state))) }
    ensures complete { IsWithin (ranges bits.now commits.now) (kept_part session.now.state)
        → IfOk result (λ loaded. IfErr loaded (λ e. e ≡ HistoryMemory alloc_error)) }
    ensures refused { IfErr result (λ e. e
        ≡ (if is_dirty session.now.state then InBatch else Memory alloc_error)) }
{
    // The prover learns the width from this call.
    session.has_width();
    let mut bytes = Vec::new(alloc);
    match session.save(&mut bytes) {
        Ok(()) => {
            let mut from = bytes.as_slice();
            Ok(Session::load(alloc, &mut from, bits, commits))
        }
        Err(error) => Err(error),
    }
}

/// Serves a command on a session with a log.
///
/// Let the bytes that were taken from the log and those that were not be a log that makes what the session keeps, as after
/// `LoggedSession::begin`. Then they are such a log afterwards too. So this holds after any commands.
///
/// # Errors
///
/// Those of `LoggedSession::serve`.
pub fn a_logged_session_goes_on<const N: usize>(
    session: &mut LoggedSession<N>,
    command: &Command<N>,
) -> Result<Reply<N>, LogError>
    ensures { (taken : List ℕ) → IsLogged N taken session.old → IsLogged N taken session.new }
{
    session.serve(command)
}

/// Serves a command on a session whose log is apart from it.
///
/// Let the bytes that were taken from the log and those that were not be a log that makes what the session keeps, as after
/// `Session::begin_log`. Then they are such a log afterwards too.
///
/// # Errors
///
/// Those of `Session::serve_with_entry`.
pub fn a_log_apart_goes_on<const N: usize>(
    session: &mut Session<N>,
    command: &Command<N>,
    log: &mut Log<N>,
) -> Result<Reply<N>, LogError>
    ensures { (taken : List ℕ) → IsLogged N taken (record { machine = session.old; log = log.old })
        → IsLogged N taken (record { machine = session.new; log = log.new }) }
{
    session.serve_with_entry(command, log)
}

/// Applies a delta to a session whose log is apart from it.
///
/// Let the bytes that were taken from the log and those that were not be a log that makes what the session keeps, as after
/// `Session::begin_log`. Then they are such a log afterwards too.
///
/// # Errors
///
/// Those of `Session::apply_delta_with_entry`.
pub fn a_log_apart_goes_on_with_a_delta<const N: usize>(
    session: &mut Session<N>,
    bytes: &[u8],
    log: &mut Log<N>,
) -> Result<(), ApplyDeltaError>
    ensures { (taken : List ℕ) → IsLogged N taken (record { machine = session.old; log = log.old })
        → IsLogged N taken (record { machine = session.new; log = log.new }) }
{
    session.apply_delta_with_entry(bytes, log)
}

/// Recovers a session from the bytes of its log: those that were taken from it, and those that were not.
///
/// The recovered session keeps the same bitmaps under the same numbers, with the same current bitmap and last number, and its log is at the
/// same place. By the clause `complete` it is recovered unless an allocation fails. For a prefix of the bytes, the clause `prefix` of
/// `LoggedSession::recover` says the same of the entries that are whole in it.
///
/// # Errors
///
/// Those of `LoggedSession::recover`.
pub fn a_logged_session_is_recovered<const N: usize>(
    alloc: Global,
    session: &LoggedSession<N>,
    bytes: &[u8],
) -> Result<RecoveredSession<N>, RecoverError>
    ensures same { (taken : List ℕ) → IsLogged N taken session.now
        → bytes.now ≡ taken ++ session.now.log.bytes
        → IfOk result (λ found. IsRecovered session.now found.session found.torn) }
    ensures complete { (taken : List ℕ) → IsLogged N taken session.now
        → bytes.now ≡ taken ++ session.now.log.bytes
        → IfErr result (λ e. e ≡ RecoverMemory alloc_error) }
{
    // The prover learns the width from this call.
    session.session().has_width();
    LoggedSession::recover(alloc, bytes)
}
