//! Calls by which a bitmap and its commits outlive their process: the history as bytes, and deltas.

ghost use Rattle.std.specs.Prelude.{◌≡◌, None, Some, IfOk, IfSome, is_some};
ghost use Rattle.bitmap_bytes.specs.Chunk.{IsWidth};
ghost use Rattle.commit_log.specs.Delta.{delta_of};
ghost use Rattle.commit_log.specs.History.{HasLog, IsHistory, history_bytes};
ghost use Rattle.commit_log.specs.Reading.{ranges};
ghost use Rattle.bitmap_session.specs.Abstraction.{reason};
ghost use Rattle.bitmap_session.specs.Saved.{KeepsStep, kept_part};
ghost use Rattle.bitmap_c.specs.Logged.{AppliesAnyLogged, CallsApplyLogged, LogsApplied};
ghost use Rattle.bitmap_c.specs.Reports.{ReportsBytes};
ghost use Rattle.bitmap_c.specs.Saved.{Applies, Found, FoundIn, IsFound, Loads, ReadsHistory, as_machine, ranges_between, save_refusal};
ghost use Rattle.bitmap_c.specs.Widths.{is_width, log_of, machine, width};

use crate::any::AnySession;
use crate::handle::Handle;
use crate::making::{fill, is_full};
use crate::run::report_bytes;
use crate::status::{
    DONE, EMPTY_HANDLE, FULL_HANDLE, NO_MEMORY, NO_SUCH_WIDTH, apply_status, history_status,
};
use bitmap_core::bitmap::codec::RangeCfg;
use bitmap_session::reply::{Refusal, Reply};
use bitmap_session::session::{SaveError, Session};
use commit_log::{HistoryError, Log};
use std::alloc::Global;

// Makes the session of a width, with its size, a session of any width without a log.
macro_rules! as_any {
    ($width:ident, $read:expr) => {
        match $read {
            Ok((session, size)) => Ok((AnySession::$width(session, None), size)),
            Err(error) => Err(error),
        }
    };
}

// Returns the refusal of a session that writes no bytes.
fn save_refusal(error: &SaveError) -> Refusal
    ensures { reason result ≡ save_refusal error.now }
{
    match error {
        SaveError::InBatch => Refusal::WrongMode,
        SaveError::Memory(_) => Refusal::NoMemory,
    }
}

// Writes the history of a session.
fn save_of<const N: usize>(
    alloc: Global,
    session: &Session<N>,
    out: &mut [u8],
    size: &mut usize,
) -> u32
    requires width { IsWidth N }
    ensures saved { FoundIn session.now (Some (history_bytes N (kept_part session.now.state)))
        (ReportsBytes result size.old size.new out.old out.new) }
    ensures log { IsFound result → HasLog N (kept_part session.now.state) }
    ensures ends { IsFound result → IsHistory (kept_part session.now.state) }
{
    let mut bytes = Vec::new(alloc);
    match session.save(&mut bytes) {
        Ok(()) => report_bytes::<N>(&Reply::Bytes(Some(bytes)), out, size),
        Err(error) => report_bytes::<N>(&Reply::Refused(save_refusal(&error)), out, size),
    }
}

// Does the same for a session of any width.
fn save(alloc: Global, any: &AnySession, out: &mut [u8], size: &mut usize) -> u32
    ensures saved { FoundIn (machine any.now)
        (Some (history_bytes (width any.now) (kept_part (machine any.now).state)))
        (ReportsBytes result size.old size.new out.old out.new) }
    ensures log { IsFound result → HasLog (width any.now) (kept_part (machine any.now).state) }
    ensures ends { IsFound result → IsHistory (kept_part (machine any.now).state) }
{
    at_width!(any, session => save_of(alloc, session, out, size))
}

// Writes the delta of a session from one commit to another.
fn delta_of<const N: usize>(
    session: &Session<N>,
    from: u64,
    to: u64,
    out: &mut [u8],
    size: &mut usize,
) -> u32
    requires width { IsWidth N }
    ensures delta { FoundIn session.now (delta_of N session.now.state.history from to)
        (ReportsBytes result size.old size.new out.old out.new) }
    ensures step { KeepsStep N session.now from to }
{
    match session.delta(from, to) {
        Ok(found) => report_bytes::<N>(&Reply::Bytes(found), out, size),
        Err(error) => report_bytes::<N>(&Reply::Refused(save_refusal(&error)), out, size),
    }
}

// Does the same for a session of any width.
fn delta(any: &AnySession, from: u64, to: u64, out: &mut [u8], size: &mut usize) -> u32
    ensures delta { FoundIn (machine any.now)
        (delta_of (width any.now) (machine any.now).state.history from to)
        (ReportsBytes result size.old size.new out.old out.new) }
    ensures step { KeepsStep (width any.now) (machine any.now) from to }
{
    at_width!(any, session => self::delta_of(session, from, to, out, size))
}

// Reads the history that the bytes begin with. Returns a session with it, and its size in bytes.
fn load_session<const N: usize>(
    alloc: Global,
    bits: &RangeCfg,
    commits: &RangeCfg,
    bytes: &[u8],
) -> Result<(Session<N>, usize), HistoryError>
    requires width { IsWidth N }
    ensures { ReadsHistory N (ranges bits.now commits.now) bytes.now result }
{
    let mut rest = bytes;
    match Session::load(alloc, &mut rest, bits, commits) {
        Ok(session) => Ok((session, bytes.len() - rest.len())),
        Err(error) => Err(error),
    }
}

// Reads a history as `load_session` does, with chunks of `size` bytes, or returns `None` if there is no such width.
fn load_any(
    alloc: Global,
    size: u32,
    bits: &RangeCfg,
    commits: &RangeCfg,
    bytes: &[u8],
) -> Option<Result<(AnySession, usize), HistoryError>>
    ensures offered { is_some result ≡ is_width size }
    ensures width { IfSome result (λ read. IfOk read (λ found. width found.0 ≡ size)) }
    ensures unlogged { IfSome result (λ read. IfOk read (λ found. log_of found.0 ≡ None)) }
    ensures read { IfSome result (λ read.
        ReadsHistory size (ranges bits.now commits.now) bytes.now (as_machine read)) }
{
    match size {
        1 => Some(as_any!(Width1, load_session(alloc, bits, commits, bytes))),
        8 => Some(as_any!(Width8, load_session(alloc, bits, commits, bytes))),
        32 => Some(as_any!(Width32, load_session(alloc, bits, commits, bytes))),
        64 => Some(as_any!(Width64, load_session(alloc, bits, commits, bytes))),
        _ => None,
    }
}

// Reads a history into an empty handle, with chunks of `size` bytes.
fn load_into(
    alloc: Global,
    bitmap: &mut Handle,
    size: u32,
    bits: &RangeCfg,
    commits: &RangeCfg,
    bytes: &[u8],
    used: &mut usize,
) -> u32
    ensures { Loads bitmap.old.value size (ranges bits.now commits.now) bytes.now
        result used.old used.new bitmap.new.value }
{
    if is_full(bitmap) {
        return FULL_HANDLE;
    }
    match load_any(alloc, size, bits, commits, bytes) {
        Some(Ok((any, read))) => {
            if fill(alloc, bitmap, any) != DONE {
                return NO_MEMORY;
            }
            *used = read;
            DONE
        }
        Some(Err(error)) => history_status(&error),
        None => NO_SUCH_WIDTH,
    }
}

// Applies a delta to a session, with its entry if there is a log.
fn apply_to<const N: usize>(session: &mut Session<N>, log: &mut Option<Log<N>>, bytes: &[u8]) -> u32
    ensures applied { Applies N bytes.now session.old result session.new }
    ensures logged { LogsApplied N session.old log.old result session.new log.new }
{
    match log {
        Some(log) => match session.apply_delta_with_entry(bytes, log) {
            Ok(()) => DONE,
            Err(error) => apply_status(&error),
        },
        None => match session.apply_delta(bytes) {
            Ok(()) => DONE,
            Err(error) => apply_status(&error),
        },
    }
}

// Does the same for a session of any width.
fn apply_delta(any: &mut AnySession, bytes: &[u8]) -> u32
    ensures { AppliesAnyLogged any.old bytes.now result any.new }
{
    with_log!(any, session, log => apply_to(session, log, bytes))
}

/// Fills `out` with the history of the bitmap, and writes the size of the history in bytes to `size`.
///
/// The history is the current bitmap, the kept commits and the last commit number, with digests by which `mortarpink_load` finds
/// damaged bytes. It does not have the index. A caller that does not know the size calls with an empty `out` first, whose pointer is not NULL either.
///
/// # Errors
///
/// Returns `IN_BATCH` in a batch, `NO_MEMORY` if an allocation fails, and `WRONG_SIZE` if the length of `out` is not the size of the
/// history. `out` is then unchanged. `size` is written with `WRONG_SIZE` too, and otherwise unchanged.
///
/// # Memory
///
/// Allocates the history and the bitmap at the first kept commit, which are freed before the return.
///
/// # Complexity
///
/// Linear in the current bitmap and in the history. Each chunk in the history is read at its commit, which takes a search of each
/// commit after it.
#[unsafe(no_mangle)]
pub extern "C" fn mortarpink_save(
    alloc: Global,
    bitmap: &mut Handle,
    out: &mut [u8],
    size: &mut usize,
) -> u32
    ensures same { bitmap.new.value ≡ bitmap.old.value }
    ensures saved { Found bitmap.old.value (λ N m. Some (history_bytes N (kept_part m.state)))
        (ReportsBytes result size.old size.new out.old out.new)
        ((result ≡ EMPTY_HANDLE) × (size.new ≡ size.old) × (out.new ≡ out.old)) }
    // The bytes are a log, which makes the bitmap again.
    ensures log { IfSome bitmap.old.value (λ any. IsFound result
        → HasLog (width any) (kept_part (machine any).state)) }
    ensures ends { IfSome bitmap.old.value (λ any. IsFound result
        → IsHistory (kept_part (machine any).state)) }
{
    in_handle!(bitmap, any => save(alloc, any, out, size))
}

/// Makes a bitmap from the history that `bytes` begin with, in an empty handle: with chunks of `width` bytes, and no log.
///
/// Its current bitmap, its kept commits and its last number are those that `mortarpink_save` wrote. A commit may have fewer entries
/// than before, so `mortarpink_entries` may write a smaller number. `used` becomes the size of the
/// history in bytes; bytes after it are not read. The number of retained bits, of the current bitmap and of each kept one, is from
/// `least_bits` to `most_bits`, both included. The number of commits after the first kept one is from `least_commits` to
/// `most_commits`, both included. A range of all numbers is from 0 to 2^64 - 1.
///
/// # Errors
///
/// `FULL_HANDLE` and `NO_SUCH_WIDTH` come first, and then the first error of the bytes, from the first byte on. The handle and
/// `used` are then unchanged.
///
/// | Status | If |
/// |---|---|
/// | `FULL_HANDLE` | the handle is not empty |
/// | `NO_SUCH_WIDTH` | the width is not 1, 8, 32 or 64 |
/// | `CUT_OFF` | the bytes end before the history does, also before its first 32 bytes, which are the header |
/// | `WRONG_HEADER` | the bytes do not begin with the header of a history of this width |
/// | `DAMAGED` | a digest after the header is not that of the bytes before it |
/// | `NOT_ACCEPTED` | the digests are right, but a part of the bytes is no bitmap, or no commit that can follow |
/// | `OUT_OF_RANGE` | a number of retained bits or of commits is outside its range |
/// | `NO_MEMORY` | an allocation fails |
///
/// # Memory
///
/// Allocates the bitmap with its commits. A bitmap whose number of retained bits is out of range is not allocated.
///
/// # Complexity
///
/// Linear in the bytes of the history. If a commit makes the bitmap grow, it may also move in memory.
#[unsafe(no_mangle)]
pub extern "C" fn mortarpink_load(
    alloc: Global,
    bitmap: &mut Handle,
    width: u32,
    least_bits: u64,
    most_bits: u64,
    least_commits: u64,
    most_commits: u64,
    bytes: &[u8],
    used: &mut usize,
) -> u32
    ensures loaded { Loads bitmap.old.value width
        (ranges_between least_bits most_bits least_commits most_commits) bytes.now
        result used.old used.new bitmap.new.value }
{
    let bits = RangeCfg::between(least_bits, most_bits);
    let commits = RangeCfg::between(least_commits, most_commits);
    load_into(alloc, bitmap, width, &bits, &commits, bytes, used)
}

/// Fills `out` with the delta from the bitmap at commit `from` to the one at commit `to`, and writes its size in bytes to `size`.
///
/// A delta has the chunks in which the two differ, and the number, the length and a digest of the older one. A bitmap that is equal to
/// the older one, and whose last number is `from`, follows by `mortarpink_apply_delta`.
///
/// # Errors
///
/// Returns `IN_BATCH` in a batch, and `NO_SUCH_COMMIT` unless both commits are kept and `from` is below `to`. `size` and `out` are then
/// unchanged. Otherwise as `mortarpink_save`.
///
/// # Memory
///
/// Allocates the delta, which is freed before the return.
///
/// # Complexity
///
/// As `mortarpink_changed_chunks`, and linear in the delta. Each chunk in the delta is read at both commits, which takes a search of
/// each commit after them.
#[unsafe(no_mangle)]
pub extern "C" fn mortarpink_delta(
    bitmap: &mut Handle,
    from: u64,
    to: u64,
    out: &mut [u8],
    size: &mut usize,
) -> u32
    ensures same { bitmap.new.value ≡ bitmap.old.value }
    ensures delta { Found bitmap.old.value (λ N m. delta_of N m.state.history from to)
        (ReportsBytes result size.old size.new out.old out.new)
        ((result ≡ EMPTY_HANDLE) × (size.new ≡ size.old) × (out.new ≡ out.old)) }
    // A bitmap that is equal to the older one accepts the delta.
    ensures step { IfSome bitmap.old.value (λ any. KeepsStep (width any) (machine any) from to) }
{
    in_handle!(bitmap, any => delta(any, from, to, out, size))
}

/// Applies a delta, which is all of the bytes, as the next commit: its newer bitmap becomes current, and is kept under its number.
///
/// The delta starts at the current bitmap if the last number, the length, the number of pruned chunks, and a digest of the bytes in the
/// chunks that the delta has are those of the older bitmap. The older bitmap need not be kept. Other chunks are not compared.
///
/// If the bitmap keeps a log, the entry of the commit is appended to it. With another status than `DONE` the log is unchanged.
///
/// # Errors
///
/// Returns the first status that applies. Nothing has changed then.
///
/// | Status | If |
/// |---|---|
/// | `IN_BATCH` | there is a batch |
/// | `CUT_OFF` | there are fewer bytes than 88, which the shortest delta has |
/// | `WRONG_HEADER` | the bytes do not begin as a delta, or their format has another version |
/// | `DAMAGED` | the digest at the end is not that of the bytes before it, as in a delta that is cut off |
/// | `WRONG_HEADER` | the delta has another width |
/// | `CUT_OFF` | the bytes of the chunks are not whole |
/// | `NOT_AT_BASE` | the delta does not start at the current bitmap |
/// | `NOT_ACCEPTED` | the digest is right, but the delta has no commit that can follow |
/// | `NO_MEMORY` | an allocation fails, or the log would have 2^64 bytes or more |
///
/// # Memory
///
/// Allocates the reverse record of the commit, and space by which the bitmap, the list of commits and the log grow.
///
/// # Complexity
///
/// Linear in the bytes, plus the chunks that the commit prunes or removes.
#[unsafe(no_mangle)]
pub extern "C" fn mortarpink_apply_delta(bitmap: &mut Handle, bytes: &[u8]) -> u32
    ensures applied { CallsApplyLogged bitmap.old.value bytes.now result bitmap.new.value }
{
    in_handle!(bitmap, any => apply_delta(any, bytes))
}
