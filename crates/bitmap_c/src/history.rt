//! Calls on the kept commits.

ghost use Rattle.std.specs.Prelude.{◌≡◌};
ghost use Rattle.bitmap_c.specs.Calls.{Calls, ServesAny};
ghost use Rattle.bitmap_c.specs.Logged.{CallsLogged, ServesAnyLogged};
ghost use Rattle.bitmap_c.specs.Reports.{Reports, ReportsBit, ReportsEntries, ReportsNumber};

use crate::any::AnySession;
use crate::handle::Handle;
use crate::run::{
    run_earliest, run_entries, run_exists, run_latest, run_logged, run_number_logged,
};
use crate::status::EMPTY_HANDLE;
use bitmap_session::command::Command;

#[tactic(auto, unfolding(crate::specs::Logged::ServesAnyLogged))]
fn rewind(any: &mut AnySession, number: u64) -> u32
    ensures { ServesAnyLogged any.old (λ N. Command.Rewind number) (Reports result) any.new }
{
    with_log!(any, session, log => run_logged(session, log, Command::Rewind(number)))
}

/// Makes the bitmap committed under the number current again, and drops the commits after it.
///
/// If the bitmap keeps a log, the entry of the rewind is appended to it. With another status than `DONE` the log is unchanged.
///
/// # Errors
///
/// Returns `IN_BATCH` in a batch, `NO_SUCH_COMMIT` if no commit is kept under the number, and `NO_MEMORY` if an allocation fails,
/// or the log would have 2^64 bytes or more.
///
/// # Memory
///
/// Allocates the old bytes of the chunks that change, temporarily, and space by which the bitmap and the log grow.
///
/// # Complexity
///
/// Logarithmic in the kept commits, and amortized linear in the dropped commits and in the entries of their records. If the bitmap grows,
/// it may also move in memory.
#[unsafe(no_mangle)]
pub extern "C" fn mortarpink_rewind(bitmap: &mut Handle, number: u64) -> u32
    ensures step { CallsLogged bitmap.old.value (λ N. Command.Rewind number) (Reports result)
        (result ≡ EMPTY_HANDLE) bitmap.new.value }
{
    in_handle!(bitmap, any => rewind(any, number))
}

#[tactic(auto, unfolding(crate::specs::Calls::ServesAny))]
fn exists(any: &AnySession, number: u64, exists: &mut u8) -> u32
    ensures { ServesAny any.now (λ N. Command.Exists number)
        (ReportsBit result exists.old exists.new) any.now }
{
    at_width!(any, session => run_exists(session, number, exists))
}

/// Writes 1 to `exists` if a commit is kept under the number, and 0 otherwise.
///
/// # Errors
///
/// Returns `IN_BATCH` in a batch. `exists` is then unchanged.
///
/// # Memory
///
/// Does not allocate.
///
/// # Complexity
///
/// Logarithmic in the commits.
#[unsafe(no_mangle)]
pub extern "C" fn mortarpink_exists(bitmap: &mut Handle, number: u64, exists: &mut u8) -> u32
    ensures step { Calls bitmap.old.value (λ N. Command.Exists number)
        (ReportsBit result exists.old exists.new)
        ((result ≡ EMPTY_HANDLE) × (exists.new ≡ exists.old)) bitmap.new.value }
{
    in_handle!(bitmap, any => self::exists(any, number, exists))
}

#[tactic(auto, unfolding(crate::specs::Calls::ServesAny))]
fn latest(any: &AnySession, number: &mut u64) -> u32
    ensures { ServesAny any.now (λ N. Command.Latest)
        (ReportsNumber result number.old number.new) any.now }
{
    at_width!(any, session => run_latest(session, number))
}

/// Writes the greatest kept commit number to `number`.
///
/// # Errors
///
/// Returns `IN_BATCH` in a batch, and `NONE` if no commit is kept. `number` is then unchanged.
///
/// # Memory
///
/// Does not allocate.
///
/// # Complexity
///
/// Constant.
#[unsafe(no_mangle)]
pub extern "C" fn mortarpink_latest(bitmap: &mut Handle, number: &mut u64) -> u32
    ensures step { Calls bitmap.old.value (λ N. Command.Latest)
        (ReportsNumber result number.old number.new)
        ((result ≡ EMPTY_HANDLE) × (number.new ≡ number.old)) bitmap.new.value }
{
    in_handle!(bitmap, any => latest(any, number))
}

#[tactic(auto, unfolding(crate::specs::Calls::ServesAny))]
fn earliest(any: &AnySession, number: &mut u64) -> u32
    ensures { ServesAny any.now (λ N. Command.Earliest)
        (ReportsNumber result number.old number.new) any.now }
{
    at_width!(any, session => run_earliest(session, number))
}

/// Writes the least kept commit number to `number`.
///
/// # Errors
///
/// Returns `IN_BATCH` in a batch, and `NONE` if no commit is kept. `number` is then unchanged.
///
/// # Memory
///
/// Does not allocate.
///
/// # Complexity
///
/// Constant.
#[unsafe(no_mangle)]
pub extern "C" fn mortarpink_earliest(bitmap: &mut Handle, number: &mut u64) -> u32
    ensures step { Calls bitmap.old.value (λ N. Command.Earliest)
        (ReportsNumber result number.old number.new)
        ((result ≡ EMPTY_HANDLE) × (number.new ≡ number.old)) bitmap.new.value }
{
    in_handle!(bitmap, any => earliest(any, number))
}

#[tactic(auto, unfolding(crate::specs::Logged::ServesAnyLogged))]
fn drop_before(any: &mut AnySession, number: u64, dropped: &mut u64) -> u32
    ensures { ServesAnyLogged any.old (λ N. Command.DropBefore number)
        (ReportsNumber result dropped.old dropped.new) any.new }
{
    with_log!(any, session, log =>
        run_number_logged(session, log, Command::DropBefore(number), dropped))
}

/// Drops the commits below the number, and writes how many to `dropped`.
///
/// If the bitmap keeps a log, the entry of the drop is appended to it. With another status than `DONE` the log is unchanged.
///
/// # Errors
///
/// Returns `IN_BATCH` in a batch. Returns `NO_MEMORY` if the bitmap keeps a log and an allocation fails, or the log would have 2^64 bytes
/// or more. `dropped` is then unchanged.
///
/// # Memory
///
/// Allocates the entry if the bitmap keeps a log, and otherwise nothing.
///
/// # Complexity
///
/// Linear in what is dropped.
#[unsafe(no_mangle)]
pub extern "C" fn mortarpink_drop_before(bitmap: &mut Handle, number: u64, dropped: &mut u64) -> u32
    ensures step { CallsLogged bitmap.old.value (λ N. Command.DropBefore number)
        (ReportsNumber result dropped.old dropped.new)
        ((result ≡ EMPTY_HANDLE) × (dropped.new ≡ dropped.old)) bitmap.new.value }
{
    in_handle!(bitmap, any => drop_before(any, number, dropped))
}

#[tactic(auto, unfolding(crate::specs::Logged::ServesAnyLogged))]
fn clear(any: &mut AnySession) -> u32
    ensures { ServesAnyLogged any.old (λ N. Command.Clear) (Reports result) any.new }
{
    with_log!(any, session, log => run_logged(session, log, Command::Clear))
}

/// Drops all commits.
///
/// If the bitmap keeps a log, the entry of the clear is appended to it. With another status than `DONE` the log is unchanged.
///
/// # Errors
///
/// Returns `IN_BATCH` in a batch. Returns `NO_MEMORY` if the bitmap keeps a log and an allocation fails, or the log would have 2^64 bytes
/// or more.
///
/// # Memory
///
/// Allocates the entry if the bitmap keeps a log, and otherwise nothing.
///
/// # Complexity
///
/// Linear in what is dropped.
#[unsafe(no_mangle)]
pub extern "C" fn mortarpink_clear(bitmap: &mut Handle) -> u32
    ensures step { CallsLogged bitmap.old.value (λ N. Command.Clear) (Reports result)
        (result ≡ EMPTY_HANDLE) bitmap.new.value }
{
    in_handle!(bitmap, any => clear(any))
}

#[tactic(auto, unfolding(crate::specs::Calls::ServesAny))]
fn entries(any: &AnySession, entries: &mut u64) -> u32
    ensures { ServesAny any.now (λ N. Command.Entries)
        (ReportsEntries result entries.old entries.new) any.now }
{
    at_width!(any, session => run_entries(session, entries))
}

/// Writes the number of entries in the reverse records of all kept commits to `entries`, or 2^64 - 1 if there are more.
///
/// The record of a commit has at most one entry per chunk that its batch edited, removed or pruned, and at most one more. An entry has
/// the old bytes of one chunk, or no bytes if the commit added the chunk. So `entries` is at least the number of old chunks that the
/// history keeps. It is not the number of bytes that the history takes.
///
/// # Errors
///
/// Returns `IN_BATCH` in a batch. `entries` is then unchanged.
///
/// # Memory
///
/// Does not allocate.
///
/// # Complexity
///
/// Linear in the kept commits.
#[unsafe(no_mangle)]
pub extern "C" fn mortarpink_entries(bitmap: &mut Handle, entries: &mut u64) -> u32
    ensures step { Calls bitmap.old.value (λ N. Command.Entries)
        (ReportsEntries result entries.old entries.new)
        ((result ≡ EMPTY_HANDLE) × (entries.new ≡ entries.old)) bitmap.new.value }
{
    in_handle!(bitmap, any => self::entries(any, entries))
}
