//! Calls on the log of a bitmap's commits: a bitmap that keeps one appends an entry to it for each call that changes what is kept.

ghost use Rattle.std.specs.Prelude.{◌≡◌, None, Some, is_some, if◌then◌else◌};
ghost use Rattle.bitmap_session.specs.Replies.ReplyValue.{Bytes};
ghost use Rattle.bitmap_c.specs.Logged.{Begins, CallsOnLog, ChangesLog, Ends, Forgets, FoundLog, ForgetsLog, FoundLogIn, log_read, of_log};
ghost use Rattle.bitmap_c.specs.Reads.{Returns};
ghost use Rattle.bitmap_c.specs.Reports.{ReportsBytes};
ghost use Rattle.bitmap_c.specs.Widths.{log_of};

use crate::any::AnySession;
use crate::handle::Handle;
use crate::run::copy_bytes;
use crate::status::{DONE, EMPTY_HANDLE, HAS_LOG, IN_BATCH, NO_LOG, NO_MEMORY};
use bitmap_session::session::{SaveError, Session};
use commit_log::Log;
use std::alloc::Global;

// Begins the log of a session that has none. Returns why it cannot begin.
fn begin_of<const N: usize>(alloc: Global, session: &Session<N>, log: &mut Option<Log<N>>) -> u32
    ensures { Begins result N session.now log.old log.new }
{
    if log.is_some() {
        return HAS_LOG;
    }
    match session.begin_log(alloc) {
        Ok(begun) => {
            *log = Some(begun);
            DONE
        }
        Err(SaveError::InBatch) => IN_BATCH,
        Err(SaveError::Memory(_)) => NO_MEMORY,
    }
}

// Does the same for a session of any width.
fn begin(alloc: Global, any: &mut AnySession) -> u32
    ensures { ChangesLog any.old (Begins result) any.new }
{
    with_log!(any, session, log => begin_of(alloc, session, log))
}

/// Begins a log of what the bitmap keeps. The log begins with the history of the bitmap.
///
/// From then on `mortarpink_commit`, `mortarpink_rewind`, `mortarpink_drop_before`, `mortarpink_clear` and `mortarpink_apply_delta` append
/// their entry to the log, and `mortarpink_start` returns `HAS_LOG`. The program writes the bytes of `mortarpink_log_bytes` at the end of a
/// file, and then calls `mortarpink_log_forget`. `mortarpink_clone` and `mortarpink_checkout` make bitmaps that keep no log.
///
/// # Errors
///
/// Returns the first status that applies. Nothing has changed then.
///
/// | Status | If |
/// |---|---|
/// | `HAS_LOG` | the bitmap keeps a log |
/// | `IN_BATCH` | there is a batch |
/// | `NO_MEMORY` | an allocation fails |
///
/// # Memory
///
/// Allocates the history as bytes, which the log has until `mortarpink_log_forget`. Also allocates the bitmap at the first kept commit, which
/// is freed before the return.
///
/// # Complexity
///
/// As `mortarpink_save`.
#[unsafe(no_mangle)]
pub extern "C" fn mortarpink_log_begin(alloc: Global, bitmap: &mut Handle) -> u32
    ensures begun { CallsOnLog bitmap.old.value (Begins result) (result ≡ EMPTY_HANDLE)
        bitmap.new.value }
{
    in_handle!(bitmap, any => begin(alloc, any))
}

// Drops the log of a session.
fn end_of<const N: usize>(log: &mut Option<Log<N>>) -> u32
    ensures none { log.new ≡ None }
    ensures status { result ≡ (if is_some log.old then DONE else NO_LOG) }
{
    if log.is_none() {
        return NO_LOG;
    }
    *log = None;
    DONE
}

// Does the same for a session of any width.
fn end(any: &mut AnySession) -> u32
    ensures { ChangesLog any.old (Ends result) any.new }
{
    with_log!(any, _session, log => end_of(log))
}

/// Ends the log: the bitmap keeps none afterwards. Bytes that were not written are freed.
///
/// # Errors
///
/// Returns `NO_LOG` if the bitmap keeps no log.
///
/// # Memory
///
/// Does not allocate.
///
/// # Complexity
///
/// Constant.
#[unsafe(no_mangle)]
pub extern "C" fn mortarpink_log_end(bitmap: &mut Handle) -> u32
    ensures ended { CallsOnLog bitmap.old.value (Ends result) (result ≡ EMPTY_HANDLE)
        bitmap.new.value }
{
    in_handle!(bitmap, any => end(any))
}

// Writes the bytes of a log.
fn bytes_of<const N: usize>(log: &Option<Log<N>>, out: &mut [u8], size: &mut usize) -> u32
    ensures { FoundLog log.now
        (λ log. ReportsBytes result size.old size.new out.old out.new (Bytes (Some log.bytes)))
        (λ status. (result ≡ status) × (size.new ≡ size.old) × (out.new ≡ out.old)) }
{
    match log {
        Some(log) => copy_bytes(log.bytes(), out, size),
        None => NO_LOG,
    }
}

// Does the same for a session of any width.
fn bytes(any: &AnySession, out: &mut [u8], size: &mut usize) -> u32
    ensures { FoundLog (log_of any.now)
        (λ log. ReportsBytes result size.old size.new out.old out.new (Bytes (Some log.bytes)))
        (λ status. (result ≡ status) × (size.new ≡ size.old) × (out.new ≡ out.old)) }
{
    with_log!(any, _session, log => bytes_of(log, out, size))
}

/// Fills `out` with the bytes of the log that were not forgotten yet, and writes their number to `size`.
///
/// The bytes stay in the log until `mortarpink_log_forget`. A caller that does not know the number calls with an empty `out` first, whose
/// pointer is not NULL either.
///
/// # Errors
///
/// Returns `NO_LOG` if the bitmap keeps no log, and `WRONG_SIZE` if the length of `out` is not the number of bytes. `out` is then unchanged.
/// `size` is written with `WRONG_SIZE` too, and otherwise unchanged.
///
/// # Memory
///
/// Does not allocate.
///
/// # Complexity
///
/// Linear in the bytes.
#[unsafe(no_mangle)]
pub extern "C" fn mortarpink_log_bytes(bitmap: &mut Handle, out: &mut [u8], size: &mut usize) -> u32
    ensures same { bitmap.new.value ≡ bitmap.old.value }
    ensures bytes { FoundLogIn bitmap.old.value
        (λ log. ReportsBytes result size.old size.new out.old out.new (Bytes (Some log.bytes)))
        (λ status. (result ≡ status) × (size.new ≡ size.old) × (out.new ≡ out.old)) }
{
    in_handle!(bitmap, any => bytes(any, out, size))
}

// Removes the bytes of a log.
fn forget_of<const N: usize>(log: &mut Option<Log<N>>) -> u32
    ensures { ForgetsLog result log.old log.new }
{
    match log {
        Some(log) => {
            log.forget();
            DONE
        }
        None => NO_LOG,
    }
}

// Does the same for a session of any width.
fn forget_bytes(any: &mut AnySession) -> u32
    ensures { ChangesLog any.old (Forgets result) any.new }
{
    with_log!(any, _session, log => forget_of(log))
}

/// Removes the bytes that `mortarpink_log_bytes` returns, once the program has written them to its file.
///
/// The log keeps its position, its digest, and the capacity for its bytes.
///
/// # Errors
///
/// Returns `NO_LOG` if the bitmap keeps no log.
///
/// # Memory
///
/// Does not allocate.
///
/// # Complexity
///
/// Constant.
#[unsafe(no_mangle)]
pub extern "C" fn mortarpink_log_forget(bitmap: &mut Handle) -> u32
    ensures forgotten { CallsOnLog bitmap.old.value (Forgets result) (result ≡ EMPTY_HANDLE)
        bitmap.new.value }
{
    in_handle!(bitmap, any => forget_bytes(any))
}

// Writes the number of bytes of a log.
fn position_of<const N: usize>(log: &Option<Log<N>>, position: &mut u64) -> u32
    ensures { Returns result position.old position.new
        (log_read log.now (λ log. log.place.at)) }
{
    match log {
        Some(log) => {
            *position = log.position();
            DONE
        }
        None => NO_LOG,
    }
}

// Does the same for a session of any width.
fn position(any: &AnySession, position: &mut u64) -> u32
    ensures { Returns result position.old position.new
        (log_read (log_of any.now) (λ log. log.place.at)) }
{
    with_log!(any, _session, log => position_of(log, position))
}

/// Writes the number of bytes of the whole log to `position`. Bytes that were forgotten count.
///
/// # Errors
///
/// Returns `NO_LOG` if the bitmap keeps no log. `position` is then unchanged.
///
/// # Memory
///
/// Does not allocate.
///
/// # Complexity
///
/// Constant.
#[unsafe(no_mangle)]
pub extern "C" fn mortarpink_log_position(bitmap: &mut Handle, position: &mut u64) -> u32
    ensures same { bitmap.new.value ≡ bitmap.old.value }
    ensures position { Returns result position.old position.new
        (of_log bitmap.old.value (λ log. log.place.at)) }
{
    in_handle!(bitmap, any => self::position(any, position))
}

// Writes the digest of a log.
fn digest_of<const N: usize>(log: &Option<Log<N>>, digest: &mut u64) -> u32
    ensures { Returns result digest.old digest.new
        (log_read log.now (λ log. log.place.digest)) }
{
    match log {
        Some(log) => {
            *digest = log.digest();
            DONE
        }
        None => NO_LOG,
    }
}

// Does the same for a session of any width.
fn digest(any: &AnySession, digest: &mut u64) -> u32
    ensures { Returns result digest.old digest.new
        (log_read (log_of any.now) (λ log. log.place.digest)) }
{
    with_log!(any, _session, log => digest_of(log, digest))
}

/// Writes the digest of the whole log to `digest`: that of its last frame, which depends on all frames before it.
///
/// If two logs of one width have the same position and the same digest, they have the same bytes, unless two inputs of the digest collide.
///
/// # Errors
///
/// Returns `NO_LOG` if the bitmap keeps no log. `digest` is then unchanged.
///
/// # Memory
///
/// Does not allocate.
///
/// # Complexity
///
/// Constant.
#[unsafe(no_mangle)]
pub extern "C" fn mortarpink_log_digest(bitmap: &mut Handle, digest: &mut u64) -> u32
    ensures same { bitmap.new.value ≡ bitmap.old.value }
    ensures digest { Returns result digest.old digest.new
        (of_log bitmap.old.value (λ log. log.place.digest)) }
{
    in_handle!(bitmap, any => self::digest(any, digest))
}
