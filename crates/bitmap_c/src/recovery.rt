//! The call that makes a bitmap again from the bytes of its log, whole or cut off by a crash.

ghost use Rattle.std.specs.Prelude.{◌≡◌, IfOk, IfSome, is_some};
ghost use Rattle.bitmap_bytes.specs.Chunk.{IsWidth};
ghost use Rattle.bitmap_c.specs.Recovered.{ReadsLog, RecoversLog, as_logged, good_or};
ghost use Rattle.bitmap_c.specs.Statuses.{recover_status};
ghost use Rattle.bitmap_c.specs.Widths.{is_width, width};

use crate::any::AnySession;
use crate::handle::Handle;
use crate::making::{fill, is_full};
use crate::status::{DONE, FULL_HANDLE, NO_MEMORY, NO_SUCH_WIDTH, recover_status};
use bitmap_session::logged::LoggedSession;
use bitmap_session::session::Session;
use commit_log::{Log, RecoverError};
use std::alloc::Global;

// Makes the session of a width, with its log and the number of good bytes, a session of any width.
macro_rules! as_any {
    ($width:ident, $read:expr) => {
        match $read {
            Ok(((session, log), good)) => Ok((AnySession::$width(session, log), good)),
            Err(error) => Err(error),
        }
    };
}

// Recovers a session and its log from the bytes of a log. Returns them with the number of good bytes.
fn recover_session<const N: usize>(
    alloc: Global,
    bytes: &[u8],
) -> Result<((Session<N>, Option<Log<N>>), usize), RecoverError>
    requires width { IsWidth N }
    ensures { ReadsLog N bytes.now result }
{
    match LoggedSession::recover(alloc, bytes) {
        Ok(found) => {
            let good = found.session.position() as usize;
            let (session, log) = found.session.into_parts();
            Ok(((session, Some(log)), good))
        }
        Err(error) => Err(error),
    }
}

// Recovers a session as `recover_session` does, with chunks of `size` bytes, or returns `None` if there is no such width.
fn recover_any(
    alloc: Global,
    size: u32,
    bytes: &[u8],
) -> Option<Result<(AnySession, usize), RecoverError>>
    ensures offered { is_some result ≡ is_width size }
    ensures width { IfSome result (λ read. IfOk read (λ found. width found.0 ≡ size)) }
    ensures read { IfSome result (λ read. ReadsLog size bytes.now (as_logged read)) }
{
    match size {
        1 => Some(as_any!(Width1, recover_session(alloc, bytes))),
        8 => Some(as_any!(Width8, recover_session(alloc, bytes))),
        32 => Some(as_any!(Width32, recover_session(alloc, bytes))),
        64 => Some(as_any!(Width64, recover_session(alloc, bytes))),
        _ => None,
    }
}

// Returns the status of an error, and writes the number of bytes before the damaged entry if there is one.
fn report_error(error: &RecoverError, good: &mut usize) -> u32
    ensures status { result ≡ recover_status error.now }
    ensures good { good.new ≡ good_or error.now good.old }
{
    if let RecoverError::Damaged { at, .. } = error {
        *good = *at as usize;
    }
    recover_status(error)
}

/// Makes a bitmap from the bytes of its log, whole or cut off by a crash, in an empty handle: with chunks of `width` bytes.
///
/// The bytes are those that `mortarpink_log_bytes` wrote since `mortarpink_log_begin`, or the first ones of them. The bitmap is the one after
/// the last entry that is whole in the bytes: outside a batch, with its kept commits and its last number. `good` becomes the number of
/// bytes up to the end of this entry. Bytes after them are torn: they are fewer than 16, or they end within an entry, or all of them are
/// zero. The program cuts them off its file before it writes to it again.
///
/// The bitmap keeps the log: its position is `good`, and no bytes of it are to be written. So the next entry belongs at the end of the file.
///
/// # Errors
///
/// `FULL_HANDLE` and `NO_SUCH_WIDTH` come first, and then the first error of the bytes, from the first byte on. The handle is then unchanged.
/// With a log, and with the first bytes of one, the status is never `DAMAGED` or `NOT_ACCEPTED`.
///
/// | Status | If |
/// |---|---|
/// | `FULL_HANDLE` | the handle is not empty |
/// | `NO_SUCH_WIDTH` | the width is not 1, 8, 32 or 64 |
/// | `CUT_OFF` | the bytes end within the header, which has 32 bytes, or within the bitmap that the log begins with |
/// | `WRONG_HEADER` | the bytes do not begin with the header of a log of this width |
/// | `DAMAGED` | a digest after the header is not that of the bytes before it, and the bytes are not torn |
/// | `NOT_ACCEPTED` | the digests are right, but a part of the bytes is no bitmap, or no entry that can follow |
/// | `NO_MEMORY` | an allocation fails |
///
/// With `DAMAGED` and `NOT_ACCEPTED`, `good` becomes the number of bytes before the damaged part. With any other error it is unchanged.
///
/// # Memory
///
/// Allocates the bitmap with its commits.
///
/// # Complexity
///
/// Linear in the bytes, and as `mortarpink_rewind` for each rewind in the log. If a commit makes the bitmap grow, it may also move in memory.
#[unsafe(no_mangle)]
pub extern "C" fn mortarpink_recover(
    alloc: Global,
    bitmap: &mut Handle,
    width: u32,
    bytes: &[u8],
    good: &mut usize,
) -> u32
    ensures recovered { RecoversLog bitmap.old.value width bytes.now result good.old good.new
        bitmap.new.value }
{
    if is_full(bitmap) {
        return FULL_HANDLE;
    }
    match recover_any(alloc, width, bytes) {
        Some(Ok((any, read))) => {
            if fill(alloc, bitmap, any) != DONE {
                return NO_MEMORY;
            }
            *good = read;
            DONE
        }
        Some(Err(error)) => report_error(&error, good),
        None => NO_SUCH_WIDTH,
    }
}
