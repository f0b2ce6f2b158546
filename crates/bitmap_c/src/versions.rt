//! Calls that make a bitmap of a kept commit, and that index the kept commits.

ghost use Rattle.std.specs.Prelude.{◌≡◌, ◌==◌, None, Some, IfErr, IfOk, OnOk, not, unwrap_or};
ghost use Rattle.bitmap_session.specs.Abstraction.{reason};
ghost use Rattle.bitmap_session.specs.Machine.{checkout_refusal, wants_no_batch};
ghost use Rattle.bitmap_session.specs.Replies as replies;
ghost use Rattle.bitmap_c.specs.Making.{ChecksOut, Indexes, IsVersion};
ghost use Rattle.bitmap_c.specs.Widths.{machine};

use crate::any::AnySession;
use crate::handle::Handle;
use crate::making::{fill, is_full};
use crate::status::{DONE, EMPTY_HANDLE, FULL_HANDLE, refusal_status};
use bitmap_session::reply::Refusal;
use std::alloc::Global;

// Returns a session of the bitmap that another one keeps under a number. It has no log.
fn version(any: &AnySession, number: u64) -> Result<AnySession, Refusal>
    ensures value { IfOk result (λ made. IsVersion any.now number made) }
    ensures accepted { OnOk result (checkout_refusal (machine any.now).state number ≡ None) }
    ensures refused { IfErr result (λ e. reason e
        ≡ unwrap_or (checkout_refusal (machine any.now).state number) replies.Refusal.NoMemory) }
{
    match any {
        AnySession::Width1(session, _) => Ok(AnySession::Width1(session.checkout(number)?, None)),
        AnySession::Width8(session, _) => Ok(AnySession::Width8(session.checkout(number)?, None)),
        AnySession::Width32(session, _) => Ok(AnySession::Width32(session.checkout(number)?, None)),
        AnySession::Width64(session, _) => Ok(AnySession::Width64(session.checkout(number)?, None)),
    }
}

// Puts a session of the bitmap that another one keeps under a number into an empty handle.
fn check_out(alloc: Global, any: &AnySession, number: u64, copy: &mut Handle) -> u32
    ensures { ChecksOut (Some any.now) number copy.old.value result copy.new.value }
{
    if is_full(copy) {
        return FULL_HANDLE;
    }
    match version(any, number) {
        Ok(made) => fill(alloc, copy, made),
        Err(refusal) => refusal_status(&refusal),
    }
}

/// Makes a bitmap of its own of the bitmap at commit `number`, in the empty handle `copy`: with no commits, no last number and no log.
///
/// # Errors
///
/// Returns the first status that applies. `copy` is then unchanged.
///
/// | Status | If |
/// |---|---|
/// | `EMPTY_HANDLE` | `bitmap` is empty |
/// | `FULL_HANDLE` | `copy` is not empty |
/// | `IN_BATCH` | there is a batch |
/// | `NO_SUCH_COMMIT` | no commit is kept under `number` |
/// | `NO_MEMORY` | an allocation fails |
///
/// # Memory
///
/// Allocates the session and its bitmap.
///
/// # Complexity
///
/// Linear in the current bitmap, plus the commits after `number` and the chunks that they changed.
#[unsafe(no_mangle)]
pub extern "C" fn mortarpink_checkout(
    alloc: Global,
    bitmap: &mut Handle,
    number: u64,
    copy: &mut Handle,
) -> u32
    ensures unchanged { bitmap.new.value ≡ bitmap.old.value }
    ensures made { ChecksOut bitmap.old.value number copy.old.value result copy.new.value }
{
    in_handle!(bitmap, any => check_out(alloc, any, number, copy))
}

// Adds an index of the kept commits, or drops it, and returns the status.
fn index(any: &mut AnySession, on: bool) -> u32
    ensures unchanged { any.new ≡ any.old }
    ensures status { Indexes (Some any.old) on result }
{
    let indexed = at_width!(any, session => session.set_indexed(on));
    match indexed {
        Ok(()) => DONE,
        Err(refusal) => refusal_status(&refusal),
    }
}

/// Adds an index of the kept commits if `on` is not 0, and drops it if `on` is 0.
///
/// With the index, a read of a chunk at a commit searches once, however many commits are kept. Commits, rewinds, and calls that
/// drop commits keep the index, and a copy of the bitmap has a copy of it. Nothing that a call returns depends on the index, but
/// a commit also allocates the entries of the index, and returns `NO_MEMORY` if that fails.
///
/// # Errors
///
/// Returns `IN_BATCH` in a batch, and `NO_MEMORY` if an allocation fails. Nothing has changed then.
///
/// # Memory
///
/// Allocates the index: an entry per chunk whose old bytes a kept commit has, with these bytes. Does not allocate if `on` is 0.
///
/// # Complexity
///
/// Amortized linear in the kept commits and in the entries of their records. Linear in the index if it is dropped.
#[unsafe(no_mangle)]
pub extern "C" fn mortarpink_index(bitmap: &mut Handle, on: u8) -> u32
    ensures unchanged { bitmap.new.value ≡ bitmap.old.value }
    ensures status { Indexes bitmap.old.value (not (on == 0)) result }
{
    in_handle!(bitmap, any => index(any, on != 0))
}
