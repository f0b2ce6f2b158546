//! Calls that make, read, copy and free a session, and the version of the interface.

ghost use Rattle.std.specs.Prelude.{◌≡◌, ◌==◌, Option, None, Some, IfErr, IfOk, IfSome, OnOk, is_some, if◌then◌else◌, true};
ghost use Rattle.bitmap_bytes.specs.Chunk.{IsWidth};
ghost use Rattle.bitmap_core.specs.Decoding.{decode_error, pruned_error};
ghost use Rattle.bitmap_c.specs.Logged.{CallsUnlogged, ServesAnyUnlogged, ServesUnlogged};
ghost use Rattle.bitmap_c.specs.Making.{Copies, Fills, IsEqual, IsRead, Makes, Reads, between, encoding_size, length_or, read_machine, read_status};
ghost use Rattle.bitmap_c.specs.Reports.{Reports};
ghost use Rattle.bitmap_c.specs.Widths.{is_width, without_log};

use crate::any::{AnySession, new_session};
use crate::handle::{Handle, put, take};
use crate::run::run;
use crate::status::{
    DONE, EMPTY_HANDLE, FULL_HANDLE, HAS_LOG, INVALID_LENGTH, NO_MEMORY, NO_SUCH_WIDTH,
    codec_status,
};
use bitmap_core::bitmap::codec::{CodecError, RangeCfg};
use bitmap_session::command::Command;
use bitmap_session::session::Session;
use commit_log::Log;
use std::alloc::{AllocError, Global};

/// The version of this interface, which `mortarpink_version` returns.
pub const VERSION: u32 = 2;

/// Returns the `VERSION` of the library.
///
/// # Memory
///
/// Does not allocate.
///
/// # Complexity
///
/// Constant.
#[unsafe(no_mangle)]
pub extern "C" fn mortarpink_version() -> u32
    ensures { result ≡ VERSION }
{
    VERSION
}

/// Returns whether a handle has a session. Does not allocate.
pub fn is_full(bitmap: &mut Handle) -> bool
    ensures full { result ≡ is_some bitmap.old.value }
    ensures unchanged { bitmap.new.value ≡ bitmap.old.value }
{
    let Some(_) = bitmap.session_mut() else {
        return false;
    };
    true
}

/// Puts a session into an empty handle, in an allocation of its own.
///
/// Returns `NO_MEMORY` if the allocation fails. The handle then stays empty.
pub fn fill(alloc: Global, bitmap: &mut Handle, any: AnySession) -> u32
    requires empty { bitmap.old.value ≡ None }
    ensures { Fills (IsEqual any) result bitmap.new.value }
{
    match Box::new(alloc, any) {
        Ok(any) => {
            put(bitmap, any);
            DONE
        }
        Err(_) => NO_MEMORY,
    }
}

/// Makes an empty bitmap with chunks of `width` bytes in an empty handle: nothing is pruned, and there are no commits.
///
/// # Errors
///
/// Returns `FULL_HANDLE` if the handle is not empty, `NO_SUCH_WIDTH` if the width is not 1, 8, 32 or 64, and `NO_MEMORY` if an
/// allocation fails. The handle is then unchanged.
///
/// # Memory
///
/// Allocates the bitmap.
///
/// # Complexity
///
/// Constant.
#[unsafe(no_mangle)]
pub extern "C" fn mortarpink_new(alloc: Global, bitmap: &mut Handle, width: u32) -> u32
    ensures made { Makes bitmap.old.value width result bitmap.new.value }
{
    if is_full(bitmap) {
        return FULL_HANDLE;
    }
    let Some(any) = new_session(alloc, width) else {
        return NO_SUCH_WIDTH;
    };
    fill(alloc, bitmap, any)
}

// Reads a session from the start of the bytes, and returns it with the size of its encoding.
fn read_session<const N: usize>(
    alloc: Global,
    least: u64,
    most: u64,
    bytes: &[u8],
) -> Result<(Session<N>, usize), CodecError>
    requires width { IsWidth N }
    ensures accepted { OnOk result (pruned_error N (between least most) bytes.now ≡ None) }
    ensures session { IfOk result (λ read. read.0 ≡ read_machine bytes.now) }
    ensures used { IfOk result (λ read. read.1 ≡ encoding_size N bytes.now) }
    ensures refused { IfErr result (λ e.
        pruned_error N (between least most) bytes.now ≡ decode_error e) }
{
    let range = RangeCfg::between(least, most);
    let mut rest = bytes;
    let session = Session::read(alloc, &mut rest, &range)?;
    Ok((session, bytes.len() - rest.len()))
}

// Reads a session of a width as `read_session` does, or returns `None` if there is no such width.
fn read_any(
    alloc: Global,
    width: u32,
    least: u64,
    most: u64,
    bytes: &[u8],
) -> Result<Option<(AnySession, usize)>, CodecError>
    ensures offered { IfOk result (λ read. is_some read ≡ is_width width) }
    ensures accepted { IfOk result (λ read. IfSome read (λ r.
        pruned_error width (between least most) bytes.now ≡ None)) }
    ensures session { IfOk result (λ read. IfSome read (λ r. IsRead width bytes.now r.0)) }
    ensures used { IfOk result (λ read. IfSome read (λ r. r.1 ≡ encoding_size width bytes.now)) }
    ensures refused { IfErr result (λ e. (is_width width ≡ true)
        × (pruned_error width (between least most) bytes.now ≡ decode_error e)) }
{
    match width {
        1 => {
            let (session, used) = read_session(alloc, least, most, bytes)?;
            Ok(Some((AnySession::Width1(session, None), used)))
        }
        8 => {
            let (session, used) = read_session(alloc, least, most, bytes)?;
            Ok(Some((AnySession::Width8(session, None), used)))
        }
        32 => {
            let (session, used) = read_session(alloc, least, most, bytes)?;
            Ok(Some((AnySession::Width32(session, None), used)))
        }
        64 => {
            let (session, used) = read_session(alloc, least, most, bytes)?;
            Ok(Some((AnySession::Width64(session, None), used)))
        }
        _ => Ok(None),
    }
}

// Returns the status of an error of a read, and writes the number of retained bits if it is out of range.
fn report_error(error: &CodecError, length: &mut u64) -> u32
    ensures status { result ≡ read_status (decode_error error.now) }
    ensures length { length.new ≡ length_or (decode_error error.now) length.old }
{
    match error {
        CodecError::InvalidLength(bits) => {
            *length = *bits;
            INVALID_LENGTH
        }
        CodecError::OutOfMemory => NO_MEMORY,
        _ => codec_status(error),
    }
}

/// Makes a bitmap from the encoding that `bytes` begin with, in an empty handle: with chunks of `width` bytes and no commits.
///
/// The number of retained bits is from `least` to `most`, both included. `used` becomes the size of the encoding in bytes.
///
/// # Errors
///
/// Returns the first status that applies. The handle and `used` are then unchanged.
///
/// | Status | If |
/// |---|---|
/// | `FULL_HANDLE` | the handle is not empty |
/// | `NO_SUCH_WIDTH` | the width is not 1, 8, 32 or 64 |
/// | `END_OF_BUFFER`, `INVALID_LENGTH`, `INVALID` | the bytes have this decode error first |
/// | `NO_MEMORY` | an allocation fails |
///
/// With `INVALID_LENGTH`, `length` becomes the number of retained bits that the bytes have. Otherwise it is unchanged.
///
/// # Memory
///
/// Allocates the bitmap.
///
/// # Complexity
///
/// Linear in the bytes of the encoding.
#[unsafe(no_mangle)]
pub extern "C" fn mortarpink_read(
    alloc: Global,
    bitmap: &mut Handle,
    width: u32,
    least: u64,
    most: u64,
    bytes: &[u8],
    used: &mut usize,
    length: &mut u64,
) -> u32
    ensures read { Reads bitmap.old.value width (between least most) bytes.now result
        bitmap.new.value }
    ensures used { used.new ≡ (if result == DONE then encoding_size width bytes.now else used.old) }
    ensures length { length.new ≡ (if result == INVALID_LENGTH
        then length_or (pruned_error width (between least most) bytes.now) length.old
        else length.old) }
{
    if is_full(bitmap) {
        return FULL_HANDLE;
    }
    match read_any(alloc, width, least, most, bytes) {
        Ok(Some((any, size))) => {
            let status = fill(alloc, bitmap, any);
            if status == DONE {
                *used = size;
            }
            status
        }
        Ok(None) => NO_SUCH_WIDTH,
        Err(error) => report_error(&error, length),
    }
}

/// Frees the bitmap of a handle and its commits, with every block that its calls allocated; the handle is empty afterwards.
///
/// # Errors
///
/// Returns `EMPTY_HANDLE` if the handle is empty. It then stays so.
///
/// # Memory
///
/// Does not allocate.
///
/// # Complexity
///
/// Linear in what is freed.
#[unsafe(no_mangle)]
pub extern "C" fn mortarpink_free(alloc: Global, bitmap: &mut Handle) -> u32
    ensures empty { bitmap.new.value ≡ None }
    ensures status { result ≡ (if is_some bitmap.old.value then DONE else EMPTY_HANDLE) }
{
    let Some(any) = take(alloc, bitmap) else {
        return EMPTY_HANDLE;
    };
    drop(any);
    DONE
}

// Returns a session that is equal to another one, but has no log.
fn copied(any: &AnySession) -> Result<AnySession, AllocError>
    ensures { IfOk result (λ copy. copy ≡ without_log any.now) }
{
    match any {
        AnySession::Width1(session, _) => Ok(AnySession::Width1(session.clone()?, None)),
        AnySession::Width8(session, _) => Ok(AnySession::Width8(session.clone()?, None)),
        AnySession::Width32(session, _) => Ok(AnySession::Width32(session.clone()?, None)),
        AnySession::Width64(session, _) => Ok(AnySession::Width64(session.clone()?, None)),
    }
}

// Puts a copy of a session, without its log, into an empty handle.
fn copy_into(alloc: Global, any: &AnySession, copy: &mut Handle) -> u32
    ensures { Copies (Some any.now) copy.old.value result copy.new.value }
{
    if is_full(copy) {
        return FULL_HANDLE;
    }
    match copied(any) {
        Ok(made) => fill(alloc, copy, made),
        Err(_) => NO_MEMORY,
    }
}

/// Copies the bitmap, its commits and its batch into the empty handle `copy`. The copy keeps no log.
///
/// # Errors
///
/// Returns the first that applies, and leaves `copy` unchanged: `EMPTY_HANDLE` if `bitmap` is empty, `FULL_HANDLE` if `copy` is
/// not, and `NO_MEMORY` if an allocation fails.
///
/// # Memory
///
/// Allocates what it copies.
///
/// # Complexity
///
/// Linear in what is copied.
#[unsafe(no_mangle)]
pub extern "C" fn mortarpink_clone(alloc: Global, bitmap: &mut Handle, copy: &mut Handle) -> u32
    ensures unchanged { bitmap.new.value ≡ bitmap.old.value }
    ensures copied { Copies bitmap.old.value copy.old.value result copy.new.value }
{
    in_handle!(bitmap, any => copy_into(alloc, any, copy))
}

// Starts anew, unless there is a log, which has no entry for this.
#[tactic(auto, unfolding(crate::specs::Logged::ServesUnlogged))]
fn start_of<const N: usize>(
    session: &mut Session<N>,
    log: &Option<Log<N>>,
    pruned_chunks: usize,
) -> u32
    requires width { IsWidth N }
    ensures { ServesUnlogged N session.old log.now (Command.Start pruned_chunks)
        (Reports result) (result ≡ HAS_LOG) session.new }
{
    match log {
        Some(_) => HAS_LOG,
        None => run(session, Command::Start(pruned_chunks)),
    }
}

#[tactic(auto, unfolding(crate::specs::Logged::ServesAnyUnlogged))]
fn start(any: &mut AnySession, pruned_chunks: usize) -> u32
    ensures { ServesAnyUnlogged any.old (λ N. Command.Start pruned_chunks) (Reports result)
        (result ≡ HAS_LOG) any.new }
{
    with_log!(any, session, log => start_of(session, log, pruned_chunks))
}

/// Replaces the bitmap by one with `pruned_chunks` pruned chunks, no bits, no commits and no last commit number.
///
/// # Errors
///
/// Returns `HAS_LOG` if the bitmap keeps a log, since a log goes on from its first state. Otherwise returns `IN_BATCH` in a batch, and
/// `PRUNED_CHUNKS_OVERFLOW` if the number of pruned bits would pass 2^64 - 1.
///
/// # Memory
///
/// Does not allocate.
///
/// # Complexity
///
/// Linear in what is freed.
#[unsafe(no_mangle)]
pub extern "C" fn mortarpink_start(bitmap: &mut Handle, pruned_chunks: u64) -> u32
    ensures step { CallsUnlogged bitmap.old.value (λ N. Command.Start pruned_chunks)
        (Reports result) (result ≡ EMPTY_HANDLE) (result ≡ HAS_LOG) bitmap.new.value }
{
    in_handle!(bitmap, any => start(any, pruned_chunks as usize))
}
