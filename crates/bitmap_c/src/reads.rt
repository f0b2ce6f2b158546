//! Calls that read the pending bitmap in a batch and otherwise the current one, and calls that encode a bitmap.

ghost use Rattle.std.specs.Prelude.{◌≡◌, length};
ghost use Rattle.bitmap_c.specs.Calls.{Calls, CallsChunk, ServesAny, ServesAnyChunk};
ghost use Rattle.bitmap_c.specs.Reads.{Returns, bytes_read, read_shown, session_shown};
ghost use Rattle.bitmap_c.specs.Reports.{ReportsBit, ReportsBytes, ReportsChunk, ReportsNumber};
ghost use Rattle.bitmap_c.specs.Widths.{machine, width};

use crate::any::AnySession;
use crate::bytes::read_bytes;
use crate::handle::Handle;
use crate::run::{run_chunk, run_encode, run_encode_at, run_get, run_len, run_pruned_chunks};
use crate::status::{EMPTY_HANDLE, WRONG_SIZE};
use bitmap_session::command::Command;
use bitmap_session::session::Session;

#[tactic(auto, unfolding(crate::specs::Calls::ServesAny))]
fn len(any: &AnySession, len: &mut u64) -> u32
    ensures { ServesAny any.now (λ N. Command.Len) (ReportsNumber result len.old len.new) any.now }
{
    at_width!(any, session => run_len(session, len))
}

/// Writes the length in bits to `len`. Pruned bits count.
///
/// # Memory
///
/// Does not allocate.
///
/// # Complexity
///
/// Constant.
#[unsafe(no_mangle)]
pub extern "C" fn mortarpink_len(bitmap: &mut Handle, len: &mut u64) -> u32
    ensures step { Calls bitmap.old.value (λ N. Command.Len) (ReportsNumber result len.old len.new)
        ((result ≡ EMPTY_HANDLE) × (len.new ≡ len.old)) bitmap.new.value }
{
    in_handle!(bitmap, any => self::len(any, len))
}

#[tactic(auto, unfolding(crate::specs::Calls::ServesAny))]
fn pruned_chunks(any: &AnySession, chunks: &mut u64) -> u32
    ensures { ServesAny any.now (λ N. Command.PrunedChunks)
        (ReportsNumber result chunks.old chunks.new) any.now }
{
    at_width!(any, session => run_pruned_chunks(session, chunks))
}

/// Writes the number of pruned chunks to `chunks`.
///
/// # Memory
///
/// Does not allocate.
///
/// # Complexity
///
/// Constant.
#[unsafe(no_mangle)]
pub extern "C" fn mortarpink_pruned_chunks(bitmap: &mut Handle, chunks: &mut u64) -> u32
    ensures step { Calls bitmap.old.value (λ N. Command.PrunedChunks)
        (ReportsNumber result chunks.old chunks.new)
        ((result ≡ EMPTY_HANDLE) × (chunks.new ≡ chunks.old)) bitmap.new.value }
{
    in_handle!(bitmap, any => pruned_chunks(any, chunks))
}

#[tactic(auto, unfolding(crate::specs::Calls::ServesAny))]
fn get(any: &AnySession, position: u64, bit: &mut u8) -> u32
    ensures { ServesAny any.now (λ N. Command.Get position) (ReportsBit result bit.old bit.new)
        any.now }
{
    at_width!(any, session => run_get(session, position, bit))
}

/// Writes the bit at an absolute position to `bit`, as 0 or 1.
///
/// # Errors
///
/// Returns `OUT_OF_BOUNDS` if the position is not below the length, and `PRUNED` if it is pruned. `bit` is then unchanged.
///
/// # Memory
///
/// Does not allocate.
///
/// # Complexity
///
/// Constant.
#[unsafe(no_mangle)]
pub extern "C" fn mortarpink_get(bitmap: &mut Handle, position: u64, bit: &mut u8) -> u32
    ensures step { Calls bitmap.old.value (λ N. Command.Get position)
        (ReportsBit result bit.old bit.new)
        ((result ≡ EMPTY_HANDLE) × (bit.new ≡ bit.old)) bitmap.new.value }
{
    in_handle!(bitmap, any => get(any, position, bit))
}

#[tactic(auto, unfolding(crate::specs::Calls::ServesAnyChunk))]
fn chunk(any: &AnySession, position: u64, out: &mut [u8]) -> u32
    ensures { ServesAnyChunk (length out.old) any.now (λ N. Command.Chunk position)
        (ReportsChunk result out.old out.new) ((result ≡ WRONG_SIZE) × (out.new ≡ out.old))
        any.now }
{
    at_width!(any, session => run_chunk(session, position, out))
}

/// Fills `out` with the chunk of an absolute position. Its bits past the length are zero.
///
/// # Errors
///
/// Returns the first status that applies. `out` is then unchanged.
///
/// | Status | If |
/// |---|---|
/// | `WRONG_SIZE` | the length of `out` is not the width |
/// | `OUT_OF_BOUNDS` | the position is not below the length |
/// | `PRUNED` | the position is pruned |
///
/// # Memory
///
/// Does not allocate.
///
/// # Complexity
///
/// Linear in the width.
#[unsafe(no_mangle)]
pub extern "C" fn mortarpink_chunk(bitmap: &mut Handle, position: u64, out: &mut [u8]) -> u32
    ensures step { CallsChunk (length out.old) bitmap.old.value (λ N. Command.Chunk position)
        (ReportsChunk result out.old out.new)
        ((result ≡ EMPTY_HANDLE) × (out.new ≡ out.old))
        ((result ≡ WRONG_SIZE) × (out.new ≡ out.old)) bitmap.new.value }
{
    in_handle!(bitmap, any => chunk(any, position, out))
}

// Fills `out` with the bits of a range of the bitmap that a session shows.
fn bytes_of<const N: usize>(session: &Session<N>, from: u64, to: u64, out: &mut [u8]) -> u32
    ensures { Returns result out.old out.new
        (session_shown N session.now (λ N b. bytes_read N b from to (length out.old))) }
{
    match session.pending() {
        Some(bitmap) => read_bytes(bitmap, from, to, out),
        None => read_bytes(session.current().unwrap(), from, to, out),
    }
}

// Does the same for a session of any width.
fn bytes(any: &AnySession, from: u64, to: u64, out: &mut [u8]) -> u32
    ensures { Returns result out.old out.new
        (session_shown (width any.now) (machine any.now)
        (λ N b. bytes_read N b from to (length out.old))) }
{
    at_width!(any, session => bytes_of(session, from, to, out))
}

/// Fills `out` with the bits from `from` up to `to`, eight in a byte, the lowest first.
///
/// Positions are in bits, and absolute. `to` is excluded. Bit k mod 8 of byte k / 8 is the bit at position `from` + k. The bits of the
/// last byte past `to` are 0.
///
/// # Errors
///
/// Returns the first status that applies. `out` is then unchanged.
///
/// | Status | If |
/// |---|---|
/// | `WRONG_SIZE` | the length of `out` is not that of the range in bytes, rounded up, which is 0 if `to` is below `from` |
/// | `OUT_OF_BOUNDS` | `to` is below `from`, or above the length |
/// | `PRUNED` | the position `from` is pruned |
///
/// # Memory
///
/// Does not allocate.
///
/// # Complexity
///
/// Linear in the words of the range.
#[unsafe(no_mangle)]
pub extern "C" fn mortarpink_read_bytes(
    bitmap: &mut Handle,
    from: u64,
    to: u64,
    out: &mut [u8],
) -> u32
    ensures same { bitmap.new.value ≡ bitmap.old.value }
    ensures read { Returns result out.old out.new
        (read_shown bitmap.old.value (λ N b. bytes_read N b from to (length out.old))) }
{
    in_handle!(bitmap, any => bytes(any, from, to, out))
}

#[tactic(auto, unfolding(crate::specs::Calls::ServesAny))]
fn encode(any: &AnySession, out: &mut [u8], size: &mut usize) -> u32
    ensures { ServesAny any.now (λ N. Command.Encode)
        (ReportsBytes result size.old size.new out.old out.new) any.now }
{
    at_width!(any, session => run_encode(session, out, size))
}

/// Fills `out` with the encoding of the current bitmap, and writes the size of the encoding in bytes to `size`.
///
/// A caller that does not know the size calls with an empty `out` first, whose pointer is not NULL either.
///
/// # Errors
///
/// Returns `IN_BATCH` in a batch, `NO_MEMORY` if an allocation fails, and `WRONG_SIZE` if the length of `out` is not the size of the
/// encoding. `out` is then unchanged. `size` is written with `WRONG_SIZE` too, and otherwise unchanged.
///
/// # Memory
///
/// Allocates the encoding, which is freed before the return.
///
/// # Complexity
///
/// Linear in the encoding.
#[unsafe(no_mangle)]
pub extern "C" fn mortarpink_encode(bitmap: &mut Handle, out: &mut [u8], size: &mut usize) -> u32
    ensures step { Calls bitmap.old.value (λ N. Command.Encode)
        (ReportsBytes result size.old size.new out.old out.new)
        ((result ≡ EMPTY_HANDLE) × (size.new ≡ size.old) × (out.new ≡ out.old))
        bitmap.new.value }
{
    in_handle!(bitmap, any => encode(any, out, size))
}

#[tactic(auto, unfolding(crate::specs::Calls::ServesAny))]
fn encode_at(any: &AnySession, number: u64, out: &mut [u8], size: &mut usize) -> u32
    ensures { ServesAny any.now (λ N. Command.EncodeAt number)
        (ReportsBytes result size.old size.new out.old out.new) any.now }
{
    at_width!(any, session => run_encode_at(session, number, out, size))
}

/// Fills `out` with the encoding of the bitmap at commit `number`, and writes the size of the encoding in bytes to `size`.
///
/// # Errors
///
/// Returns `NO_SUCH_COMMIT` if no commit is kept under `number`. `size` and `out` are then unchanged. Otherwise as `mortarpink_encode`.
///
/// # Memory
///
/// Allocates the bitmap and its encoding, which are freed before the return.
///
/// # Complexity
///
/// Linear in the current bitmap, plus the commits after `number` and the chunks that they changed.
#[unsafe(no_mangle)]
pub extern "C" fn mortarpink_encode_at(
    bitmap: &mut Handle,
    number: u64,
    out: &mut [u8],
    size: &mut usize,
) -> u32
    ensures step { Calls bitmap.old.value (λ N. Command.EncodeAt number)
        (ReportsBytes result size.old size.new out.old out.new)
        ((result ≡ EMPTY_HANDLE) × (size.new ≡ size.old) × (out.new ≡ out.old))
        bitmap.new.value }
{
    in_handle!(bitmap, any => encode_at(any, number, out, size))
}
