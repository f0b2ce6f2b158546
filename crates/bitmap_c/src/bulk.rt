//! Calls that edit many bits of a batch at once: all of them, or none.

ghost use Rattle.std.specs.Prelude.{◌≡◌, ◌<◌, ◌==◌, IfOk, OnErr, length, map, not};
ghost use Rattle.bitmap_bytes.specs.Chunk.{IsWidth};
ghost use Rattle.bitmap_session.specs.Edits.{EditsTo, appends_bits, lengthens, reason_in, sets_chunk, sets_range, shortens};
ghost use Rattle.bitmap_c.specs.Bulk.{CallsEdit, CallsEditChunk, EditsAny, EditsAnyChunk, EditsChunk, edit_status};

use crate::any::AnySession;
use crate::handle::Handle;
use crate::status::{DONE, EMPTY_HANDLE, WRONG_SIZE, edit_refusal_status};
use bitmap_session::reply::Refusal;
use bitmap_session::session::Session;
use std::alloc::{AllocError, Global};

// Returns the status of a call that edits.
fn edit_status(edited: &Result<(), Refusal>) -> u32
    ensures { result ≡ edit_status (reason_in edited.now) }
{
    match edited {
        Ok(()) => DONE,
        Err(refusal) => edit_refusal_status(refusal),
    }
}

// Replaces the bits of a chunk, if the bytes have the size of a chunk.
#[tactic(auto, unfolding(crate::specs::Bulk::EditsChunk))]
fn set_chunk_of<const N: usize>(session: &mut Session<N>, index: usize, bytes: &[u8]) -> u32
    requires width { IsWidth N }
    ensures { EditsChunk N (length bytes.now) session.old (sets_chunk N index bytes.now)
        result session.new }
{
    if bytes.len() != N {
        return WRONG_SIZE;
    }
    let mut chunk = [0; N];
    chunk.copy_from_slice(bytes);
    edit_status(&session.set_chunk(index, &chunk))
}

// Does the same for a session of any width.
fn set_chunk(any: &mut AnySession, index: usize, bytes: &[u8]) -> u32
    ensures { EditsAnyChunk (length bytes.now) any.old (λ N. sets_chunk N index bytes.now)
        result any.new }
{
    at_width!(any, session => set_chunk_of(session, index, bytes))
}

/// Replaces the bits of the chunk at an absolute index by those of `bytes`. Bits of `bytes` past the length are ignored.
///
/// The lowest bit of the first byte is the first bit of the chunk.
///
/// # Errors
///
/// Returns the first status that applies.
///
/// | Status | If |
/// |---|---|
/// | `WRONG_SIZE` | the length of `bytes` is not the width |
/// | `NOT_IN_BATCH` | there is no batch |
/// | `OUT_OF_BOUNDS` | no bit of the chunk is below the length |
/// | `PRUNED` | the chunk is pruned |
/// | `NO_MEMORY` | an allocation fails |
///
/// # Memory
///
/// Allocates the chunk if the batch has not edited it yet.
///
/// # Complexity
///
/// Linear in the width.
#[unsafe(no_mangle)]
pub extern "C" fn mortarpink_set_chunk(bitmap: &mut Handle, index: usize, bytes: &[u8]) -> u32
    ensures edited { CallsEditChunk (length bytes.now) bitmap.old.value
        (λ N. sets_chunk N index bytes.now) result bitmap.new.value }
{
    in_handle!(bitmap, any => set_chunk(any, index, bytes))
}

// Sets the bits of a range, in a session of any width.
fn set_range(any: &mut AnySession, from: u64, to: u64, bit: bool) -> Result<(), Refusal>
    ensures { EditsAny any.old (λ N. sets_range N from to bit) (reason_in result) any.new }
{
    at_width!(any, session => session.set_range(from, to, bit))
}

/// Replaces each bit from `from` up to `to`: by 0 if `bit` is 0, and otherwise by 1. `to` is excluded.
///
/// Positions are in bits, and absolute. If `to` is not above `from`, nothing changes. Otherwise each position has to be below the
/// length, and not pruned.
///
/// # Errors
///
/// Returns the first status that applies.
///
/// | Status | If |
/// |---|---|
/// | `NOT_IN_BATCH` | there is no batch |
/// | `OUT_OF_BOUNDS` | `to` is above the length, and above `from` |
/// | `PRUNED` | the position `from` is pruned, and `to` is above `from` |
/// | `NO_MEMORY` | an allocation fails |
///
/// # Memory
///
/// Allocates the chunks of the range that the batch has not edited yet.
///
/// # Complexity
///
/// Linear in the chunks of the range.
#[unsafe(no_mangle)]
pub extern "C" fn mortarpink_set_range(bitmap: &mut Handle, from: u64, to: u64, bit: u8) -> u32
    ensures edited { CallsEdit bitmap.old.value (λ N. sets_range N from to (not (bit == 0)))
        result bitmap.new.value }
{
    in_handle!(bitmap, any => edit_status(&set_range(any, from, to, bit != 0)))
}

// Shortens the pending bitmap of a session of any width.
fn truncate(any: &mut AnySession, length: u64) -> Result<(), Refusal>
    ensures { EditsAny any.old (λ N. shortens N length) (reason_in result) any.new }
{
    at_width!(any, session => session.truncate(length))
}

/// Removes the bits from position `length` on, so that this is the length. Pruned bits count.
///
/// # Errors
///
/// Returns `NOT_IN_BATCH` outside a batch, `OUT_OF_BOUNDS` if `length` is above the length, and `PRUNED` if it is below the number of
/// pruned bits.
///
/// # Memory
///
/// Does not allocate.
///
/// # Complexity
///
/// Linear in the removed chunks that the batch has edited.
#[unsafe(no_mangle)]
pub extern "C" fn mortarpink_truncate(bitmap: &mut Handle, length: u64) -> u32
    ensures edited { CallsEdit bitmap.old.value (λ N. shortens N length) result bitmap.new.value }
{
    in_handle!(bitmap, any => edit_status(&truncate(any, length)))
}

// Appends zeros to the pending bitmap of a session of any width.
fn extend_to(any: &mut AnySession, length: u64) -> Result<(), Refusal>
    ensures { EditsAny any.old (λ N. lengthens N length) (reason_in result) any.new }
{
    at_width!(any, session => session.extend_to(length))
}

/// Appends zeros up to a length of `length` bits. Pruned bits count.
///
/// If the bitmap has that length or more, nothing changes.
///
/// # Errors
///
/// Returns `NOT_IN_BATCH` outside a batch, and `NO_MEMORY` if an allocation fails.
///
/// # Memory
///
/// Allocates the chunks of the new bits that the batch has not edited yet.
///
/// # Complexity
///
/// Linear in the chunks of the new bits.
#[unsafe(no_mangle)]
pub extern "C" fn mortarpink_extend_to(bitmap: &mut Handle, length: u64) -> u32
    ensures edited { CallsEdit bitmap.old.value (λ N. lengthens N length) result bitmap.new.value }
{
    in_handle!(bitmap, any => edit_status(&extend_to(any, length)))
}

// Returns a bit per byte: 0 if the byte is 0, and otherwise 1.
fn bits_of(alloc: Global, bytes: &[u8]) -> Result<Vec<bool>, AllocError>
    ensures value { IfOk result (λ bits. bits.items ≡ map (λ byte. not (byte == 0)) bytes.now) }
    // Without bytes nothing is allocated.
    ensures some { OnErr result (0 < length bytes.now) }
{
    let mut bits = Vec::new(alloc);
    for i in 0..bytes.len() {
        bits.push(bytes[i] != 0)?;
    }
    Ok(bits)
}

// Appends a bit per byte to the pending bitmap. Looks for each other refusal before it allocates.
fn push_bits_of<const N: usize>(
    alloc: Global,
    session: &mut Session<N>,
    bytes: &[u8],
) -> Result<(), Refusal>
    ensures { EditsTo N session.old (appends_bits N (map (λ byte. not (byte == 0)) bytes.now))
        (reason_in result) session.new }
{
    let Some(pending) = session.pending() else {
        return Err(Refusal::WrongMode);
    };
    if bytes.len() as u64 > u64::MAX - pending.len() {
        return Err(Refusal::TooLong);
    }
    let Ok(bits) = bits_of(alloc, bytes) else {
        return Err(Refusal::NoMemory);
    };
    session.push_bits(bits.as_slice())
}

// Does the same for a session of any width.
fn push_bits(alloc: Global, any: &mut AnySession, bytes: &[u8]) -> Result<(), Refusal>
    ensures { EditsAny any.old (λ N. appends_bits N (map (λ byte. not (byte == 0)) bytes.now))
        (reason_in result) any.new }
{
    at_width!(any, session => push_bits_of(alloc, session, bytes))
}

/// Appends a bit per byte of `bits`, in order: 0 if the byte is 0, and otherwise 1. Appends all of them, or none.
///
/// # Errors
///
/// Returns `NOT_IN_BATCH` outside a batch, `TOO_LONG` if the length would pass 2^64 - 1, and `NO_MEMORY` if an allocation fails.
///
/// # Memory
///
/// Allocates the chunks of the new bits that the batch has not edited yet. Also allocates a byte per bit and the chunks of a copy of
/// the bits, which are freed before the return.
///
/// # Complexity
///
/// Linear in the bits.
#[unsafe(no_mangle)]
pub extern "C" fn mortarpink_push_bits(alloc: Global, bitmap: &mut Handle, bits: &[u8]) -> u32
    ensures edited { CallsEdit bitmap.old.value
        (λ N. appends_bits N (map (λ byte. not (byte == 0)) bits.now)) result bitmap.new.value }
{
    in_handle!(bitmap, any => edit_status(&push_bits(alloc, any, bits)))
}
