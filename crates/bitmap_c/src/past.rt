//! Reads of past states, in place: no bitmap is built.

ghost use Rattle.std.specs.Prelude.{◌≡◌, Ok, length};
ghost use Rattle.bitmap_core.specs.Searches.{next_one, next_zero, ones_count, prev_one, prev_zero, select_one};
ghost use Rattle.bitmap_c.specs.Pages.{ReturnsPage, ones_read};
ghost use Rattle.bitmap_c.specs.Reads.{Returns, bit_read, bytes_read, chunk_read, found, queried, read_commit, session_commit};
ghost use Rattle.bitmap_c.specs.Widths.{machine, width};

use crate::any::AnySession;
use crate::bytes::read_bytes;
use crate::handle::Handle;
use crate::pages::write_ones;
use crate::queries::{Query, bits_read, number_read};
use crate::status::{
    DONE, EMPTY_HANDLE, IN_BATCH, NO_SUCH_COMMIT, NONE, OUT_OF_BOUNDS, PRUNED, WRONG_SIZE,
};
use bitmap_core::bitmap::Readable;
use bitmap_core::chunk::chunk_index;
use bitmap_session::session::Session;

// Writes the number that a query reads of the bitmap at a commit.
fn number_of<const N: usize>(session: &Session<N>, number: u64, query: Query, out: &mut u64) -> u32
    ensures { Returns result out.old out.new (session_commit N session.now number (queried query)) }
{
    if session.current().is_none() {
        return IN_BATCH;
    }
    let Some(bitmap) = session.at_for(number, bits_read(query)) else {
        return NO_SUCH_COMMIT;
    };
    let Some(value) = number_read(&bitmap, query) else {
        return NONE;
    };
    *out = value;
    DONE
}

// Does the same for a session of any width.
fn any_number(any: &AnySession, number: u64, query: Query, out: &mut u64) -> u32
    ensures { Returns result out.old out.new
        (session_commit (width any.now) (machine any.now) number (queried query)) }
{
    at_width!(any, session => number_of(session, number, query, out))
}

// Writes the bit at a position of the bitmap at a commit.
fn bit_of<const N: usize>(session: &Session<N>, number: u64, position: u64, bit: &mut u8) -> u32
    ensures { Returns result bit.old bit.new
        (session_commit N session.now number (λ N b. bit_read N b position)) }
{
    if session.current().is_none() {
        return IN_BATCH;
    }
    let Some(bitmap) = session.at(number) else {
        return NO_SUCH_COMMIT;
    };
    if position >= bitmap.len() {
        return OUT_OF_BOUNDS;
    }
    if position < bitmap.pruned_bits() {
        return PRUNED;
    }
    *bit = bitmap.get_bit(position) as u8;
    DONE
}

// Does the same for a session of any width.
fn any_bit(any: &AnySession, number: u64, position: u64, bit: &mut u8) -> u32
    ensures { Returns result bit.old bit.new
        (session_commit (width any.now) (machine any.now) number (λ N b. bit_read N b position)) }
{
    at_width!(any, session => bit_of(session, number, position, bit))
}

// Writes the chunk of a position of the bitmap at a commit.
fn chunk_of<const N: usize>(session: &Session<N>, number: u64, position: u64, out: &mut [u8]) -> u32
    ensures { Returns result out.old out.new
        (session_commit N session.now number (λ N b. chunk_read N b position (length out.old))) }
{
    if session.current().is_none() {
        return IN_BATCH;
    }
    let Some(bitmap) = session.at(number) else {
        return NO_SUCH_COMMIT;
    };
    if out.len() != N {
        return WRONG_SIZE;
    }
    if position >= bitmap.len() {
        return OUT_OF_BOUNDS;
    }
    // The chunk of a position below the length is retained unless it is pruned.
    let Some(bytes) = bitmap.retained_bytes(chunk_index::<N>(position)) else {
        return PRUNED;
    };
    out.copy_from_slice(&bytes);
    DONE
}

// Does the same for a session of any width.
fn any_chunk(any: &AnySession, number: u64, position: u64, out: &mut [u8]) -> u32
    ensures { Returns result out.old out.new
        (session_commit (width any.now) (machine any.now) number
        (λ N b. chunk_read N b position (length out.old))) }
{
    at_width!(any, session => chunk_of(session, number, position, out))
}

// Fills `out` with the bits of a range of the bitmap at a commit.
fn bytes_of<const N: usize>(
    session: &Session<N>,
    number: u64,
    from: u64,
    to: u64,
    out: &mut [u8],
) -> u32
    ensures { Returns result out.old out.new
        (session_commit N session.now number (λ N b. bytes_read N b from to (length out.old))) }
{
    if session.current().is_none() {
        return IN_BATCH;
    }
    let Some(bitmap) = session.at_for(number, to.saturating_sub(from)) else {
        return NO_SUCH_COMMIT;
    };
    read_bytes(&bitmap, from, to, out)
}

// Does the same for a session of any width.
fn any_bytes(any: &AnySession, number: u64, from: u64, to: u64, out: &mut [u8]) -> u32
    ensures { Returns result out.old out.new
        (session_commit (width any.now) (machine any.now) number
        (λ N b. bytes_read N b from to (length out.old))) }
{
    at_width!(any, session => bytes_of(session, number, from, to, out))
}

// Writes a page of the set positions of a range of the bitmap at a commit.
fn ones_of<const N: usize>(
    session: &Session<N>,
    number: u64,
    from: u64,
    to: u64,
    out: &mut [u64],
    count: &mut usize,
) -> u32
    ensures { ReturnsPage result count.old count.new out.old out.new
        (session_commit N session.now number (λ N b. ones_read N b from to)) }
{
    if session.current().is_none() {
        return IN_BATCH;
    }
    // A page of ones has at least as many bits.
    let bits = to.saturating_sub(from).min(out.len() as u64);
    let Some(bitmap) = session.at_for(number, bits) else {
        return NO_SUCH_COMMIT;
    };
    *count = write_ones(&bitmap, from, to, out);
    DONE
}

// Does the same for a session of any width.
fn any_ones(
    any: &AnySession,
    number: u64,
    from: u64,
    to: u64,
    out: &mut [u64],
    count: &mut usize,
) -> u32
    ensures { ReturnsPage result count.old count.new out.old out.new
        (session_commit (width any.now) (machine any.now) number (λ N b. ones_read N b from to)) }
{
    at_width!(any, session => ones_of(session, number, from, to, out, count))
}

/// Writes the length of the bitmap at commit `number`, in bits, to `len`.
///
/// Pruned bits count.
///
/// # Errors
///
/// Returns `IN_BATCH` in a batch, and `NO_SUCH_COMMIT` if no commit is kept under `number`. `len` is then unchanged.
///
/// # Memory
///
/// Does not allocate.
///
/// # Complexity
///
/// A search among the kept commits.
#[unsafe(no_mangle)]
pub extern "C" fn mortarpink_len_at(bitmap: &mut Handle, number: u64, len: &mut u64) -> u32
    ensures same { bitmap.new.value ≡ bitmap.old.value }
    ensures read { Returns result len.old len.new
        (read_commit bitmap.old.value number (λ N b. Ok b.len)) }
{
    in_handle!(bitmap, any => any_number(any, number, Query::Len, len))
}

/// Writes the number of pruned chunks of the bitmap at commit `number` to `chunks`.
///
/// # Errors
///
/// Returns `IN_BATCH` in a batch, and `NO_SUCH_COMMIT` if no commit is kept under `number`. `chunks` is then unchanged.
///
/// # Memory
///
/// Does not allocate.
///
/// # Complexity
///
/// A search among the kept commits.
#[unsafe(no_mangle)]
pub extern "C" fn mortarpink_pruned_chunks_at(
    bitmap: &mut Handle,
    number: u64,
    chunks: &mut u64,
) -> u32
    ensures same { bitmap.new.value ≡ bitmap.old.value }
    ensures read { Returns result chunks.old chunks.new
        (read_commit bitmap.old.value number (λ N b. Ok b.pruned)) }
{
    in_handle!(bitmap, any => any_number(any, number, Query::PrunedChunks, chunks))
}

/// Writes the bit at a position of the bitmap at commit `number` to `bit`, as 0 or 1.
///
/// The position is in bits, and absolute.
///
/// # Errors
///
/// Returns the first status that applies. `bit` is then unchanged.
///
/// | Status | If |
/// |---|---|
/// | `IN_BATCH` | there is a batch |
/// | `NO_SUCH_COMMIT` | no commit is kept under `number` |
/// | `OUT_OF_BOUNDS` | the position is not below the length |
/// | `PRUNED` | the position is pruned |
///
/// # Memory
///
/// Does not allocate.
///
/// # Complexity
///
/// A search of each commit after `number`, or, with an index, one search.
#[unsafe(no_mangle)]
pub extern "C" fn mortarpink_get_at(
    bitmap: &mut Handle,
    number: u64,
    position: u64,
    bit: &mut u8,
) -> u32
    ensures same { bitmap.new.value ≡ bitmap.old.value }
    ensures read { Returns result bit.old bit.new
        (read_commit bitmap.old.value number (λ N b. bit_read N b position)) }
{
    in_handle!(bitmap, any => any_bit(any, number, position, bit))
}

/// Fills `out` with the chunk of a position of the bitmap at commit `number`.
///
/// The position is in bits, and absolute. Bits of the chunk past the length are 0.
///
/// # Errors
///
/// Returns the first status that applies. `out` is then unchanged.
///
/// | Status | If |
/// |---|---|
/// | `IN_BATCH` | there is a batch |
/// | `NO_SUCH_COMMIT` | no commit is kept under `number` |
/// | `WRONG_SIZE` | the length of `out` is not the width |
/// | `OUT_OF_BOUNDS` | the position is not below the length |
/// | `PRUNED` | the position is pruned |
///
/// # Memory
///
/// Does not allocate.
///
/// # Complexity
///
/// A search of each commit after `number`, or, with an index, one search.
#[unsafe(no_mangle)]
pub extern "C" fn mortarpink_chunk_at(
    bitmap: &mut Handle,
    number: u64,
    position: u64,
    out: &mut [u8],
) -> u32
    ensures same { bitmap.new.value ≡ bitmap.old.value }
    ensures read { Returns result out.old out.new
        (read_commit bitmap.old.value number (λ N b. chunk_read N b position (length out.old))) }
{
    in_handle!(bitmap, any => any_chunk(any, number, position, out))
}

/// Fills `out` with the bits from `from` up to `to` of the bitmap at commit `number`, eight in a byte, the lowest first.
///
/// Positions are in bits, and absolute. `to` is excluded. The bytes are as those of `mortarpink_read_bytes`.
///
/// # Errors
///
/// Returns the first status that applies. `out` is then unchanged.
///
/// | Status | If |
/// |---|---|
/// | `IN_BATCH` | there is a batch |
/// | `NO_SUCH_COMMIT` | no commit is kept under `number` |
/// | `WRONG_SIZE` | the length of `out` is not that of the range in bytes, rounded up, which is 0 if `to` is below `from` |
/// | `OUT_OF_BOUNDS` | `to` is below `from`, or above the length |
/// | `PRUNED` | the position `from` is pruned |
///
/// # Memory
///
/// Allocates at most the bytes of the chunks that later commits changed, with their indices, and frees them. If that fails, it reads
/// without them.
///
/// # Complexity
///
/// Linear in the words of the range. Each chunk that is read costs a search of each commit after `number`, or, with
/// an index, one search. If the range has many chunks, the chunks that these commits changed are gathered first where that costs less: in
/// one pass over the changes of these commits, and then each changed chunk costs one search.
#[unsafe(no_mangle)]
pub extern "C" fn mortarpink_read_bytes_at(
    bitmap: &mut Handle,
    number: u64,
    from: u64,
    to: u64,
    out: &mut [u8],
) -> u32
    ensures same { bitmap.new.value ≡ bitmap.old.value }
    ensures read { Returns result out.old out.new
        (read_commit bitmap.old.value number
        (λ N b. bytes_read N b from to (length out.old))) }
{
    in_handle!(bitmap, any => any_bytes(any, number, from, to, out))
}

/// Writes a page of the set positions of the bitmap at commit `number` from `from` up to `to`.
///
/// The positions are in bits, absolute and ascending. `to` is excluded. `count` becomes how many are written. Pages are as those of
/// `mortarpink_ones`.
///
/// # Errors
///
/// Returns `IN_BATCH` in a batch, and `NO_SUCH_COMMIT` if no commit is kept under `number`. `count` and `out` are then unchanged.
///
/// # Memory
///
/// Allocates at most the bytes of the chunks that later commits changed, with their indices, and frees them. If that fails, it reads
/// without them.
///
/// # Complexity
///
/// Linear in the chunks that are read. Each chunk that is read costs a search of each commit after `number`, or, with
/// an index, one search. If the range and `out` have room for the positions of many chunks, the chunks that these commits changed are gathered first where that costs less: in
/// one pass over the changes of these commits, and then each changed chunk costs one search.
#[unsafe(no_mangle)]
pub extern "C" fn mortarpink_ones_at(
    bitmap: &mut Handle,
    number: u64,
    from: u64,
    to: u64,
    out: &mut [u64],
    count: &mut usize,
) -> u32
    ensures same { bitmap.new.value ≡ bitmap.old.value }
    ensures page { ReturnsPage result count.old count.new out.old out.new
        (read_commit bitmap.old.value number (λ N b. ones_read N b from to)) }
{
    in_handle!(bitmap, any => any_ones(any, number, from, to, out, count))
}

/// Writes the least retained position, from `from` on, whose bit at commit `number` is 1, to `position`.
///
/// Positions are in bits, and absolute.
///
/// # Errors
///
/// Returns `IN_BATCH` in a batch, `NO_SUCH_COMMIT` if no commit is kept under `number`, and `NONE` if there is no such position.
/// `position` is then unchanged.
///
/// # Memory
///
/// Does not allocate.
///
/// # Complexity
///
/// Linear in the chunks that are read. Each chunk that is read costs a search of each commit after `number`, or, with
/// an index, one search.
#[unsafe(no_mangle)]
pub extern "C" fn mortarpink_next_one_at(
    bitmap: &mut Handle,
    number: u64,
    from: u64,
    position: &mut u64,
) -> u32
    ensures same { bitmap.new.value ≡ bitmap.old.value }
    ensures read { Returns result position.old position.new
        (read_commit bitmap.old.value number (λ N b. found (next_one N b from))) }
{
    in_handle!(bitmap, any => any_number(any, number, Query::NextOne(from), position))
}

/// Writes the least retained position, from `from` on, whose bit at commit `number` is 0, to `position`.
///
/// Positions are in bits, and absolute.
///
/// # Errors
///
/// Returns `IN_BATCH` in a batch, `NO_SUCH_COMMIT` if no commit is kept under `number`, and `NONE` if there is no such position.
/// `position` is then unchanged.
///
/// # Memory
///
/// Does not allocate.
///
/// # Complexity
///
/// Linear in the chunks that are read. Each chunk that is read costs a search of each commit after `number`, or, with
/// an index, one search.
#[unsafe(no_mangle)]
pub extern "C" fn mortarpink_next_zero_at(
    bitmap: &mut Handle,
    number: u64,
    from: u64,
    position: &mut u64,
) -> u32
    ensures same { bitmap.new.value ≡ bitmap.old.value }
    ensures read { Returns result position.old position.new
        (read_commit bitmap.old.value number (λ N b. found (next_zero N b from))) }
{
    in_handle!(bitmap, any => any_number(any, number, Query::NextZero(from), position))
}

/// Writes the greatest retained position, below `end`, whose bit at commit `number` is 1, to `position`.
///
/// Positions are in bits, and absolute.
///
/// # Errors
///
/// Returns `IN_BATCH` in a batch, `NO_SUCH_COMMIT` if no commit is kept under `number`, and `NONE` if there is no such position.
/// `position` is then unchanged.
///
/// # Memory
///
/// Does not allocate.
///
/// # Complexity
///
/// Linear in the chunks that are read. Each chunk that is read costs a search of each commit after `number`, or, with
/// an index, one search.
#[unsafe(no_mangle)]
pub extern "C" fn mortarpink_prev_one_at(
    bitmap: &mut Handle,
    number: u64,
    end: u64,
    position: &mut u64,
) -> u32
    ensures same { bitmap.new.value ≡ bitmap.old.value }
    ensures read { Returns result position.old position.new
        (read_commit bitmap.old.value number (λ N b. found (prev_one N b end))) }
{
    in_handle!(bitmap, any => any_number(any, number, Query::PrevOne(end), position))
}

/// Writes the greatest retained position, below `end`, whose bit at commit `number` is 0, to `position`.
///
/// Positions are in bits, and absolute.
///
/// # Errors
///
/// Returns `IN_BATCH` in a batch, `NO_SUCH_COMMIT` if no commit is kept under `number`, and `NONE` if there is no such position.
/// `position` is then unchanged.
///
/// # Memory
///
/// Does not allocate.
///
/// # Complexity
///
/// Linear in the chunks that are read. Each chunk that is read costs a search of each commit after `number`, or, with
/// an index, one search.
#[unsafe(no_mangle)]
pub extern "C" fn mortarpink_prev_zero_at(
    bitmap: &mut Handle,
    number: u64,
    end: u64,
    position: &mut u64,
) -> u32
    ensures same { bitmap.new.value ≡ bitmap.old.value }
    ensures read { Returns result position.old position.new
        (read_commit bitmap.old.value number (λ N b. found (prev_zero N b end))) }
{
    in_handle!(bitmap, any => any_number(any, number, Query::PrevZero(end), position))
}

/// Writes the number of set retained positions at commit `number` from `from` up to `to` to `count`.
///
/// Positions are in bits, and absolute. `to` is excluded.
///
/// # Errors
///
/// Returns `IN_BATCH` in a batch, and `NO_SUCH_COMMIT` if no commit is kept under `number`. `count` is then unchanged.
///
/// # Memory
///
/// Allocates at most the bytes of the chunks that later commits changed, with their indices, and frees them. If that fails, it reads
/// without them.
///
/// # Complexity
///
/// Linear in the chunks of the range. Each chunk that is read costs a search of each commit after `number`, or, with
/// an index, one search. If the range has many chunks, the chunks that these commits changed are gathered first where that costs less: in
/// one pass over the changes of these commits, and then each changed chunk costs one search.
#[unsafe(no_mangle)]
pub extern "C" fn mortarpink_count_ones_at(
    bitmap: &mut Handle,
    number: u64,
    from: u64,
    to: u64,
    count: &mut u64,
) -> u32
    ensures same { bitmap.new.value ≡ bitmap.old.value }
    ensures read { Returns result count.old count.new
        (read_commit bitmap.old.value number (λ N b. Ok (ones_count N b from to))) }
{
    in_handle!(bitmap, any => any_number(any, number, Query::CountOnes(from, to), count))
}

/// Writes the retained position set at commit `number` with `k` such positions below it to `position`.
///
/// Positions are in bits, and absolute.
///
/// # Errors
///
/// Returns `IN_BATCH` in a batch, `NO_SUCH_COMMIT` if no commit is kept under `number`, and `NONE` if there is no such position.
/// `position` is then unchanged.
///
/// # Memory
///
/// Allocates at most the bytes of the chunks that later commits changed, with their indices, and frees them. If that fails, it reads
/// without them.
///
/// # Complexity
///
/// Linear in the retained chunks up to that of the position. Each chunk that is read costs a search of each commit after `number`, or, with
/// an index, one search. If `k` bits fill many chunks, the chunks that these commits changed are gathered first where that costs less: in
/// one pass over the changes of these commits, and then each changed chunk costs one search.
#[unsafe(no_mangle)]
pub extern "C" fn mortarpink_select_one_at(
    bitmap: &mut Handle,
    number: u64,
    k: u64,
    position: &mut u64,
) -> u32
    ensures same { bitmap.new.value ≡ bitmap.old.value }
    ensures read { Returns result position.old position.new
        (read_commit bitmap.old.value number (λ N b. found (select_one N b k))) }
{
    in_handle!(bitmap, any => any_number(any, number, Query::SelectOne(k), position))
}
