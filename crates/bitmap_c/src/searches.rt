//! Searches and counts in the pending bitmap if there is a batch, and otherwise in the current one.

ghost use Rattle.std.specs.Prelude.{◌≡◌, Ok};
ghost use Rattle.bitmap_core.specs.Searches.{next_one, next_zero, ones_count, prev_one, prev_zero, select_one};
ghost use Rattle.bitmap_c.specs.Pages.{ReturnsPage, ones_read};
ghost use Rattle.bitmap_c.specs.Reads.{Returns, found, queried, read_shown, session_shown};
ghost use Rattle.bitmap_c.specs.Widths.{machine, width};

use crate::any::AnySession;
use crate::handle::Handle;
use crate::pages::write_ones;
use crate::queries::{Query, number_read};
use crate::status::{DONE, EMPTY_HANDLE, NONE};
use bitmap_session::session::Session;

// Writes the number that a query reads of the bitmap that a session shows.
fn number_of<const N: usize>(session: &Session<N>, query: Query, out: &mut u64) -> u32
    ensures { Returns result out.old out.new (session_shown N session.now (queried query)) }
{
    let found = match session.pending() {
        Some(bitmap) => number_read(bitmap, query),
        None => number_read(session.current().unwrap(), query),
    };
    let Some(number) = found else {
        return NONE;
    };
    *out = number;
    DONE
}

// Does the same for a session of any width.
fn number(any: &AnySession, query: Query, out: &mut u64) -> u32
    ensures { Returns result out.old out.new
        (session_shown (width any.now) (machine any.now) (queried query)) }
{
    at_width!(any, session => number_of(session, query, out))
}

// Writes a page of the set positions of a range of the bitmap that a session shows.
fn ones_of<const N: usize>(
    session: &Session<N>,
    from: u64,
    to: u64,
    out: &mut [u64],
    count: &mut usize,
) -> u32
    ensures { ReturnsPage result count.old count.new out.old out.new
        (session_shown N session.now (λ N b. ones_read N b from to)) }
{
    *count = match session.pending() {
        Some(bitmap) => write_ones(bitmap, from, to, out),
        None => write_ones(session.current().unwrap(), from, to, out),
    };
    DONE
}

// Does the same for a session of any width.
fn ones(any: &AnySession, from: u64, to: u64, out: &mut [u64], count: &mut usize) -> u32
    ensures { ReturnsPage result count.old count.new out.old out.new
        (session_shown (width any.now) (machine any.now) (λ N b. ones_read N b from to)) }
{
    at_width!(any, session => ones_of(session, from, to, out, count))
}

/// Writes a page of the set positions from `from` up to `to`, `to` excluded.
///
/// The positions are in bits, absolute and ascending; no pruned one is among them. `count` becomes how many are written, which is at most
/// the length of `out`. The next page begins after the last position of this one. A page that is not full is the last.
///
/// # Memory
///
/// Does not allocate.
///
/// # Complexity
///
/// Linear in the chunks that are read.
#[unsafe(no_mangle)]
pub extern "C" fn mortarpink_ones(
    bitmap: &mut Handle,
    from: u64,
    to: u64,
    out: &mut [u64],
    count: &mut usize,
) -> u32
    ensures same { bitmap.new.value ≡ bitmap.old.value }
    ensures page { ReturnsPage result count.old count.new out.old out.new
        (read_shown bitmap.old.value (λ N b. ones_read N b from to)) }
{
    in_handle!(bitmap, any => ones(any, from, to, out, count))
}

/// Writes the least retained position, from `from` on, whose bit is 1, to `position`.
///
/// Positions are in bits, and absolute.
///
/// # Errors
///
/// Returns `NONE` if there is no such position. `position` is then unchanged.
///
/// # Memory
///
/// Does not allocate.
///
/// # Complexity
///
/// Linear in the chunks that are read.
#[unsafe(no_mangle)]
pub extern "C" fn mortarpink_next_one(bitmap: &mut Handle, from: u64, position: &mut u64) -> u32
    ensures same { bitmap.new.value ≡ bitmap.old.value }
    ensures read { Returns result position.old position.new
        (read_shown bitmap.old.value (λ N b. found (next_one N b from))) }
{
    in_handle!(bitmap, any => number(any, Query::NextOne(from), position))
}

/// Writes the least retained position, from `from` on, whose bit is 0, to `position`.
///
/// Positions are in bits, and absolute.
///
/// # Errors
///
/// Returns `NONE` if there is no such position. `position` is then unchanged.
///
/// # Memory
///
/// Does not allocate.
///
/// # Complexity
///
/// Linear in the chunks that are read.
#[unsafe(no_mangle)]
pub extern "C" fn mortarpink_next_zero(bitmap: &mut Handle, from: u64, position: &mut u64) -> u32
    ensures same { bitmap.new.value ≡ bitmap.old.value }
    ensures read { Returns result position.old position.new
        (read_shown bitmap.old.value (λ N b. found (next_zero N b from))) }
{
    in_handle!(bitmap, any => number(any, Query::NextZero(from), position))
}

/// Writes the greatest retained position, below `end`, whose bit is 1, to `position`.
///
/// Positions are in bits, and absolute.
///
/// # Errors
///
/// Returns `NONE` if there is no such position. `position` is then unchanged.
///
/// # Memory
///
/// Does not allocate.
///
/// # Complexity
///
/// Linear in the chunks that are read.
#[unsafe(no_mangle)]
pub extern "C" fn mortarpink_prev_one(bitmap: &mut Handle, end: u64, position: &mut u64) -> u32
    ensures same { bitmap.new.value ≡ bitmap.old.value }
    ensures read { Returns result position.old position.new
        (read_shown bitmap.old.value (λ N b. found (prev_one N b end))) }
{
    in_handle!(bitmap, any => number(any, Query::PrevOne(end), position))
}

/// Writes the greatest retained position, below `end`, whose bit is 0, to `position`.
///
/// Positions are in bits, and absolute.
///
/// # Errors
///
/// Returns `NONE` if there is no such position. `position` is then unchanged.
///
/// # Memory
///
/// Does not allocate.
///
/// # Complexity
///
/// Linear in the chunks that are read.
#[unsafe(no_mangle)]
pub extern "C" fn mortarpink_prev_zero(bitmap: &mut Handle, end: u64, position: &mut u64) -> u32
    ensures same { bitmap.new.value ≡ bitmap.old.value }
    ensures read { Returns result position.old position.new
        (read_shown bitmap.old.value (λ N b. found (prev_zero N b end))) }
{
    in_handle!(bitmap, any => number(any, Query::PrevZero(end), position))
}

/// Writes the number of set retained positions from `from` up to `to` to `count`.
///
/// Positions are in bits, and absolute. `to` is excluded.
///
/// # Memory
///
/// Does not allocate.
///
/// # Complexity
///
/// Linear in the chunks of the range.
#[unsafe(no_mangle)]
pub extern "C" fn mortarpink_count_ones(
    bitmap: &mut Handle,
    from: u64,
    to: u64,
    count: &mut u64,
) -> u32
    ensures same { bitmap.new.value ≡ bitmap.old.value }
    ensures read { Returns result count.old count.new
        (read_shown bitmap.old.value (λ N b. Ok (ones_count N b from to))) }
{
    in_handle!(bitmap, any => number(any, Query::CountOnes(from, to), count))
}

/// Writes the set retained position with `k` such positions below it to `position`.
///
/// Positions are in bits, and absolute.
///
/// # Errors
///
/// Returns `NONE` if there is no such position. `position` is then unchanged.
///
/// # Memory
///
/// Does not allocate.
///
/// # Complexity
///
/// Linear in the retained chunks up to that of the position.
#[unsafe(no_mangle)]
pub extern "C" fn mortarpink_select_one(bitmap: &mut Handle, k: u64, position: &mut u64) -> u32
    ensures same { bitmap.new.value ≡ bitmap.old.value }
    ensures read { Returns result position.old position.new
        (read_shown bitmap.old.value (λ N b. found (select_one N b k))) }
{
    in_handle!(bitmap, any => number(any, Query::SelectOne(k), position))
}
