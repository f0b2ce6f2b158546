//! Reads of the kept commits, in place.

ghost use Rattle.std.specs.Prelude.{◌≡◌};
ghost use Rattle.bitmap_c.specs.Pages.{ReturnsPage, changes_read, numbers_read};
ghost use Rattle.bitmap_c.specs.Reads.{of_handle};
ghost use Rattle.bitmap_c.specs.Widths.{machine, width};

use crate::any::AnySession;
use crate::handle::Handle;
use crate::pages::write_page;
use crate::status::{DONE, EMPTY_HANDLE, IN_BATCH, NO_SUCH_COMMIT};
use bitmap_session::session::Session;

// Writes a page of the kept commit numbers that are at least `from`.
fn numbers_of<const N: usize>(
    session: &Session<N>,
    from: u64,
    out: &mut [u64],
    count: &mut usize,
) -> u32
    ensures { ReturnsPage result count.old count.new out.old out.new
        (numbers_read session.now from) }
{
    let Some(mut numbers) = session.commits_from(from) else {
        return IN_BATCH;
    };
    *count = write_page(&mut numbers, out);
    DONE
}

// Does the same for a session of any width.
fn numbers(any: &AnySession, from: u64, out: &mut [u64], count: &mut usize) -> u32
    ensures { ReturnsPage result count.old count.new out.old out.new
        (numbers_read (machine any.now) from) }
{
    at_width!(any, session => numbers_of(session, from, out, count))
}

// Writes a page of the indices, from `first` on, of the chunks that differ between the bitmaps at two commits.
fn changes_of<const N: usize>(
    session: &Session<N>,
    from: u64,
    to: u64,
    first: u64,
    out: &mut [u64],
    count: &mut usize,
) -> u32
    ensures { ReturnsPage result count.old count.new out.old out.new
        (changes_read N session.now from to first) }
{
    if session.current().is_none() {
        return IN_BATCH;
    }
    let Some(mut chunks) = session.changed_chunks(from, to) else {
        return NO_SUCH_COMMIT;
    };
    chunks.skip_below(first as usize);
    *count = write_page(&mut chunks, out);
    DONE
}

// Does the same for a session of any width.
fn changes(
    any: &AnySession,
    from: u64,
    to: u64,
    first: u64,
    out: &mut [u64],
    count: &mut usize,
) -> u32
    ensures { ReturnsPage result count.old count.new out.old out.new
        (changes_read (width any.now) (machine any.now) from to first) }
{
    at_width!(any, session => changes_of(session, from, to, first, out, count))
}

/// Writes a page of the kept commit numbers from `from` on, ascending.
///
/// `count` becomes how many are written. Pages are as those of `mortarpink_ones`.
///
/// # Errors
///
/// Returns `IN_BATCH` in a batch. `count` and `out` are then unchanged.
///
/// # Memory
///
/// Does not allocate.
///
/// # Complexity
///
/// Logarithmic in the kept commits, plus linear in the numbers written.
#[unsafe(no_mangle)]
pub extern "C" fn mortarpink_commits(
    bitmap: &mut Handle,
    from: u64,
    out: &mut [u64],
    count: &mut usize,
) -> u32
    ensures same { bitmap.new.value ≡ bitmap.old.value }
    ensures page { ReturnsPage result count.old count.new out.old out.new
        (of_handle bitmap.old.value (λ N m. numbers_read m from)) }
{
    in_handle!(bitmap, any => numbers(any, from, out, count))
}

/// Writes a page of the indices, from `first` on, of the chunks that differ between the bitmaps at two commits.
///
/// Indices count chunks. They are absolute and ascending. A chunk that only one of the bitmaps retains differs. Bits past a length count as
/// zeros, so zeros that are appended to a partly filled chunk change no chunk: a replica needs the length too. `count` becomes how many
/// are written. Pages are as those of `mortarpink_ones`.
///
/// # Errors
///
/// Returns `IN_BATCH` in a batch, and `NO_SUCH_COMMIT` unless both commits are kept and `from` is at most `to`.
/// `count` and `out` are then unchanged.
///
/// # Memory
///
/// Does not allocate.
///
/// # Complexity
///
/// Two searches of the kept commits, and per chunk examined a search of each commit after `from`. A page examines the chunks
/// from `first` on with an entry in a commit after `from` and up to `to`. If `out` is full, it stops at the last one written.
/// With an index, a page takes a step for each commit between the two, and for each chunk examined a search in the index, if
/// that is estimated to cost less; then it examines the chunks of which the index has old bytes, and those that are newer than
/// the older bitmap.
#[unsafe(no_mangle)]
pub extern "C" fn mortarpink_changed_chunks(
    bitmap: &mut Handle,
    from: u64,
    to: u64,
    first: u64,
    out: &mut [u64],
    count: &mut usize,
) -> u32
    ensures same { bitmap.new.value ≡ bitmap.old.value }
    ensures page { ReturnsPage result count.old count.new out.old out.new
        (of_handle bitmap.old.value (λ N m. changes_read N m from to first)) }
{
    in_handle!(bitmap, any => changes(any, from, to, first, out, count))
}
