//! Calls that begin a batch, edit the pending bitmap, and end the batch.

ghost use Rattle.std.specs.Prelude.{◌≡◌, ◌==◌, length, not};
ghost use Rattle.bitmap_c.specs.Calls.{Calls, CallsChunk, ServesAny, ServesAnyChunk};
ghost use Rattle.bitmap_c.specs.Logged.{CallsLogged, ServesAnyLogged};
ghost use Rattle.bitmap_c.specs.Reports.{Reports, ReportsEdit, ReportsPop, ReportsPrevious};

use crate::any::AnySession;
use crate::handle::Handle;
use crate::run::{
    run, run_abort, run_commit, run_pop, run_prune, run_push, run_push_byte, run_push_chunk,
    run_set,
};
use crate::status::{EMPTY_HANDLE, WRONG_SIZE};
use bitmap_session::command::Command;

#[tactic(auto, unfolding(crate::specs::Calls::ServesAny))]
fn begin(any: &mut AnySession) -> u32
    ensures { ServesAny any.old (λ N. Command.Begin) (Reports result) any.new }
{
    at_width!(any, session => run(session, Command::Begin))
}

/// Begins a batch of edits on the current bitmap.
///
/// # Errors
///
/// Returns `IN_BATCH` in a batch.
///
/// # Memory
///
/// Does not allocate.
///
/// # Complexity
///
/// Constant.
#[unsafe(no_mangle)]
pub extern "C" fn mortarpink_begin(bitmap: &mut Handle) -> u32
    ensures step { Calls bitmap.old.value (λ N. Command.Begin) (Reports result)
        (result ≡ EMPTY_HANDLE) bitmap.new.value }
{
    in_handle!(bitmap, any => begin(any))
}

#[tactic(auto, unfolding(crate::specs::Calls::ServesAny))]
fn push(any: &mut AnySession, bit: bool) -> u32
    ensures { ServesAny any.old (λ N. Command.Push bit) (ReportsEdit result) any.new }
{
    at_width!(any, session => run_push(session, bit))
}

/// Appends a bit: 0 if `bit` is 0, and otherwise 1.
///
/// # Errors
///
/// Returns `NOT_IN_BATCH` outside a batch, `TOO_LONG` if the length would pass 2^64 - 1, and `NO_MEMORY` if an allocation fails.
///
/// # Memory
///
/// Allocates the chunk of the new bit if the batch has not edited it yet.
///
/// # Complexity
///
/// Amortized constant.
#[unsafe(no_mangle)]
pub extern "C" fn mortarpink_push(bitmap: &mut Handle, bit: u8) -> u32
    ensures step { Calls bitmap.old.value (λ N. Command.Push (not (bit == 0))) (ReportsEdit result)
        (result ≡ EMPTY_HANDLE) bitmap.new.value }
{
    in_handle!(bitmap, any => push(any, bit != 0))
}

#[tactic(auto, unfolding(crate::specs::Calls::ServesAny))]
fn push_byte(any: &mut AnySession, byte: u8) -> u32
    ensures { ServesAny any.old (λ N. Command.PushByte byte) (ReportsEdit result) any.new }
{
    at_width!(any, session => run_push_byte(session, byte))
}

/// Appends the eight bits of a byte, the lowest first.
///
/// # Errors
///
/// As `mortarpink_push`.
///
/// # Memory
///
/// Allocates the chunks of the new bits that the batch has not edited yet.
///
/// # Complexity
///
/// Amortized constant.
#[unsafe(no_mangle)]
pub extern "C" fn mortarpink_push_byte(bitmap: &mut Handle, byte: u8) -> u32
    ensures step { Calls bitmap.old.value (λ N. Command.PushByte byte) (ReportsEdit result)
        (result ≡ EMPTY_HANDLE) bitmap.new.value }
{
    in_handle!(bitmap, any => push_byte(any, byte))
}

#[tactic(auto, unfolding(crate::specs::Calls::ServesAnyChunk))]
fn push_chunk(any: &mut AnySession, bytes: &[u8]) -> u32
    ensures { ServesAnyChunk (length bytes.now) any.old (λ N. Command.PushChunk bytes.now)
        (ReportsEdit result) (result ≡ WRONG_SIZE) any.new }
{
    at_width!(any, session => run_push_chunk(session, bytes))
}

/// Appends the bits of one chunk, the lowest bit of its first byte first.
///
/// # Errors
///
/// Returns `WRONG_SIZE` if the length of `bytes` is not the width. Otherwise as `mortarpink_push`.
///
/// # Memory
///
/// Allocates the chunks of the new bits that the batch has not edited yet.
///
/// # Complexity
///
/// Amortized linear in the width.
#[unsafe(no_mangle)]
pub extern "C" fn mortarpink_push_chunk(bitmap: &mut Handle, bytes: &[u8]) -> u32
    ensures step { CallsChunk (length bytes.now) bitmap.old.value (λ N. Command.PushChunk bytes.now)
        (ReportsEdit result) (result ≡ EMPTY_HANDLE) (result ≡ WRONG_SIZE) bitmap.new.value }
{
    in_handle!(bitmap, any => push_chunk(any, bytes))
}

#[tactic(auto, unfolding(crate::specs::Calls::ServesAny))]
fn pop(any: &mut AnySession, bit: &mut u8) -> u32
    ensures { ServesAny any.old (λ N. Command.Pop) (ReportsPop result bit.old bit.new) any.new }
{
    at_width!(any, session => run_pop(session, bit))
}

/// Removes the last bit; `bit` becomes it.
///
/// # Errors
///
/// Returns `NOT_IN_BATCH` outside a batch, and `NO_RETAINED_BIT` if no bit is retained. `bit` is then unchanged.
///
/// # Memory
///
/// Does not allocate.
///
/// # Complexity
///
/// Constant.
#[unsafe(no_mangle)]
pub extern "C" fn mortarpink_pop(bitmap: &mut Handle, bit: &mut u8) -> u32
    ensures step { Calls bitmap.old.value (λ N. Command.Pop) (ReportsPop result bit.old bit.new)
        ((result ≡ EMPTY_HANDLE) × (bit.new ≡ bit.old)) bitmap.new.value }
{
    in_handle!(bitmap, any => pop(any, bit))
}

#[tactic(auto, unfolding(crate::specs::Calls::ServesAny))]
fn set(any: &mut AnySession, position: u64, bit: bool) -> u32
    ensures { ServesAny any.old (λ N. Command.Set position bit) (ReportsEdit result) any.new }
{
    at_width!(any, session => run_set(session, position, bit))
}

/// Replaces the bit at an absolute position: by 0 if `bit` is 0, and otherwise by 1.
///
/// # Errors
///
/// Returns `NOT_IN_BATCH` outside a batch, `OUT_OF_BOUNDS` if the position is not below the length, `PRUNED` if it is pruned, and
/// `NO_MEMORY` if an allocation fails.
///
/// # Memory
///
/// Allocates the chunk of the position if the batch has not edited it yet.
///
/// # Complexity
///
/// Amortized constant.
#[unsafe(no_mangle)]
pub extern "C" fn mortarpink_set(bitmap: &mut Handle, position: u64, bit: u8) -> u32
    ensures step { Calls bitmap.old.value (λ N. Command.Set position (not (bit == 0)))
        (ReportsEdit result) (result ≡ EMPTY_HANDLE) bitmap.new.value }
{
    in_handle!(bitmap, any => set(any, position, bit != 0))
}

#[tactic(auto, unfolding(crate::specs::Calls::ServesAny))]
fn prune(any: &mut AnySession, position: u64) -> u32
    ensures { ServesAny any.old (λ N. Command.Prune position) (ReportsEdit result) any.new }
{
    at_width!(any, session => run_prune(session, position))
}

/// Prunes the chunks before the chunk of an absolute position, which may be the length.
///
/// # Errors
///
/// Returns `NOT_IN_BATCH` outside a batch, `OUT_OF_BOUNDS` if the position is above the length, and `NO_MEMORY` if an allocation
/// fails.
///
/// # Memory
///
/// Allocates a copy of each chunk that it prunes.
///
/// # Complexity
///
/// Amortized linear in the chunks pruned.
#[unsafe(no_mangle)]
pub extern "C" fn mortarpink_prune(bitmap: &mut Handle, position: u64) -> u32
    ensures step { Calls bitmap.old.value (λ N. Command.Prune position) (ReportsEdit result)
        (result ≡ EMPTY_HANDLE) bitmap.new.value }
{
    in_handle!(bitmap, any => prune(any, position))
}

#[tactic(auto, unfolding(crate::specs::Logged::ServesAnyLogged))]
fn commit(any: &mut AnySession, number: u64, previous: &mut u64) -> u32
    ensures { ServesAnyLogged any.old (λ N. Command.Commit number)
        (ReportsPrevious result previous.old previous.new) any.new }
{
    with_log!(any, session, log => run_commit(session, log, number, previous))
}

/// Ends the batch: the pending bitmap becomes the current one, and is kept under the number.
///
/// The number has to be above the last one that was committed or rewound to, even if that commit was dropped since. So after a commit under
/// 2^64 - 2, the greatest number, there is none unless the bitmap is rewound to an earlier commit.
///
/// If the bitmap keeps a log, the entry of the commit is appended to it. With another status than `DONE` the log is unchanged.
///
/// # Errors
///
/// Returns the first status that applies. The batch then goes on.
///
/// | Status | If |
/// |---|---|
/// | `NOT_IN_BATCH` | there is no batch |
/// | `RESERVED_COMMIT_NUMBER` | the number is 2^64 - 1 |
/// | `NON_MONOTONIC_COMMIT` | the number is not above the last one |
/// | `NO_MEMORY` | an allocation fails, or the log would have 2^64 bytes or more |
///
/// With `NON_MONOTONIC_COMMIT`, `previous` becomes the last number. Otherwise it is unchanged.
///
/// # Memory
///
/// Allocates the reverse record of the commit, and space by which the bitmap, the list of commits and the log grow.
///
/// # Complexity
///
/// Amortized linear in the chunks that the batch edited, pruned or removed. The entry of a log is linear in its bytes.
#[unsafe(no_mangle)]
pub extern "C" fn mortarpink_commit(bitmap: &mut Handle, number: u64, previous: &mut u64) -> u32
    ensures step { CallsLogged bitmap.old.value (λ N. Command.Commit number)
        (ReportsPrevious result previous.old previous.new)
        ((result ≡ EMPTY_HANDLE) × (previous.new ≡ previous.old)) bitmap.new.value }
{
    in_handle!(bitmap, any => commit(any, number, previous))
}

#[tactic(auto, unfolding(crate::specs::Calls::ServesAny))]
fn abort(any: &mut AnySession) -> u32
    ensures { ServesAny any.old (λ N. Command.Abort) (ReportsEdit result) any.new }
{
    at_width!(any, session => run_abort(session))
}

/// Ends the batch and drops its edits.
///
/// # Errors
///
/// Returns `NOT_IN_BATCH` outside a batch.
///
/// # Memory
///
/// Does not allocate.
///
/// # Complexity
///
/// Linear in the chunks that the batch edited or pruned.
#[unsafe(no_mangle)]
pub extern "C" fn mortarpink_abort(bitmap: &mut Handle) -> u32
    ensures step { Calls bitmap.old.value (λ N. Command.Abort) (ReportsEdit result)
        (result ≡ EMPTY_HANDLE) bitmap.new.value }
{
    in_handle!(bitmap, any => abort(any))
}
