//! Calls that append many bytes or set many bits, one after another, up to the first that is refused.

ghost use Rattle.std.specs.Prelude.{◌==◌, not};
ghost use Rattle.bitmap_bytes.specs.Chunk.{IsWidth};
ghost use Rattle.bitmap_c.specs.Bulk.{CallsSetMany, SetsAnyMany, SetsMany};
ghost use Rattle.bitmap_c.specs.Calls.{CallsPushBytes, PushesAnyBytes, PushesBytes};

use crate::any::AnySession;
use crate::handle::Handle;
use crate::run::run_push_byte;
use crate::status::{DONE, EMPTY_HANDLE, edit_refusal_status};
use bitmap_session::session::Session;

// Pushes the bytes in order, up to the first one that is refused. Returns its status, and writes the number of bytes pushed.
#[tactic(auto, unfolding(crate::specs::Calls::PushesBytes))]
fn push_each<const N: usize>(session: &mut Session<N>, bytes: &[u8], count: &mut usize) -> u32
    requires width { IsWidth N }
    ensures { PushesBytes N session.old bytes.now count.new result session.new }
{
    for i in 0..bytes.len() {
        let status = run_push_byte(session, bytes[i]);
        if status != DONE {
            *count = i;
            return status;
        }
    }
    *count = bytes.len();
    DONE
}

fn push_bytes(any: &mut AnySession, bytes: &[u8], count: &mut usize) -> u32
    ensures { PushesAnyBytes any.old bytes.now count.new result any.new }
{
    at_width!(any, session => push_each(session, bytes, count))
}

/// Appends the bits of the bytes in order, up to the first byte that is refused.
///
/// `count` becomes the number of bytes appended, with every status but `EMPTY_HANDLE`. These bytes stay in the batch, so a caller goes
/// on with the rest. If there are no bytes, the status is `DONE`, also outside a batch.
///
/// # Errors
///
/// Returns the status of the first byte that is refused, as `mortarpink_push_byte`. The bytes before it are appended.
///
/// # Memory
///
/// Allocates the chunks of the new bits that the batch has not edited yet.
///
/// # Complexity
///
/// Linear in the bytes.
#[unsafe(no_mangle)]
pub extern "C" fn mortarpink_push_bytes(bitmap: &mut Handle, bytes: &[u8], count: &mut usize) -> u32
    ensures pushed { CallsPushBytes bitmap.old.value bytes.now count.old count.new
        result bitmap.new.value }
{
    in_handle!(bitmap, any => push_bytes(any, bytes, count))
}

// Sets the bits at the positions in order, up to the first one that is refused. Returns its status, and writes the number of bits set.
#[tactic(auto, unfolding(crate::specs::Bulk::SetsMany))]
fn set_each<const N: usize>(
    session: &mut Session<N>,
    positions: &[u64],
    bit: bool,
    count: &mut usize,
) -> u32
    ensures { SetsMany N session.old positions.now bit count.new result session.new }
{
    match session.set_many(positions, bit) {
        Ok(()) => {
            *count = positions.len();
            DONE
        }
        Err((set, refusal)) => {
            *count = set;
            edit_refusal_status(&refusal)
        }
    }
}

fn set_many(any: &mut AnySession, positions: &[u64], bit: bool, count: &mut usize) -> u32
    ensures { SetsAnyMany any.old positions.now bit count.new result any.new }
{
    at_width!(any, session => set_each(session, positions, bit, count))
}

/// Replaces the bit at each position in order, up to the first position that is refused: by 0 if `bit` is 0, and otherwise by 1.
///
/// Positions are in bits, and absolute. `count` becomes the number of positions before the one that is refused, with every status but
/// `EMPTY_HANDLE`. The bits at these positions stay replaced, so a caller goes on with the rest. If there are no positions, the status
/// is `DONE`, also outside a batch.
///
/// # Errors
///
/// Returns the status of the first position that is refused, as `mortarpink_set`. The bits at the positions before it are replaced.
///
/// # Memory
///
/// Allocates the chunks of the positions that the batch has not edited yet.
///
/// # Complexity
///
/// Amortized linear in the positions.
#[unsafe(no_mangle)]
pub extern "C" fn mortarpink_set_many(
    bitmap: &mut Handle,
    positions: &[u64],
    bit: u8,
    count: &mut usize,
) -> u32
    ensures set { CallsSetMany bitmap.old.value positions.now (not (bit == 0)) count.old count.new
        result bitmap.new.value }
{
    in_handle!(bitmap, any => set_many(any, positions, bit != 0, count))
}
