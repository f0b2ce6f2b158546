//! Edits of a batch by the commands of a script.

ghost use Rattle.std.specs.Prelude.{◌≡◌, ◌+◌, ◌^◌, IfOk, OnErr, false};
ghost use Rattle.bitmap_core.specs.PrunedBits.{bit_len};
ghost use Rattle.historical_bitmap.specs.View.{pending_of};

use crate::command::Edit;
use bitmap_core::bitmap::Readable;
use bitmap_core::chunk::chunk_count;
use historical_bitmap::bitmap::historical::DirtyBitMap;
use std::alloc::AllocError;

// Returns how many bits may be appended, and one more.
fn space<const N: usize>(bits: &DirtyBitMap<N>) -> u64
    ensures { result + bit_len N (pending_of N bits.now) + 1 ≡ 2 ^ 64 }
{
    u64::MAX - bits.len()
}

/// Makes an edit. Returns whether the batch allows it. If not, nothing changes.
pub fn make_edit<const N: usize>(
    bits: &mut DirtyBitMap<N>,
    edit: Edit<N>,
) -> Result<bool, AllocError>
    ensures current { bits.new.current ≡ bits.old.current }
    ensures commits { bits.new.commits ≡ bits.old.commits }
    ensures last { bits.new.last ≡ bits.old.last }
    ensures refused { IfOk result (λ made. made ≡ false → bits.new ≡ bits.old) }
    ensures err { OnErr result (bits.new ≡ bits.old) }
{
    let (pruned, len) = (bits.pruned_bits(), bits.len());
    match edit {
        Edit::Push(bit) if space(bits) > 1 => bits.try_push(bit)?,
        Edit::PushByte(byte) if space(bits) > 8 => bits.try_push_byte(byte)?,
        Edit::PushChunk(chunk) if space(bits) / 8 > N as u64 => bits.try_push_chunk(&chunk)?,
        Edit::Pop if pruned < len => {
            let _ = bits.pop();
        }
        Edit::Truncate(to) if pruned <= to && to <= len => bits.truncate(to),
        Edit::ExtendTo(to) => bits.try_extend_to(to)?,
        Edit::Set(position, bit) if pruned <= position && position < len => {
            bits.try_set_bit(position, bit)?;
        }
        Edit::SetChunk(index, chunk)
            if bits.pruned_chunks() <= index && index < chunk_count::<N>(len) => {
            bits.try_set_chunk(index, &chunk)?;
        }
        Edit::PruneTo(position) if position <= len => bits.try_prune_to_bit(position)?,
        _ => return Ok(false),
    }
    Ok(true)
}
