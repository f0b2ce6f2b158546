//! Edits of a batch by the words of a script.

ghost use Rattle.std.specs.Prelude.{◌≡◌, ◌+◌, ◌^◌};
ghost use Rattle.bitmap_core.specs.PrunedBits.{bit_len};
ghost use Rattle.historical_bitmap.specs.View.{pending_of};

use crate::bytes::{decimal, from_hex};
use bitmap_core::bitmap::Readable;
use historical_bitmap::bitmap::historical::DirtyBitMap;
use std::alloc::{AllocError, Global};

// Returns how many bits may be appended, and one more.
fn space<const N: usize>(batch: &DirtyBitMap<N>) -> u64
    ensures { result + bit_len N (pending_of N batch.now) + 1 ≡ 2 ^ 64 }
{
    u64::MAX - batch.len()
}

// Makes an edit with one word. Returns `None` if there is none of this name, or the batch does not allow it.
fn with_word<const N: usize>(
    alloc: Global,
    batch: &mut DirtyBitMap<N>,
    name: &str,
    word: &[u8],
) -> Result<Option<()>, AllocError> {
    let bytes = from_hex(alloc, word)?;
    let number = decimal(Some(word));
    match (name, number, bytes.as_slice()) {
        ("push", Some(bit), _) if space(batch) > 1 => batch.try_push(bit != 0)?,
        ("push-byte", _, [byte]) if space(batch) > 8 => batch.try_push_byte(*byte)?,
        ("push-chunk", ..) if space(batch) / 8 > N as u64 => {
            let Some((chunk, _)) = bytes.as_slice().split_first_chunk::<N>() else {
                return Ok(None);
            };
            batch.try_push_chunk(chunk)?;
        }
        ("prune", Some(bit), _) if bit <= batch.len() => batch.try_prune_to_bit(bit)?,
        _ => return Ok(None),
    }
    Ok(Some(()))
}

/// Makes the edit of a line. Returns `None` if the line is no edit, or the batch does not allow it.
pub fn edit<const N: usize>(
    alloc: Global,
    batch: &mut DirtyBitMap<N>,
    name: &str,
    words: (Option<&[u8]>, Option<&[u8]>),
) -> Result<Option<()>, AllocError> {
    match (name, words) {
        ("pop", (None, _)) if batch.pruned_bits() < batch.len() => {
            let _ = batch.pop();
            Ok(Some(()))
        }
        ("set", (position, bit)) => match (decimal(position), decimal(bit)) {
            (Some(position), Some(bit))
                if batch.pruned_bits() <= position && position < batch.len() => {
                batch.try_set_bit(position, bit != 0)?;
                Ok(Some(()))
            }
            _ => Ok(None),
        },
        (_, (Some(word), None)) => with_word(alloc, batch, name, word),
        _ => Ok(None),
    }
}
