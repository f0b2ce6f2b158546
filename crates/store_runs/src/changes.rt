//! Edits that follow from the number of their commit.

use bitmap_core::bitmap::Readable;
use historical_bitmap::bitmap::historical::DirtyBitMap;
use std::alloc::AllocError;

/// Appends chunks and a bit, sets a bit, and prunes. Every eighth commit has an entry of several pages.
pub fn edit(batch: &mut DirtyBitMap<8>, number: u64) -> Result<(), AllocError> {
    let chunks = if number % 8 == 0 { 1500 } else { number % 4 };
    for index in 0..chunks {
        if batch.len() < u64::MAX - 64 {
            let word = number
                .wrapping_add(index)
                .wrapping_mul(0x9e37_79b9_7f4a_7c15);
            batch.try_push_chunk(&word.to_le_bytes())?;
        }
    }
    if batch.len() < u64::MAX {
        batch.try_push(number % 3 == 0)?;
    }
    let len = batch.len();
    let position = len.saturating_sub(number % 5000);
    if batch.pruned_bits() <= position && position < len {
        batch.try_set_bit(position, true)?;
    }
    batch.try_prune_to_bit(len.saturating_sub(100_000))
}
