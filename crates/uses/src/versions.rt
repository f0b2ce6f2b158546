//! Two versions of a bitmap: the first one is read, and rewound to.

ghost use Rattle.std.specs.Prelude.{◌≡◌, Some, IfSome};

use historical_bitmap::bitmap::Readable;
use historical_bitmap::bitmap::historical::CleanBitMap;
use std::alloc::Global;

/// Commits two versions, counts the set bits of the first one, and rewinds to it. Returns `None` if an allocation fails.
pub fn first_of_two(alloc: Global) -> Option<(u64, CleanBitMap<8>)>
    ensures { IfSome result (λ found. found.1.last ≡ Some 1) }
{
    // Version 1 has the bits 1, 0.
    let mut batch = CleanBitMap::<8>::new(alloc).into_dirty();
    batch.push(true).ok()?.push(false).ok()?;
    let bitmap = batch.commit(1).ok()?;

    // Version 2 has the bits 1, 1, 1. The edits require that position 1 is retained, and that the length can grow.
    let mut batch = bitmap.into_dirty();
    if batch.len() == 2 && batch.pruned_chunks() == 0 {
        batch.set_bit(1, true).ok()?.push(true).ok()?;
    }
    let bitmap = batch.commit(2).ok()?;

    // Version 1 still has one set bit. Then it becomes the current bitmap again.
    let ones = bitmap.at(1)?.count_ones_range(0..3);
    let bitmap = bitmap.rewind_to(1).ok()?;
    Some((ones, bitmap))
}

#[cfg(test)]
mod tests {
    use super::*;
    use crate::checks::equal;

    #[test]
    fn has_the_bits_of_the_first(rt: HostRuntime) {
        let Some((ones, bitmap)) = first_of_two(rt.alloc()) else {
            panic!(rt; "out of memory");
        };
        equal(&rt, ones, 1);
        equal(&rt, (bitmap.len(), bitmap.latest_commit()), (2, Some(1)));
    }
}
