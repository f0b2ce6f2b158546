//! A dense bitmap is made, edited and read.

use bitmap_core::bitmap::{BitMap, DEFAULT_CHUNK_SIZE};
use std::alloc::{AllocError, Global};

/// Returns the slots that are taken: 3, 64 and 100.
pub fn taken_slots(alloc: Global) -> Result<Vec<u64>, AllocError> {
    let mut taken = BitMap::<DEFAULT_CHUNK_SIZE>::zeroes(alloc, 100)?;
    taken.set(3, true);
    taken.set(64, true);
    taken.push(true)?;
    taken.ones_iter().collect(alloc)
}

#[cfg(test)]
mod tests {
    use super::*;
    use crate::checks::equal;

    #[test]
    fn are_those_three(rt: HostRuntime) -> Result<(), AllocError> {
        equal(
            &rt,
            taken_slots(rt.alloc())?.as_slice(),
            [3, 64, 100].as_slice(),
        );
        Ok(())
    }
}
