//! The bits that are set in two chunks.

use bitmap_bytes::chunk::range;
use bitmap_bytes::chunk::whole::{self, And};

/// Returns the number of bits from bit 4 up to bit 20 that are set in both chunks.
pub fn common_ones(a: &[u8; 3], b: &[u8; 3]) -> u64 {
    let mut both = *a;
    whole::combine::<And, 3>(&mut both, b);
    range::ones_in(&both, 4, 20)
}

#[cfg(test)]
mod tests {
    use super::*;
    use crate::checks::equal;

    #[test]
    fn counts_inside_the_range(rt: HostRuntime) {
        equal(&rt, common_ones(&[255, 255, 255], &[255, 1, 255]), 9);
    }
}
