//! Compares any readable bitmap with expected bits, or with another bitmap.

use bitmap_core::bitmap::Readable;

// The bit at `bit`, or `None` if that position is not retained.
fn retained_bit<B: Readable<N>, const N: usize>(map: &B, bit: u64) -> Option<bool> {
    if map.pruned_bits() <= bit && bit < map.len() {
        Some(map.get_bit(bit))
    } else {
        None
    }
}

// Whether all bits from `first` up to `end` are retained and equal to `bit`.
fn is_run<B: Readable<N>, const N: usize>(map: &B, first: u64, end: u64, bit: bool) -> bool {
    for position in first..end {
        if retained_bit(map, position) != Some(bit) {
            return false;
        }
    }
    true
}

/// Returns whether `pruned_chunks` chunks are pruned and the retained bits are `digits`, where `1` is a set bit.
///
/// Does not allocate. Linear in the number of digits.
pub fn has_bits<B: Readable<N>, const N: usize>(
    map: &B,
    pruned_chunks: usize,
    digits: &[u8],
) -> bool {
    let mut position = map.pruned_bits();
    for digit in digits {
        if retained_bit(map, position) != Some(*digit == b'1') {
            return false;
        }
        position = position.saturating_add(1);
    }
    position == map.len() && map.pruned_chunks() == pruned_chunks
}

/// Returns whether `pruned_chunks` chunks are pruned and the retained bits are `runs`, each a number of equal bits.
///
/// Does not allocate. Linear in the number of bits of the runs.
pub fn has_runs<B: Readable<N>, const N: usize>(
    map: &B,
    pruned_chunks: usize,
    runs: &[(u64, bool)],
) -> bool {
    let mut first = map.pruned_bits();
    for (count, bit) in runs {
        let end = first.saturating_add(*count);
        if !is_run(map, first, end, *bit) {
            return false;
        }
        first = end;
    }
    first == map.len() && map.pruned_chunks() == pruned_chunks
}

/// Returns whether two bitmaps have the same length, the same number of pruned and of complete chunks, and the same retained bits.
///
/// Does not allocate. Linear in the number of retained bits.
pub fn same_bits<A: Readable<N>, B: Readable<N>, const N: usize>(map: &A, other: &B) -> bool {
    if map.len() != other.len() || map.pruned_chunks() != other.pruned_chunks() {
        return false;
    }
    for position in map.pruned_bits()..map.len() {
        if retained_bit(map, position) != retained_bit(other, position) {
            return false;
        }
    }
    map.complete_chunks() == other.complete_chunks()
}
