//! Loops and iterator chains over the bits and the set positions of a bitmap.

ghost use Rattle.std.specs.Prelude.{◌≡◌, ◌↔◌, true, IsTrue};
ghost use Rattle.std.specs.List.{All, count_by};

use bitmap_core::bitmap::BitMap;

/// Returns the length of the longest run of set bits.
pub fn longest_run<const N: usize>(bitmap: &BitMap<N>) -> u64 {
    let mut longest = 0;
    let mut run: u64 = 0;
    for bit in bitmap.iter() {
        run = if bit { run.saturating_add(1) } else { 0 };
        longest = run.max(longest);
    }
    longest
}

/// Returns the greatest distance from one set position to the next.
pub fn widest_step(bitmap: &BitMap<8>) -> u64 {
    let mut widest = 0;
    let mut last = None;
    for position in bitmap.ones_iter() {
        if let Some(before) = last {
            widest = position.abs_diff(before).max(widest);
        }
        last = Some(position);
    }
    widest
}

/// Returns whether every bit is set.
pub fn is_all_set<const N: usize>(bitmap: &BitMap<N>) -> bool
    ensures { IsTrue result ↔ All (λ bit. bit ≡ true) bitmap.now }
{
    bitmap.iter().all(|bit| bit)
}

/// Returns the number of set bits.
pub fn count_set<const N: usize>(bitmap: &BitMap<N>) -> usize
    ensures { result ≡ count_by (λ bit. bit) bitmap.now }
{
    bitmap.iter().filter(|bit| *bit).count()
}

#[cfg(test)]
mod tests {
    use super::*;
    use crate::checks::equal;
    use std::alloc::AllocError;

    #[test]
    fn of_a_few_bits(rt: HostRuntime) -> Result<(), AllocError> {
        let bits = [
            true, true, false, true, true, true, false, false, false, true,
        ];
        let bitmap = BitMap::<8>::from_bools(rt.alloc(), bits.as_slice())?;
        equal(&rt, longest_run(&bitmap), 3);
        equal(&rt, widest_step(&bitmap), 4);
        assert!(rt; !is_all_set(&bitmap));
        equal(&rt, count_set(&bitmap), 6);
        Ok(())
    }
}
