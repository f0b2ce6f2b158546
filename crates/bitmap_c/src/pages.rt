//! Pages: lists of numbers that are written to the caller's buffer in parts.

ghost use Rattle.bitmap_core.specs.Meaning.{ones};
ghost use Rattle.bitmap_c.specs.Pages.{IsPage};

use bitmap_core::bitmap::{OnesIter, Readable};
use historical_bitmap::bitmap::historical::{ChangedChunks, CommitNumbers};

/// A list of numbers that is read in order.
pub trait Numbers {
    ghost use Rattle.std.specs.Prelude.{ℕ, List};
    ghost use Rattle.std.specs.Iterator.{YieldsFirst};

    /// The numbers that are left.
    ghost left: { Self → List ℕ };

    /// Removes and returns the first number that is left, or returns `None` if none is left.
    ///
    /// # Memory
    ///
    /// Does not allocate.
    ///
    /// # Complexity
    ///
    /// As `next` of the iterator.
    fn next_number(&mut self) -> Option<u64>
        ensures { YieldsFirst left self.old result self.new };
}

impl<'a, B: Readable<N>, const N: usize> Numbers for OnesIter<'a, B, N> {
    ghost left = { λ s. s.left };

    fn next_number(&mut self) -> Option<u64> {
        self.next()
    }
}

impl<'a, V> Numbers for CommitNumbers<'a, V> {
    ghost left = { λ s. s };

    fn next_number(&mut self) -> Option<u64> {
        self.next()
    }
}

impl<'a, const N: usize> Numbers for ChangedChunks<'a, N> {
    ghost left = { λ s. s };

    fn next_number(&mut self) -> Option<u64> {
        match self.next() {
            Some(chunk) => Some(chunk as u64),
            None => None,
        }
    }
}

/// Writes the numbers that are left to the start of `out`, in order, up to its length, and returns how many.
///
/// # Memory
///
/// Does not allocate.
///
/// # Complexity
///
/// One call of `next_number` per number written, and one more unless `out` is full.
pub fn write_page<S: Numbers>(numbers: &mut S, out: &mut [u64]) -> usize
    ensures { IsPage (S.left numbers.old) result out.old out.new }
{
    for count in 0..out.len() {
        let Some(number) = numbers.next_number() else {
            return count;
        };
        out[count] = number;
    }
    out.len()
}

/// Writes the set positions of a range to the start of `out`, ascending, up to its length, and returns how many.
///
/// # Memory
///
/// Does not allocate.
///
/// # Complexity
///
/// Linear in the chunks that are read.
pub fn write_ones<B: Readable<N>, const N: usize>(
    bitmap: &B,
    from: u64,
    to: u64,
    out: &mut [u64],
) -> usize
    ensures { IsPage (ones N (B.meaning bitmap.now) from to) result out.old out.new }
{
    // The call shows the prover that 8 * N fits u64.
    let _ = bitmap.len();
    write_page(&mut bitmap.ones_iter_range(from..to), out)
}
