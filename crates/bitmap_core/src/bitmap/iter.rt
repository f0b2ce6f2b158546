//! The iterator over the bits of a dense bitmap.

ghost use Rattle.std.specs.Prelude.{◌≡◌, ◌^◌, ◌<◌, IfSome, Some, length};
ghost use Rattle.std.specs.Iterator.{YieldsFirst, item_count, UpTo};
ghost use Rattle.std.specs.Iterator.SizeHint.{IsWithinCount};
ghost use Rattle.bitmap_bytes.specs.Chunk.{IsWidth};

use crate::bitmap::BitMap;
use crate::chunk;
use std::iter;
use std::marker::Model;

/// An iterator over the bits of a bitmap, in order. `BitMap::iter` returns it.
///
/// In contracts its value is the list of the bits that are left.
/// After the last bit, `next` always returns `None`. A call of `next` does not allocate, and takes constant time.
///
/// ```
/// use bitmap_core::bitmap::BitMap;
///
/// /// Returns the length of the longest run of set bits.
/// pub fn longest_run<const N: usize>(bitmap: &BitMap<N>) -> u64 {
///     let mut longest = 0;
///     let mut run: u64 = 0;
///     for bit in bitmap.iter() {
///         run = if bit { run.saturating_add(1) } else { 0 };
///         longest = run.max(longest);
///     }
///     longest
/// }
/// ```
#[derive(Drop)]
pub struct Iterator<'a, const N: usize> {
    bitmap: &'a BitMap<N>,
    position: u64,
    // The byte that contains the position, as a chunk, unless a byte begins there.
    byte: [u8; 1],
}

impl<'a, const N: usize> Model for Iterator<'a, N> {
    ghost use Rattle.std.specs.Prelude.{List, drop, Bool};
    ghost use Rattle.bitmap_core.specs.Meaning.{IsPlace};

    ghost Value = { List Bool };

    ghost view = { λ it. drop it.position it.bitmap.now };

    ghost invariant = { λ it. IsPlace it.bitmap.now it.position it.byte };
}

impl<const N: usize> BitMap<N> {
    /// Returns an iterator over the bits in order, from position 0 to the length.
    ///
    /// Does not allocate; constant time.
    pub fn iter(&self) -> Iterator<'_, N>
        ensures value { result ≡ self.now }
        ensures width { IsWidth N }
        ensures bound { length self.now < 2 ^ 64 }
    {
        let _ = self.len();
        Iterator {
            bitmap: self,
            position: 0,
            byte: [0],
        }
    }
}

impl<const N: usize> iter::Iterator for Iterator<'_, N> {
    type Item = bool;

    ghost next_gives = { YieldsFirst (λ left. left) };

    ghost remaining = { item_count (λ left. left) };

    fn next(&mut self) -> Option<bool> {
        let position = self.position;
        if position == self.bitmap.len() {
            return None;
        }
        if position % 8 == 0 {
            self.byte = self.bitmap.read_byte(position);
        }
        self.position = position + 1;
        Some(chunk::get_bit(&self.byte, position))
    }

    /// Returns the number of bits that are left, as both bounds. It always fits `usize`.
    ///
    /// Does not allocate; constant time.
    fn size_hint(&self) -> (usize, Option<usize>)
        ensures lower { IsWithinCount result.0 (item_count (λ left. left) self.now) }
        ensures upper { IfSome result.1 (UpTo (item_count (λ left. left) self.now)) }
        ensures exact { result ≡ (length self.now, Some (length self.now)) }
    {
        let left = (self.bitmap.len() - self.position) as usize;
        (left, Some(left))
    }
}
