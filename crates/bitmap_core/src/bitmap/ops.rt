//! Operators on whole bitmaps: equality, hashing, `&`, `|`, `^` and `-`.

ghost use Rattle.std.specs.Prelude.{◌≡◌, length, replicate, false, not, ◌&&◌, ◌||◌, map, IfOk};
ghost use Rattle.std.specs.List.{zip};
ghost use Rattle.std.specs.Cmp.Lexicographic.{pointwise};
ghost use Rattle.std.specs.Cmp.Rules.{comparing};
ghost use Rattle.std.proofs.Common.{rules};
ghost use Rattle.std.proofs.Math.Bool.{beq, xor};

use crate::bitmap::{BitMap, deque};
use std::alloc::AllocError;
use std::hash::{Hash, Hasher};
use std::ops::{BitAnd, BitOr, BitXor, Sub};

impl<const N: usize> PartialEq for BitMap<N> {
    ghost eq = { pointwise beq };

    ghost laws = { Prim.search (comparing, rules) };

    /// Returns whether the two bitmaps have the same bits, and so the same length.
    ///
    /// # Memory
    ///
    /// Does not allocate.
    ///
    /// # Complexity
    ///
    /// At most linear in the bytes of the chunks. Constant if the lengths differ.
    fn eq(&self, other: &Self) -> bool {
        self.len == other.len && deque::are_equal(&self.chunks, &other.chunks)
    }
}

impl<const N: usize> Eq for BitMap<N> {
    ghost laws = { Prim.search (comparing, rules) };
}

impl<const N: usize> Hash for BitMap<N> {
    ghost use Rattle.bitmap_core.specs.Fed.{fed_bits, fed_bits-alike};

    ghost hash_input = { fed_bits N };

    ghost respects_eq = { fed_bits-alike N };

    /// Feeds the length to the hasher, and then the bytes of each chunk. Equal bitmaps have equal hashes.
    ///
    /// # Memory
    ///
    /// Does not allocate itself.
    ///
    /// # Complexity
    ///
    /// One call of the hasher for the length, and one per chunk.
    fn hash<H: Hasher>(&self, state: &mut H) {
        let len = self.len;
        state.write_u64(len);
        deque::feed(&self.chunks, state);
    }
}

impl<const N: usize> BitAnd<&BitMap<N>> for &BitMap<N> {
    type Output = Result<BitMap<N>, AllocError>;

    ghost can_bitand = { λ a b. length a.now ≡ length b.now };

    ghost bitand_gives = { λ a b r. IfOk r (λ c. c ≡ map (λ p. p.0 && p.1) (zip a.now b.now)) };

    /// Returns a new bitmap whose bit is set if it is set in both bitmaps. The lengths are equal.
    ///
    /// # Errors
    ///
    /// Returns `AllocError` if the allocation fails.
    ///
    /// # Memory
    ///
    /// Allocates space for the chunks, from the allocator of the left bitmap.
    ///
    /// # Complexity
    ///
    /// Linear in the chunks.
    fn bitand(self, other: &BitMap<N>) -> Result<BitMap<N>, AllocError> {
        let mut both = self.clone()?;
        both.and(other);
        Ok(both)
    }
}

impl<const N: usize> BitOr<&BitMap<N>> for &BitMap<N> {
    type Output = Result<BitMap<N>, AllocError>;

    ghost can_bitor = { λ a b. length a.now ≡ length b.now };

    ghost bitor_gives = { λ a b r. IfOk r (λ c. c ≡ map (λ p. p.0 || p.1) (zip a.now b.now)) };

    /// Returns a new bitmap whose bit is set if it is set in at least one of the bitmaps. The lengths are equal.
    ///
    /// # Errors
    ///
    /// Returns `AllocError` if the allocation fails.
    ///
    /// # Memory
    ///
    /// Allocates space for the chunks, from the allocator of the left bitmap.
    ///
    /// # Complexity
    ///
    /// Linear in the chunks.
    fn bitor(self, other: &BitMap<N>) -> Result<BitMap<N>, AllocError> {
        let mut either = self.clone()?;
        either.or(other);
        Ok(either)
    }
}

impl<const N: usize> BitXor<&BitMap<N>> for &BitMap<N> {
    type Output = Result<BitMap<N>, AllocError>;

    ghost can_bitxor = { λ a b. length a.now ≡ length b.now };

    ghost bitxor_gives = { λ a b r. IfOk r (λ c. c ≡ map (λ p. xor p.0 p.1) (zip a.now b.now)) };

    /// Returns a new bitmap whose bit is set if the bits of the two bitmaps differ. The lengths are equal.
    ///
    /// # Errors
    ///
    /// Returns `AllocError` if the allocation fails.
    ///
    /// # Memory
    ///
    /// Allocates space for the chunks, from the allocator of the left bitmap.
    ///
    /// # Complexity
    ///
    /// Linear in the chunks.
    fn bitxor(self, other: &BitMap<N>) -> Result<BitMap<N>, AllocError> {
        let mut difference = self.clone()?;
        difference.xor(other);
        Ok(difference)
    }
}

impl<const N: usize> Sub<&BitMap<N>> for &BitMap<N> {
    type Output = Result<BitMap<N>, AllocError>;

    ghost can_sub = { λ a b. length a.now ≡ length b.now };

    ghost sub_gives = { λ a b r. IfOk r (λ c. c ≡ map (λ p. p.0 && not p.1) (zip a.now b.now)) };

    /// Returns a new bitmap whose bit is set if it is set in the left bitmap and not in the right one. The lengths are equal.
    ///
    /// # Errors
    ///
    /// Returns `AllocError` if the allocation fails.
    ///
    /// # Memory
    ///
    /// Allocates space for the chunks, from the allocator of the left bitmap.
    ///
    /// # Complexity
    ///
    /// Linear in the chunks.
    fn sub(self, other: &BitMap<N>) -> Result<BitMap<N>, AllocError> {
        let mut rest = self.clone()?;
        rest.and_not(other);
        Ok(rest)
    }
}
