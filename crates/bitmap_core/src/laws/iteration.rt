//! Laws of the iterators over bits and over set positions: collected, and step by step.

ghost use Rattle.std.specs.Prelude.{◌≡◌, ℕ, Bool, List, ◌∷◌, [], None, IfOk, MatchOption};
ghost use Rattle.std.specs.Iterator.{YieldsFirst};
ghost use Rattle.std.specs.Iterator.Runs.{YieldsInOrder};
ghost use Rattle.bitmap_core.specs.Meaning.{IsScanStep, Scan, ones};

use crate::bitmap::readable::{OnesIter, Readable};
use crate::bitmap::{BitMap, Iterator};
use std::alloc::{AllocError, Global};

/// The bits that `iter` returns, collected, are the bits of the bitmap.
///
/// # Errors
///
/// Returns `AllocError` if an allocation fails.
pub fn bits_collected<const N: usize>(
    alloc: Global,
    bitmap: &BitMap<N>,
) -> Result<Vec<bool>, AllocError>
    ensures { IfOk result (λ v. v.items ≡ bitmap.now) }
{
    bitmap.iter().collect(alloc)
}

/// If `next` returns `None`, no bit was left, and a second call returns `None` too.
pub fn bits_stay_ended<const N: usize>(bits: &mut Iterator<'_, N>) -> (Option<bool>, Option<bool>)
    ensures ends { result.0 ≡ None → (bits.old ≡ []) × (result.1 ≡ None) × (bits.new ≡ []) }
    ensures steps { (between : List Bool) × YieldsFirst (λ left. left) bits.old result.0 between
        × YieldsFirst (λ left. left) between result.1 bits.new }
{
    (bits.next(), bits.next())
}

/// The set positions that `ones_iter_range` returns, collected, are those of the bitmap from `from` up to `to`, `to` excluded.
///
/// # Errors
///
/// Returns `AllocError` if an allocation fails.
pub fn positions_collected<B: Readable<N>, const N: usize>(
    alloc: Global,
    readable: &B,
    from: u64,
    to: u64,
) -> Result<Vec<u64>, AllocError>
    ensures { IfOk result (λ v. v.items ≡ ones N (B.meaning readable.now) from to) }
{
    let _ = readable.len();
    readable.ones_iter_range(from..to).collect(alloc)
}

/// The set positions that `ones_iter_from` returns, collected, are those of the bitmap from `from` up to its length.
///
/// # Errors
///
/// Returns `AllocError` if an allocation fails.
pub fn last_positions_collected<B: Readable<N>, const N: usize>(
    alloc: Global,
    readable: &B,
    from: u64,
) -> Result<Vec<u64>, AllocError>
    ensures { IfOk result (λ v.
        v.items ≡ ones N (B.meaning readable.now) from (B.meaning readable.now).len) }
{
    let _ = readable.len();
    readable.ones_iter_from(from).collect(alloc)
}

/// The first call of `next` returns the least set position from `from` up to `to`, `to` excluded, or `None` if there is none.
pub fn first_position<B: Readable<N>, const N: usize>(
    readable: &B,
    from: u64,
    to: u64,
) -> Option<u64>
    ensures { MatchOption result (ones N (B.meaning readable.now) from to ≡ [])
        (λ k. (rest : List ℕ) × (ones N (B.meaning readable.now) from to ≡ k ∷ rest)) }
{
    let _ = readable.len();
    readable.ones_iter_range(from..to).next()
}

/// If `next` returns `None`, no position was left, and a second call returns `None` too.
pub fn positions_stay_ended<B: Readable<N>, const N: usize>(
    positions: &mut OnesIter<'_, B, N>,
) -> (Option<u64>, Option<u64>)
    ensures ends { result.0 ≡ None
        → (positions.old.left ≡ []) × (result.1 ≡ None) × (positions.new.left ≡ []) }
    ensures steps { (between : Scan) × YieldsFirst (λ s. s.left) positions.old result.0 between
        × YieldsFirst (λ s. s.left) between result.1 positions.new }
{
    (positions.next(), positions.next())
}

/// Any number of calls of `next` return the first positions that were left, in order.
///
/// A call that returns an `OnesIter` ensures this too. A function that takes one calls this law, so that its `count` or `collect` is proved.
pub fn positions_in_order()
    ensures { YieldsInOrder IsScanStep (λ s. s.left) }
{}
