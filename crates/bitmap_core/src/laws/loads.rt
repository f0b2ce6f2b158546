//! Laws of the words that an iterator over set positions loads.

ghost use Rattle.std.specs.Prelude.{◌≡◌, ◌+◌, ◌≤◌, []};
ghost use Rattle.std.specs.Iterator.{YieldsFirst};

use crate::bitmap::readable::{OnesIter, Readable};

/// A call of `next` never decreases the number of words loaded, which is at most the number of words of the range. That number does not change.
///
/// At any time, the words loaded and those that the iterator has not reached are together at most the words of the range.
pub fn step_counted<B: Readable<N>, const N: usize>(
    positions: &mut OnesIter<'_, B, N>,
) -> Option<u64>
    ensures steps { YieldsFirst (λ s. s.left) positions.old result positions.new }
    ensures grows { positions.old.loads ≤ positions.new.loads }
    ensures range { positions.new.words ≡ positions.old.words }
    ensures within { positions.new.loads ≤ positions.old.words }
    ensures reached { positions.new.loads + positions.new.ahead ≤ positions.old.words }
{
    positions.next()
}

/// At any time, an iterator over set positions has loaded at most the words of its range.
pub fn loads_within_words<B: Readable<N>, const N: usize>(positions: &OnesIter<'_, B, N>)
    ensures { positions.now.loads ≤ positions.now.words }
{
    positions.loads_within_words();
}

/// Calls `next` until the iterator ends. By then it has loaded at most the words of its range.
pub fn words_loaded_once<B: Readable<N>, const N: usize>(positions: &mut OnesIter<'_, B, N>)
    ensures ended { positions.new.left ≡ [] }
    ensures loads { positions.new.loads ≤ positions.old.words }
{
    while positions.next().is_some() {}
}
