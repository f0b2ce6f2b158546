//! The old bytes of one chunk, by the number of the commit whose record keeps them.

ghost use Rattle.std.specs.Prelude.{◌≡◌, ◌==◌, ℕ, ◌<◌, ◌≤◌, [], ◌∷◌, ◌++◌, length, None, IfOk, OnErr, OnOk, option_copied, slice_index, Some};
ghost use Rattle.std.specs.List.{All};
ghost use Rattle.std.specs.Map.{keys_of};
ghost use Rattle.bitmap_bytes.specs.Chunk.{IsWidth};
ghost use Rattle.chunk_map.specs.Entries.{Puts};
ghost use Rattle.historical_bitmap.specs.History.{RiseInNumber};
ghost use Rattle.historical_bitmap.specs.Index.{has_between, IsNextIn};

use std::alloc::{AllocError, Global};
use std::collections::VecDeque;
use std::marker::Model;

// Old bytes of a chunk with the numbers of their commits. The numbers strictly ascend.
#[derive(Debug, Drop)]
pub(crate) struct KeptRow<const N: usize> {
    bytes: VecDeque<(u64, [u8; N])>,
}

impl<const N: usize> Model for KeptRow<N> {
    ghost use Rattle.std.specs.Prelude.{List, ℕ};
    ghost use Rattle.historical_bitmap.specs.Index.{IsRow};

    ghost Value = { List (ℕ × List ℕ) };

    ghost view = { λ row. row.bytes.items };

    ghost invariant = { λ row. IsRow N row.bytes.items };
}

// Returns the position of the first number past one, or the count of the numbers if there is none, by binary search.
fn search_past<const N: usize>(bytes: &VecDeque<(u64, [u8; N])>, number: u64) -> usize
    requires width { IsWidth N }
    requires rise { RiseInNumber bytes.now.items }
    ensures within { result ≤ length bytes.now.items }
    ensures earlier { (i : ℕ) → i < result → slice_index (keys_of bytes.now.items) i ≤ number }
    ensures later { (i : ℕ) → result ≤ i → i < length bytes.now.items
        → number < slice_index (keys_of bytes.now.items) i }
{
    let mut start = 0;
    let mut end = bytes.len();
    while start < end {
        let middle = start + (end - start) / 2;
        let kept = &bytes[middle];
        if kept.0 <= number {
            start = middle + 1;
        } else {
            end = middle;
        }
    }
    start
}

// Removes the bytes at a number, if there are any. Does not allocate.
fn remove_number<const N: usize>(bytes: &mut VecDeque<(u64, [u8; N])>, number: u64)
    requires width { IsWidth N }
    requires rise { RiseInNumber bytes.old.items }
    ensures rise { RiseInNumber bytes.new.items }
    ensures puts { Puts bytes.old.items bytes.new.items number None }
{
    let past = search_past(bytes, number);
    if past == 0 {
        return;
    }
    let kept = &bytes[past - 1];
    if kept.0 == number {
        let _ = bytes.remove(past - 1);
    }
}

impl<const N: usize> KeptRow<N> {
    // Returns a row of some bytes at a number. Allocates for them.
    pub(crate) fn of(alloc: Global, number: u64, bytes: [u8; N]) -> Result<Self, AllocError>
        requires width { IsWidth N }
        ensures { IfOk result (λ row. row ≡ (number, bytes.entry) ∷ []) }
    {
        let mut row = VecDeque::with_capacity(alloc, 1)?;
        row.push_back((number, bytes))?;
        Ok(KeptRow { bytes: row })
    }

    // Returns whether there are no bytes.
    pub(crate) fn is_empty(&self) -> bool
        ensures { result ≡ (length self.now == 0) }
    {
        self.bytes.len() == 0
    }

    // Appends bytes at a number that is past all others. If an allocation fails, the row is unchanged.
    pub(crate) fn push(&mut self, number: u64, bytes: [u8; N]) -> Result<(), AllocError>
        requires { All (λ kept. kept < number) (keys_of self.old) }
        ensures ok { OnOk result (self.new ≡ self.old ++ (number, bytes.entry) ∷ []) }
        ensures err { OnErr result (self.new ≡ self.old) }
    {
        self.bytes.push_back((number, bytes))?;
        Ok(())
    }

    // Removes the bytes at a number, if there are any. Does not allocate. At the ends of the row it moves no other bytes.
    pub(crate) fn remove(&mut self, number: u64)
        ensures { Puts self.old self.new number None }
    {
        remove_number(&mut self.bytes, number);
    }

    // Returns the bytes at the least number past one, if there are any, by binary search.
    pub(crate) fn next_past(&self, number: u64) -> Option<&[u8; N]>
        ensures { IsNextIn self.now number (option_copied result) }
    {
        let past = search_past(&self.bytes, number);
        if past == self.bytes.len() {
            return None;
        }
        let kept = &self.bytes[past];
        Some(&kept.1)
    }

    // Returns whether there are bytes at a number past `from` and up to `to`, by binary search.
    pub(crate) fn has_between(&self, from: u64, to: u64) -> bool
        ensures { result ≡ has_between from to self.now }
    {
        let past = search_past(&self.bytes, from);
        if past == self.bytes.len() {
            return false;
        }
        let next = &self.bytes[past];
        next.0 <= to
    }
}

impl<const N: usize> Clone for KeptRow<N> {
    ghost use Rattle.std.specs.Prelude.{◌≡◌};

    ghost is_clone = { λ a b. b ≡ a };

    // Returns an equal row. Allocates for its bytes, and fails if that fails.
    fn clone(&self) -> Result<Self, AllocError> {
        Ok(KeptRow {
            bytes: self.bytes.clone()?,
        })
    }
}
