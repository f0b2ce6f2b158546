//! Old bytes of chunks, by the chunk and the number of the commit whose record keeps them.
//!
//! The chunks with old bytes are keys of a trie, and each has a row of the bytes by number. So a read finds the row by one search in the trie,
//! and then the bytes by binary search among the commits that changed the chunk.

ghost use Rattle.std.specs.Prelude.{◌≡◌, ◌==◌, ℕ, ◌<◌, ◌≤◌, [], ◌∷◌, ◌++◌, length, None, nat_eq, OnErr, OnOk, option_copied, slice_set, Some, vec_len};
ghost use Rattle.std.specs.List.{All};
ghost use Rattle.std.specs.Map.{keys_of, lookup};
ghost use Rattle.std.specs.Vec.{vec_capacity};
ghost use Rattle.bitmap_bytes.specs.Chunk.{IsWidth};
ghost use Rattle.chunk_map.specs.Entries.{Puts};
ghost use Rattle.historical_bitmap.specs.Index.{appended_at, bytes_at, IsNextBetween, IsNextKept, PutsAt, row_at};

use crate::bitmap::historical::kept_row::KeptRow;
use chunk_map::places::Places;
use std::alloc::{AllocError, Global};
use std::marker::Model;

// Old bytes of chunks: a row per chunk that has any.
#[derive(Debug, Drop)]
pub(crate) struct KeptBytes<const N: usize> {
    // The chunks that have a row.
    chunks: Places,
    // The row of the chunk at each place. None is empty.
    rows: Vec<KeptRow<N>>,
}

impl<const N: usize> Model for KeptBytes<N> {
    ghost use Rattle.chunk_map.specs.Entries.{entries_of};
    ghost use Rattle.historical_bitmap.specs.Index.{AreRows};
    ghost use Rattle.std.specs.Prelude.{List, ℕ};

    ghost Value = { List (ℕ × List (ℕ × List ℕ)) };

    ghost view = { λ kept. entries_of kept.chunks kept.rows.items };

    ghost invariant = { λ kept. AreRows N kept.chunks kept.rows.items };
}

// Appends bytes to the row at a place. If an allocation fails, the rows are unchanged.
fn push_at<const N: usize>(
    rows: &mut Vec<KeptRow<N>>,
    place: usize,
    number: u64,
    bytes: [u8; N],
) -> Result<(), AllocError>
    requires width { IsWidth N }
    requires place { place < length rows.old.items }
    requires past { All (λ kept. kept < number) (keys_of (row_at rows.old.items place)) }
    ensures ok { OnOk result
        (rows.new.items ≡ appended_at rows.old.items place number bytes.entry) }
    ensures err { OnErr result (rows.new.items ≡ rows.old.items) }
{
    let row = &mut rows[place];
    row.push(number, bytes)
}

// Removes the bytes at a number from the row at a place, if there are any. Returns whether the row is empty then.
fn remove_at<const N: usize>(rows: &mut Vec<KeptRow<N>>, place: usize, number: u64) -> bool
    requires width { IsWidth N }
    requires place { place < length rows.old.items }
    ensures rows { rows.new.items ≡ slice_set rows.old.items place (row_at rows.new.items place) }
    ensures row { Puts (row_at rows.old.items place) (row_at rows.new.items place) number None }
    ensures empty { result ≡ (length (row_at rows.new.items place) == 0) }
{
    let row = &mut rows[place];
    row.remove(number);
    row.is_empty()
}

// Appends a row, for which space is reserved.
fn push_row<const N: usize>(rows: &mut Vec<KeptRow<N>>, row: KeptRow<N>)
    requires { vec_len rows.old < vec_capacity rows.old }
    ensures { rows.new.items ≡ rows.old.items ++ row.entry ∷ [] }
{
    let _ = rows.push(row);
}

impl<const N: usize> KeptBytes<N> {
    // Returns no bytes. Does not allocate.
    pub(crate) fn new(alloc: Global) -> Self
        requires width { IsWidth N }
        ensures { result ≡ [] }
    {
        KeptBytes {
            chunks: Places::new(alloc),
            rows: Vec::new(alloc),
        }
    }

    // Appends the bytes of a chunk at a number that is past all numbers at which the chunk has bytes.
    //
    // Allocates space for the bytes, and for a row and its key if the chunk has none. If an allocation fails, nothing is changed.
    pub(crate) fn push(
        &mut self,
        chunk: usize,
        number: u64,
        bytes: [u8; N],
    ) -> Result<(), AllocError>
        requires { (m : ℕ) → number ≤ m → bytes_at self.old chunk m ≡ None }
        ensures ok { OnOk result (PutsAt self.old self.new chunk number (Some bytes.entry)) }
        ensures err { OnErr result (self.new ≡ self.old) }
    {
        match self.chunks.find(chunk) {
            Some(place) => {
                push_at(&mut self.rows, place, number, bytes)?;
                Ok(())
            }
            None => self.add_row(chunk, number, bytes),
        }
    }

    // Adds a row with the bytes of a chunk that has none. If an allocation fails, nothing is changed.
    fn add_row(&mut self, chunk: usize, number: u64, bytes: [u8; N]) -> Result<(), AllocError>
        requires { lookup (nat_eq chunk) self.old ≡ None }
        ensures ok { OnOk result (PutsAt self.old self.new chunk number (Some bytes.entry)) }
        ensures err { OnErr result (self.new ≡ self.old) }
    {
        let row = KeptRow::of(*self.rows.allocator(), number, bytes)?;
        self.rows.reserve(1)?;
        self.chunks.insert(chunk)?;
        push_row(&mut self.rows, row);
        Ok(())
    }

    // Removes the bytes of a chunk at a number, if there are any. Does not allocate.
    pub(crate) fn remove(&mut self, chunk: usize, number: u64)
        ensures { PutsAt self.old self.new chunk number None }
    {
        let Some(place) = self.chunks.find(chunk) else {
            return;
        };
        if remove_at(&mut self.rows, place, number) {
            self.chunks.remove(place);
            let _ = self.rows.swap_remove(place);
        }
    }

    // Removes all bytes. Does not allocate.
    pub(crate) fn clear(&mut self)
        ensures { self.new ≡ [] }
    {
        self.chunks = Places::new(*self.rows.allocator());
        self.rows.clear();
    }

    // Frees what removed chunks have left in the trie, if that is much. If the allocation for it fails, nothing is changed.
    pub(crate) fn compact(&mut self)
        ensures { self.new ≡ self.old }
    {
        if self.chunks.has_spare_nodes() {
            if let Ok(chunks) = self.chunks.compacted(*self.rows.allocator()) {
                self.chunks = chunks;
            }
        }
    }

    // Returns the bytes of a chunk at the least number past one, if there are any.
    pub(crate) fn next_past(&self, chunk: usize, number: u64) -> Option<&[u8; N]>
        ensures { IsNextKept self.now chunk number (option_copied result) }
    {
        match self.chunks.find(chunk) {
            Some(place) => self.rows[place].next_past(number),
            None => None,
        }
    }

    // Returns the first chunk from `first` on, and before `end`, that has bytes at a number past `from` and up to `to`, if there is one.
    // Visits the row of each chunk before it.
    pub(crate) fn next_between(&self, from: u64, to: u64, first: usize, end: usize) -> Option<usize>
        ensures { IsNextBetween self.now from to first end result }
    {
        let mut at = first;
        while let Some(place) = self.chunks.next_from(at) {
            let chunk = self.chunks.key_at(place);
            if chunk >= end {
                return None;
            }
            if self.rows[place].has_between(from, to) {
                return Some(chunk);
            }
            at = chunk + 1;
        }
        None
    }

    // Returns the number of chunks that have bytes.
    pub(crate) fn len(&self) -> usize {
        self.rows.len()
    }
}

impl<const N: usize> Clone for KeptBytes<N> {
    ghost use Rattle.std.specs.Prelude.{◌≡◌};

    ghost is_clone = { λ a b. b ≡ a };

    // Returns equal bytes. Allocates for the rows, the chunks and the trie, and fails if that fails.
    fn clone(&self) -> Result<Self, AllocError> {
        Ok(KeptBytes {
            chunks: self.chunks.duplicate()?,
            rows: self.rows.clone()?,
        })
    }
}
