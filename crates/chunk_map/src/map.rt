//! [`ChunkMap`]: a map from chunk index to chunk.
//!
//! A chunk has a place, which is below the number of chunks. A new chunk gets the next place. Only a removal changes places.
//! `find` returns a place, by which the chunk is read and replaced without another search.
//!
//! # Complexity
//!
//! A search visits at most 16 nodes, one per digit in base 16 by which the index differs from another. An insertion adds at most one node.
//! A removal keeps the nodes.

ghost use Rattle.std.specs.Prelude.{◌≡◌, ℕ, ◌+◌, ◌*◌, ◌^◌, ◌<◌, ◌++◌, ◌↔◌, [], ◌∷◌, List, length, MatchOption, Option, Some, None, IsTrue, slice_index, IfOk, IfNone, IfSome, IsOk, IsSome, OnOk, OnErr, nat_eq, is_some, vec_len};
ghost use Rattle.std.specs.Vec.{vec_capacity};
ghost use Rattle.std.specs.List.Sorted.{IsStrictlySortedBy};
ghost use Rattle.std.specs.Map.{keys_of, lookup};
ghost use Rattle.std.specs.Ordering.{nat_cmp};
ghost use Rattle.std.specs.Set.{is_member};
ghost use Rattle.chunk_map.specs.Entries.{IsNextMember, Puts};
ghost use Rattle.chunk_map.specs.Trie.{AreApart, IsAt, without_place};

use crate::places::Places;
use std::alloc::{AllocError, Global};
use std::marker::Model;

/// A map from chunk index to chunk.
///
/// In contracts it is its entries, ascending by index, and the index at each place.
///
/// # Memory
///
/// Chunks, indices and nodes are each in one block. There are at most as many nodes as insertions.
#[derive(Debug, Drop)]
pub struct ChunkMap<const N: usize> {
    places: Places,
    chunks: Vec<[u8; N]>,
}

impl<const N: usize> Model for ChunkMap<N> {
    ghost use Rattle.chunk_map.specs.Entries.{ChunkEntries, IsPaired, entries_of};

    ghost Value = { ChunkEntries };

    ghost view = { λ m. record {
      entries = entries_of m.places m.chunks.items;
      indices = m.places;
    } };

    ghost invariant = { λ m. IsPaired N m.places m.chunks.items };
}

// Appends a chunk, for which space is reserved.
fn push_chunk<const N: usize>(chunks: &mut Vec<[u8; N]>, chunk: [u8; N])
    requires { vec_len chunks.old < vec_capacity chunks.old }
    ensures { chunks.new.items ≡ chunks.old.items ++ chunk.entry ∷ [] }
{
    let _ = chunks.push(chunk);
}

// Returns a copy of some chunks.
fn copy_chunks<const N: usize>(chunks: &Vec<[u8; N]>) -> Result<Vec<[u8; N]>, AllocError>
    requires { 8 * N < 2 ^ 64 }
    ensures { IfOk result (λ copy. copy.items ≡ chunks.now.items) }
{
    Ok(chunks.clone()?)
}

impl<const N: usize> ChunkMap<N> {
    /// Returns a map without chunks. `8 * N` must be below 2^64.
    ///
    /// # Memory
    ///
    /// Does not allocate.
    pub fn new(alloc: Global) -> Self
        requires { 8 * N < 2 ^ 64 }
        ensures { result ≡ record { entries = []; indices = [] } }
    {
        ChunkMap {
            places: Places::new(alloc),
            chunks: Vec::new(alloc),
        }
    }

    /// Returns the number of chunks.
    ///
    /// # Memory
    ///
    /// Does not allocate.
    ///
    /// # Complexity
    ///
    /// Constant.
    pub fn len(&self) -> usize
        ensures entries { result ≡ length self.now.entries }
        ensures indices { result ≡ length self.now.indices }
    {
        self.places.len()
    }

    /// Returns whether there is no chunk.
    ///
    /// # Memory
    ///
    /// Does not allocate.
    ///
    /// # Complexity
    ///
    /// Constant.
    pub fn is_empty(&self) -> bool
        ensures { IsTrue result ↔ (length self.now.entries ≡ 0) }
    {
        self.len() == 0
    }

    /// Returns the place of the chunk at `index`, if there is one.
    ///
    /// # Memory
    ///
    /// Does not allocate.
    ///
    /// # Complexity
    ///
    /// Visits at most 16 nodes.
    #[inline]
    pub fn find(&self, index: usize) -> Option<usize>
        ensures place { MatchOption result (lookup (nat_eq index) self.now.entries ≡ None)
            (IsAt self.now.indices index) }
        ensures found { is_some result ≡ is_some (lookup (nat_eq index) self.now.entries) }
    {
        self.places.find(index)
    }

    /// Returns the index of the chunk at `place`, which must be below the number of chunks.
    ///
    /// # Memory
    ///
    /// Does not allocate.
    ///
    /// # Complexity
    ///
    /// Constant.
    pub fn index_at(&self, place: usize) -> usize
        requires { place < length self.now.indices }
        ensures { result ≡ slice_index self.now.indices place }
    {
        self.places.key_at(place)
    }

    /// Returns the chunk at `place`, which must be below the number of chunks.
    ///
    /// # Memory
    ///
    /// Does not allocate.
    ///
    /// # Complexity
    ///
    /// Constant.
    pub fn chunk_at(&self, place: usize) -> &[u8; N]
        requires { place < length self.now.indices }
        ensures { lookup (nat_eq (slice_index self.now.indices place)) self.now.entries
            ≡ Some result.now }
    {
        &self.chunks[place]
    }

    ghost use Rattle.std.specs.Borrow.{Array, Lends, sem, u8 as byte};
    ghost use Rattle.chunk_map.specs.Entries.{with_chunk_at};
    ghost use Rattle.chunk_map.specs.contracts.map.ChunkMap.{the_row};

    /// Returns the chunk at `place`, which must be below the number of chunks, to be changed in its place.
    ///
    /// # Memory
    ///
    /// Does not allocate.
    ///
    /// # Complexity
    ///
    /// Constant.
    #[inline]
    pub fn chunk_mut(&mut self, place: usize) -> &mut [u8; N]
        requires { place < length self.old.indices }
        ensures* writes_back { sem 𝓛
            (Lends (the_row N.row) (Array byte N) self.entry result
            (with_chunk_at self.old place)) }
        ensures value { lookup (nat_eq (slice_index self.old.indices place)) self.old.entries
            ≡ Some result.now }
    {
        &mut self.chunks[place]
    }

    /// Inserts or replaces the chunk at `index`.
    ///
    /// # Errors
    ///
    /// Returns an error if allocation fails, or if there are 2^31 - 1 chunks or nodes. Then the map is unchanged.
    /// Succeeds if there is a chunk at `index`.
    ///
    /// # Memory
    ///
    /// Allocates space for one chunk with its index, and at most one node, if there is no chunk at `index`. Otherwise does not allocate.
    ///
    /// # Complexity
    ///
    /// Visits at most 16 nodes, and as many again if there is no chunk at `index`. Amortized, if it allocates.
    pub fn insert(&mut self, index: usize, chunk: [u8; N]) -> Result<(), AllocError>
        ensures ok { OnOk result (Puts self.old.entries self.new.entries index (Some chunk.entry)) }
        ensures err { OnErr result (self.new ≡ self.old) }
        ensures present { IsSome (lookup (nat_eq index) self.old.entries)
            → IsOk result × (self.new.indices ≡ self.old.indices) }
        ensures absent { OnOk result
            (lookup (nat_eq index) self.old.entries ≡ None
            → self.new.indices ≡ self.old.indices ++ index ∷ []) }
        ensures sorted { IsStrictlySortedBy nat_cmp (keys_of self.new.entries) }
    {
        match self.find(index) {
            Some(at) => {
                self.chunks[at] = chunk;
                Ok(())
            }
            None => self.add(index, chunk),
        }
    }

    /// Inserts a chunk at `index`, which must have none. Spares the search of [`ChunkMap::insert`].
    ///
    /// # Errors
    ///
    /// Returns an error if allocation fails, or if there are 2^31 - 1 chunks or nodes. Then the map is unchanged.
    ///
    /// # Memory
    ///
    /// Allocates space for one chunk with its index, and at most one node.
    ///
    /// # Complexity
    ///
    /// Visits at most 16 nodes. Amortized.
    #[inline(never)]
    pub fn add(&mut self, index: usize, chunk: [u8; N]) -> Result<(), AllocError>
        requires { lookup (nat_eq index) self.old.entries ≡ None }
        ensures ok { OnOk result (Puts self.old.entries self.new.entries index (Some chunk.entry)) }
        ensures err { OnErr result (self.new ≡ self.old) }
        ensures indices { OnOk result (self.new.indices ≡ self.old.indices ++ index ∷ []) }
        ensures sorted { IsStrictlySortedBy nat_cmp (keys_of self.new.entries) }
    {
        self.chunks.reserve(1)?;
        self.places.insert(index)?;
        push_chunk(&mut self.chunks, chunk);
        Ok(())
    }

    /// Removes the chunk at `index` and returns it, if there is one. The chunk at the last place gets its place.
    ///
    /// # Memory
    ///
    /// Does not allocate, and frees nothing. Later insertions use the space again, but a node only for indices that share its digits.
    ///
    /// # Complexity
    ///
    /// At most three walks of at most 16 nodes.
    pub fn remove(&mut self, index: usize) -> Option<[u8; N]>
        ensures value { result ≡ lookup (nat_eq index) self.old.entries }
        ensures removed { Puts self.old.entries self.new.entries index None }
        ensures none { IfNone result (self.new ≡ self.old) }
        ensures indices { IfSome result
            (λ chunk. (place : ℕ) × IsAt self.old.indices index place
            × (self.new.indices ≡ without_place self.old.indices place 0)) }
        ensures sorted { IsStrictlySortedBy nat_cmp (keys_of self.new.entries) }
    {
        match self.find(index) {
            Some(place) => {
                self.places.remove(place);
                Some(self.chunks.swap_remove(place))
            }
            None => None,
        }
    }

    /// Returns the least index at or above `from` that has a chunk, if there is one.
    ///
    /// # Memory
    ///
    /// Does not allocate.
    ///
    /// # Complexity
    ///
    /// At most 16 walks of at most 16 nodes, and more for nodes that removals left without chunks.
    pub fn next_from(&self, from: usize) -> Option<usize>
        ensures { IsNextMember (keys_of self.now.entries) from result }
    {
        match self.places.next_from(from) {
            Some(place) => Some(self.places.key_at(place)),
            None => None,
        }
    }

    /// Returns the indices of the chunks, ascending.
    ///
    /// # Errors
    ///
    /// Returns an error if allocation fails.
    ///
    /// # Memory
    ///
    /// Allocates once, for the indices. Does not allocate if there is no chunk.
    ///
    /// # Complexity
    ///
    /// Linear in the chunks and nodes. Visits each node once.
    pub fn ascending_indices(&self, alloc: Global) -> Result<Vec<usize>, AllocError>
        ensures { IfOk result (λ indices. indices.items ≡ keys_of self.now.entries) }
    {
        self.places.ascending(alloc)
    }

    /// Does nothing. Its contract states that the indices of the entries ascend, and that each has a place.
    ///
    /// # Memory
    ///
    /// Does not allocate.
    ///
    /// # Complexity
    ///
    /// Constant.
    pub fn order(&self)
        ensures sorted { IsStrictlySortedBy nat_cmp (keys_of self.now.entries) }
        ensures places { (index : ℕ) → IsSome (lookup (nat_eq index) self.now.entries)
            → (place : ℕ) × IsAt self.now.indices index place }
        ensures apart { AreApart self.now.indices }
        ensures members { (index : ℕ)
            → is_member nat_eq self.now.indices index
            ≡ is_member nat_eq (keys_of self.now.entries) index }
    {
        let _chunks = &self.chunks;
    }

    /// Returns a copy.
    ///
    /// # Errors
    ///
    /// Returns an error if allocation fails.
    ///
    /// # Memory
    ///
    /// Allocates space for the chunks, indices and nodes.
    ///
    /// # Complexity
    ///
    /// Linear in the chunks and nodes.
    pub fn duplicate(&self) -> Result<Self, AllocError>
        ensures { IfOk result (λ copy. copy ≡ self.now) }
    {
        Ok(ChunkMap {
            places: self.places.duplicate()?,
            chunks: copy_chunks(&self.chunks)?,
        })
    }
}
