//! [`Places`]: a list of distinct keys, in which a key is found by a trie.
//!
//! The place of a key is its index in the list. A caller that has a value per key holds the values in a list of its own, in the same order.
//!
//! # Complexity
//!
//! A search visits at most 16 nodes, one per digit in base 16 by which the key differs from another. An insertion adds at most one node.
//! A removal keeps the nodes. So a list whose keys change for a long time gets ever more nodes, until it is made anew by
//! [`Places::compacted`].

ghost use Rattle.std.specs.Prelude.{◌≡◌, ℕ, ◌+◌, ◌<◌, ◌^◌, ◌++◌, [], ◌∷◌, List, length, MatchOption, slice_index, IfOk, OnOk, OnErr};
ghost use Rattle.chunk_map.specs.Ascending.{IsAscendingOf};
ghost use Rattle.chunk_map.specs.Next.{AreBelow, IsNextPlace};
ghost use Rattle.chunk_map.specs.Trie.{AreApart, IsAbsent, IsAt, without_place};

use crate::ascending::append_keys;
use crate::next;
use crate::trie::{self, Node};
use std::alloc::{AllocError, Global};
use std::marker::Model;

/// A list of distinct keys.
///
/// In contracts it is the list of its keys. A new key gets the next place, and only a removal changes places.
///
/// # Memory
///
/// Keys and nodes are each in one block. There are at most as many nodes as insertions.
#[derive(Debug, Drop)]
pub struct Places {
    nodes: Vec<Node>,
    keys: Vec<usize>,
    root: u32,
}

impl Model for Places {
    ghost use Rattle.std.specs.Prelude.{ℕ, List};
    ghost use Rattle.chunk_map.specs.Trie.{IsTrie};

    ghost Value = { List ℕ };

    ghost view = { λ p. p.keys.items };

    ghost invariant = { λ p. IsTrie p.nodes.items p.keys.items p.root };
}

impl Places {
    /// Returns a list without keys.
    ///
    /// # Memory
    ///
    /// Does not allocate.
    pub fn new(alloc: Global) -> Self
        ensures { result ≡ [] }
    {
        Places {
            nodes: Vec::new(alloc),
            keys: Vec::new(alloc),
            root: 0,
        }
    }

    /// Returns the number of keys.
    ///
    /// # Memory
    ///
    /// Does not allocate.
    ///
    /// # Complexity
    ///
    /// Constant.
    pub fn len(&self) -> usize
        ensures value { result ≡ length self.now }
        ensures bound { result < 2 ^ 63 }
    {
        self.keys.len()
    }

    /// Returns the place of `key`, if it is in the list.
    ///
    /// # Memory
    ///
    /// Does not allocate.
    ///
    /// # Complexity
    ///
    /// Visits at most 16 nodes.
    #[inline]
    pub fn find(&self, key: usize) -> Option<usize>
        ensures { MatchOption result (IsAbsent self.now key) (IsAt self.now key) }
    {
        trie::find(&self.nodes, &self.keys, self.root, key)
    }

    /// Returns the key at `place`, which must be below the number of keys.
    ///
    /// # Memory
    ///
    /// Does not allocate.
    ///
    /// # Complexity
    ///
    /// Constant.
    pub fn key_at(&self, place: usize) -> usize
        requires { place < length self.now }
        ensures { result ≡ slice_index self.now place }
    {
        self.keys[place]
    }

    /// Appends `key`, which must not be in the list.
    ///
    /// # Errors
    ///
    /// Returns an error if allocation fails, or if there are 2^31 - 1 keys or nodes. Then the list is unchanged.
    ///
    /// # Memory
    ///
    /// Allocates space for one key, and at most one node.
    ///
    /// # Complexity
    ///
    /// Visits at most 16 nodes. Amortized.
    pub fn insert(&mut self, key: usize) -> Result<(), AllocError>
        requires { IsAbsent self.old key }
        ensures ok { OnOk result (self.new ≡ self.old ++ key ∷ []) }
        ensures err { OnErr result (self.new ≡ self.old) }
    {
        trie::insert(&mut self.nodes, &mut self.keys, &mut self.root, key)
    }

    /// Removes the key at `place`, which must be below the number of keys. The last key gets its place.
    ///
    /// # Memory
    ///
    /// Does not allocate, and frees nothing. Later insertions use the space again, but a node only for keys that share its digits.
    ///
    /// # Complexity
    ///
    /// At most two walks of at most 16 nodes.
    pub fn remove(&mut self, place: usize)
        requires { place < length self.old }
        ensures { self.new ≡ without_place self.old place 0 }
    {
        trie::remove(&mut self.nodes, &mut self.keys, &mut self.root, place);
    }

    /// Returns the place of the least key at or above `from`, if there is one.
    ///
    /// # Memory
    ///
    /// Does not allocate.
    ///
    /// # Complexity
    ///
    /// At most 16 walks of at most 16 nodes, and more for nodes that removals left without keys.
    pub fn next_from(&self, from: usize) -> Option<usize>
        ensures { MatchOption result (AreBelow self.now from) (IsNextPlace self.now from) }
    {
        next::next_from(&self.nodes, &self.keys, self.root, from)
    }

    /// Returns the keys, ascending.
    ///
    /// # Errors
    ///
    /// Returns an error if allocation fails.
    ///
    /// # Memory
    ///
    /// Allocates once, for the keys. Does not allocate if there is no key.
    ///
    /// # Complexity
    ///
    /// Linear in the keys and nodes. Visits each node once.
    pub fn ascending(&self, alloc: Global) -> Result<Vec<usize>, AllocError>
        ensures { IfOk result (λ keys. IsAscendingOf self.now keys.items) }
    {
        let mut keys = Vec::with_capacity(alloc, self.keys.len())?;
        append_keys(&self.nodes, &self.keys, self.root, &mut keys)?;
        Ok(keys)
    }

    /// Does nothing. Its contract states that the keys are distinct.
    ///
    /// # Memory
    ///
    /// Does not allocate.
    ///
    /// # Complexity
    ///
    /// Constant.
    pub fn apart(&self)
        ensures { AreApart self.now }
    {
        let _root = self.root;
    }

    /// Returns a copy.
    ///
    /// # Errors
    ///
    /// Returns an error if allocation fails.
    ///
    /// # Memory
    ///
    /// Allocates space for the keys and nodes.
    ///
    /// # Complexity
    ///
    /// Linear in the keys and nodes.
    pub fn duplicate(&self) -> Result<Self, AllocError>
        ensures { IfOk result (λ copy. copy ≡ self.now) }
    {
        Ok(Places {
            nodes: self.nodes.clone()?,
            keys: self.keys.clone()?,
            root: self.root,
        })
    }

    /// Returns whether removals have left many nodes without keys: there are more than two nodes per key, and 32 more.
    /// If so, [`Places::compacted`] returns an equal list that takes less than half of the nodes.
    ///
    /// # Memory
    ///
    /// Does not allocate.
    ///
    /// # Complexity
    ///
    /// Constant.
    pub fn has_spare_nodes(&self) -> bool {
        self.nodes.len() / 2 > self.keys.len() + 16
    }

    /// Returns an equal list, made anew from its keys. It has fewer nodes than keys.
    ///
    /// # Errors
    ///
    /// Returns an error if allocation fails.
    ///
    /// # Memory
    ///
    /// Allocates space for the keys and nodes. Does not allocate if there is no key.
    ///
    /// # Complexity
    ///
    /// Per key, visits at most 16 nodes.
    pub fn compacted(&self, alloc: Global) -> Result<Self, AllocError>
        ensures { IfOk result (λ compact. compact ≡ self.now) }
    {
        self.apart();
        let mut compact = Places::new(alloc);
        for place in 0..self.len() {
            compact.insert(self.key_at(place))?;
        }
        Ok(compact)
    }
}
