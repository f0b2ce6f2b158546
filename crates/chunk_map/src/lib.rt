//! A map from chunk index to chunk, without hashing.
//!
//! [`map::ChunkMap`] holds the edited chunks of a batch, or the old chunks that a rewind gathers before it writes them back. Its indices may
//! come from a stranger: no choice of them makes a call slow.
//! [`places::Places`] finds the places of keys in the same way, for a caller that has a value of another kind per key.
#![tactic(auto)]

mod ascending;
pub mod map;
mod next;
pub mod places;
mod trie;
