//! Roots of bitmaps, and proofs of single chunks, of ranges of chunks, and of bits, for any hash.
//!
//! A root is 32 bytes that stand for one state of a bitmap. With the root, the length and the
//! number of pruned chunks, anyone can check a chunk or a bit of that state, and needs no other
//! chunk.
//!
//! - The hash is a type that implements [`Digest`](hash::Digest).
//! - [`leaf_digests`](tree::leaf_digests) returns the digests of the chunks,
//!   [`tree_digest`](tree::tree_digest) that of their tree, and [`root_digest`](root::root_digest)
//!   the root. The chunks are bytes, so a bitmap of any kind has a root.
//! - [`prove`](tree::prove) returns the audit path of a chunk. A [`Proof`](encoding::Proof) has
//!   what is checked against the root, and an encoding.
//! - [`verify_chunk`](root::verify_chunk) and [`verify_bit`](root::verify_bit) check a chunk or a
//!   bit. They do not allocate.
//! - [`prove_range`](range::prove_range) returns what one proof of several chunks that follow one
//!   another needs, [`verify_range`](range::verify_range) checks it, and a
//!   [`RangeProof`](range_encoding::RangeProof) has its encoding. For two chunks or more it has
//!   fewer digests than their proofs together.
//! - [`store`] computes trees, audit paths and the digests of ranges from stored digests, of which
//!   it reads few. It appends, replaces and removes leaves, and writes few of them. [`node_edits`]
//!   does so where the digests are the chunks of a batch.
//!
//! A pruned chunk stays in the tree by its digest, so a proof stays good when chunks are pruned:
//! only the number of pruned chunks in the root changes.
//!
//! The laws in [`laws`], [`root`] and [`range`] say what a check is worth. A chunk that is checked
//! against the root of a bitmap is in the bitmap, unless two different inputs with one digest were
//! hashed: one for the check, and one for the bitmap. No one knows two such inputs for SHA-256.
#![tactic(auto)]

pub mod encoding;
pub mod follow;
pub mod hash;
pub mod laws;
pub mod node_edits;
mod node_source;
mod node_target;
pub mod range;
pub mod range_encoding;
pub mod root;
pub mod store;
pub mod tree;
