//! Operations on the bits of one chunk, a byte array `[u8; N]`.
//!
//! This crate is the lowest layer of the bitmaps. The crate `bitmap_core` builds on it and re-exports its module `chunk`.
#![tactic(auto)]

pub mod chunk;
