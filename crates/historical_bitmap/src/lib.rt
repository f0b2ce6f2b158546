//! Bitmaps with a history of numbered commits: a past state is rebuilt from the current bitmap and small reverse records.
//!
//! Start with `bitmap::historical`. The laws of these bitmaps are in `laws`.
//! The conventions at the head of `bitmap_core` hold here too: units, preconditions, allocation and complexities.
#![tactic(auto)]

pub mod bitmap;
pub mod laws;
