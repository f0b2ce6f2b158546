//! Bitmaps: lists of bits that are packed into chunks of a fixed number of bytes.
//!
//! | Module | Contents |
//! |---|---|
//! | `bitmap` | dense bitmaps, bitmaps with a pruned prefix, the trait `Readable` of both, and their byte encodings |
//! | `chunk` | operations on one chunk, re-exported from the crate `bitmap_bytes` |
//! | `laws` | properties of bitmaps that follow from the contracts, each proved as the contract of a function |
//!
//! These conventions hold for every call:
//!
//! - A chunk has `N` bytes, so `8N` bits. `N` is at least 1, and `8N` fits `u64`.
//!   Every bitmap has this property. Calls without a bitmap, such as constructors and reads of bytes, require it.
//! - Positions, lengths and counts of bits are `u64`. Indices and counts of chunks, and sizes in bytes, are `usize`, which has 64 bits.
//!   Positions and indices begin at 0.
//! - A condition on an argument, such as "the length is below `u64::MAX`", is a precondition.
//!   The caller proves it, and the call does not test it.
//! - A call that may allocate returns a `Result`. If the allocation fails, it returns an error, and its arguments are unchanged.
//!   A call whose documentation says "Does not allocate" cannot run out of memory.
//! - Constructors and reads take the allocator as their first argument. A bitmap allocates from it.
//!   So do the values that are made from the bitmap: a clone, a vector of booleans, the result of an operator.
//! - Complexities count machine operations, without the time that the allocator takes. `N` is a constant.
//! - The number of bytes that a value allocates is not part of its contract. Memory may be kept until the value is dropped.
#![tactic(auto)]

pub mod bitmap;
pub mod laws;

pub use bitmap_bytes::chunk;
