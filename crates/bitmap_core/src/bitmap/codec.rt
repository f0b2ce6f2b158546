//! Byte encodings of bitmaps: writing a bitmap as bytes, and reading one from the start of a byte slice.
//!
//! | Value | Encoding |
//! |---|---|
//! | `BitMap` | the length in eight bytes, most significant first, and then the chunks in order |
//! | `Prunable` | the number of pruned chunks in eight bytes, most significant first, and then the retained bits as a `BitMap` |
//!
//! Each value has exactly one encoding. The calls are in the traits `EncodeSize`, `Write` and `Read`, which must be in scope.
//!
//! ```
//! use bitmap_core::bitmap::BitMap;
//! use bitmap_core::bitmap::codec::{CodecError, RangeCfg, Read, Write};
//! use std::alloc::{AllocError, Global};
//!
//! /// Returns the encoding of a bitmap.
//! pub fn sent(alloc: Global, map: &BitMap<4>) -> Result<Vec<u8>, AllocError> {
//!     let mut bytes = Vec::new(alloc);
//!     map.write(&mut bytes)?;
//!     Ok(bytes)
//! }
//!
//! /// Reads a bitmap of at most 1000 bits, and returns it with the number of bytes after it.
//! pub fn received(alloc: Global, bytes: &[u8]) -> Result<(BitMap<4>, usize), CodecError> {
//!     let mut from = bytes;
//!     let map = BitMap::<4>::read_cfg(alloc, &mut from, &RangeCfg::at_most(1000))?;
//!     Ok((map, from.len()))
//! }
//! ```
//!
//! Reading a `BitMap` returns the first of these errors that applies:
//!
//! 1. `EndOfBuffer`: there are fewer than eight bytes.
//! 2. `InvalidLength(length)`: the length is not in the range.
//! 3. `EndOfBuffer`: bytes of the chunks are missing.
//! 4. `Invalid("BitMap", "Invalid trailing bits in encoded data")`: a bit past the length is set.
//! 5. `OutOfMemory`: the allocation of the chunks fails.
//!
//! Reading a `Prunable` returns the first of these errors that applies:
//!
//! 1. `EndOfBuffer`: there are fewer than eight bytes.
//! 2. `Invalid("Prunable", "pruned_chunks would overflow when computing pruned_bits")`: the number of pruned bits does not fit `u64`.
//! 3. `Invalid("Prunable", "pruned_chunks doesn't fit in usize")`: cannot occur if `usize` has 64 bits.
//! 4. The first four errors of a `BitMap`, for the bytes after the first eight.
//! 5. `Invalid("Prunable", "total bitmap length (pruned + unpruned) would overflow u64")`: the length does not fit `u64`.
//! 6. `OutOfMemory`: the allocation of the chunks fails.

ghost use Rattle.std.specs.Prelude.{◌≡◌, ℕ, ◌+◌, ◌^◌, ◌<◌, ◌≤◌, ◌++◌, Bool, List, Option, None, length, is_ok, vec_capacity, vec_len, IfOk, IfErr, IsOk, OnOk, OnErr, if◌then◌else◌};
ghost use Rattle.bitmap_core.specs.Decoding.{DecodeError, decode_error, admits};

mod dense;
mod error;
mod prunable;
mod range;

pub use crate::bitmap::codec::error::CodecError;
pub use crate::bitmap::codec::range::RangeCfg;
use std::alloc::{AllocError, Global};

/// A value that has an encoding as bytes. `BitMap` and `Prunable` implement it.
pub trait EncodeSize {
    // The encoding of a value.
    ghost encoded: { Self → List ℕ };

    // A property of every value that is read.
    ghost IsSized: { Self → Type 0 };

    /// Returns the size of the encoding in bytes. It fits `usize`.
    ///
    /// Does not allocate; constant time for `BitMap` and `Prunable`.
    fn encode_size(&self) -> usize
        requires { length (encoded self.now) < 2 ^ 64 }
        ensures { result ≡ length (encoded self.now) };
}

/// A value that can be written as bytes.
pub trait Write: EncodeSize {
    /// Appends the encoding of the value to `out`.
    ///
    /// # Errors
    ///
    /// Returns `AllocError` if the allocation fails; `out` then has the same bytes as before.
    /// If `out` has capacity for the encoding, it succeeds.
    ///
    /// # Memory
    ///
    /// Allocates at most once, from the allocator of `out`, and only if `out` has no capacity for the encoding.
    ///
    /// # Complexity
    ///
    /// Amortized linear in the bytes of the encoding.
    fn write(&self, out: &mut Vec<u8>) -> Result<(), AllocError>
        ensures items { out.new.items
            ≡ (if is_ok result then out.old.items ++ Self.encoded self.now else out.old.items) }
        ensures has_capacity { vec_len out.old + length (Self.encoded self.now)
            ≤ vec_capacity out.old → IsOk result };
}

/// A value that can be read from bytes.
pub trait Read: EncodeSize + Sized {
    // The condition on the type under which a value can be read.
    ghost can_read: { Type 0 };

    // The value that an input without a decode error encodes.
    ghost value_in: { List ℕ → Self };

    // The first decode error of an input, if a range admits some lengths.
    ghost error_of: { (ℕ → Bool) → List ℕ → Option DecodeError };

    /// Reads a value from the start of the bytes, and advances `from` past its encoding.
    ///
    /// `range` limits the number of retained bits; pruned bits do not count. `N` is at least 1, and `8N` fits `u64`.
    ///
    /// # Errors
    ///
    /// Returns the first error that applies, in the order of the module's lists. `from` is then unchanged.
    ///
    /// # Memory
    ///
    /// Allocates at most once, for the chunks of the value, and only if the bytes have no decode error.
    ///
    /// # Complexity
    ///
    /// Linear in the bytes of the encoding. If the bytes have a decode error, constant.
    fn read_cfg(alloc: Global, from: &mut &[u8], range: &RangeCfg) -> Result<Self, CodecError>
        requires { can_read }
        ensures found { IfOk result (λ v. from.old.now ≡ Self.encoded v ++ from.new.now) }
        ensures value { IfOk result (λ v. v ≡ value_in from.old.now) }
        ensures sized { IfOk result (λ v. Self.IsSized v) }
        ensures accepted { OnOk result (error_of (admits range.now) from.old.now ≡ None) }
        ensures refused { IfErr result
            (λ e. error_of (admits range.now) from.old.now ≡ decode_error e) }
        ensures unmoved { OnErr result (from.new ≡ from.old) };
}
