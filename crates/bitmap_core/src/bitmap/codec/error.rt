//! The error of reading a value from bytes.

use thiserror::Error;

/// The error of `Read::read_cfg`. The bytes to read from are then unchanged.
#[derive(Debug, Drop, Error)]
pub enum CodecError {
    /// The bytes end before the encoding does: in one of its numbers, or in its chunks.
    #[error("the bytes end too early")]
    EndOfBuffer,

    /// The number of retained bits, which is the payload of the error, is not in the range that the caller passed.
    #[error("the length {0} is out of range")]
    InvalidLength(u64),

    /// The bytes do not encode a value. The payload is the name of the type, `BitMap` or `Prunable`, and what is wrong.
    #[error("invalid {0}: {1}")]
    Invalid(&'static str, &'static str),

    /// The bytes encode a value that the range admits, but the allocation of its chunks fails.
    #[error("out of memory")]
    OutOfMemory,
}
