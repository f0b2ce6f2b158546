//! Errors of entries.

use crate::entry::DecodeError;
use std::alloc::AllocError;
use thiserror::Error as ErrorDerive;

/// Why bytes are no entry that a bitmap accepts. Of several reasons, the first one in this order is the error.
#[derive(Clone, Copy, Debug, PartialEq, Eq, ErrorDerive)]
pub enum EntryError {
    /// The bytes encode no entry.
    #[error("the bytes encode no entry")]
    Decode(DecodeError),

    /// The number of a commit is reserved, or it is not above the last number.
    #[error("the number of the commit is reserved, or not above the last number")]
    Number,

    /// The pruned count of a commit is below that of the bitmap, or its length does not cover its pruned bits.
    #[error("the pruned count of the commit falls, or its length does not cover the pruned bits")]
    Length,

    /// The chunks of a commit are not those that differ, ascending, each once, with its new bytes and zeros past the length.
    #[error("the chunks of the commit are not those that differ")]
    Chunks,

    /// No commit is kept under the number of a rewind.
    #[error("no commit is kept under the number of the rewind")]
    NoSuchCommit,
}

/// Why an entry was not applied.
#[derive(Clone, Copy, Debug, PartialEq, Eq, ErrorDerive)]
pub enum ApplyError {
    /// The bitmap does not accept the entry.
    #[error("the bitmap does not accept the entry")]
    Entry(EntryError),

    /// An allocation failed.
    #[error("out of memory")]
    Memory(AllocError),
}

impl From<AllocError> for ApplyError {
    ghost use Rattle.std.specs.Prelude.{◌≡◌};
    ghost use Rattle.commit_log.specs.declared.error.ApplyError.TheVariants.{Memory};

    ghost from_gives = { λ e r. r ≡ Memory e };

    fn from(error: AllocError) -> ApplyError {
        ApplyError::Memory(error)
    }
}
