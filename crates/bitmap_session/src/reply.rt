//! The replies of a session, and the reasons for which it refuses a command.

use bitmap_core::bitmap::Prunable;
use bitmap_core::bitmap::codec::CodecError;
use historical_bitmap::bitmap::historical::{Error, RewindError};
use std::alloc::AllocError;

/// Why a command, or a call that edits many bits, was refused.
///
/// If several reasons hold, the reply has the first of them in this order. A refused command has changed nothing.
#[derive(Drop, Debug)]
pub enum Refusal {
    /// The command needs a batch and there is none, or there is a batch and the command needs that there is none.
    WrongMode,
    /// The position is not below the length. For `Prune`, `truncate` and the end of a range: it is above the length.
    OutOfBounds,
    /// The position is below the first retained position.
    Pruned,
    /// The new length in bits does not fit `u64`.
    TooLong,
    /// There is no retained bit to pop.
    NoRetainedBit,
    /// The commit number is `u64::MAX`, which is reserved.
    ReservedCommitNumber,
    /// The commit number is not above the last number.
    NonMonotonicCommit {
        /// The last number: the one last committed or rewound to, whether its commit is still kept or not.
        previous: u64,
        /// The number that was to be committed under.
        attempted: u64,
    },
    /// The number of pruned bits does not fit `u64`.
    PrunedChunksOverflow,
    /// The bytes do not begin with an encoding of a bitmap that the range admits. Failed allocations are `NoMemory`, never `CodecError::OutOfMemory`.
    Codec(CodecError),
    /// No commit is kept under the number to rewind to.
    NoSuchCommit,
    /// An allocation failed.
    ///
    /// Only these commands can be refused for it: `Push`, `PushByte`, `PushChunk`, `Set`, `Commit`, `Ones`, `Encode` and
    /// `Commits`; `Prune` if it drops a chunk; `Rewind`, `At`, `OnesAt` and `EncodeAt` of a kept commit; and `Decode` of bytes
    /// without a decode error.
    NoMemory,
}

impl From<Error> for Refusal {
    ghost use Rattle.std.specs.Prelude.{◌≡◌};
    ghost use Rattle.bitmap_session.specs.Abstraction.{reason, reason_of};

    ghost from_gives = { λ e r. reason r ≡ reason_of e };

    fn from(error: Error) -> Refusal {
        match error {
            Error::NonMonotonicCommit {
                previous,
                attempted,
            } => Refusal::NonMonotonicCommit {
                previous,
                attempted,
            },
            Error::ReservedCommitNumber => Refusal::ReservedCommitNumber,
            Error::PrunedChunksOverflow => Refusal::PrunedChunksOverflow,
            Error::Memory(_) => Refusal::NoMemory,
        }
    }
}

impl From<AllocError> for Refusal {
    ghost use Rattle.std.specs.Prelude.{◌≡◌};
    ghost use Rattle.bitmap_session.specs.Abstraction.{reason};
    ghost use Rattle.bitmap_session.specs.Replies.Refusal.{NoMemory};

    ghost from_gives = { λ e r. reason r ≡ NoMemory };

    fn from(_error: AllocError) -> Refusal {
        Refusal::NoMemory
    }
}

impl From<RewindError> for Refusal {
    ghost use Rattle.std.specs.Prelude.{◌≡◌};
    ghost use Rattle.bitmap_session.specs.Abstraction.{reason, reason_of_rewind};

    ghost from_gives = { λ e r. reason r ≡ reason_of_rewind e };

    fn from(error: RewindError) -> Refusal {
        match error {
            RewindError::NoSuchCommit => Refusal::NoSuchCommit,
            RewindError::Memory(_) => Refusal::NoMemory,
        }
    }
}

/// A reply of a session: one per command.
#[derive(Drop)]
pub enum Reply<const N: usize> {
    /// The command succeeded and has no result.
    Done,
    /// A bit, or whether a commit is kept.
    Bit(bool),
    /// A length in bits, a number of pruned chunks, or a number of dropped commits.
    Number(u64),
    /// A number of entries of reverse records. The sum may exceed `u64`.
    Wide(u128),
    /// The `N` bytes of a chunk.
    Chunk([u8; N]),
    /// A commit number, or `None` if no commit is kept.
    Maybe(Option<u64>),
    /// Set positions or commit numbers, ascending. `None` if the commit in question is not kept.
    Positions(Option<Vec<u64>>),
    /// The encoding of a bitmap. `None` if the commit in question is not kept.
    Bytes(Option<Vec<u8>>),
    /// The bitmap at a commit. `None` if the commit is not kept.
    Snapshot(Option<Prunable<N>>),
    /// A decoded bitmap, and the number of input bytes after its encoding.
    Read(Prunable<N>, usize),
    /// The command was refused and has changed nothing.
    Refused(Refusal),
}
