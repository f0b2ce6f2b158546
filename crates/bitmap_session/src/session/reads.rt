//! Commands that only read a session: they borrow its state, and leave it in its place.

ghost use Rattle.bitmap_session.specs.Machine.{Agrees, StepTo};
ghost use Rattle.bitmap_session.specs.Abstraction.{value_of};

use crate::command::Command;
use crate::reply::{Refusal, Reply};
use crate::session::shown::decode;
use crate::session::{Session, State, clean, dirty};
use bitmap_core::bitmap::codec::RangeCfg;

impl<const N: usize> Session<N> {
    /// Runs `PrunedChunks`: replies the number of pruned chunks of the visible bitmap as `Number`.
    ///
    /// # Memory
    ///
    /// Does not allocate.
    ///
    /// # Complexity
    ///
    /// Constant.
    pub fn pruned_chunks(&self) -> Reply<N>
        ensures { StepTo N Agrees self.now Command.PrunedChunks (value_of result) self.now }
    {
        match &self.state {
            State::Clean(bitmap) => clean::pruned_chunks(bitmap),
            State::Dirty(bitmap) => dirty::pruned_chunks(bitmap),
        }
    }

    /// Runs `Chunk`: replies the chunk that contains an absolute position of the visible bitmap as `Chunk`. Its bits past the
    /// length are zero.
    ///
    /// # Errors
    ///
    /// Replies `Refused` with `OutOfBounds` if the position is not below the length, and with `Pruned` if it is pruned.
    ///
    /// # Memory
    ///
    /// Does not allocate.
    ///
    /// # Complexity
    ///
    /// Linear in the bytes of a chunk, plus `get_chunk` of `DirtyBitMap` in a batch.
    pub fn chunk(&self, position: u64) -> Reply<N>
        ensures { StepTo N Agrees self.now (Command.Chunk position) (value_of result) self.now }
    {
        match &self.state {
            State::Clean(bitmap) => clean::chunk(bitmap, position),
            State::Dirty(bitmap) => dirty::chunk(bitmap, position),
        }
    }

    /// Runs `Encode`: replies the encoding of the current bitmap as `Bytes`.
    ///
    /// # Errors
    ///
    /// Replies `Refused` with `WrongMode` in a batch, and with `NoMemory` if an allocation fails.
    ///
    /// # Memory
    ///
    /// Allocates the bytes of the encoding.
    ///
    /// # Complexity
    ///
    /// Linear in the encoding.
    pub fn encode(&self) -> Reply<N>
        ensures { StepTo N Agrees self.now Command.Encode (value_of result) self.now }
    {
        match &self.state {
            State::Clean(bitmap) => clean::encode(bitmap, self.alloc),
            State::Dirty(_) => Reply::Refused(Refusal::WrongMode),
        }
    }

    /// Runs `EncodeAt`: replies the encoding of the bitmap committed under a number as `Bytes`, or none if that commit is not kept.
    ///
    /// # Errors
    ///
    /// Replies `Refused` with `WrongMode` in a batch, and with `NoMemory` if an allocation fails.
    ///
    /// # Memory
    ///
    /// Allocates as `get_at_commit` of `CleanBitMap`, and the bytes of the encoding.
    ///
    /// # Complexity
    ///
    /// As `get_at_commit` of `CleanBitMap`, plus linear in the encoding.
    pub fn encode_at(&self, number: u64) -> Reply<N>
        ensures { StepTo N Agrees self.now (Command.EncodeAt number) (value_of result) self.now }
    {
        match &self.state {
            State::Clean(bitmap) => clean::encode_at(bitmap, self.alloc, number),
            State::Dirty(_) => Reply::Refused(Refusal::WrongMode),
        }
    }

    /// Runs `Exists`: replies whether a commit is kept under a number, as `Bit`.
    ///
    /// # Errors
    ///
    /// Replies `Refused` with `WrongMode` in a batch.
    ///
    /// # Memory
    ///
    /// Does not allocate.
    ///
    /// # Complexity
    ///
    /// Logarithmic in the kept commits.
    pub fn exists(&self, number: u64) -> Reply<N>
        ensures { StepTo N Agrees self.now (Command.Exists number) (value_of result) self.now }
    {
        match &self.state {
            State::Clean(bitmap) => clean::exists(bitmap, number),
            State::Dirty(_) => Reply::Refused(Refusal::WrongMode),
        }
    }

    /// Runs `Latest`: replies the greatest kept commit number as `Maybe`.
    ///
    /// # Errors
    ///
    /// Replies `Refused` with `WrongMode` in a batch.
    ///
    /// # Memory
    ///
    /// Does not allocate.
    ///
    /// # Complexity
    ///
    /// Constant.
    pub fn latest(&self) -> Reply<N>
        ensures { StepTo N Agrees self.now Command.Latest (value_of result) self.now }
    {
        match &self.state {
            State::Clean(bitmap) => clean::latest(bitmap),
            State::Dirty(_) => Reply::Refused(Refusal::WrongMode),
        }
    }

    /// Runs `Earliest`: replies the least kept commit number as `Maybe`.
    ///
    /// # Errors
    ///
    /// Replies `Refused` with `WrongMode` in a batch.
    ///
    /// # Memory
    ///
    /// Does not allocate.
    ///
    /// # Complexity
    ///
    /// Constant.
    pub fn earliest(&self) -> Reply<N>
        ensures { StepTo N Agrees self.now Command.Earliest (value_of result) self.now }
    {
        match &self.state {
            State::Clean(bitmap) => clean::earliest(bitmap),
            State::Dirty(_) => Reply::Refused(Refusal::WrongMode),
        }
    }

    /// Runs `Entries`: replies the number of entries in the reverse records of all kept commits together, as `Wide`.
    ///
    /// # Errors
    ///
    /// Replies `Refused` with `WrongMode` in a batch.
    ///
    /// # Memory
    ///
    /// Does not allocate.
    ///
    /// # Complexity
    ///
    /// Linear in the kept commits.
    pub fn entries(&self) -> Reply<N>
        ensures { StepTo N Agrees self.now Command.Entries (value_of result) self.now }
    {
        match &self.state {
            State::Clean(bitmap) => clean::entries(bitmap),
            State::Dirty(_) => Reply::Refused(Refusal::WrongMode),
        }
    }

    // Runs `Ones`.
    pub(crate) fn ones(&self, from: u64, to: u64) -> Reply<N>
        ensures { StepTo N Agrees self.now (Command.Ones from to) (value_of result) self.now }
    {
        match &self.state {
            State::Clean(bitmap) => clean::ones(bitmap, self.alloc, from, to),
            State::Dirty(_) => Reply::Refused(Refusal::WrongMode),
        }
    }

    // Runs `At`.
    pub(crate) fn snapshot(&self, number: u64) -> Reply<N>
        ensures { StepTo N Agrees self.now (Command.At number) (value_of result) self.now }
    {
        match &self.state {
            State::Clean(bitmap) => clean::at(bitmap, number),
            State::Dirty(_) => Reply::Refused(Refusal::WrongMode),
        }
    }

    // Runs `OnesAt`.
    pub(crate) fn ones_at(&self, number: u64, from: u64, to: u64) -> Reply<N>
        ensures { StepTo N Agrees self.now (Command.OnesAt number from to)
            (value_of result) self.now }
    {
        match &self.state {
            State::Clean(bitmap) => clean::ones_at(bitmap, self.alloc, number, from, to),
            State::Dirty(_) => Reply::Refused(Refusal::WrongMode),
        }
    }

    // Runs `Commits`.
    pub(crate) fn kept_numbers(&self) -> Reply<N>
        ensures { StepTo N Agrees self.now Command.Commits (value_of result) self.now }
    {
        match &self.state {
            State::Clean(bitmap) => clean::commits(bitmap, self.alloc),
            State::Dirty(_) => Reply::Refused(Refusal::WrongMode),
        }
    }

    // Runs `Decode`.
    pub(crate) fn decode(&self, input: &Vec<u8>, range: &RangeCfg) -> Reply<N>
        ensures { StepTo N Agrees self.now (Command.Decode input.now range.now)
            (value_of result) self.now }
    {
        decode(self.alloc, input.as_slice(), range)
    }
}
