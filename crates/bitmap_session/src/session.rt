//! A session, which runs commands on a bitmap with its history.

mod clean;
mod dirty;
mod edits;
mod entries;
mod kept;
mod reads;
mod saved;
mod shown;

ghost use Rattle.std.specs.Prelude.{◌≡◌, ◌+◌, ◌^◌, ◌<◌, ◌≤◌, List, [], ◌++◌, None, Some, length, map, if◌then◌else◌, option_copied, IfErr, IfOk, IfSome, IsOk, OnErr, OnOk, vec_len, vec_capacity};
ghost use Rattle.std.specs.Map.{keys_of};
ghost use Rattle.bitmap_bytes.specs.Chunk.{IsWidth};
ghost use Rattle.bitmap_core.specs.Decoding.{admits, decode_error, pruned_error, pruned_in};
ghost use Rattle.bitmap_core.specs.Encoding.{pruned_encoding};
ghost use Rattle.historical_bitmap.specs.Changes.{changed_between};
ghost use Rattle.historical_bitmap.specs.History.{at_least, kept_under};
ghost use Rattle.bitmap_session.specs.Machine.{Agrees, StepTo, RunsOn, first_machine, is_dirty};
ghost use Rattle.bitmap_session.specs.Abstraction.{ReplacesState, machine_of, value_of};
ghost use Rattle.bitmap_session.specs.Laws.{HasRisingNumbers};

use crate::command::Command;
use crate::reply::{Refusal, Reply};
pub use crate::session::entries::LogError;
pub use crate::session::saved::{ApplyDeltaError, SaveError};
use bitmap_core::bitmap::Prunable;
use bitmap_core::bitmap::codec::{CodecError, RangeCfg, Read};
use historical_bitmap::bitmap::historical::{
    AtCommit, ChangedChunks, CleanBitMap, Commits, DirtyBitMap, PastBitMap,
};
use std::alloc::{AllocError, Global};
use std::marker::Model;
use std::mem;

// The bitmap, outside a batch and in one.
#[derive(Drop)]
enum State<const N: usize> {
    Clean(CleanBitMap<N>),
    Dirty(DirtyBitMap<N>),
}

// Runs a command that replaces the state, and returns its reply and the state after it.
fn step<const N: usize>(
    state: State<N>,
    alloc: Global,
    command: &Command<N>,
) -> (Reply<N>, State<N>)
    requires width { IsWidth N }
    requires replaces { ReplacesState command.now }
    ensures { StepTo N Agrees (machine_of state.entry) command.now (value_of result.0)
        (machine_of result.1) }
{
    match state {
        State::Clean(bitmap) => clean::step(bitmap, alloc, command),
        State::Dirty(bitmap) => dirty::step(bitmap, command),
    }
}

/// A bitmap with chunks of `N` bytes and its history, read and changed by commands.
///
/// The head of the crate has an example.
#[derive(Drop)]
pub struct Session<const N: usize> {
    state: State<N>,
    alloc: Global,
}

impl<const N: usize> Model for Session<N> {
    ghost use Rattle.bitmap_bytes.specs.Chunk.{IsWidth};
    ghost use Rattle.bitmap_session.specs.Machine.{Machine};
    ghost use Rattle.bitmap_session.specs.Laws.{HasRisingNumbers};

    ghost Value = { Machine };

    ghost use Rattle.bitmap_session.specs.Abstraction.{machine_of};

    ghost view = { λ s. machine_of s.state };

    ghost invariant = { λ s. IsWidth N × HasRisingNumbers (machine_of s.state).state };
}

// Returns a copy of a state.
fn copied<const N: usize>(state: &State<N>) -> Result<State<N>, AllocError>
    ensures { IfOk result (λ copy. copy ≡ state.now) }
{
    match state {
        State::Clean(bitmap) => Ok(State::Clean(bitmap.clone()?)),
        State::Dirty(bitmap) => Ok(State::Dirty(bitmap.clone()?)),
    }
}

impl<const N: usize> Clone for Session<N> {
    ghost use Rattle.std.specs.Prelude.{◌≡◌};

    ghost is_clone = { λ a b. b ≡ a };

    /// Returns an equal session: with the same bitmap, commits and last number, and in the same batch if there is one.
    ///
    /// # Errors
    ///
    /// Returns `AllocError` if an allocation fails.
    ///
    /// # Memory
    ///
    /// Allocates as `clone` of `CleanBitMap` or `DirtyBitMap`.
    ///
    /// # Complexity
    ///
    /// As `clone` of `CleanBitMap` or `DirtyBitMap`.
    fn clone(&self) -> Result<Self, AllocError> {
        Ok(Session {
            state: copied(&self.state)?,
            alloc: self.alloc,
        })
    }
}

impl<const N: usize> Session<N> {
    /// Creates a session outside a batch, with an empty bitmap, nothing pruned and no commits.
    ///
    /// `N` is at least 1, and `8N` fits `u64`. The bitmaps of the session allocate from `alloc`.
    ///
    /// # Memory
    ///
    /// Does not allocate.
    ///
    /// # Complexity
    ///
    /// Constant.
    pub fn new(alloc: Global) -> Self
        requires width { IsWidth N }
        ensures { result ≡ first_machine }
    {
        Session {
            state: State::Clean(CleanBitMap::new(alloc)),
            alloc,
        }
    }

    /// Reads a bitmap from the start of the bytes, and advances `from` past its encoding. Returns a session outside a batch, with
    /// this current bitmap, no commits and no last number.
    ///
    /// `range` limits the number of retained bits; pruned bits do not count. `N` is at least 1, and `8N` fits `u64`. The bitmaps
    /// of the session allocate from `alloc`.
    ///
    /// # Errors
    ///
    /// Returns the first error that applies, in the order that `bitmap_core::bitmap::codec` lists for a `Prunable`. `from` is then
    /// unchanged.
    ///
    /// # Memory
    ///
    /// Allocates at most once, for the chunks of the bitmap, and only if the bytes have no decode error.
    ///
    /// # Complexity
    ///
    /// Linear in the bytes of the encoding. If the bytes have a decode error, constant.
    pub fn read(alloc: Global, from: &mut &[u8], range: &RangeCfg) -> Result<Self, CodecError>
        requires width { IsWidth N }
        ensures found { IfOk result
            (λ s. from.old.now ≡ pruned_encoding N s.state.current ++ from.new.now) }
        ensures value { IfOk result
            (λ s. s ≡ record {
              state = record {
                current = pruned_in from.old.now;
                pending = None;
                history = [];
                costs = [];
                last = None;
              };
              touched = [];
            }) }
        ensures accepted { OnOk result (pruned_error N (admits range.now) from.old.now ≡ None) }
        ensures refused { IfErr result
            (λ e. pruned_error N (admits range.now) from.old.now ≡ decode_error e) }
        ensures unmoved { OnErr result (from.new ≡ from.old) }
    {
        let bitmap = Prunable::read_cfg(alloc, from, range)?;
        Ok(Session {
            state: State::Clean(CleanBitMap::from_bitmap(alloc, bitmap)),
            alloc,
        })
    }

    /// States that the kept commit numbers of this session are strictly ascending, and that none is above the last number.
    ///
    /// It holds of every session: from `new`, from `read`, cloned, and after any calls. So the laws `kept_numbers_rise` and
    /// `rewinding_restores` of `laws` apply to it.
    ///
    /// # Memory
    ///
    /// Does not allocate.
    ///
    /// # Complexity
    ///
    /// Constant.
    pub fn numbers_rise(&self)
        ensures { HasRisingNumbers self.now.state }
    {
        let _ = &self.state;
    }

    /// Runs one command, and returns its reply.
    ///
    /// Any command is valid: there is no condition on it, or on the session. The reply and the session afterwards are those of one
    /// step of the abstract machine, as in `run`. A refused command replies `Refused`, and the session is unchanged.
    ///
    /// # Memory
    ///
    /// Allocates as the call of `CleanBitMap` or `DirtyBitMap` that the command makes, and for the positions and bytes of its
    /// reply. If an allocation fails, the reply is `Refused(NoMemory)`.
    ///
    /// # Complexity
    ///
    /// As the call that the command makes, and constant time besides. `Start` also frees the bitmap and the commits that it replaces.
    pub fn serve(&mut self, command: &Command<N>) -> Reply<N>
        ensures { StepTo N Agrees self.old command.now (value_of result) self.new }
    {
        match command {
            Command::Push(value) => self.push(*value),
            Command::PushByte(byte) => self.push_byte(*byte),
            Command::PushChunk(bytes) => self.push_chunk(bytes),
            Command::Pop => self.pop(),
            Command::Set(position, value) => self.set(*position, *value),
            Command::Prune(position) => self.prune(*position),
            Command::DropBefore(number) => self.drop_before(*number),
            Command::Clear => self.clear(),
            Command::Len => self.len(),
            Command::PrunedChunks => self.pruned_chunks(),
            Command::Get(position) => self.get(*position),
            Command::Chunk(position) => self.chunk(*position),
            Command::Ones(from, to) => self.ones(*from, *to),
            Command::Encode => self.encode(),
            Command::At(number) => self.snapshot(*number),
            Command::OnesAt(number, from, to) => self.ones_at(*number, *from, *to),
            Command::EncodeAt(number) => self.encode_at(*number),
            Command::Decode(input, range) => self.decode(input, range),
            Command::Commits => self.kept_numbers(),
            Command::Exists(number) => self.exists(*number),
            Command::Latest => self.latest(),
            Command::Earliest => self.earliest(),
            Command::Entries => self.entries(),
            Command::Start(_)
            | Command::Begin
            | Command::Commit(_)
            | Command::Abort
            | Command::Rewind(_) => self.replace_state(command),
        }
    }

    // Runs a command that replaces the state, which is taken out of the session and put back after the command.
    fn replace_state(&mut self, command: &Command<N>) -> Reply<N>
        requires replaces { ReplacesState command.now }
        ensures { StepTo N Agrees self.old command.now (value_of result) self.new }
    {
        let alloc = self.alloc;
        let empty = State::Clean(CleanBitMap::new(alloc));
        let state = mem::replace(&mut self.state, empty);
        let (reply, state) = step(state, alloc, command);
        self.state = state;
        reply
    }

    // Runs `DropBefore`. Does not allocate.
    fn drop_before(&mut self, number: u64) -> Reply<N>
        ensures { StepTo N Agrees self.old (Command.DropBefore number) (value_of result) self.new }
    {
        match &mut self.state {
            State::Clean(bitmap) => clean::drop_before(bitmap, number),
            State::Dirty(_) => Reply::Refused(Refusal::WrongMode),
        }
    }

    // Runs `Clear`. Does not allocate.
    fn clear(&mut self) -> Reply<N>
        ensures { StepTo N Agrees self.old Command.Clear (value_of result) self.new }
    {
        match &mut self.state {
            State::Clean(bitmap) => clean::clear(bitmap),
            State::Dirty(_) => Reply::Refused(Refusal::WrongMode),
        }
    }

    /// Runs `Push`: appends a bit to the pending bitmap, and replies `Done`.
    ///
    /// # Errors
    ///
    /// Replies `Refused` with the first reason that applies, and leaves the session unchanged:
    ///
    /// - `WrongMode` outside a batch;
    /// - `TooLong` if the length would not fit `u64`;
    /// - `NoMemory` if an allocation fails.
    ///
    /// # Memory
    ///
    /// Allocates as `try_push` of `DirtyBitMap`.
    ///
    /// # Complexity
    ///
    /// As `try_push`.
    pub fn push(&mut self, value: bool) -> Reply<N>
        ensures { StepTo N Agrees self.old (Command.Push value) (value_of result) self.new }
    {
        match &mut self.state {
            State::Dirty(bitmap) => dirty::push(bitmap, value),
            State::Clean(_) => Reply::Refused(Refusal::WrongMode),
        }
    }

    /// Runs `PushByte`: appends the eight bits of a byte to the pending bitmap, the lowest bit first, and replies `Done`.
    ///
    /// # Errors
    ///
    /// Replies `Refused` with the first reason that applies, and leaves the session unchanged:
    ///
    /// - `WrongMode` outside a batch;
    /// - `TooLong` if the length would not fit `u64`;
    /// - `NoMemory` if an allocation fails.
    ///
    /// # Memory
    ///
    /// Allocates as `try_push_byte` of `DirtyBitMap`.
    ///
    /// # Complexity
    ///
    /// As `try_push_byte`.
    pub fn push_byte(&mut self, byte: u8) -> Reply<N>
        ensures { StepTo N Agrees self.old (Command.PushByte byte) (value_of result) self.new }
    {
        match &mut self.state {
            State::Dirty(bitmap) => dirty::push_byte(bitmap, byte),
            State::Clean(_) => Reply::Refused(Refusal::WrongMode),
        }
    }

    /// Runs `PushChunk`: appends the `8N` bits of a chunk to the pending bitmap, and replies `Done`.
    ///
    /// # Errors
    ///
    /// Replies `Refused` with the first reason that applies, and leaves the session unchanged:
    ///
    /// - `WrongMode` outside a batch;
    /// - `TooLong` if the length would not fit `u64`;
    /// - `NoMemory` if an allocation fails.
    ///
    /// # Memory
    ///
    /// Allocates as `try_push_chunk` of `DirtyBitMap`.
    ///
    /// # Complexity
    ///
    /// As `try_push_chunk`.
    pub fn push_chunk(&mut self, bytes: &[u8; N]) -> Reply<N>
        ensures { StepTo N Agrees self.old (Command.PushChunk bytes.now)
            (value_of result) self.new }
    {
        match &mut self.state {
            State::Dirty(bitmap) => dirty::push_chunk(bitmap, bytes),
            State::Clean(_) => Reply::Refused(Refusal::WrongMode),
        }
    }

    /// Runs `Pop`: removes the last bit of the pending bitmap, and replies it as `Bit`.
    ///
    /// # Errors
    ///
    /// Replies `Refused` and leaves the session unchanged, with `WrongMode` outside a batch, and
    /// `NoRetainedBit` if no bit is retained.
    ///
    /// # Memory
    ///
    /// Does not allocate.
    ///
    /// # Complexity
    ///
    /// As `pop` of `DirtyBitMap`.
    pub fn pop(&mut self) -> Reply<N>
        ensures { StepTo N Agrees self.old Command.Pop (value_of result) self.new }
    {
        match &mut self.state {
            State::Dirty(bitmap) => dirty::pop(bitmap),
            State::Clean(_) => Reply::Refused(Refusal::WrongMode),
        }
    }

    /// Runs `Set`: replaces the bit at an absolute position of the pending bitmap, and replies `Done`.
    ///
    /// # Errors
    ///
    /// Replies `Refused` with the first reason that applies, and leaves the session unchanged:
    ///
    /// - `WrongMode` outside a batch;
    /// - `OutOfBounds` if the position is not below the length;
    /// - `Pruned` if the position is pruned;
    /// - `NoMemory` if an allocation fails.
    ///
    /// # Memory
    ///
    /// Allocates as `try_set_bit` of `DirtyBitMap`.
    ///
    /// # Complexity
    ///
    /// As `try_set_bit`.
    pub fn set(&mut self, position: u64, value: bool) -> Reply<N>
        ensures { StepTo N Agrees self.old (Command.Set position value) (value_of result) self.new }
    {
        match &mut self.state {
            State::Dirty(bitmap) => dirty::set(bitmap, position, value),
            State::Clean(_) => Reply::Refused(Refusal::WrongMode),
        }
    }

    /// Runs `Prune`: prunes the chunks of the pending bitmap before the chunk of an absolute position, and replies `Done`.
    ///
    /// # Errors
    ///
    /// Replies `Refused` with the first reason that applies, and leaves the session unchanged:
    ///
    /// - `WrongMode` outside a batch;
    /// - `OutOfBounds` if the position is above the length;
    /// - `NoMemory` if an allocation fails.
    ///
    /// # Memory
    ///
    /// Allocates as `try_prune_to_bit` of `DirtyBitMap`.
    ///
    /// # Complexity
    ///
    /// As `try_prune_to_bit`.
    pub fn prune(&mut self, position: u64) -> Reply<N>
        ensures { StepTo N Agrees self.old (Command.Prune position) (value_of result) self.new }
    {
        match &mut self.state {
            State::Dirty(bitmap) => dirty::prune(bitmap, position),
            State::Clean(_) => Reply::Refused(Refusal::WrongMode),
        }
    }

    /// Runs `Get`: replies the bit at an absolute position of the visible bitmap as `Bit`.
    ///
    /// # Errors
    ///
    /// Replies `Refused` with `OutOfBounds` if the position is not below the length, and with `Pruned` if it is pruned.
    ///
    /// # Memory
    ///
    /// Does not allocate.
    ///
    /// # Complexity
    ///
    /// As `get_bit` of `CleanBitMap` or `DirtyBitMap`.
    // Inlined, so that a caller that needs the bit alone does not write the reply to memory.
    #[inline(always)]
    pub fn get(&self, position: u64) -> Reply<N>
        ensures { StepTo N Agrees self.now (Command.Get position) (value_of result) self.now }
    {
        match &self.state {
            State::Clean(bitmap) => clean::get(bitmap, position),
            State::Dirty(bitmap) => dirty::get(bitmap, position),
        }
    }

    /// Runs `Len`: replies the length of the visible bitmap in bits as `Number`. Pruned bits count.
    ///
    /// # Memory
    ///
    /// Does not allocate.
    ///
    /// # Complexity
    ///
    /// Constant.
    pub fn len(&self) -> Reply<N>
        ensures { StepTo N Agrees self.now Command.Len (value_of result) self.now }
    {
        match &self.state {
            State::Clean(bitmap) => clean::len(bitmap),
            State::Dirty(bitmap) => dirty::len(bitmap),
        }
    }

    /// Returns the current bitmap, to be read in place, or `None` in a batch.
    ///
    /// # Memory
    ///
    /// Does not allocate.
    ///
    /// # Complexity
    ///
    /// Constant.
    pub fn current(&self) -> Option<&Prunable<N>>
        ensures { option_copied result ≡ if is_dirty self.now.state then None
            else Some self.now.state.current }
    {
        match &self.state {
            State::Clean(bitmap) => Some(bitmap.current()),
            State::Dirty(_) => None,
        }
    }

    /// Returns the bitmap at commit `number`, to be read in place, or `None` if that commit is not kept or in a batch.
    ///
    /// # Memory
    ///
    /// Does not allocate.
    ///
    /// # Complexity
    ///
    /// As `at` of `CleanBitMap`.
    pub fn at(&self, number: u64) -> Option<AtCommit<'_, N>>
        ensures { result ≡ if is_dirty self.now.state then None
            else kept_under self.now.state.history number }
    {
        match &self.state {
            State::Clean(bitmap) => bitmap.at(number),
            State::Dirty(_) => None,
        }
    }

    /// Returns the bitmap at commit `number`, to be read in place, for reads of about `bits` bits, or `None` if that commit is not kept or
    /// in a batch.
    ///
    /// # Memory
    ///
    /// As `at_for` of `CleanBitMap`.
    ///
    /// # Complexity
    ///
    /// As `at_for` of `CleanBitMap`.
    pub fn at_for(&self, number: u64, bits: u64) -> Option<PastBitMap<'_, N>>
        ensures { result ≡ if is_dirty self.now.state then None
            else kept_under self.now.state.history number }
    {
        match &self.state {
            State::Clean(bitmap) => bitmap.at_for(number, bits),
            State::Dirty(_) => None,
        }
    }

    /// Returns an iterator over the kept commit numbers, ascending, each once, or `None` in a batch.
    ///
    /// # Memory
    ///
    /// Does not allocate.
    ///
    /// # Complexity
    ///
    /// As `commits` of `CleanBitMap`.
    pub fn commits(&self) -> Option<Commits<'_, N>>
        ensures { result ≡ if is_dirty self.now.state then None
            else Some (keys_of self.now.state.history) }
    {
        match &self.state {
            State::Clean(bitmap) => Some(bitmap.commits()),
            State::Dirty(_) => None,
        }
    }

    /// Returns an iterator over the kept commit numbers that are at least `number`, ascending, each once, or `None` in a batch.
    ///
    /// # Memory
    ///
    /// Does not allocate.
    ///
    /// # Complexity
    ///
    /// As `commits_from` of `CleanBitMap`.
    pub fn commits_from(&self, number: u64) -> Option<Commits<'_, N>>
        ensures { result ≡ if is_dirty self.now.state then None
            else Some (at_least number (keys_of self.now.state.history)) }
    {
        match &self.state {
            State::Clean(bitmap) => Some(bitmap.commits_from(number)),
            State::Dirty(_) => None,
        }
    }

    /// Returns an iterator over the absolute indices of the chunks that differ between the bitmaps at two commits, ascending, each once.
    ///
    /// Returns `None` unless both commits are kept and `from` is at most `to`, and in a batch.
    ///
    /// # Memory
    ///
    /// Does not allocate.
    ///
    /// # Complexity
    ///
    /// As `changed_chunks` of `CleanBitMap`.
    pub fn changed_chunks(&self, from: u64, to: u64) -> Option<ChangedChunks<'_, N>>
        ensures value { result ≡ if is_dirty self.now.state then None
            else changed_between N self.now.state.history from to }
        ensures bound { IfSome result (λ changes. length changes < 2 ^ 64) }
    {
        match &self.state {
            State::Clean(bitmap) => bitmap.changed_chunks(from, to),
            State::Dirty(_) => None,
        }
    }

    /// Runs the commands in order and appends one reply per command to `replies`.
    ///
    /// Any commands are valid: there is no condition on them, or on the session.
    ///
    /// The clause `run` is the main theorem. It compares the session with the abstract machine of `specs/Machine.antt`, which
    /// keeps each committed bitmap as a whole list of bits. Take any machine that agrees with the session before the call.
    /// That machine can run the same commands, with the same replies, to a machine that agrees with the session afterwards.
    /// In the machine a refused command changes nothing, and only commands marked as allocating are refused with `NoMemory`.
    ///
    /// # Errors
    ///
    /// Returns `AllocError` if the space for all replies cannot be reserved in `replies`. Then no command has run, and the
    /// session and the replies are unchanged. With enough spare capacity in `replies` it always succeeds. An allocation that
    /// fails within a command is no error of `run`: that command replies `Refused(NoMemory)`, and the next one runs.
    ///
    /// # Memory
    ///
    /// Allocates space for one reply per command, before the first command runs. The commands allocate as the calls of
    /// `CleanBitMap` and `DirtyBitMap` that they make, and for the positions and bytes that they reply.
    ///
    /// # Complexity
    ///
    /// The sum over the commands of the calls that they make, and constant time per command besides.
    pub fn run(
        &mut self,
        commands: &[Command<N>],
        replies: &mut Vec<Reply<N>>,
    ) -> Result<(), AllocError>
        ensures run { OnOk result
            ((new : List (Reply N)) × (replies.new.items ≡ replies.old.items ++ new)
            × RunsOn N self.old commands.now (map value_of new) self.new) }
        ensures refused { OnErr result
            ((self.new ≡ self.old) × (replies.new.items ≡ replies.old.items)) }
        ensures has_capacity { vec_len replies.old + length commands.now ≤ vec_capacity replies.old
            → IsOk result }
    {
        replies.reserve(commands.len())?;
        for command in commands {
            let reply = self.serve(command);
            replies.push_reserved(reply);
        }
        Ok(())
    }
}
