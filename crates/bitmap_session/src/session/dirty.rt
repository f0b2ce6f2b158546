//! Commands in a batch: one function per command.

ghost use Rattle.std.specs.Prelude.{◌≡◌, ◌+◌, not};
ghost use Rattle.bitmap_core.specs.PrunedBits as spec;
ghost use Rattle.bitmap_core.specs.PrunedBits.{bit_len};
ghost use Rattle.bitmap_core.specs.Decoding.{is_past_64};
ghost use Rattle.historical_bitmap.specs.View.{pending_of};
ghost use Rattle.bitmap_session.specs.Machine.{Agrees, StepTo};
ghost use Rattle.bitmap_session.specs.Abstraction.{ReplacesState, dirty, value_of, machine_of};

use crate::command::Command;
use crate::reply::{Refusal, Reply};
use crate::session::State;
use crate::session::shown::check_position;
use historical_bitmap::bitmap::historical::DirtyBitMap;

/// Returns the number of pruned bits, which is the first retained position. Does not allocate; constant time.
pub fn pruned_bits<const N: usize>(bitmap: &DirtyBitMap<N>) -> u64
    ensures { result ≡ spec.pruned_bits N (pending_of N bitmap.now) }
{
    // The call shows the prover that the product fits u64.
    let _ = bitmap.len();
    8 * N as u64 * bitmap.pruned_chunks() as u64
}

/// Returns whether the length fits u64 after an append of `more` bits. Does not allocate; constant time.
pub fn has_space<const N: usize>(bitmap: &DirtyBitMap<N>, more: u64) -> bool
    ensures { result ≡ not (is_past_64 (bit_len N (pending_of N bitmap.now) + more)) }
{
    bitmap.len() <= u64::MAX - more
}

pub fn push<const N: usize>(bitmap: &mut DirtyBitMap<N>, value: bool) -> Reply<N>
    ensures { StepTo N Agrees (dirty N bitmap.old) (Command.Push value) (value_of result)
        (dirty N bitmap.new) }
{
    if !has_space(bitmap, 1) {
        return Reply::Refused(Refusal::TooLong);
    }
    match bitmap.try_push(value) {
        Ok(_) => Reply::Done,
        Err(_) => Reply::Refused(Refusal::NoMemory),
    }
}

pub fn push_byte<const N: usize>(bitmap: &mut DirtyBitMap<N>, byte: u8) -> Reply<N>
    ensures { StepTo N Agrees (dirty N bitmap.old) (Command.PushByte byte) (value_of result)
        (dirty N bitmap.new) }
{
    if !has_space(bitmap, 8) {
        return Reply::Refused(Refusal::TooLong);
    }
    match bitmap.try_push_byte(byte) {
        Ok(_) => Reply::Done,
        Err(_) => Reply::Refused(Refusal::NoMemory),
    }
}

pub fn push_chunk<const N: usize>(bitmap: &mut DirtyBitMap<N>, bytes: &[u8; N]) -> Reply<N>
    ensures { StepTo N Agrees (dirty N bitmap.old) (Command.PushChunk bytes.now) (value_of result)
        (dirty N bitmap.new) }
{
    // The call shows the prover that 8 * N fits u64.
    let _ = bitmap.len();
    if !has_space(bitmap, 8 * N as u64) {
        return Reply::Refused(Refusal::TooLong);
    }
    match bitmap.try_push_chunk(bytes) {
        Ok(_) => Reply::Done,
        Err(_) => Reply::Refused(Refusal::NoMemory),
    }
}

pub fn pop<const N: usize>(bitmap: &mut DirtyBitMap<N>) -> Reply<N>
    ensures { StepTo N Agrees (dirty N bitmap.old) Command.Pop (value_of result)
        (dirty N bitmap.new) }
{
    if bitmap.len() == pruned_bits(bitmap) {
        return Reply::Refused(Refusal::NoRetainedBit);
    }
    Reply::Bit(bitmap.pop())
}

pub fn set<const N: usize>(bitmap: &mut DirtyBitMap<N>, position: u64, value: bool) -> Reply<N>
    ensures { StepTo N Agrees (dirty N bitmap.old) (Command.Set position value) (value_of result)
        (dirty N bitmap.new) }
{
    if let Err(refusal) = check_position(bitmap.len(), pruned_bits(bitmap), position) {
        return Reply::Refused(refusal);
    }
    match bitmap.try_set_bit(position, value) {
        Ok(_) => Reply::Done,
        Err(_) => Reply::Refused(Refusal::NoMemory),
    }
}

pub fn prune<const N: usize>(bitmap: &mut DirtyBitMap<N>, position: u64) -> Reply<N>
    ensures { StepTo N Agrees (dirty N bitmap.old) (Command.Prune position) (value_of result)
        (dirty N bitmap.new) }
{
    if position > bitmap.len() {
        return Reply::Refused(Refusal::OutOfBounds);
    }
    match bitmap.try_prune_to_bit(position) {
        Ok(_) => Reply::Done,
        Err(_) => Reply::Refused(Refusal::NoMemory),
    }
}

fn commit<const N: usize>(bitmap: DirtyBitMap<N>, number: u64) -> (Reply<N>, State<N>)
    ensures { StepTo N Agrees (dirty N bitmap.entry) (Command.Commit number) (value_of result.0)
        (machine_of result.1) }
{
    match bitmap.commit(number) {
        Ok(bitmap) => (Reply::Done, State::Clean(bitmap)),
        Err((bitmap, error)) => (Reply::Refused(Refusal::from(error)), State::Dirty(bitmap)),
    }
}

fn abort<const N: usize>(bitmap: DirtyBitMap<N>) -> (Reply<N>, State<N>)
    ensures { StepTo N Agrees (dirty N bitmap.entry) Command.Abort (value_of result.0)
        (machine_of result.1) }
{
    (Reply::Done, State::Clean(bitmap.abort()))
}

pub fn len<const N: usize>(bitmap: &DirtyBitMap<N>) -> Reply<N>
    ensures { StepTo N Agrees (dirty N bitmap.now) Command.Len (value_of result)
        (dirty N bitmap.now) }
{
    Reply::Number(bitmap.len())
}

pub fn pruned_chunks<const N: usize>(bitmap: &DirtyBitMap<N>) -> Reply<N>
    ensures { StepTo N Agrees (dirty N bitmap.now) Command.PrunedChunks (value_of result)
        (dirty N bitmap.now) }
{
    Reply::Number(bitmap.pruned_chunks() as u64)
}

pub fn get<const N: usize>(bitmap: &DirtyBitMap<N>, position: u64) -> Reply<N>
    ensures { StepTo N Agrees (dirty N bitmap.now) (Command.Get position) (value_of result)
        (dirty N bitmap.now) }
{
    match check_position(bitmap.len(), pruned_bits(bitmap), position) {
        Ok(()) => Reply::Bit(bitmap.get_bit(position)),
        Err(refusal) => Reply::Refused(refusal),
    }
}

pub fn chunk<const N: usize>(bitmap: &DirtyBitMap<N>, position: u64) -> Reply<N>
    ensures { StepTo N Agrees (dirty N bitmap.now) (Command.Chunk position) (value_of result)
        (dirty N bitmap.now) }
{
    match check_position(bitmap.len(), pruned_bits(bitmap), position) {
        Ok(()) => Reply::Chunk(bitmap.get_chunk(position)),
        Err(refusal) => Reply::Refused(refusal),
    }
}

/// Runs a command that replaces the state, in a batch. Returns its reply and the state after it, which a refused command leaves
/// unchanged.
pub fn step<const N: usize>(bitmap: DirtyBitMap<N>, command: &Command<N>) -> (Reply<N>, State<N>)
    requires replaces { ReplacesState command.now }
    ensures { StepTo N Agrees (dirty N bitmap.entry) command.now (value_of result.0)
        (machine_of result.1) }
{
    match command {
        Command::Commit(number) => commit(bitmap, *number),
        Command::Abort => abort(bitmap),
        _ => (Reply::Refused(Refusal::WrongMode), State::Dirty(bitmap)),
    }
}
