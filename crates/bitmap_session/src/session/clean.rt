//! Commands outside a batch: one function per command.

ghost use Rattle.std.specs.Prelude.{◌≡◌, None, Ok, IfOk};
ghost use Rattle.std.specs.Map.{keys_of};
ghost use Rattle.std.specs.Option.{option_map};
ghost use Rattle.bitmap_bytes.specs.Chunk.{IsWidth};
ghost use Rattle.bitmap_core.specs.Encoding.{pruned_encoding};
ghost use Rattle.bitmap_core.specs.Meaning.{ones};
ghost use Rattle.historical_bitmap.specs.History.{kept_under};
ghost use Rattle.historical_bitmap.specs.View.{history_of};
ghost use Rattle.bitmap_session.specs.Machine.{Agrees, StepTo, ones_of};
ghost use Rattle.bitmap_session.specs.Abstraction.{ReplacesState, clean, value_of, machine_of};

use crate::command::Command;
use crate::reply::{Refusal, Reply};
use crate::session::State;
use crate::session::shown::check_position;
use bitmap_core::bitmap::codec::Write;
use bitmap_core::bitmap::{Prunable, Readable};
use historical_bitmap::bitmap::historical::CleanBitMap;
use std::alloc::{AllocError, Global};

fn start<const N: usize>(
    bitmap: CleanBitMap<N>,
    alloc: Global,
    chunks: usize,
) -> (Reply<N>, State<N>)
    requires width { IsWidth N }
    ensures { StepTo N Agrees (clean N bitmap.entry) (Command.Start chunks) (value_of result.0)
        (machine_of result.1) }
{
    match CleanBitMap::new_with_pruned_chunks(alloc, chunks) {
        Ok(empty) => (Reply::Done, State::Clean(empty)),
        Err(_) => (
            Reply::Refused(Refusal::PrunedChunksOverflow),
            State::Clean(bitmap),
        ),
    }
}

fn begin<const N: usize>(bitmap: CleanBitMap<N>) -> (Reply<N>, State<N>)
    ensures { StepTo N Agrees (clean N bitmap.entry) Command.Begin (value_of result.0)
        (machine_of result.1) }
{
    (Reply::Done, State::Dirty(bitmap.into_dirty()))
}

fn rewind<const N: usize>(bitmap: CleanBitMap<N>, number: u64) -> (Reply<N>, State<N>)
    ensures { StepTo N Agrees (clean N bitmap.entry) (Command.Rewind number) (value_of result.0)
        (machine_of result.1) }
{
    match bitmap.rewind_to(number) {
        Ok(bitmap) => (Reply::Done, State::Clean(bitmap)),
        Err((bitmap, error)) => (Reply::Refused(Refusal::from(error)), State::Clean(bitmap)),
    }
}

pub fn len<const N: usize>(bitmap: &CleanBitMap<N>) -> Reply<N>
    ensures { StepTo N Agrees (clean N bitmap.now) Command.Len (value_of result)
        (clean N bitmap.now) }
{
    Reply::Number(bitmap.len())
}

pub fn pruned_chunks<const N: usize>(bitmap: &CleanBitMap<N>) -> Reply<N>
    ensures { StepTo N Agrees (clean N bitmap.now) Command.PrunedChunks (value_of result)
        (clean N bitmap.now) }
{
    Reply::Number(bitmap.pruned_chunks() as u64)
}

#[inline(always)]
pub fn get<const N: usize>(bitmap: &CleanBitMap<N>, position: u64) -> Reply<N>
    ensures { StepTo N Agrees (clean N bitmap.now) (Command.Get position) (value_of result)
        (clean N bitmap.now) }
{
    match check_position(bitmap.len(), bitmap.current().pruned_bits(), position) {
        Ok(()) => Reply::Bit(bitmap.get_bit(position)),
        Err(refusal) => Reply::Refused(refusal),
    }
}

pub fn chunk<const N: usize>(bitmap: &CleanBitMap<N>, position: u64) -> Reply<N>
    ensures { StepTo N Agrees (clean N bitmap.now) (Command.Chunk position) (value_of result)
        (clean N bitmap.now) }
{
    match check_position(bitmap.len(), bitmap.current().pruned_bits(), position) {
        Ok(()) => Reply::Chunk(*bitmap.get_chunk_containing(position)),
        Err(refusal) => Reply::Refused(refusal),
    }
}

// Returns the set positions of a bitmap in a range, ascending.
fn set_positions<B: Readable<N>, const N: usize>(
    bitmap: &B,
    alloc: Global,
    from: u64,
    to: u64,
) -> Result<Vec<u64>, AllocError>
    ensures { IfOk result (λ positions. positions.items ≡ ones N (B.meaning bitmap.now) from to) }
{
    // The call shows the prover that 8 * N fits u64.
    let _ = bitmap.len();
    bitmap.ones_iter_range(from..to).collect(alloc)
}

pub fn ones<const N: usize>(bitmap: &CleanBitMap<N>, alloc: Global, from: u64, to: u64) -> Reply<N>
    ensures { StepTo N Agrees (clean N bitmap.now) (Command.Ones from to) (value_of result)
        (clean N bitmap.now) }
{
    match set_positions(bitmap.current(), alloc, from, to) {
        Ok(positions) => Reply::Positions(Some(positions)),
        Err(_) => Reply::Refused(Refusal::NoMemory),
    }
}

// Returns the encoding of a bitmap.
fn encoded<const N: usize>(bitmap: &Prunable<N>, alloc: Global) -> Result<Vec<u8>, AllocError>
    ensures { IfOk result (λ bytes. bytes.items ≡ pruned_encoding N bitmap.now) }
{
    let mut bytes = Vec::new(alloc);
    bitmap.write(&mut bytes)?;
    Ok(bytes)
}

pub fn encode<const N: usize>(bitmap: &CleanBitMap<N>, alloc: Global) -> Reply<N>
    ensures { StepTo N Agrees (clean N bitmap.now) Command.Encode (value_of result)
        (clean N bitmap.now) }
{
    match encoded(bitmap.current(), alloc) {
        Ok(bytes) => Reply::Bytes(Some(bytes)),
        Err(_) => Reply::Refused(Refusal::NoMemory),
    }
}

pub fn at<const N: usize>(bitmap: &CleanBitMap<N>, number: u64) -> Reply<N>
    ensures { StepTo N Agrees (clean N bitmap.now) (Command.At number) (value_of result)
        (clean N bitmap.now) }
{
    match bitmap.get_at_commit(number) {
        Ok(found) => Reply::Snapshot(found),
        Err(_) => Reply::Refused(Refusal::NoMemory),
    }
}

// Returns the set positions in a range of the bitmap at a commit, or `None` if the commit is not kept.
fn kept_positions<const N: usize>(
    bitmap: &CleanBitMap<N>,
    alloc: Global,
    number: u64,
    from: u64,
    to: u64,
) -> Result<Option<Vec<u64>>, AllocError>
    ensures ok { IfOk result
        (λ found. option_map (λ v. v.items) found
        ≡ option_map (ones_of N from to) (kept_under (history_of N bitmap.now) number)) }
    ensures absent { kept_under (history_of N bitmap.now) number ≡ None → result ≡ Ok None }
{
    let Some(version) = bitmap.at_for(number, to.saturating_sub(from)) else {
        return Ok(None);
    };
    Ok(Some(set_positions(&version, alloc, from, to)?))
}

pub fn ones_at<const N: usize>(
    bitmap: &CleanBitMap<N>,
    alloc: Global,
    number: u64,
    from: u64,
    to: u64,
) -> Reply<N>
    ensures { StepTo N Agrees (clean N bitmap.now) (Command.OnesAt number from to) (value_of result)
        (clean N bitmap.now) }
{
    match kept_positions(bitmap, alloc, number, from, to) {
        Ok(positions) => Reply::Positions(positions),
        Err(_) => Reply::Refused(Refusal::NoMemory),
    }
}

// Returns the encoding of the bitmap at a commit, or `None` if the commit is not kept.
fn kept_encoding<const N: usize>(
    bitmap: &CleanBitMap<N>,
    alloc: Global,
    number: u64,
) -> Result<Option<Vec<u8>>, AllocError>
    ensures ok { IfOk result
        (λ found. option_map (λ v. v.items) found
        ≡ option_map (pruned_encoding N) (kept_under (history_of N bitmap.now) number)) }
    ensures absent { kept_under (history_of N bitmap.now) number ≡ None → result ≡ Ok None }
{
    match bitmap.get_at_commit(number)? {
        None => Ok(None),
        Some(found) => Ok(Some(encoded(&found, alloc)?)),
    }
}

pub fn encode_at<const N: usize>(bitmap: &CleanBitMap<N>, alloc: Global, number: u64) -> Reply<N>
    ensures { StepTo N Agrees (clean N bitmap.now) (Command.EncodeAt number) (value_of result)
        (clean N bitmap.now) }
{
    match kept_encoding(bitmap, alloc, number) {
        Ok(bytes) => Reply::Bytes(bytes),
        Err(_) => Reply::Refused(Refusal::NoMemory),
    }
}

// Returns the kept commit numbers, ascending.
fn kept_numbers<const N: usize>(
    bitmap: &CleanBitMap<N>,
    alloc: Global,
) -> Result<Vec<u64>, AllocError>
    ensures { IfOk result (λ numbers. numbers.items ≡ keys_of (history_of N bitmap.now)) }
{
    bitmap.commits().collect(alloc)
}

pub fn commits<const N: usize>(bitmap: &CleanBitMap<N>, alloc: Global) -> Reply<N>
    ensures { StepTo N Agrees (clean N bitmap.now) Command.Commits (value_of result)
        (clean N bitmap.now) }
{
    match kept_numbers(bitmap, alloc) {
        Ok(numbers) => Reply::Positions(Some(numbers)),
        Err(_) => Reply::Refused(Refusal::NoMemory),
    }
}

pub fn exists<const N: usize>(bitmap: &CleanBitMap<N>, number: u64) -> Reply<N>
    ensures { StepTo N Agrees (clean N bitmap.now) (Command.Exists number) (value_of result)
        (clean N bitmap.now) }
{
    Reply::Bit(bitmap.commit_exists(number))
}

pub fn latest<const N: usize>(bitmap: &CleanBitMap<N>) -> Reply<N>
    ensures { StepTo N Agrees (clean N bitmap.now) Command.Latest (value_of result)
        (clean N bitmap.now) }
{
    Reply::Maybe(bitmap.latest_commit())
}

pub fn earliest<const N: usize>(bitmap: &CleanBitMap<N>) -> Reply<N>
    ensures { StepTo N Agrees (clean N bitmap.now) Command.Earliest (value_of result)
        (clean N bitmap.now) }
{
    Reply::Maybe(bitmap.earliest_commit())
}

pub fn drop_before<const N: usize>(bitmap: &mut CleanBitMap<N>, number: u64) -> Reply<N>
    ensures { StepTo N Agrees (clean N bitmap.old) (Command.DropBefore number) (value_of result)
        (clean N bitmap.new) }
{
    Reply::Number(bitmap.prune_commits_before(number) as u64)
}

pub fn clear<const N: usize>(bitmap: &mut CleanBitMap<N>) -> Reply<N>
    ensures { StepTo N Agrees (clean N bitmap.old) Command.Clear (value_of result)
        (clean N bitmap.new) }
{
    bitmap.clear_history();
    Reply::Done
}

pub fn entries<const N: usize>(bitmap: &CleanBitMap<N>) -> Reply<N>
    ensures { StepTo N Agrees (clean N bitmap.now) Command.Entries (value_of result)
        (clean N bitmap.now) }
{
    Reply::Wide(bitmap.reverse_entries())
}

/// Runs a command that replaces the state, outside a batch. Returns its reply and the state after it, which a refused command
/// leaves unchanged.
pub fn step<const N: usize>(
    bitmap: CleanBitMap<N>,
    alloc: Global,
    command: &Command<N>,
) -> (Reply<N>, State<N>)
    requires width { IsWidth N }
    requires replaces { ReplacesState command.now }
    ensures { StepTo N Agrees (clean N bitmap.entry) command.now (value_of result.0)
        (machine_of result.1) }
{
    match command {
        Command::Start(chunks) => start(bitmap, alloc, *chunks),
        Command::Begin => begin(bitmap),
        Command::Rewind(number) => rewind(bitmap, *number),
        _ => (Reply::Refused(Refusal::WrongMode), State::Clean(bitmap)),
    }
}
