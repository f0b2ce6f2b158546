//! A run of the program: reads the arguments, makes a bitmap and runs the call.

ghost use Rattle.std.specs.Prelude.{◌*◌, ◌^◌, ◌<◌, ◌≤◌, length, IfOk};

use crate::call::{Call, named};
use crate::{edits, growth, historical, kept, logs, pruned, reads, searches};
use bitmap_core::bitmap::BitMap;
use std::alloc::{AllocError, Global};

/// The reason why a run prints no result.
#[derive(Drop)]
pub enum RunError {
    Usage,
    OutOfMemory,
    CannotWrite,
}

impl RunError {
    /// Returns the message for standard error.
    pub fn text(&self) -> &'static str {
        match self {
            RunError::Usage => {
                "usage: bench CALL WIDTH BYTES TIMES [COMMITS] (WIDTH is 1, 3, 4, 8 or 32 bytes per chunk; BYTES is at most 2^32)"
            }
            RunError::OutOfMemory => "bench: out of memory",
            RunError::CannotWrite => "bench: cannot write to standard output",
        }
    }

    /// Returns the exit status.
    pub fn status(&self) -> u8 {
        match self {
            RunError::Usage => 2,
            RunError::OutOfMemory | RunError::CannotWrite => 3,
        }
    }
}

impl From<AllocError> for RunError {
    fn from(_error: AllocError) -> RunError {
        RunError::OutOfMemory
    }
}

const MOST_BYTES: u64 = 1 << 32;

// A bitmap of `bytes` bytes. Four of each eight bits are set.
fn filled<const N: usize>(alloc: Global, bytes: u64) -> Result<BitMap<N>, AllocError>
    requires positive { 0 < N }
    requires fits { 8 * N < 2 ^ 64 }
    requires most { bytes ≤ 2 ^ 32 }
    ensures { IfOk result (λ map. length map ≤ 2 ^ 35) }
{
    let bits = 8 * bytes;
    let byte = [false, true, true, false, true, false, false, true];
    let mut map = BitMap::<N>::from_bools(alloc, byte.as_slice())?;
    for _ in 0..40 {
        if map.len() < bits {
            let more = map.clone()?;
            map.extend_from_bitmap(&more)?;
        }
    }
    map.truncate(bits.min(map.len()));
    Ok(map)
}

// Runs a call on a dense or pruned bitmap with chunks of `N` bytes. Some calls take a second bitmap, with chunks of `M` bytes.
fn run_at<const N: usize, const M: usize>(
    alloc: Global,
    call: Call,
    bytes: u64,
    times: u64,
) -> Result<u64, AllocError>
    requires positive { 0 < N }
    requires fits { 8 * N < 2 ^ 64 }
    requires other_positive { 0 < M }
    requires other_fits { 8 * M < 2 ^ 64 }
    requires most { bytes ≤ 2 ^ 32 }
{
    let mut map = filled::<N>(alloc, bytes)?;
    match call {
        Call::Copy => growth::copy(alloc, &map, times),
        Call::Push => edits::push(&mut map, times),
        Call::Pop => edits::pop(&mut map, times),
        Call::Get => Ok(reads::get(&map, times)),
        Call::Set => Ok(edits::set(&mut map, times)),
        Call::FlipAll => Ok(edits::flip_all(&mut map, times)),
        Call::SetAll => Ok(edits::set_all(&mut map, times)),
        Call::And => edits::and(&mut map, times),
        Call::Or => edits::or(&mut map, times),
        Call::Xor => edits::xor(&mut map, times),
        Call::Equal => reads::equal(&mut map, times),
        Call::Hash => Ok(reads::hash(&map, times)),
        Call::CountOnes => Ok(reads::count_ones(&map, times)),
        Call::IsUnset => Ok(reads::is_unset(&mut map, times)),
        Call::Iter => Ok(reads::iter(&map, times)),
        Call::OnesIter => Ok(reads::ones_iter(&map, times)),
        Call::ExtendSame => growth::extend(&map, &mut BitMap::<N>::new(alloc), times),
        Call::ExtendSameShifted => growth::extend(&map, &mut BitMap::<N>::ones(alloc, 3)?, times),
        Call::ExtendOther => growth::extend(&map, &mut BitMap::<M>::new(alloc), times),
        Call::ExtendOtherShifted => growth::extend(&map, &mut BitMap::<M>::ones(alloc, 3)?, times),
        Call::ExtendTo => growth::extend_to(alloc, &map, times),
        Call::Truncate => growth::truncate(&mut map, times),
        Call::Clone => growth::clone(&map, times),
        Call::ToBools => growth::to_bools(&map, times),
        Call::FromBools => growth::from_bools(alloc, &map, times),
        Call::Write => growth::write(alloc, &map, times),
        Call::Read => growth::read(alloc, &map, times),
        Call::PrunablePush => pruned::push(alloc, &map, times),
        Call::PrunablePop => pruned::pop(alloc, &map, times),
        Call::PushByte => pruned::push_byte(alloc, &map, times),
        Call::PushChunk => pruned::push_chunk(alloc, &map, times),
        Call::Prune => pruned::prune(alloc, &map, times),
        Call::Unprune => pruned::unprune(alloc, &map, times),
        Call::GetBit => pruned::get_bit(alloc, &map, times),
        Call::SetBit => pruned::set_bit(alloc, &map, times),
    }
}

// Runs a call of a dense or pruned bitmap, with the chunk width that an argument gives.
fn run_call(alloc: Global, call: Call, width: &str, bytes: u64, times: u64) -> Result<u64, RunError>
    requires most { bytes ≤ 2 ^ 32 }
{
    match width.as_bytes() {
        b"1" => Ok(run_at::<1, 8>(alloc, call, bytes, times)?),
        b"3" => Ok(run_at::<3, 8>(alloc, call, bytes, times)?),
        b"4" => Ok(run_at::<4, 8>(alloc, call, bytes, times)?),
        b"8" => Ok(run_at::<8, 3>(alloc, call, bytes, times)?),
        b"32" => Ok(run_at::<32, 8>(alloc, call, bytes, times)?),
        _ => Err(RunError::Usage),
    }
}

// Runs a search or the like of a dense bitmap, with the chunk width that an argument gives.
fn run_search(
    alloc: Global,
    call: searches::Call,
    width: &str,
    bytes: u64,
    times: u64,
) -> Result<u64, RunError>
    requires most { bytes ≤ 2 ^ 32 }
{
    match width.as_bytes() {
        b"1" => Ok(searches::run(call, filled::<1>(alloc, bytes)?, times)?),
        b"3" => Ok(searches::run(call, filled::<3>(alloc, bytes)?, times)?),
        b"4" => Ok(searches::run(call, filled::<4>(alloc, bytes)?, times)?),
        b"8" => Ok(searches::run(call, filled::<8>(alloc, bytes)?, times)?),
        b"32" => Ok(searches::run(call, filled::<32>(alloc, bytes)?, times)?),
        _ => Err(RunError::Usage),
    }
}

// Runs a call of a historical bitmap, with the chunk width that an argument gives.
fn run_historical(
    alloc: Global,
    call: historical::Call,
    width: &str,
    bytes: u64,
    times: u64,
) -> Result<u64, RunError> {
    match width.as_bytes() {
        b"1" => Ok(historical::run::<1>(alloc, call, bytes, times)?),
        b"3" => Ok(historical::run::<3>(alloc, call, bytes, times)?),
        b"4" => Ok(historical::run::<4>(alloc, call, bytes, times)?),
        b"8" => Ok(historical::run::<8>(alloc, call, bytes, times)?),
        b"32" => Ok(historical::run::<32>(alloc, call, bytes, times)?),
        _ => Err(RunError::Usage),
    }
}

// Runs a call of a historical bitmap with small commits, with the chunk width that an argument gives.
fn run_kept(
    alloc: Global,
    call: kept::Call,
    width: &str,
    bytes: u64,
    commits: u64,
    times: u64,
) -> Result<u64, RunError> {
    match width.as_bytes() {
        b"1" => Ok(kept::run::<1>(alloc, call, bytes, commits, times)?),
        b"3" => Ok(kept::run::<3>(alloc, call, bytes, commits, times)?),
        b"4" => Ok(kept::run::<4>(alloc, call, bytes, commits, times)?),
        b"8" => Ok(kept::run::<8>(alloc, call, bytes, commits, times)?),
        b"32" => Ok(kept::run::<32>(alloc, call, bytes, commits, times)?),
        _ => Err(RunError::Usage),
    }
}

// Runs a call of a log, with the chunk width that an argument gives.
fn run_log(
    alloc: Global,
    call: logs::Call,
    width: &str,
    bytes: u64,
    commits: u64,
    times: u64,
) -> Result<u64, RunError> {
    match width.as_bytes() {
        b"1" => Ok(logs::run::<1>(alloc, call, bytes, commits, times)?),
        b"3" => Ok(logs::run::<3>(alloc, call, bytes, commits, times)?),
        b"4" => Ok(logs::run::<4>(alloc, call, bytes, commits, times)?),
        b"8" => Ok(logs::run::<8>(alloc, call, bytes, commits, times)?),
        b"32" => Ok(logs::run::<32>(alloc, call, bytes, commits, times)?),
        _ => Err(RunError::Usage),
    }
}

// Returns the number that an argument has.
fn number(word: &str) -> Result<u64, RunError> {
    word.parse::<u64>().map_err(|_| RunError::Usage)
}

/// Runs the call that the arguments name, and returns a number that depends on its results, so that the compiler keeps the call.
pub fn run(alloc: Global, words: &[String]) -> Result<u64, RunError> {
    let (call, width, bytes, times, commits) = match words {
        [call, width, bytes, times] => (call, width, bytes, times, None),
        [call, width, bytes, times, commits] => (call, width, bytes, times, Some(commits)),
        _ => return Err(RunError::Usage),
    };
    let bytes = number(bytes.as_str())?;
    let times = number(times.as_str())?;
    if bytes > MOST_BYTES {
        return Err(RunError::Usage);
    }
    if let Some(commits) = commits {
        let commits = number(commits.as_str())?;
        if let Some(call) = logs::named(call.as_str()) {
            return run_log(alloc, call, width.as_str(), bytes, commits, times);
        }
        let call = kept::named(call.as_str()).ok_or(RunError::Usage)?;
        return run_kept(alloc, call, width.as_str(), bytes, commits, times);
    }
    if let Some(call) = historical::named(call.as_str()) {
        return run_historical(alloc, call, width.as_str(), bytes, times);
    }
    if let Some(call) = searches::named(call.as_str()) {
        return run_search(alloc, call, width.as_str(), bytes, times);
    }
    let call = named(call.as_str()).ok_or(RunError::Usage)?;
    run_call(alloc, call, width.as_str(), bytes, times)
}
