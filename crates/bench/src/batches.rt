//! Batches of edits of a historical bitmap.

ghost use Rattle.std.specs.Prelude.{◌*◌, ◌^◌, ◌<◌};

use historical_bitmap::bitmap::Readable;
use historical_bitmap::bitmap::historical::{CleanBitMap, DirtyBitMap};
use std::alloc::{AllocError, Global};

/// The number of edits in a batch, unless it only appends.
pub const SETS: u64 = 1000;

// The number of edits in a batch that only appends.
const PUSHES: u64 = 4096;

// The number of chunks that a batch appends and prunes.
const SLID: u64 = 100;

// Lengths stay far below `u64::MAX`.
const MOST_BITS: u64 = 1 << 40;

/// The edits of a batch.
#[derive(Clone, Copy)]
pub enum Edits {
    /// No edit.
    Nothing,
    /// Random bits are set.
    SetFar,
    /// Bits of the first chunk are set.
    SetNear,
    /// Bits are appended.
    Push,
    /// Bytes are appended.
    PushByte,
    /// Chunks are appended.
    PushChunk,
    /// The last bits are removed.
    Pop,
    /// Bits are appended, and then removed.
    PushPop,
    /// Bits are set, appended, removed and read, at random.
    Mixed,
    /// Chunks are appended, and as many are pruned.
    Slide,
}

/// Pseudorandom positions.
#[derive(Clone, Copy)]
pub struct Positions {
    state: u64,
}

impl Positions {
    /// Returns the sequence of a seed.
    pub fn from_seed(seed: u64) -> Positions {
        Positions { state: seed }
    }

    /// Returns the next position, below `2^44`.
    pub fn step(&mut self) -> u64 {
        self.state = self
            .state
            .wrapping_mul(6364136223846793005)
            .wrapping_add(1442695040888963407);
        self.state >> 20
    }
}

/// Sets a bit, if it is retained.
pub fn set_one<const N: usize>(
    batch: &mut DirtyBitMap<N>,
    position: u64,
    value: bool,
) -> Result<(), AllocError> {
    if batch.pruned_chunks() == 0 && position < batch.len() {
        batch.set_bit(position, value)?;
    }
    Ok(())
}

// Returns a bit as a number, or 0 if the bit is not retained.
fn read_one<const N: usize>(batch: &DirtyBitMap<N>, position: u64) -> u64 {
    if batch.pruned_chunks() == 0 && position < batch.len() {
        return u64::from(batch.get_bit(position));
    }
    0
}

/// Returns a random bit of a batch as a number, or 0 if the bit is not retained.
pub fn read_random<const N: usize>(batch: &DirtyBitMap<N>, positions: &mut Positions) -> u64 {
    let bits = batch.len().max(1);
    read_one(batch, positions.step() % bits)
}

/// Returns the first byte of a random chunk of a batch, or 0 if the chunk is not retained.
pub fn read_random_chunk<const N: usize>(batch: &DirtyBitMap<N>, positions: &mut Positions) -> u64 {
    let bits = batch.len().max(1);
    let position = positions.step() % bits;
    if batch.pruned_chunks() == 0 && position < batch.len() {
        return u64::from(batch.get_chunk(position)[0]);
    }
    0
}

/// Returns how many of `count` random bits of a bitmap are set.
pub fn count_random<B: Readable<N>, const N: usize>(
    found: &B,
    positions: &mut Positions,
    count: u64,
) -> u64 {
    let first = found.pruned_bits();
    let bits = found.len();
    let mut sum: u64 = 0;
    for _ in 0..count {
        let position = positions.step() % bits.max(1);
        if position >= first && position < bits {
            sum = sum.wrapping_add(u64::from(found.get_bit(position)));
        }
    }
    sum
}

// Removes the last bit, if nothing is pruned, and returns it as a number.
fn pop_one<const N: usize>(batch: &mut DirtyBitMap<N>) -> u64 {
    if batch.pruned_chunks() == 0 && batch.len() > 0 {
        return u64::from(batch.pop());
    }
    0
}

// Appends a bit, if there is space.
fn push_one<const N: usize>(batch: &mut DirtyBitMap<N>, value: bool) -> Result<(), AllocError> {
    if batch.len() < MOST_BITS {
        batch.push(value)?;
    }
    Ok(())
}

// Appends a chunk, if there is space.
fn push_one_chunk<const N: usize>(batch: &mut DirtyBitMap<N>) -> Result<(), AllocError> {
    let bits = batch.len();
    if bits < u64::MAX - 8 * N as u64 {
        batch.push_chunk(&[105; N])?;
    }
    Ok(())
}

// Sets bits at random positions.
fn set_far<const N: usize>(
    batch: &mut DirtyBitMap<N>,
    positions: &mut Positions,
) -> Result<(), AllocError> {
    let bits = batch.len().max(1);
    for edit in 0..SETS {
        set_one(batch, positions.step() % bits, edit % 2 == 0)?;
    }
    Ok(())
}

// Sets bits of the first chunk.
fn set_near<const N: usize>(batch: &mut DirtyBitMap<N>) -> Result<(), AllocError> {
    for edit in 0..SETS {
        set_one(batch, edit % 8, edit % 3 == 0)?;
    }
    Ok(())
}

// Appends bits, one by one.
fn push_bits<const N: usize>(batch: &mut DirtyBitMap<N>) -> Result<(), AllocError> {
    for edit in 0..PUSHES {
        push_one(batch, edit % 3 == 0)?;
    }
    Ok(())
}

// Appends bytes, one by one, at an odd length.
fn push_bytes<const N: usize>(batch: &mut DirtyBitMap<N>) -> Result<(), AllocError> {
    push_one(batch, true)?;
    for edit in 0..PUSHES {
        if batch.len() < MOST_BITS {
            batch.push_byte((edit % 256) as u8)?;
        }
    }
    Ok(())
}

// Appends chunks, one by one, at an odd length.
fn push_chunks<const N: usize>(batch: &mut DirtyBitMap<N>) -> Result<(), AllocError> {
    push_one(batch, true)?;
    for _ in 0..PUSHES {
        push_one_chunk(batch)?;
    }
    Ok(())
}

// Removes bits, one by one, and returns how many were set.
fn pop_bits<const N: usize>(batch: &mut DirtyBitMap<N>) -> u64 {
    let mut sum: u64 = 0;
    for _ in 0..SETS {
        sum = sum.wrapping_add(pop_one(batch));
    }
    sum
}

// Appends bits and removes as many, one by one, and returns how many of these were set.
fn push_and_pop<const N: usize>(batch: &mut DirtyBitMap<N>) -> Result<u64, AllocError> {
    for edit in 0..SETS {
        push_one(batch, edit % 3 == 0)?;
    }
    Ok(pop_bits(batch))
}

// Makes a random edit, or reads a random bit. Returns the bit that it removes or reads as a number.
fn edit_or_read<const N: usize>(batch: &mut DirtyBitMap<N>, drawn: u64) -> Result<u64, AllocError> {
    let kind = drawn % 8;
    let value = drawn & 8 == 8;
    let position = drawn / 16 % batch.len().max(1);
    if kind < 3 {
        set_one(batch, position, value)?;
    } else if kind < 5 {
        push_one(batch, value)?;
    } else if kind < 7 {
        return Ok(pop_one(batch));
    } else {
        return Ok(read_one(batch, position));
    }
    Ok(0)
}

// Sets, appends, removes and reads bits at random, and returns how many of the bits that it removes or reads are set.
fn mix<const N: usize>(
    batch: &mut DirtyBitMap<N>,
    positions: &mut Positions,
) -> Result<u64, AllocError> {
    let mut sum: u64 = 0;
    for _ in 0..SETS {
        sum = sum.wrapping_add(edit_or_read(batch, positions.step())?);
    }
    Ok(sum)
}

// Appends chunks, and prunes as many.
fn slide<const N: usize>(batch: &mut DirtyBitMap<N>) -> Result<(), AllocError> {
    for _ in 0..SLID {
        push_one_chunk(batch)?;
    }
    let bits = batch.len();
    let chunks = (batch.pruned_chunks() as u64).wrapping_add(SLID);
    let end = chunks.wrapping_mul(8 * N as u64);
    if end <= bits {
        batch.prune_to_bit(end)?;
    }
    Ok(())
}

/// Makes the edits of a batch, and returns how many of the bits that they remove or read are set.
pub fn edit<const N: usize>(
    batch: &mut DirtyBitMap<N>,
    edits: Edits,
    positions: &mut Positions,
) -> Result<u64, AllocError> {
    match edits {
        Edits::Nothing => {}
        Edits::SetFar => set_far(batch, positions)?,
        Edits::SetNear => set_near(batch)?,
        Edits::Push => push_bits(batch)?,
        Edits::PushByte => push_bytes(batch)?,
        Edits::PushChunk => push_chunks(batch)?,
        Edits::Pop => return Ok(pop_bits(batch)),
        Edits::PushPop => return push_and_pop(batch),
        Edits::Mixed => return mix(batch, positions),
        Edits::Slide => slide(batch)?,
    }
    Ok(0)
}

/// Returns a bitmap with one commit, of the whole chunks that `bytes` bytes fill.
pub fn filled<const N: usize>(alloc: Global, bytes: u64) -> Result<CleanBitMap<N>, AllocError>
    requires positive { 0 < N }
    requires fits { 8 * N < 2 ^ 64 }
{
    let mut batch = CleanBitMap::<N>::new(alloc).into_dirty();
    for _ in 0..bytes / N as u64 {
        push_one_chunk(&mut batch)?;
    }
    batch.commit(0).map_err(|_| AllocError)
}
