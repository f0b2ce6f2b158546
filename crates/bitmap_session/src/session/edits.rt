//! Edits of many bits at once, and reads of the pending bitmap in place.
//!
//! None of these calls is a command. An accepted call makes edits of one bit each, one after another, as the commands `Push`,
//! `Pop` and `Set` do. So it is a run of these commands, by the law `edits_are_a_run` of `laws`.

ghost use Rattle.std.specs.Prelude.{◌≡◌, ◌<◌, ◌≤◌, length, IfErr, OnOk, option_copied};
ghost use Rattle.std.specs.Option.{option_map};
ghost use Rattle.bitmap_core.specs.PrunedBits as spec;
ghost use Rattle.bitmap_core.specs.PrunedBits.{IsRetainedChunk, bit_len};
ghost use Rattle.historical_bitmap.specs.View.{pending_of};
ghost use Rattle.bitmap_session.specs.Abstraction.{dirty, reason};
ghost use Rattle.bitmap_session.specs.Edits.{EditsTo, appends_bits, lengthens, reason_in, set_steps, sets_chunk, sets_range, shortens, stopped_steps, wants_chunk, wants_length, wants_range};
ghost use Rattle.bitmap_session.specs.Laws.{StepsOn};
ghost use Rattle.bitmap_session.specs.Machine.{first};

use crate::reply::{Refusal, Reply};
use crate::session::dirty::{has_space, pruned_bits};
use crate::session::{Session, State};
use bitmap_core::bitmap::BitMap;
use bitmap_core::chunk::chunk_count;
use historical_bitmap::bitmap::historical::DirtyBitMap;
use std::alloc::Global;

// Checks that the chunk at an absolute index has a retained bit.
fn check_chunk<const N: usize>(bitmap: &DirtyBitMap<N>, index: usize) -> Result<(), Refusal>
    ensures why { reason_in result ≡ first (wants_chunk N (dirty N bitmap.now).state index) }
    ensures retained { OnOk result (IsRetainedChunk N (pending_of N bitmap.now) index) }
{
    if index >= chunk_count::<N>(bitmap.len()) {
        return Err(Refusal::OutOfBounds);
    }
    if index < bitmap.pruned_chunks() {
        return Err(Refusal::Pruned);
    }
    Ok(())
}

fn set_chunk<const N: usize>(
    bitmap: &mut DirtyBitMap<N>,
    index: usize,
    bytes: &[u8; N],
) -> Result<(), Refusal>
    ensures { EditsTo N (dirty N bitmap.old) (sets_chunk N index bytes.now)
        (reason_in result) (dirty N bitmap.new) }
{
    check_chunk(bitmap, index)?;
    bitmap.try_set_chunk(index, bytes)?;
    Ok(())
}

// Checks that each position of a range is retained. The range is not empty.
fn check_range<const N: usize>(bitmap: &DirtyBitMap<N>, start: u64, end: u64) -> Result<(), Refusal>
    requires some { start < end }
    ensures why { reason_in result ≡ first (wants_range N (dirty N bitmap.now).state start end) }
    ensures from { OnOk result (spec.pruned_bits N (pending_of N bitmap.now) ≤ start) }
    ensures to { OnOk result (end ≤ bit_len N (pending_of N bitmap.now)) }
{
    if end > bitmap.len() {
        return Err(Refusal::OutOfBounds);
    }
    if start < pruned_bits(bitmap) {
        return Err(Refusal::Pruned);
    }
    Ok(())
}

fn set_range<const N: usize>(
    bitmap: &mut DirtyBitMap<N>,
    start: u64,
    end: u64,
    value: bool,
) -> Result<(), Refusal>
    ensures { EditsTo N (dirty N bitmap.old) (sets_range N start end value)
        (reason_in result) (dirty N bitmap.new) }
{
    if start >= end {
        return Ok(());
    }
    check_range(bitmap, start, end)?;
    bitmap.try_set_range(start..end, value)?;
    Ok(())
}

// Checks that a bitmap can be shortened to a length.
fn check_length<const N: usize>(bitmap: &DirtyBitMap<N>, len: u64) -> Result<(), Refusal>
    ensures why { reason_in result ≡ first (wants_length N (dirty N bitmap.now).state len) }
    ensures from { OnOk result (spec.pruned_bits N (pending_of N bitmap.now) ≤ len) }
    ensures to { OnOk result (len ≤ bit_len N (pending_of N bitmap.now)) }
{
    if len > bitmap.len() {
        return Err(Refusal::OutOfBounds);
    }
    if len < pruned_bits(bitmap) {
        return Err(Refusal::Pruned);
    }
    Ok(())
}

fn truncate<const N: usize>(bitmap: &mut DirtyBitMap<N>, len: u64) -> Result<(), Refusal>
    ensures { EditsTo N (dirty N bitmap.old) (shortens N len)
        (reason_in result) (dirty N bitmap.new) }
{
    check_length(bitmap, len)?;
    bitmap.truncate(len);
    Ok(())
}

fn extend_to<const N: usize>(bitmap: &mut DirtyBitMap<N>, len: u64) -> Result<(), Refusal>
    ensures { EditsTo N (dirty N bitmap.old) (lengthens N len)
        (reason_in result) (dirty N bitmap.new) }
{
    bitmap.try_extend_to(len)?;
    Ok(())
}

fn push_bits<const N: usize>(
    bitmap: &mut DirtyBitMap<N>,
    alloc: Global,
    bits: &[bool],
) -> Result<(), Refusal>
    ensures { EditsTo N (dirty N bitmap.old) (appends_bits N bits.now)
        (reason_in result) (dirty N bitmap.new) }
{
    if !has_space(bitmap, bits.len() as u64) {
        return Err(Refusal::TooLong);
    }
    // The call shows the prover that 8 * N fits u64.
    let _ = bitmap.len();
    let appended = BitMap::from_bools(alloc, bits)?;
    bitmap.try_extend_from_bitmap(&appended)?;
    Ok(())
}

impl<const N: usize> Session<N> {
    /// Returns the pending bitmap, to be read in place, or `None` outside a batch.
    ///
    /// The trait `Readable` has its searches, counts and iterators.
    ///
    /// # Memory
    ///
    /// Does not allocate.
    ///
    /// # Complexity
    ///
    /// Constant.
    pub fn pending(&self) -> Option<&DirtyBitMap<N>>
        ensures { option_map (pending_of N) (option_copied result) ≡ self.now.state.pending }
    {
        match &self.state {
            State::Dirty(bitmap) => Some(bitmap),
            State::Clean(_) => None,
        }
    }

    /// Replaces the bits of the chunk at an absolute index of the pending bitmap by those of `bytes`.
    ///
    /// The lowest bit of the first byte is the first bit of the chunk. Bits of `bytes` past the pending length are ignored.
    ///
    /// # Errors
    ///
    /// Returns the first reason that applies, and leaves the session unchanged:
    ///
    /// - `WrongMode` outside a batch;
    /// - `OutOfBounds` if no bit of the chunk is below the length;
    /// - `Pruned` if the chunk is pruned;
    /// - `NoMemory` if an allocation fails.
    ///
    /// # Memory
    ///
    /// Allocates as `try_set_chunk` of `DirtyBitMap`.
    ///
    /// # Complexity
    ///
    /// As `try_set_chunk`.
    pub fn set_chunk(&mut self, index: usize, bytes: &[u8; N]) -> Result<(), Refusal>
        ensures { EditsTo N self.old (sets_chunk N index bytes.now) (reason_in result) self.new }
    {
        match &mut self.state {
            State::Dirty(bitmap) => set_chunk(bitmap, index, bytes),
            State::Clean(_) => Err(Refusal::WrongMode),
        }
    }

    /// Sets each bit of the pending bitmap at a position from `start` up to, but not including, `end` to `value`.
    ///
    /// Positions are absolute. If `end` is not above `start`, nothing changes.
    ///
    /// # Errors
    ///
    /// Returns the first reason that applies, and leaves the session unchanged:
    ///
    /// - `WrongMode` outside a batch;
    /// - `OutOfBounds` if `end` is above the length, and `start` is below `end`;
    /// - `Pruned` if the bit at `start` is pruned, and `start` is below `end`;
    /// - `NoMemory` if an allocation fails.
    ///
    /// # Memory
    ///
    /// Allocates as `try_set_range` of `DirtyBitMap`. If `end` is not above `start`, does not allocate.
    ///
    /// # Complexity
    ///
    /// As `try_set_range`.
    pub fn set_range(&mut self, start: u64, end: u64, value: bool) -> Result<(), Refusal>
        ensures { EditsTo N self.old (sets_range N start end value) (reason_in result) self.new }
    {
        match &mut self.state {
            State::Dirty(bitmap) => set_range(bitmap, start, end, value),
            State::Clean(_) => Err(Refusal::WrongMode),
        }
    }

    /// Shortens the pending bitmap to a length of `len` bits. Pruned bits count.
    ///
    /// # Errors
    ///
    /// Returns the first reason that applies, and leaves the session unchanged:
    ///
    /// - `WrongMode` outside a batch;
    /// - `OutOfBounds` if `len` is above the length;
    /// - `Pruned` if `len` is below the number of pruned bits.
    ///
    /// # Memory
    ///
    /// Does not allocate.
    ///
    /// # Complexity
    ///
    /// As `truncate` of `DirtyBitMap`.
    pub fn truncate(&mut self, len: u64) -> Result<(), Refusal>
        ensures { EditsTo N self.old (shortens N len) (reason_in result) self.new }
    {
        match &mut self.state {
            State::Dirty(bitmap) => truncate(bitmap, len),
            State::Clean(_) => Err(Refusal::WrongMode),
        }
    }

    /// Appends zeros to the pending bitmap up to a length of `len` bits. Pruned bits count.
    ///
    /// If the pending bitmap has that length or more, nothing changes.
    ///
    /// # Errors
    ///
    /// Returns the first reason that applies, and leaves the session unchanged:
    ///
    /// - `WrongMode` outside a batch;
    /// - `NoMemory` if an allocation fails.
    ///
    /// # Memory
    ///
    /// Allocates as `try_extend_to` of `DirtyBitMap`. If the pending bitmap has that length or more, does not allocate.
    ///
    /// # Complexity
    ///
    /// As `try_extend_to`.
    pub fn extend_to(&mut self, len: u64) -> Result<(), Refusal>
        ensures { EditsTo N self.old (lengthens N len) (reason_in result) self.new }
    {
        match &mut self.state {
            State::Dirty(bitmap) => extend_to(bitmap, len),
            State::Clean(_) => Err(Refusal::WrongMode),
        }
    }

    /// Appends bits to the pending bitmap, in order: all of them, or none.
    ///
    /// # Errors
    ///
    /// Returns the first reason that applies, and leaves the session unchanged:
    ///
    /// - `WrongMode` outside a batch;
    /// - `TooLong` if the length would not fit `u64`;
    /// - `NoMemory` if an allocation fails.
    ///
    /// # Memory
    ///
    /// Allocates a dense bitmap of the bits, which it frees before it returns, and as `try_extend_from_bitmap` of `DirtyBitMap`.
    /// Without bits, does not allocate.
    ///
    /// # Complexity
    ///
    /// Linear in the bits, and as `try_extend_from_bitmap`.
    pub fn push_bits(&mut self, bits: &[bool]) -> Result<(), Refusal>
        ensures { EditsTo N self.old (appends_bits N bits.now) (reason_in result) self.new }
    {
        let alloc = self.alloc;
        match &mut self.state {
            State::Dirty(bitmap) => push_bits(bitmap, alloc, bits),
            State::Clean(_) => Err(Refusal::WrongMode),
        }
    }

    /// Sets the bit at each position of the pending bitmap to `value`, in order, up to the first position that is refused.
    ///
    /// Positions are absolute. Without positions it succeeds, also outside a batch.
    ///
    /// # Errors
    ///
    /// Returns the number of positions before the one that is refused, and the refusal of `set` for it. The bits at the positions
    /// before it are set, and those from it on are not.
    ///
    /// # Memory
    ///
    /// Allocates as `set` for each position.
    ///
    /// # Complexity
    ///
    /// Linear in the positions, each as `set`.
    pub fn set_many(&mut self, positions: &[u64], value: bool) -> Result<(), (usize, Refusal)>
        ensures all { OnOk result (StepsOn N self.old (set_steps N positions.now value) self.new) }
        ensures count { IfErr result (λ e. e.0 < length positions.now) }
        ensures stopped { IfErr result (λ e. StepsOn N self.old
            (stopped_steps N positions.now value e.0 (reason e.1)) self.new) }
    {
        // The prover learns the bound of the width from this use.
        let _ = &self.state;
        for i in 0..positions.len() {
            if let Reply::Refused(refusal) = self.set(positions[i], value) {
                return Err((i, refusal));
            }
        }
        Ok(())
    }
}
