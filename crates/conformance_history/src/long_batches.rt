//! Batches of edits far apart, on bitmaps of many chunks, at five widths.
//!
//! The chunk indices have up to five digits in base 16. Each batch is compared with a dense bitmap that is edited one bit at a time.

ghost use Rattle.std.specs.Prelude.{◌<◌};
ghost use Rattle.bitmap_bytes.specs.Chunk.{IsWidth};

use crate::checked_calls::{
    commit, pending_pruned_bits, pop, prune_to_bit, push, push_chunk, set_bit,
};
use crate::checks::{equal, expect_at, ok};
use historical_bitmap::bitmap::historical::{CleanBitMap, DirtyBitMap};
use historical_bitmap::bitmap::{Prunable, Readable};
use std::alloc::{AllocError, Global};
use std::process::Abort;

// More chunks than a batch appends.
const SPARE: usize = 16;

// Pseudorandom numbers.
#[derive(Drop)]
struct Draws {
    state: u64,
}

impl Draws {
    // Returns the next number below `bound`, or 0 if `bound` is 0.
    fn below(&mut self, bound: u64) -> u64
        ensures { 0 < bound → result < bound }
    {
        self.state = self
            .state
            .wrapping_mul(6364136223846793005)
            .wrapping_add(1442695040888963407);
        // The low bits of the state have short periods.
        let high = self.state >> 20;
        if bound == 0 { 0 } else { high % bound }
    }

    // Returns the next bit.
    fn bit(&mut self) -> bool {
        self.below(2) == 1
    }
}

// What a batch should be: its bits, and for each chunk whether the batch has touched it.
#[derive(Drop)]
struct Expected<const N: usize> {
    bits: Prunable<N>,
    touched: Vec<bool>,
}

// `count` chunks that are not touched.
fn untouched(alloc: Global, count: usize) -> Result<Vec<bool>, AllocError> {
    let mut touched = Vec::new(alloc);
    for _ in 0..count {
        touched.push(false)?;
    }
    Ok(touched)
}

// A bitmap before a batch edits it.
fn unedited<const N: usize>(rt: &impl Abort, alloc: Global, bits: Prunable<N>) -> Expected<N> {
    let count = bits.chunks_len().saturating_add(SPARE);
    let touched = ok(rt, untouched(alloc, count));
    Expected { bits, touched }
}

// A copy.
fn copy<const N: usize>(rt: &impl Abort, expected: &Expected<N>) -> Expected<N> {
    Expected {
        bits: ok(rt, expected.bits.clone()),
        touched: ok(rt, expected.touched.clone()),
    }
}

// Notes that a chunk is touched.
fn touch<const N: usize>(rt: &impl Abort, expected: &mut Expected<N>, chunk: usize) {
    match expected.touched.get_mut(chunk) {
        Some(place) => *place = true,
        None => expect_at(rt, (chunk, N), false),
    }
}

// Notes that the chunk of a position is touched.
fn touch_at<const N: usize>(rt: &impl Abort, expected: &mut Expected<N>, position: u64) {
    // The prover learns the bounds of `N` from this call.
    let _ = expected.bits.len();
    touch(rt, expected, Prunable::<N>::to_chunk_index(position));
}

// The first position of a chunk.
fn start_of<const N: usize>(chunk: u64) -> u64 {
    chunk.saturating_mul(8).saturating_mul(N as u64)
}

// The bit at a position, or `None` if the position is not retained.
fn bit_at<const N: usize>(bits: &Prunable<N>, position: u64) -> Option<bool> {
    if bits.pruned_bits() <= position && position < bits.len() {
        Some(bits.get_bit(position))
    } else {
        None
    }
}

// The bytes of a chunk, or `None` if no bit of it is retained.
fn bytes_of<const N: usize>(bits: &Prunable<N>, chunk: usize) -> Option<[u8; N]> {
    let start = start_of::<N>(chunk as u64);
    if bits.pruned_bits() <= start && start < bits.len() {
        Some(*bits.get_chunk_containing(start))
    } else {
        None
    }
}

// The bit of a batch at a position, or `None` if the position is not retained.
fn pending_bit_at<const N: usize>(
    rt: &impl Abort,
    batch: &DirtyBitMap<N>,
    position: u64,
) -> Option<bool> {
    if pending_pruned_bits(rt, batch) <= position && position < batch.len() {
        Some(batch.get_bit(position))
    } else {
        None
    }
}

// The bytes of a chunk of a batch, or `None` if no bit of it is retained.
fn pending_bytes_of<const N: usize>(
    rt: &impl Abort,
    batch: &DirtyBitMap<N>,
    chunk: usize,
) -> Option<[u8; N]> {
    let start = start_of::<N>(chunk as u64);
    if pending_pruned_bits(rt, batch) <= start && start < batch.len() {
        Some(batch.get_chunk(start))
    } else {
        None
    }
}

// The bits at a position and on both sides of it.
fn check_near<const N: usize>(
    rt: &impl Abort,
    batch: &DirtyBitMap<N>,
    expected: &Expected<N>,
    position: u64,
) {
    for near in position.saturating_sub(1)..position.saturating_add(2) {
        let bit = pending_bit_at(rt, batch, near);
        expect_at(rt, ("near", near, N), bit == bit_at(&expected.bits, near));
    }
}

// Sets the bit at a retained position to `value`.
fn set<const N: usize>(
    rt: &impl Abort,
    batch: &mut DirtyBitMap<N>,
    expected: &mut Expected<N>,
    position: u64,
    value: bool,
) {
    set_bit(rt, batch, position, value);
    let bits = &mut expected.bits;
    assert!(rt; bits.pruned_bits() <= position && position < bits.len());
    bits.set_bit(position, value);
    touch_at(rt, expected, position);
    check_near(rt, batch, expected, position);
}

// Sets a random bit of a chunk to a random value, if the batch retains the chunk.
fn set_in<const N: usize>(
    rt: &impl Abort,
    batch: &mut DirtyBitMap<N>,
    expected: &mut Expected<N>,
    draws: &mut Draws,
    chunk: u64,
) {
    let start = start_of::<N>(chunk);
    if pending_pruned_bits(rt, batch) <= start && start < batch.len() {
        let end = start_of::<N>(chunk.saturating_add(1)).min(batch.len());
        let position = start.saturating_add(draws.below(end.saturating_sub(start)));
        set(rt, batch, expected, position, draws.bit());
    }
}

// A random bit of each of some chunks.
fn set_each<const N: usize>(
    rt: &impl Abort,
    batch: &mut DirtyBitMap<N>,
    expected: &mut Expected<N>,
    draws: &mut Draws,
    chunks: &[u64],
) {
    for chunk in chunks {
        set_in(rt, batch, expected, draws, *chunk);
    }
}

// `count` random chunks from `first` on and before `end`.
fn random_chunks(
    alloc: Global,
    draws: &mut Draws,
    first: u64,
    end: u64,
    count: u64,
) -> Result<Vec<u64>, AllocError> {
    let mut chunks = Vec::new(alloc);
    for _ in 0..count {
        let chunk = draws.below(end.saturating_sub(first));
        chunks.push(first.saturating_add(chunk))?;
    }
    Ok(chunks)
}

// `count` random bits of a third as many chunks. About one set in four is in the chunk of the set before it.
fn set_random<const N: usize>(
    rt: &impl Abort,
    alloc: Global,
    batch: &mut DirtyBitMap<N>,
    expected: &mut Expected<N>,
    draws: &mut Draws,
    count: u64,
) {
    let first = expected.bits.pruned_chunks() as u64;
    let end = expected.bits.chunks_len() as u64;
    let few = count / 3;
    let chunks = ok(rt, random_chunks(alloc, draws, first, end, few));
    let mut chunk = first;
    for _ in 0..count {
        if draws.below(4) > 0 {
            let at = draws.below(few) as usize;
            chunk = chunks.get(at).copied().unwrap_or(first);
        }
        set_in(rt, batch, expected, draws, chunk);
    }
}

// Appends a bit to the expected bits.
fn push_expected<const N: usize>(rt: &impl Abort, expected: &mut Expected<N>, bit: bool) {
    let bits = &mut expected.bits;
    let len = bits.len();
    assert!(rt; len < u64::MAX);
    ok(rt, bits.push(bit));
    touch_at(rt, expected, len);
}

// Removes the last of the expected bits.
fn pop_expected<const N: usize>(rt: &impl Abort, expected: &mut Expected<N>) -> bool {
    let bits = &mut expected.bits;
    assert!(rt; bits.pruned_bits() < bits.len());
    let last = bits.len() - 1;
    let bit = bits.pop();
    touch_at(rt, expected, last);
    bit
}

// Appends random bits up to length `to`.
fn grow<const N: usize>(
    rt: &impl Abort,
    batch: &mut DirtyBitMap<N>,
    expected: &mut Expected<N>,
    draws: &mut Draws,
    to: u64,
) {
    for _ in batch.len()..to {
        let bit = draws.bit();
        push(rt, batch, bit);
        push_expected(rt, expected, bit);
    }
}

// Removes bits down to length `to`.
fn shrink<const N: usize>(
    rt: &impl Abort,
    batch: &mut DirtyBitMap<N>,
    expected: &mut Expected<N>,
    to: u64,
) {
    for position in (to..batch.len()).rev() {
        let bit = pop(rt, batch);
        expect_at(
            rt,
            ("popped", position, N),
            bit == pop_expected(rt, expected),
        );
    }
}

// A chunk of random bytes.
fn random_chunk<const N: usize>(draws: &mut Draws) -> [u8; N] {
    let mut chunk = [0; N];
    for byte in chunk.iter_mut() {
        *byte = draws.below(256) as u8;
    }
    chunk
}

// Appends a chunk of random bytes.
fn append_chunk<const N: usize>(
    rt: &impl Abort,
    batch: &mut DirtyBitMap<N>,
    expected: &mut Expected<N>,
    draws: &mut Draws,
) {
    // The prover learns the bounds of `N` from this call.
    let _ = batch.len();
    let chunk = random_chunk::<N>(draws);
    push_chunk(rt, batch, &chunk);
    for bit in 0..8 * N as u64 {
        let bit = Prunable::<N>::get_bit_from_chunk(&chunk, bit);
        push_expected(rt, expected, bit);
    }
}

// Prunes each chunk before `chunk`.
fn prune<const N: usize>(
    rt: &impl Abort,
    batch: &mut DirtyBitMap<N>,
    expected: &mut Expected<N>,
    chunk: u64,
) {
    let first = expected.bits.pruned_chunks();
    let start = start_of::<N>(chunk);
    prune_to_bit(rt, batch, start);
    assert!(rt; start <= expected.bits.len());
    expected.bits.prune_to_bit(start);
    for pruned in first..expected.bits.pruned_chunks() {
        touch(rt, expected, pruned);
    }
}

// The bytes of a chunk of any readable bitmap, or `None` if no bit of it is retained.
fn chunk_at<B: Readable<N>, const N: usize>(map: &B, chunk: usize) -> Option<[u8; N]> {
    let len = map.len();
    match (8 * N as u64).checked_mul(chunk as u64) {
        Some(start) if map.pruned_chunks() <= chunk && start < len => Some(map.get_chunk(chunk)),
        _ => None,
    }
}

// Whether two bitmaps have the same chunks from `first` on and before `end`.
fn has_same_chunks<A: Readable<N>, B: Readable<N>, const N: usize>(
    map: &A,
    other: &B,
    first: usize,
    end: usize,
) -> bool {
    // The prover learns the bounds of `N` from this call.
    let _ = map.len();
    for chunk in first..end {
        if chunk_at(map, chunk) != chunk_at(other, chunk) {
            return false;
        }
    }
    true
}

// Whether two bitmaps have the same bits. Full chunks are compared by their bytes, and the bits after them by the set positions.
fn is_same<A: Readable<N>, B: Readable<N>, const N: usize>(map: &A, other: &B) -> bool {
    let (len, first, full) = (map.len(), map.pruned_chunks(), map.complete_chunks());
    let rest = start_of::<N>(full as u64);
    len == other.len()
        && first == other.pruned_chunks()
        && has_same_chunks(map, other, first, full)
        && map
            .ones_iter_range(rest..len)
            .eq(other.ones_iter_range(rest..len))
}

// Each bit of a chunk of a batch.
fn check_bits<const N: usize>(
    rt: &impl Abort,
    batch: &DirtyBitMap<N>,
    expected: &Expected<N>,
    chunk: usize,
) {
    let start = start_of::<N>(chunk as u64);
    for position in start..start_of::<N>((chunk as u64).saturating_add(1)) {
        let bit = pending_bit_at(rt, batch, position);
        let same = bit == bit_at(&expected.bits, position);
        expect_at(rt, ("bit", position, N), same);
    }
}

// The bits and the bytes of each touched chunk.
fn check_touched<const N: usize>(rt: &impl Abort, batch: &DirtyBitMap<N>, expected: &Expected<N>) {
    for (chunk, touched) in expected.touched.iter().enumerate() {
        if *touched {
            check_bits(rt, batch, expected, chunk);
            let _ = batch.len();
            let bytes = pending_bytes_of(rt, batch, chunk);
            let same = bytes == bytes_of(&expected.bits, chunk);
            expect_at(rt, ("touched", chunk, N), same);
        }
    }
}

// All chunks of a batch, and each bit of the touched chunks.
fn check_pending<const N: usize>(rt: &impl Abort, batch: &DirtyBitMap<N>, expected: &Expected<N>) {
    expect_at(rt, ("pending", N), is_same(batch, &expected.bits));
    check_touched(rt, batch, expected);
}

// Whether a chunk is retained in one of two bitmaps alone, or its bytes differ.
fn differs<const N: usize>(before: &Prunable<N>, after: &Prunable<N>, chunk: usize) -> bool {
    // The prover learns the bounds of `N` from this call.
    let _ = before.len();
    bytes_of(before, chunk) != bytes_of(after, chunk)
}

// The chunks in which two bitmaps differ, ascending.
fn changed<const N: usize>(
    alloc: Global,
    before: &Prunable<N>,
    after: &Prunable<N>,
) -> Result<Vec<usize>, AllocError> {
    let end = before.chunks_len().max(after.chunks_len());
    (0..end)
        .filter(|chunk| differs(before, after, *chunk))
        .collect(alloc)
}

// A clone that is edited further leaves the batch as it is.
fn check_clone<const N: usize>(
    rt: &impl Abort,
    alloc: Global,
    batch: &DirtyBitMap<N>,
    after: &Expected<N>,
    draws: &mut Draws,
) {
    let mut clone = ok(rt, batch.clone());
    let mut expected = copy(rt, after);
    check_pending(rt, &clone, &expected);
    set_random(rt, alloc, &mut clone, &mut expected, draws, 90);
    let end = clone.len().saturating_sub(start_of::<N>(2));
    shrink(rt, &mut clone, &mut expected, end);
    check_pending(rt, &clone, &expected);
    check_pending(rt, batch, after);
}

// The bitmap at a commit, read in place and rebuilt.
fn check_state<const N: usize>(
    rt: &impl Abort,
    map: &CleanBitMap<N>,
    number: u64,
    bits: &Prunable<N>,
) {
    match (map.at(number), ok(rt, map.get_at_commit(number))) {
        (Some(then), Some(old)) => {
            expect_at(rt, ("at", number, N), is_same(&then, bits));
            expect_at(rt, ("rebuilt", number, N), is_same(&old, bits));
        }
        _ => expect_at(rt, ("kept", number, N), false),
    }
}

// The records have one entry per touched chunk, all of them in the record of commit 2.
fn check_entries<const N: usize>(rt: &impl Abort, map: &CleanBitMap<N>, after: &Expected<N>) {
    let touched = after.touched.iter().filter(|it| **it).count();
    equal(rt, map.reverse_entries(), touched as u128);
}

// The chunks that a batch changes, the clone of the batch, and the bitmaps after an abort and after a commit.
fn check_batch<const N: usize>(
    rt: &impl Abort,
    alloc: Global,
    batch: DirtyBitMap<N>,
    before: &Expected<N>,
    after: &Expected<N>,
    draws: &mut Draws,
) {
    let changed = ok(rt, changed(alloc, &before.bits, &after.bits));
    let changed = changed.as_slice();
    check_pending(rt, &batch, after);
    expect_at(
        rt,
        ("changed", N),
        batch.changed_chunks().eq(changed.iter().copied()),
    );
    check_clone(rt, alloc, &batch, after, draws);
    let map = ok(rt, batch.clone()).abort();
    expect_at(rt, ("aborted", N), is_same(map.current(), &before.bits));
    let map = commit(rt, batch, 2);
    expect_at(rt, ("current", N), is_same(map.current(), &after.bits));
    check_state(rt, &map, 1, &before.bits);
    check_state(rt, &map, 2, &after.bits);
    check_entries(rt, &map, after);
    match map.changed_chunks(1, 2) {
        Some(changes) => expect_at(rt, ("changes", N), changes.eq(changed.iter().copied())),
        None => expect_at(rt, ("changes", N), false),
    }
}

// `count` chunks of random bytes, and five zeros.
fn random_bits<const N: usize>(
    rt: &impl Abort,
    alloc: Global,
    draws: &mut Draws,
    count: usize,
) -> Prunable<N>
    requires { IsWidth N }
{
    let mut bits = Prunable::<N>::new(alloc);
    for _ in 0..count {
        assert!(rt; bits.is_chunk_aligned() && u64::MAX - bits.len() >= 8 * N as u64);
        ok(rt, bits.push_chunk(&random_chunk::<N>(draws)));
    }
    let end = bits.len().saturating_add(5);
    ok(rt, bits.extend_to(end));
    bits
}

// Whether a chunk is the last of `count`, or its index and that of another such chunk differ in one digit of base 16.
fn is_far(chunk: u64, count: u64) -> bool {
    match chunk {
        0 | 1 | 15..18 | 255..258 | 4095..4098 | 65535..65538 => true,
        // 16 chunks that differ in the lowest digit, and those that differ above the third digit.
        _ => chunk / 16 == 0xab || chunk % 4096 == 0x1bc || chunk.saturating_add(1) == count,
    }
}

// The chunks from the first to the last, and between them.
fn far_chunks(alloc: Global, count: u64) -> Result<Vec<u64>, AllocError> {
    (0..count)
        .filter(|chunk| is_far(*chunk, count))
        .collect(alloc)
}

// The same from the last to the first.
fn descending(alloc: Global, chunks: &[u64]) -> Result<Vec<u64>, AllocError> {
    chunks.iter().rev().copied().collect(alloc)
}

// The same from both ends in turn.
fn mixed(alloc: Global, chunks: &[u64]) -> Result<Vec<u64>, AllocError> {
    let mut mixed = Vec::new(alloc);
    for at in 0..chunks.len() {
        let half = at / 2;
        let next = if at % 2 == 0 {
            half
        } else {
            chunks.len() - 1 - half
        };
        mixed.push(chunks[next])?;
    }
    Ok(mixed)
}

// A batch that sets 1500 random bits.
fn check_random<const N: usize>(
    rt: &impl Abort,
    alloc: Global,
    map: CleanBitMap<N>,
    before: &Expected<N>,
    draws: &mut Draws,
) {
    let mut batch = map.into_dirty();
    let mut after = copy(rt, before);
    set_random(rt, alloc, &mut batch, &mut after, draws, 1500);
    check_batch(rt, alloc, batch, before, &after, draws);
}

// A batch that sets a bit of each of some chunks, and then another bit of each, in the order given.
fn check_each<const N: usize>(
    rt: &impl Abort,
    alloc: Global,
    map: CleanBitMap<N>,
    before: &Expected<N>,
    draws: &mut Draws,
    chunks: &[u64],
) {
    let mut batch = map.into_dirty();
    let mut after = copy(rt, before);
    set_each(rt, &mut batch, &mut after, draws, chunks);
    check_pending(rt, &batch, &after);
    set_each(rt, &mut batch, &mut after, draws, chunks);
    check_batch(rt, alloc, batch, before, &after, draws);
}

// A batch of all edits. It removes the bits from chunk `kept` on, of which some chunks are edited, and appends more than these.
// Last it prunes chunks, of which some are edited.
fn check_all_edits<const N: usize>(
    rt: &impl Abort,
    alloc: Global,
    map: CleanBitMap<N>,
    before: &Expected<N>,
    draws: &mut Draws,
    chunks: &[u64],
    kept: u64,
) {
    let len = map.len();
    let mut batch = map.into_dirty();
    let mut after = copy(rt, before);
    set_each(rt, &mut batch, &mut after, draws, chunks);
    set_random(rt, alloc, &mut batch, &mut after, draws, 300);
    let kept = start_of::<N>(kept).saturating_add(3);
    shrink(rt, &mut batch, &mut after, kept);
    // A batch that is shorter than the bitmap keeps nothing of the removed chunks.
    check_batch(rt, alloc, ok(rt, batch.clone()), before, &after, draws);
    set_each(rt, &mut batch, &mut after, draws, chunks);
    grow(rt, &mut batch, &mut after, draws, len.saturating_add(99));
    append_chunk(rt, &mut batch, &mut after, draws);
    set_each(rt, &mut batch, &mut after, draws, chunks);
    set_random(rt, alloc, &mut batch, &mut after, draws, 300);
    check_pending(rt, &batch, &after);
    prune(rt, &mut batch, &mut after, 257);
    set_each(rt, &mut batch, &mut after, draws, chunks);
    check_batch(rt, alloc, batch, before, &after, draws);
}

// Each batch, on a bitmap of `count` chunks. The batch of all edits pops down to chunk `kept`.
fn check_width<const N: usize>(rt: &impl Abort, alloc: Global, count: usize, kept: u64)
    requires { IsWidth N }
{
    let mut draws = Draws { state: N as u64 };
    let bits = random_bits::<N>(rt, alloc, &mut draws, count);
    let before = unedited(rt, alloc, ok(rt, bits.clone()));
    // The record of commit 1 has no entries.
    let map = commit(rt, CleanBitMap::from_bitmap(alloc, bits).into_dirty(), 1);
    let far = ok(rt, far_chunks(alloc, before.bits.chunks_len() as u64));
    let back = ok(rt, descending(alloc, far.as_slice()));
    let mixed = ok(rt, mixed(alloc, far.as_slice()));
    check_random(rt, alloc, ok(rt, map.clone()), &before, &mut draws);
    for chunks in [far.as_slice(), back.as_slice(), mixed.as_slice()] {
        let map = ok(rt, map.clone());
        check_each(rt, alloc, map, &before, &mut draws, chunks);
    }
    let mixed = mixed.as_slice();
    check_all_edits(rt, alloc, map, &before, &mut draws, mixed, kept);
}

#[test]
fn chunks_of_1(rt: HostRuntime) {
    check_width::<1>(&rt, rt.alloc(), 70000, 65530);
}

#[test]
fn chunks_of_3(rt: HostRuntime) {
    check_width::<3>(&rt, rt.alloc(), 70000, 65530);
}

#[test]
fn chunks_of_8(rt: HostRuntime) {
    check_width::<8>(&rt, rt.alloc(), 5000, 4090);
}

#[test]
fn chunks_of_32(rt: HostRuntime) {
    check_width::<32>(&rt, rt.alloc(), 5000, 4090);
}

#[test]
fn chunks_of_64(rt: HostRuntime) {
    check_width::<64>(&rt, rt.alloc(), 5000, 4090);
}
