//! Rewinding in place: the current bitmap becomes the bitmap at a past commit, in time that depends on the entries of the later records.

ghost use Rattle.std.specs.Prelude.{◌≡◌, ℕ, ◌-◌, ◌*◌, ◌≤◌, ◌∷◌, [], drop, IfOk, IsOk, MatchOption, OnOk, OnErr, length, nat_eq};
ghost use Rattle.std.specs.List.Sorted.{IsStrictlySortedBy};
ghost use Rattle.std.specs.Map.{keys_of, lookup};
ghost use Rattle.std.specs.Ordering.{nat_cmp};
ghost use Rattle.bitmap_bytes.specs.Chunk.{IsWidth};
ghost use Rattle.bitmap_core.specs.PrunedBits.{bit_len, IsRetainedChunk};
ghost use Rattle.historical_bitmap.specs.History.{AllCanUndo, EntriesRise, first_kept, IsLeftBy, left_by, past_number};
ghost use Rattle.historical_bitmap.specs.Record.{bytes_of};
ghost use Rattle.historical_bitmap.specs.Rewind.{Gathers, HasExtent, IsWrittenBack};
ghost use Rattle.historical_bitmap.specs.Stored.{diff_value, entry_values};

use crate::bitmap::historical::apply::{grow, shrink_back};
use crate::bitmap::historical::commit_list::CommitList;
use crate::bitmap::historical::cut_chunks::cut;
use crate::bitmap::historical::record::ChunkDiff;
use bitmap_core::bitmap::Prunable;
use bitmap_core::chunk::{chunk_count, chunk_width};
use chunk_map::map::ChunkMap;
use std::alloc::{AllocError, Global};

// Turns the current bitmap into the one that the last commit up to a number left, of the given length and pruned count.
//
// Allocates temporarily a map with the old bytes of each chunk that is restored, and the chunks of the past bitmap pruned since; and the
// chunks by which the bitmap grows, if there is no capacity for them. If an allocation fails, the bitmap is unchanged.
pub(crate) fn rewind<const N: usize>(
    current: &mut Prunable<N>,
    commits: &CommitList<N>,
    number: u64,
    len: u64,
    pruned: usize,
    alloc: Global,
) -> Result<(), AllocError>
    requires undo { AllCanUndo N (past_number number commits.now) current.old }
    requires extent { IsLeftBy N number commits.now current.old len pruned }
    ensures ok { OnOk result (current.new ≡ left_by N number commits.now current.old) }
    ensures err { OnErr result (current.new ≡ current.old) }
{
    let _ = current.len();
    let past = commits.past(number);
    let chunks = gather(alloc, commits, past, pruned, chunk_count::<N>(len))?;
    restore_extent(current, pruned, len, alloc)?;
    write_back(current, &chunks);
    Ok(())
}

// Returns the old bytes of each chunk from index `first` up to `end`, from the first record from
// position `past` on that keeps any. Visits the newest record first, so that older bytes replace
// newer ones. Allocates for each chunk that it returns, and for no other entry.
pub(crate) fn gather<const N: usize>(
    alloc: Global,
    commits: &CommitList<N>,
    past: usize,
    first: usize,
    end: usize,
) -> Result<ChunkMap<N>, AllocError>
    requires width { IsWidth N }
    requires rise { EntriesRise (drop past commits.now) }
    ensures ok { IfOk result (λ chunks.
        Gathers (first_kept (drop past commits.now)) first end [] chunks.entries) }
    ensures none { drop past commits.now ≡ [] → IsOk result }
{
    let mut chunks = ChunkMap::new(alloc);
    let mut position = commits.len();
    while past < position {
        position -= 1;
        let (_, record) = commits.commit(position);
        gather_record(&mut chunks, record.chunk_diffs(), first, end)?;
    }
    Ok(chunks)
}

// Inserts the old bytes in ascending entries of each chunk from index `first` up to `end`. They replace those that are there.
fn gather_record<const N: usize>(
    chunks: &mut ChunkMap<N>,
    entries: &[(usize, ChunkDiff<N>)],
    first: usize,
    end: usize,
) -> Result<(), AllocError>
    requires { IsStrictlySortedBy nat_cmp (keys_of (entry_values entries.now)) }
    ensures { OnOk result (Gathers
        (λ i. bytes_of (lookup (nat_eq i) (entry_values entries.now))) first end chunks.old.entries
        chunks.new.entries) }
{
    for entry in entries {
        gather_entry(chunks, entry.0, &entry.1, first, end)?;
    }
    Ok(())
}

// Inserts the old bytes in the entry of a chunk, if it has any and the index is from `first` up to `end`.
fn gather_entry<const N: usize>(
    chunks: &mut ChunkMap<N>,
    chunk: usize,
    diff: &ChunkDiff<N>,
    first: usize,
    end: usize,
) -> Result<(), AllocError>
    ensures { OnOk result (Gathers
        (λ i. bytes_of (lookup (nat_eq i) ((chunk, diff_value diff.now) ∷ []))) first end
        chunks.old.entries chunks.new.entries) }
{
    if chunk < first || end <= chunk {
        return Ok(());
    }
    let Some(bytes) = diff.old_bytes() else {
        return Ok(());
    };
    chunks.insert(chunk, *bytes)
}

// Returns chunks of zeros. Allocates once.
fn zero_chunks<const N: usize>(alloc: Global, count: usize) -> Result<Vec<[u8; N]>, AllocError>
    ensures { IfOk result (λ chunks. length chunks.items ≡ count) }
{
    let mut chunks = Vec::new(alloc);
    chunks.resize(count, [0; N])?;
    Ok(chunks)
}

// Returns a bitmap of zeros with a pruned count and a length. Allocates its retained chunks.
fn zero_bitmap<const N: usize>(
    alloc: Global,
    pruned: usize,
    len: u64,
) -> Result<Prunable<N>, AllocError>
    requires width { IsWidth N }
    requires within { 8 * N * pruned ≤ len }
    ensures pruned { IfOk result (λ b. b.pruned ≡ pruned) }
    ensures len { IfOk result (λ b. bit_len N b ≡ len) }
{
    let mut bitmap = Prunable::new_with_pruned_chunks(alloc, pruned).unwrap();
    bitmap.extend_to(len)?;
    Ok(bitmap)
}

// Gives the bitmap a pruned count and a length: it loses the bits past the length, and the bits that it lacked may have any value.
//
// If that leaves none of its bits, it is made anew, so that nothing is allocated for chunks past the length.
// If an allocation fails, the bitmap is unchanged.
fn restore_extent<const N: usize>(
    current: &mut Prunable<N>,
    pruned: usize,
    len: u64,
    alloc: Global,
) -> Result<(), AllocError>
    requires width { IsWidth N }
    requires rises { pruned ≤ current.old.pruned }
    requires within { 8 * N * pruned ≤ len }
    ensures ok { OnOk result (HasExtent N current.old pruned len current.new) }
    ensures err { OnErr result (current.new ≡ current.old) }
{
    if chunk_count::<N>(len) < current.pruned_chunks() {
        *current = zero_bitmap(alloc, pruned, len)?;
        return Ok(());
    }
    let prefix = zero_chunks(alloc, current.pruned_chunks() - pruned)?;
    widen(current, &prefix, len)
}

// Inserts chunks before the retained bits, and truncates the bitmap, or extends it with zeros, to a length.
//
// Extends first, since that can be undone if the chunks cannot be inserted. If an allocation fails, the bitmap is unchanged.
fn widen<const N: usize>(
    current: &mut Prunable<N>,
    prefix: &[[u8; N]],
    len: u64,
) -> Result<(), AllocError>
    requires width { IsWidth N }
    requires pruned { length prefix.now ≤ current.old.pruned }
    requires within { 8 * N * (current.old.pruned - length prefix.now) ≤ len }
    ensures ok { OnOk result
        (HasExtent N current.old (current.old.pruned - length prefix.now) len current.new) }
    ensures err { OnErr result (current.new ≡ current.old) }
{
    let before = grow(current, len)?;
    let Ok(()) = current.unprune(prefix) else {
        shrink_back(current, before);
        return Err(AllocError);
    };
    current.truncate(len);
    Ok(())
}

// Replaces the bits of chunks, all of which are retained, in any order. Does not allocate.
fn write_back<const N: usize>(current: &mut Prunable<N>, chunks: &ChunkMap<N>)
    requires width { IsWidth N }
    requires retained { (i : ℕ)
        → MatchOption (lookup (nat_eq i) chunks.now.entries) (Unit {0})
        (λ bytes. IsRetainedChunk N current.old i) }
    ensures { IsWrittenBack N current.old chunks.now.entries current.new }
{
    chunks.order();
    for place in 0..chunks.len() {
        write_chunk(current, chunks.index_at(place), chunks.chunk_at(place));
    }
}

// Replaces the bits of a retained chunk. Bits of the bytes past the length are left out. Does not allocate.
fn write_chunk<const N: usize>(current: &mut Prunable<N>, chunk: usize, bytes: &[u8; N])
    requires { IsRetainedChunk N current.old chunk }
    ensures { IsWrittenBack N current.old ((chunk, bytes.now) ∷ []) current.new }
{
    let len = current.len();
    let mut bytes = *bytes;
    cut(&mut bytes, len - chunk_width::<N>() * chunk as u64);
    current.set_chunk_by_index(chunk, &bytes);
}
