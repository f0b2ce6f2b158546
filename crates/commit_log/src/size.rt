//! The size of a history, before it is written.

ghost use Rattle.std.specs.Prelude.{◌≡◌, ◌+◌, ◌^◌, ◌<◌, ◌≤◌, Some, IsSome, length};
ghost use Rattle.bitmap_core.specs.PrunedBits.{PrunedBits};
ghost use Rattle.historical_bitmap.specs.History.{kept_under};
ghost use Rattle.historical_bitmap.specs.View.{history_of};
ghost use Rattle.commit_log.specs.Base.{encode_base};
ghost use Rattle.commit_log.specs.Entries.{encode_entry};
ghost use Rattle.commit_log.specs.Entries.Entry.{Commit};
ghost use Rattle.commit_log.specs.History.{IsSizeOf, history_base, history_bytes};
ghost use Rattle.commit_log.specs.Kept.{change_to, kept_of};
ghost use Rattle.historical_bitmap.specs.Changes.{listed};

use crate::retained::RetainedChunks;
use bitmap_core::bitmap::Readable;
use bitmap_core::bitmap::codec::EncodeSize;
use bitmap_core::chunk::chunk_count;
use historical_bitmap::bitmap::historical::{AtCommit, ChangedChunks, CleanBitMap};

// Returns how many of the given chunks a state retains.
fn count_listed<const N: usize>(newer: &AtCommit<'_, N>, changes: ChangedChunks<'_, N>) -> u64
    requires { length changes < 2 ^ 64 }
    ensures { result ≡ length (listed N newer.now changes.entry) }
{
    let _ = newer.len();
    let mut changes = changes;
    let mut count: u64 = 0;
    while let Some(chunk) = changes.next() {
        if newer.bytes_at(chunk as u64).is_some() {
            count += 1;
        }
    }
    count
}

// Returns the size of the frame of a commit under `to`, whose change leads from the state under `from` to that under `to`. Both are kept.
fn commit_size<const N: usize>(bitmap: &CleanBitMap<N>, from: u64, to: u64) -> Option<u64>
    requires order { from ≤ to }
    requires older { IsSome (kept_under (history_of N bitmap.now) from) }
    requires newer { IsSome (kept_under (history_of N bitmap.now) to) }
    ensures { (old new : PrunedBits) → kept_under (history_of N bitmap.now) from ≡ Some old
        → kept_under (history_of N bitmap.now) to ≡ Some new
        → IsSizeOf (24 + length (encode_entry (Commit (change_to N to old new)))) result }
{
    let newer = bitmap.at(to).unwrap();
    let _ = newer.len();
    let changes = bitmap.changed_chunks(from, to).unwrap();
    let count = count_listed(&newer, changes);
    let list = (8 + N as u64).checked_mul(count)?;
    // The frame has 24 bytes around its body. The body has a kind and three numbers before the list.
    list.checked_add(49)
}

// Returns the size of the encoding of the first kept state, or of the current bitmap if no state is kept.
fn state_size<const N: usize>(bitmap: &CleanBitMap<N>) -> u64
    ensures { result + 18 ≡ length (encode_base N (history_base (kept_of N bitmap.now))) }
{
    let mut numbers = bitmap.commits();
    let Some(number) = numbers.next() else {
        return bitmap.current().encode_size() as u64;
    };
    let first = bitmap.at(number).unwrap();
    let retained = first.len() - first.pruned_bits();
    // The pruned count and the number of retained bits come before the chunks.
    16 + N as u64 * chunk_count::<N>(retained) as u64
}

/// Returns the number of bytes of the history of a bitmap, or `None` if it does not fit `u64`.
///
/// It is the number of bytes that `write_history` appends. Does not allocate.
///
/// # Complexity
/// Per pair of neighbouring kept states that of `changed_chunks`, and per chunk that differs a read of the newer state through `AtCommit`.
pub fn history_size<const N: usize>(bitmap: &CleanBitMap<N>) -> Option<u64>
    ensures { IsSizeOf (length (history_bytes N (kept_of N bitmap.now))) result }
{
    // The header has 32 bytes, the frame of the base 24 around its body, and the body 18 before the state.
    let mut size = state_size(bitmap).checked_add(74)?;
    let mut numbers = bitmap.commits();
    let Some(mut from) = numbers.next() else {
        return Some(size);
    };
    while let Some(to) = numbers.next() {
        size = size.checked_add(commit_size(bitmap, from, to)?)?;
        from = to;
    }
    Some(size)
}
