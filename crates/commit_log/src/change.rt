//! The change from one kept state to a later one, in the bytes of an entry or of a delta.

ghost use Rattle.std.specs.Prelude.{◌≡◌, ◌^◌, ◌<◌, ◌≤◌, ◌++◌, Some, IsSome, OnOk};
ghost use Rattle.std.specs.List.{flat_map};
ghost use Rattle.bitmap_core.specs.PrunedBits.{PrunedBits, bit_len};
ghost use Rattle.historical_bitmap.specs.History.{kept_under};
ghost use Rattle.historical_bitmap.specs.View.{history_of};
ghost use Rattle.commit_log.specs.Entries.{encode_change, encode_chunk, encode_entry};
ghost use Rattle.commit_log.specs.Entries.Entry.{Commit};
ghost use Rattle.commit_log.specs.Kept.{change_to};
ghost use Rattle.historical_bitmap.specs.Changes.{listed};

use crate::entry::{COMMIT, push_chunk};
use crate::retained::RetainedChunks;
use bitmap_core::bitmap::Readable;
use historical_bitmap::bitmap::historical::{AtCommit, ChangedChunks, CleanBitMap};
use std::alloc::AllocError;

// Appends those of some chunks that the newer state retains, each with its index.
// After an error, some of them may be appended.
pub(crate) fn push_chunks<const N: usize>(
    out: &mut Vec<u8>,
    newer: &AtCommit<'_, N>,
    changes: ChangedChunks<'_, N>,
) -> Result<(), AllocError>
    ensures { OnOk result (out.new.items
        ≡ out.old.items ++ flat_map encode_chunk (listed N newer.now changes.entry)) }
{
    let _ = newer.len();
    let mut changes = changes;
    while let Some(chunk) = changes.next() {
        if let Some(bytes) = newer.bytes_at(chunk as u64) {
            push_chunk(out, chunk as u64, &bytes)?;
        }
    }
    Ok(())
}

// Appends the change to the newer state under a number, if these are the chunks that differ from the older one.
// After an error, a part of it may be appended.
#[tactic(auto, unfolding(crate::specs::Entries::encode_change))]
pub(crate) fn push_change<const N: usize>(
    out: &mut Vec<u8>,
    number: u64,
    newer: &AtCommit<'_, N>,
    changes: ChangedChunks<'_, N>,
) -> Result<(), AllocError>
    ensures { OnOk result (out.new.items ≡ out.old.items ++ encode_change (record {
      number = number;
      len = bit_len N newer.now;
      pruned = newer.now.pruned;
      chunks = listed N newer.now changes.entry;
    })) }
{
    out.extend_from_slice(&number.to_be_bytes())?;
    out.extend_from_slice(&newer.len().to_be_bytes())?;
    out.extend_from_slice(&(newer.pruned_chunks() as u64).to_be_bytes())?;
    push_chunks(out, newer, changes)?;
    Ok(())
}

// Appends the entry of a commit under `to`, whose change leads from the state under `from` to that under `to`. Both are kept.
// After an error, `out` may have a part of it.
pub(crate) fn push_commit<const N: usize>(
    out: &mut Vec<u8>,
    bitmap: &CleanBitMap<N>,
    from: u64,
    to: u64,
) -> Result<(), AllocError>
    requires order { from ≤ to }
    requires older { IsSome (kept_under (history_of N bitmap.now) from) }
    requires newer { IsSome (kept_under (history_of N bitmap.now) to) }
    ensures entry { (old new : PrunedBits) → kept_under (history_of N bitmap.now) from ≡ Some old
        → kept_under (history_of N bitmap.now) to ≡ Some new
        → OnOk result (out.new.items
        ≡ out.old.items ++ encode_entry (Commit (change_to N to old new))) }
    ensures len { (new : PrunedBits) → kept_under (history_of N bitmap.now) to ≡ Some new
        → OnOk result (bit_len N new < 2 ^ 64) }
{
    out.push(COMMIT)?;
    let newer = bitmap.at(to).unwrap();
    // The prover learns from this call that the length fits 64 bits.
    let _ = newer.len();
    let changes = bitmap.changed_chunks(from, to).unwrap();
    push_change(out, to, &newer, changes)
}
