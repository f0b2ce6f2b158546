//! The encoding of an entry that is written before it is applied.

ghost use Rattle.std.specs.Prelude.{◌≡◌, ◌++◌, ◌∷◌, [], IfOk, OnOk};
ghost use Rattle.std.specs.Int.{w64, to_be_bytes};
ghost use Rattle.std.specs.List.{flat_map};
ghost use Rattle.historical_bitmap.specs.Changes.{changed, listed};
ghost use Rattle.historical_bitmap.specs.View.{pending_of};
ghost use Rattle.commit_log.specs.Entries.{encode_chunk, encode_entry};
ghost use Rattle.commit_log.specs.Entries.Entry.{Clear, DropBefore, Rewind};
ghost use Rattle.commit_log.specs.Kept.{entry_of_commit};

use commit_log::push_chunk;
use historical_bitmap::bitmap::historical::DirtyBitMap;
use std::alloc::{AllocError, Global};

// The first byte of each kind of entry.
const COMMIT: u8 = 1;

const REWIND: u8 = 2;

const DROP_BEFORE: u8 = 3;

const CLEAR: u8 = 5;

// Appends the chunks that the batch changes and that the pending bitmap retains, each with its index.
fn push_changed<const N: usize>(out: &mut Vec<u8>, batch: &DirtyBitMap<N>) -> Result<(), AllocError>
    ensures { OnOk result (let new = pending_of N batch.now in out.new.items
        ≡ out.old.items ++ flat_map encode_chunk (listed N new (changed N batch.now.current new))) }
{
    let _ = batch.len();
    let mut changes = batch.changed_chunks();
    while let Some(chunk) = changes.next() {
        if let Some(bytes) = batch.retained_bytes(chunk) {
            push_chunk(out, chunk as u64, &bytes)?;
        }
    }
    Ok(())
}

// Returns the encoding of the entry of a commit of a batch.
#[tactic(auto, unfolding(commit_log::specs::Entries::encode_entry, commit_log::specs::Entries::encode_change))]
pub(crate) fn encode_commit<const N: usize>(
    alloc: Global,
    batch: &DirtyBitMap<N>,
    number: u64,
) -> Result<Vec<u8>, AllocError>
    ensures { IfOk result (λ bytes. bytes.items
        ≡ encode_entry (entry_of_commit N batch.now number)) }
{
    let mut out = Vec::new(alloc);
    out.push(COMMIT)?;
    out.extend_from_slice(&number.to_be_bytes())?;
    out.extend_from_slice(&batch.len().to_be_bytes())?;
    out.extend_from_slice(&(batch.pruned_chunks() as u64).to_be_bytes())?;
    push_changed(&mut out, batch)?;
    Ok(out)
}

// Returns the encoding of an entry that has a number and no other field.
fn encode_number(alloc: Global, kind: u8, number: u64) -> Result<Vec<u8>, AllocError>
    ensures { IfOk result (λ bytes. bytes.items ≡ kind ∷ to_be_bytes w64 number) }
{
    let mut out = Vec::new(alloc);
    out.push(kind)?;
    out.extend_from_slice(&number.to_be_bytes())?;
    Ok(out)
}

// Returns the encoding of the entry of a rewind.
#[tactic(auto, unfolding(commit_log::specs::Entries::encode_entry))]
pub(crate) fn encode_rewind(alloc: Global, number: u64) -> Result<Vec<u8>, AllocError>
    ensures { IfOk result (λ bytes. bytes.items ≡ encode_entry (Rewind number)) }
{
    encode_number(alloc, REWIND, number)
}

// Returns the encoding of the entry that drops the commits before a number.
#[tactic(auto, unfolding(commit_log::specs::Entries::encode_entry))]
pub(crate) fn encode_drop(alloc: Global, number: u64) -> Result<Vec<u8>, AllocError>
    ensures { IfOk result (λ bytes. bytes.items ≡ encode_entry (DropBefore number)) }
{
    encode_number(alloc, DROP_BEFORE, number)
}

// Returns the encoding of the entry that drops all commits.
#[tactic(auto, unfolding(commit_log::specs::Entries::encode_entry))]
pub(crate) fn encode_clear(alloc: Global) -> Result<Vec<u8>, AllocError>
    ensures { IfOk result (λ bytes. bytes.items ≡ encode_entry Clear) }
{
    let mut out = Vec::new(alloc);
    out.push(CLEAR)?;
    Ok(out)
}
