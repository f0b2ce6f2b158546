//! The commands of a session.

use bitmap_core::bitmap::codec::RangeCfg;

/// A command of a session, with chunks of `N` bytes.
///
/// Positions and lengths count bits from 0, pruned bits included. A range of positions includes its start and excludes its end.
///
/// A session is in a batch from `Begin` to the next `Commit` or `Abort` that it accepts. Each command has its mode:
///
/// | Commands | Mode |
/// |---|---|
/// | `Push`, `PushByte`, `PushChunk`, `Pop`, `Set`, `Prune`, `Commit`, `Abort` | in a batch |
/// | `Len`, `PrunedChunks`, `Get`, `Chunk`, `Decode` | in a batch or outside |
/// | all others | outside a batch |
///
/// In the wrong mode a command is refused with `WrongMode`. `Refusal` lists the other reasons. A refused command changes nothing.
/// "The visible bitmap" below is the pending bitmap in a batch, and the current bitmap outside.
#[derive(Drop, Debug)]
pub enum Command<const N: usize> {
    /// Replaces everything by a bitmap with this many pruned chunks, no retained bits, no commits and no last number; replies `Done`.
    Start(usize),
    /// Begins a batch of edits on the current bitmap; replies `Done`.
    Begin,
    /// Appends a bit to the pending bitmap; replies `Done`.
    Push(bool),
    /// Appends the eight bits of a byte to the pending bitmap, the lowest bit first; replies `Done`.
    PushByte(u8),
    /// Appends the `8N` bits of a chunk to the pending bitmap, the lowest bit of its first byte first; replies `Done`.
    PushChunk([u8; N]),
    /// Removes the last bit of the pending bitmap and replies it as `Bit`.
    Pop,
    /// Replaces the bit at an absolute position of the pending bitmap; replies `Done`.
    Set(u64, bool),
    /// Prunes the chunks of the pending bitmap before the chunk of an absolute position; replies `Done`.
    Prune(u64),
    /// Ends the batch: makes the pending bitmap current and keeps it under the number; replies `Done`.
    Commit(u64),
    /// Ends the batch and drops its edits; replies `Done`.
    Abort,
    /// Makes the bitmap committed under the number current again and drops the later commits; replies `Done`.
    Rewind(u64),
    /// Replies the length of the visible bitmap in bits as `Number`.
    Len,
    /// Replies the number of pruned chunks of the visible bitmap as `Number`.
    PrunedChunks,
    /// Replies the bit at an absolute position of the visible bitmap as `Bit`.
    Get(u64),
    /// Replies the chunk that contains an absolute position of the visible bitmap as `Chunk`; its bits past the length are zero.
    Chunk(u64),
    /// Replies the set positions of the current bitmap in a range, ascending, as `Positions`: `Ones(start, end)`.
    Ones(u64, u64),
    /// Replies the encoding of the current bitmap as `Bytes`.
    Encode,
    /// Replies the bitmap committed under the number as `Snapshot`, or none if that commit is not kept.
    At(u64),
    /// Replies the set positions of the bitmap committed under a number as `Ones` does, or none if that commit is not kept:
    /// `OnesAt(number, start, end)`.
    OnesAt(u64, u64, u64),
    /// Replies the encoding of the bitmap committed under the number as `Bytes`, or none if that commit is not kept.
    EncodeAt(u64),
    /// Decodes a bitmap from a prefix of the bytes, and replies it and the number of bytes after it as `Read`. The range limits
    /// its number of retained bits. The bitmaps of the session do not change.
    Decode(Vec<u8>, RangeCfg),
    /// Replies the kept commit numbers, ascending, as `Positions`.
    Commits,
    /// Replies whether a commit is kept under the number, as `Bit`.
    Exists(u64),
    /// Replies the greatest kept commit number as `Maybe`.
    Latest,
    /// Replies the least kept commit number as `Maybe`.
    Earliest,
    /// Drops the commits below the number and replies how many it dropped as `Number`.
    DropBefore(u64),
    /// Drops all commits; replies `Done`.
    Clear,
    /// Replies the number of entries in the reverse records of all kept commits together, as `Wide`.
    Entries,
}
