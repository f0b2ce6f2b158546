//! The entries of a log: written, and read without a copy.

ghost use Rattle.std.specs.Prelude.{◌≡◌, ℕ, ◌+◌, ◌*◌, ◌/◌, ◌^◌, ◌<◌, ◌≤◌, ◌++◌, ◌∷◌, [], length, is_ok, IfOk, Ok, if◌then◌else◌};
ghost use Rattle.std.specs.Int.{w64, to_be_bytes};
ghost use Rattle.commit_log.specs.Entries.{Entry as WrittenEntry, FitsEntry, Gives, encode_chunk, encode_entry};
ghost use Rattle.commit_log.specs.Entries.{decode_change, decode_entry, decode_last_number, decode_number, view_change, view_entry};

use std::alloc::AllocError;
use thiserror::Error as ErrorDerive;

// The first byte of each kind of entry.
pub(crate) const COMMIT: u8 = 1;

pub(crate) const REWIND: u8 = 2;

pub(crate) const DROP_BEFORE: u8 = 3;

pub(crate) const CLEAR: u8 = 5;

/// Why bytes encode no entry.
#[derive(Clone, Copy, Debug, PartialEq, Eq, ErrorDerive)]
pub enum DecodeError {
    /// The bytes end within a field.
    #[error("the bytes end within a field of the entry")]
    Short,

    /// The first byte names no kind of entry.
    #[error("the first byte names no kind of entry")]
    Kind,

    /// Bytes are left after the entry.
    #[error("bytes are left after the entry")]
    Long,
}

/// What a commit changed, as it is in the bytes of a log.
#[derive(Drop)]
pub struct Change<'a> {
    /// The number of the commit.
    pub number: u64,

    /// The length in bits after the commit, pruned bits included.
    pub len: u64,

    /// The number of pruned chunks after the commit.
    pub pruned: u64,

    /// The chunks that differ, ascending: for each its index in eight bytes, most significant first, and its new bytes.
    pub chunks: &'a [u8],
}

/// An entry, as it is in the bytes of a log.
#[derive(Drop)]
pub enum Entry<'a> {
    /// A commit, as what it changed.
    Commit(Change<'a>),

    /// A rewind to the commit of this number.
    Rewind(u64),

    /// The commits before this number dropped.
    DropBefore(u64),

    /// All kept commits dropped.
    Clear,
}

// Reads a number, and returns it with the bytes after it.
pub(crate) fn read_number(bytes: &[u8]) -> Result<(u64, &[u8]), DecodeError>
    ensures { Gives (λ x. (x.0, x.1.now)) result (decode_number bytes.now) }
{
    let Some((first, rest)) = bytes.split_first_chunk::<8>() else {
        return Err(DecodeError::Short);
    };
    Ok((u64::from_be_bytes(*first), rest))
}

// Reads a number, after which no bytes are left.
#[tactic(auto, unfolding(crate::specs::Entries::decode_last_number))]
fn read_last_number(bytes: &[u8]) -> Result<u64, DecodeError>
    ensures { Gives (λ x. x) result (decode_last_number bytes.now) }
{
    let (number, rest) = read_number(bytes)?;
    if !rest.is_empty() {
        return Err(DecodeError::Long);
    }
    Ok(number)
}

// Reads a change, which is all of the bytes.
#[tactic(auto, unfolding(crate::specs::Entries::decode_change, crate::specs::Entries::decode_chunks))]
pub(crate) fn read_change<const N: usize>(bytes: &[u8]) -> Result<Change<'_>, DecodeError>
    requires { 8 + N < 2 ^ 64 }
    ensures { Gives (view_change N) result (decode_change N bytes.now) }
{
    let (number, rest) = read_number(bytes)?;
    let (len, rest) = read_number(rest)?;
    let (pruned, chunks) = read_number(rest)?;
    if chunks.len() % (8 + N) != 0 {
        return Err(DecodeError::Short);
    }
    Ok(Change {
        number,
        len,
        pruned,
        chunks,
    })
}

// Reads an entry, which is all of the bytes.
#[tactic(auto, unfolding(crate::specs::Entries::decode_entry))]
fn read_kind<const N: usize>(bytes: &[u8]) -> Result<Entry<'_>, DecodeError>
    requires { 8 + N < 2 ^ 64 }
    ensures { Gives (view_entry N) result (decode_entry N bytes.now) }
{
    match bytes {
        [] => Err(DecodeError::Short),
        [COMMIT, rest @ ..] => Ok(Entry::Commit(read_change::<N>(rest)?)),
        [REWIND, rest @ ..] => Ok(Entry::Rewind(read_last_number(rest)?)),
        [DROP_BEFORE, rest @ ..] => Ok(Entry::DropBefore(read_last_number(rest)?)),
        [CLEAR] => Ok(Entry::Clear),
        [CLEAR, _, ..] => Err(DecodeError::Long),
        [_, ..] => Err(DecodeError::Kind),
    }
}

/// Reads an entry, which is all of the bytes. `8 + N` fits `usize`.
///
/// Does not allocate; constant time.
///
/// # Errors
/// Returns the first error from the first byte on: `Short`, `Kind` or `Long`.
pub fn read_entry<const N: usize>(bytes: &[u8]) -> Result<Entry<'_>, DecodeError>
    requires { 8 + N < 2 ^ 64 }
    // The bytes are the encoding of what is read.
    ensures encoded { IfOk result (λ e. bytes.now ≡ encode_entry (view_entry N e)) }
    ensures fits { IfOk result (λ e. FitsEntry N (view_entry N e)) }
    // Each entry is read from its encoding.
    ensures only { (e : WrittenEntry) → FitsEntry N e → bytes.now ≡ encode_entry e
        → Gives (view_entry N) result (Ok e) }
    ensures exact { Gives (view_entry N) result (decode_entry N bytes.now) }
{
    read_kind::<N>(bytes)
}

/// Appends a chunk with its index, as an entry of a commit lists it. `8 + N` fits `usize`.
///
/// # Errors
/// Returns `AllocError` if the allocation fails. `out` then has the same bytes as before.
#[tactic(auto, unfolding(crate::specs::Entries::encode_chunk))]
pub fn push_chunk<const N: usize>(
    out: &mut Vec<u8>,
    index: u64,
    bytes: &[u8; N],
) -> Result<(), AllocError>
    requires { 8 + N < 2 ^ 64 }
    ensures { out.new.items ≡ (if is_ok result
        then out.old.items ++ encode_chunk (index, bytes.now) else out.old.items) }
{
    out.reserve(8 + N)?;
    out.extend_from_slice(&index.to_be_bytes()).unwrap();
    out.extend_from_slice(bytes).unwrap();
    Ok(())
}
