//! Writing the header of a log, and reading it.

ghost use Rattle.std.specs.Prelude.{◌≡◌, ℕ, ◌+◌, ◌^◌, ◌<◌, ◌≤◌, ◌++◌, List, Ok, length, is_ok, vec_len, vec_capacity, IfOk, IsOk, if◌then◌else◌};
ghost use Rattle.log_frames.specs.Digest.{digest};
ghost use Rattle.log_frames.specs.Frames.{Gives, number_at as number_in};
ghost use Rattle.log_frames.specs.Header.{header, header_at, fields, first_place};

use crate::bytes::{append, append_number, number_at};
use crate::digest::digest_of;
use crate::frame::Place;
use std::alloc::AllocError;
use std::hash::{DefaultHasher, Hasher};

// The bytes that every log begins with.
const MAGIC: [u8; 8] = *b"MPBITLOG";

// The version of the format.
const VERSION: u64 = 1;

/// Why bytes do not begin with the header of a log of the width that the reader names. If several reasons apply, the first one in this order
/// is reported.
#[derive(Clone, Copy, Debug, PartialEq, Eq)]
pub enum HeaderError {
    /// There are fewer than 32 bytes. A write of the header that was cut off leaves such bytes.
    Short,

    /// The first eight bytes are not `MPBITLOG`.
    NotALog,

    /// The log has this version of the format, which is not 1.
    Version(u64),

    /// The check of the header is not the digest of its 24 bytes before the check.
    BadCheck,

    /// The log has this width, and not the one that the reader names.
    Width(u64),
}

// Returns the digest of the fields of a header.
#[tactic(auto, unfolding(crate::specs::Digest::digest))]
fn fields_digest(width: u64) -> u64
    ensures { result ≡ digest (fields width) }
{
    let mut hasher = DefaultHasher::new();
    hasher.write(&MAGIC);
    hasher.write(&VERSION.to_be_bytes());
    hasher.write(&width.to_be_bytes());
    hasher.finish()
}

/// Appends the header of a log of the width to `out`, and returns the place of the first frame.
///
/// # Errors
///
/// Returns `AllocError` if the allocation fails; `out` then has the same bytes as before.
/// If `out` has capacity for the 32 bytes of the header, it succeeds.
///
/// # Memory
///
/// Allocates at most once, from the allocator of `out`, and only if `out` has no capacity for the header.
///
/// # Complexity
///
/// Constant time, apart from the allocation, which may move the bytes of `out`.
#[tactic(auto, unfolding(crate::specs::Header::header))]
pub fn push_header(out: &mut Vec<u8>, width: u64) -> Result<Place, AllocError>
    ensures items { out.new.items
        ≡ (if is_ok result then out.old.items ++ header width else out.old.items) }
    ensures place { IfOk result (λ after. after ≡ first_place width) }
    ensures has_capacity { vec_len out.old + 32 ≤ vec_capacity out.old → IsOk result }
{
    out.reserve(32)?;
    let digest = fields_digest(width);
    append(out, &MAGIC);
    append_number(out, VERSION);
    append_number(out, width);
    append_number(out, digest);
    Ok(Place { at: 32, digest })
}

// Reads the header that the bytes begin with.
#[tactic(auto, using(crate::proofs::Headers::header_steps), unfolding(crate::specs::Header::header_at))]
fn check_header(bytes: &[u8], width: u64) -> Result<(Place, &[u8]), HeaderError>
    ensures exact { Gives (λ found. found.1.now) result (header_at width bytes.now) }
    ensures at { IfOk result (λ found. found.0.at ≡ 32) }
    ensures digest { IfOk result (λ found. found.0.digest ≡ number_in 24 bytes.now) }
{
    if bytes.len() < 32 {
        return Err(HeaderError::Short);
    }
    if !bytes.starts_with(&MAGIC) {
        return Err(HeaderError::NotALog);
    }
    let version = number_at(bytes, 8);
    if version != VERSION {
        return Err(HeaderError::Version(version));
    }
    let (fields, _) = bytes.split_at(24);
    let digest = number_at(bytes, 24);
    if digest != digest_of(fields) {
        return Err(HeaderError::BadCheck);
    }
    let found = number_at(bytes, 16);
    if found != width {
        return Err(HeaderError::Width(found));
    }
    Ok((Place { at: 32, digest }, &bytes[32..]))
}

/// Reads the header that `bytes` begin with, of a log of the width. Returns the place of the first frame, and the bytes after the header.
///
/// # Errors
///
/// Returns the first reason in the order of [`HeaderError`] why the bytes do not begin with such a header.
///
/// # Memory
///
/// Does not allocate.
///
/// # Complexity
///
/// Constant time.
pub fn read_header(bytes: &[u8], width: u64) -> Result<(Place, &[u8]), HeaderError>
    // What is read is the header and the bytes after it.
    ensures parts { IfOk result (λ found. bytes.now ≡ header width ++ found.1.now) }
    ensures place { IfOk result (λ found. found.0 ≡ first_place width) }

    // The rest ends where the bytes end.
    ensures end { IfOk result (λ found. found.0.at + length found.1.now ≡ length bytes.now) }

    // A header that begins the bytes is read.
    ensures only { (rest : List ℕ) → bytes.now ≡ header width ++ rest
        → Gives (λ found. found.1.now) result (Ok rest) }

    // Which result it is, and why.
    ensures exact { Gives (λ found. found.1.now) result (header_at width bytes.now) }
{
    check_header(bytes, width)
}
