//! Writing a frame, and reading one.

ghost use Rattle.std.specs.Prelude.{◌≡◌, ℕ, ◌+◌, ◌^◌, ◌<◌, ◌≤◌, ◌++◌, List, Ok, length, is_ok, vec_len, vec_capacity, IfOk, IsOk, if◌then◌else◌};
ghost use Rattle.log_frames.specs.Frames.{frame, frame_at, head_check as head_check_of, head_fails as fails, chained as chained_of, are_zero as are_all_zero, body_at, next, view, IsBody, Gives};

use crate::bytes::{append, append_number, number_at};
use crate::digest::digest_of_both;
use std::alloc::AllocError;

/// A place in a log at which a frame can begin, and what the frame depends on.
#[derive(Clone, Copy, Debug, PartialEq, Eq)]
pub struct Place {
    /// The position: the number of bytes of the log before the place.
    pub at: u64,

    /// The digest of the log before the place: that of its last frame, or the check of the header if there is no frame.
    pub digest: u64,
}

/// Why bytes begin with no whole frame. If several reasons apply, the first one in this order is reported.
#[derive(Clone, Copy, Debug, PartialEq, Eq)]
pub enum Stop {
    /// The bytes end before the frame does, or all bytes to the end are zero.
    ///
    /// Bytes that end where a frame would begin are torn too. A write that was cut off leaves a torn rest: either a prefix of a frame, or the
    /// zeros of a file that had grown before its bytes were written.
    Torn,

    /// The length is zero, or the head check is not that of this length at this position. The body was not read.
    BadHead,

    /// The digest is not that of the digest before the frame and of the body.
    BadDigest,
}

/// A frame that was read. It borrows the bytes that it was read from.
#[derive(Drop)]
pub struct Frame<'a> {
    /// The body, which has one byte or more.
    pub body: &'a [u8],

    /// The bytes after the frame.
    pub rest: &'a [u8],

    /// The place after the frame, at which `rest` begins.
    pub next: Place,
}

// Returns the check of the head of a frame at the place, whose body has `size` bytes.
fn head_check(place: Place, size: u64) -> u64
    ensures { result ≡ head_check_of place size }
{
    digest_of_both(&place.at.to_be_bytes(), &size.to_be_bytes())
}

// Returns whether a head that has this length and this check was not written for the place.
fn head_fails(place: Place, size: u64, check: u64) -> bool
    ensures { result ≡ fails place size check }
{
    size == 0 || check != head_check(place, size)
}

// Returns whether all of the bytes are zero. It stops at the first byte that is not.
fn are_zero(bytes: &[u8]) -> bool
    ensures { result ≡ are_all_zero bytes.now }
{
    bytes.iter().all(|byte| *byte == 0)
}

// Returns the digest of a frame at the place with the body.
fn chained(place: Place, body: &[u8]) -> u64
    ensures { result ≡ chained_of place body.now }
{
    digest_of_both(&place.digest.to_be_bytes(), body)
}

/// Appends a frame to `out`, and returns the place after the frame.
///
/// `place` is that of the frame in its log. `body` has one byte or more. `out` may have any bytes, such as those of the log from an earlier
/// place on.
///
/// # Errors
///
/// Returns `AllocError` if the allocation fails, or if the log would have 2^64 bytes or more. `out` then has the same bytes as before.
/// If `out` has capacity for the frame, which has 24 bytes more than the body, and the log stays below 2^64 bytes, it succeeds.
///
/// # Memory
///
/// Allocates at most once, from the allocator of `out`, and only if `out` has no capacity for the frame.
///
/// # Complexity
///
/// Amortized linear in the bytes of the body.
#[tactic(auto, unfolding(crate::specs::Frames::frame))]
pub fn push_frame(out: &mut Vec<u8>, place: Place, body: &[u8]) -> Result<Place, AllocError>
    requires { 0 < length body.now }
    ensures items { out.new.items
        ≡ (if is_ok result then out.old.items ++ frame place body.now else out.old.items) }
    ensures next { IfOk result (λ after. after ≡ next place body.now) }
    ensures has_capacity { vec_len out.old + 24 + length body.now ≤ vec_capacity out.old
        → place.at + 24 + length body.now < 2 ^ 64 → IsOk result }
{
    let size = body.len() as u64;
    let Some(at) = place.at.checked_add(24 + size) else {
        return Err(AllocError);
    };
    out.reserve(24 + body.len())?;
    let digest = chained(place, body);
    append_number(out, size);
    append_number(out, head_check(place, size));
    append(out, body);
    append_number(out, digest);
    Ok(Place { at, digest })
}

// Reads what follows the head of a frame at the place, whose body has `size` bytes.
#[tactic(auto, using(crate::proofs::Frames::body_steps))]
fn read_body(place: Place, size: u64, rest: &[u8]) -> Result<Frame<'_>, Stop>
    requires { place.at + 16 + length rest.now < 2 ^ 64 }
    ensures exact { Gives view result (body_at place size rest.now) }
    ensures next { IfOk result (λ found. found.next ≡ next place found.body.now) }
{
    let Some((body, after)) = rest.split_at_checked(size as usize) else {
        return Err(Stop::Torn);
    };
    if after.len() < 8 {
        return Err(Stop::Torn);
    }
    let digest = chained(place, body);
    if number_at(after, 0) != digest {
        return Err(Stop::BadDigest);
    }
    Ok(Frame {
        body,
        rest: &after[8..],
        next: Place {
            at: place.at + 24 + size,
            digest,
        },
    })
}

// Reads the frame that the bytes begin with at the place.
#[tactic(auto, unfolding(crate::specs::Frames::frame_at))]
fn read_frame(place: Place, bytes: &[u8]) -> Result<Frame<'_>, Stop>
    requires { place.at + length bytes.now < 2 ^ 64 }
    ensures exact { Gives view result (frame_at place bytes.now) }
    ensures next { IfOk result (λ found. found.next ≡ next place found.body.now) }
{
    if bytes.len() < 16 || are_zero(bytes) {
        return Err(Stop::Torn);
    }
    let size = number_at(bytes, 0);
    if head_fails(place, size, number_at(bytes, 8)) {
        return Err(Stop::BadHead);
    }
    read_body(place, size, &bytes[16..])
}

/// Reads the frame that `bytes` begin with at the place.
///
/// `bytes` are those of the log from `place` on, to the end of what is there. They end before position 2^64 of the log.
///
/// # Errors
///
/// Returns the first reason in the order of [`Stop`] why no whole frame begins the bytes.
///
/// # Memory
///
/// Does not allocate.
///
/// # Complexity
///
/// Linear in the zero bytes that `bytes` begin with and, if the result is neither `Torn` nor `BadHead`, in the bytes of the body. A frame begins
/// with fewer than eight zero bytes.
pub fn next_frame(place: Place, bytes: &[u8]) -> Result<Frame<'_>, Stop>
    requires { place.at + length bytes.now < 2 ^ 64 }
    // What is read is a frame and the bytes after it.
    ensures parts { IfOk result (λ found.
        bytes.now ≡ frame place found.body.now ++ found.rest.now) }
    ensures body { IfOk result (λ found. IsBody found.body.now) }
    ensures next { IfOk result (λ found. found.next ≡ next place found.body.now) }

    // The rest ends where the bytes end.
    ensures end { IfOk result (λ found.
        found.next.at + length found.rest.now ≡ place.at + length bytes.now) }

    // A frame that begins the bytes is read.
    ensures only { (body rest : List ℕ) → IsBody body → bytes.now ≡ frame place body ++ rest
        → Gives view result (Ok (body, rest)) }

    // Which result it is, and why.
    ensures exact { Gives view result (frame_at place bytes.now) }
{
    read_frame(place, bytes)
}
