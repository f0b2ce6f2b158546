//! Frames: a log of byte strings in which a write that was cut off, and bytes that were damaged, are found.
//!
//! A log is a header, and frames one after another. Each frame has a body, which is one byte or more. This crate says nothing about what the
//! bodies mean. It depends on `std` alone.
//!
//! # Format
//!
//! A number has eight bytes, most significant byte first. A digest is the SipHash-1-3 of some bytes with both keys 0, as a number: it is what
//! `DefaultHasher::new()` returns after one `write` of these bytes. Positions count the bytes of the log from 0.
//!
//! The header has 32 bytes:
//!
//! | Field | Bytes | Content |
//! |---|---|---|
//! | magic | 8 | `MPBITLOG` in ASCII |
//! | version | 8 | 1, the version of the format |
//! | width | 8 | a number that the writer chooses, and that the reader has to name |
//! | check | 8 | the digest of the 24 bytes before it |
//!
//! A frame has 24 bytes more than its body:
//!
//! | Field | Bytes | Content |
//! |---|---|---|
//! | length | 8 | the number of bytes of the body, 1 or more |
//! | head check | 8 | the digest of 16 bytes: the position of the frame, and its length field |
//! | body | length | |
//! | digest | 8 | the digest of the digest before the frame, as its 8 bytes, and of the body |
//!
//! The digest before the first frame is the check of the header, and before any other frame it is the digest of the frame before. So a digest
//! depends on all bodies before it and on the width: if two logs have the same digest at the same position, they have the same bodies up to there,
//! unless two inputs of the digest collide. A digest finds damage, and not forgery: whoever writes a log can compute it.
//!
//! # Reading
//!
//! [`read_header`] and [`next_frame`] report the first of the errors that applies, in the order of [`HeaderError`] and [`Stop`]. A write that was
//! cut off leaves a prefix of the log, and such a prefix always ends in [`Stop::Torn`]: the law [`any_prefix_is_cut_at_a_frame`] says this. The
//! head check is why a length that was damaged does not look like a write that was cut off.
//!
//! Zero bytes up to the end are torn too: a file that had grown before its bytes were written ends in them. If another byte comes after 16 zero
//! bytes or more, they are damage.
//!
//! # Examples
//!
//! This function writes a log of two bodies, and reads the first one:
//!
//! ```
//! use log_frames::{next_frame, push_frame, push_header, read_header};
//! use std::alloc::{AllocError, Global};
//!
//! /// Writes a log of two bodies, and returns whether the first one that is read has three bytes.
//! pub fn first_body_has_three_bytes(alloc: Global) -> Result<bool, AllocError> {
//!     let mut log = Vec::new(alloc);
//!     let place = push_header(&mut log, 32)?;
//!     let place = push_frame(&mut log, place, b"one")?;
//!     push_frame(&mut log, place, b"two")?;
//!     let Ok((place, frames)) = read_header(&log, 32) else {
//!         return Ok(false);
//!     };
//!     let Ok(frame) = next_frame(place, frames) else {
//!         return Ok(false);
//!     };
//!     Ok(frame.body.len() == 3)
//! }
//! ```
#![tactic(auto)]

mod bytes;
mod digest;
mod frame;
mod header;
mod laws;

pub use frame::{Frame, Place, Stop, next_frame, push_frame};
pub use header::{HeaderError, push_header, read_header};
pub use laws::{any_prefix_is_cut_at_a_frame, frames_join, only_one_reading, places_count_bytes};
