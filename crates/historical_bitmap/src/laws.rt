//! Laws of historical bitmaps: what callers may rely on besides the contracts of single calls.
//!
//! Each law is the contract of a function. The body of a law makes the calls that the law is about, or none.
//! To use a law, call its function in place of the calls. If it makes none, call it in addition to them.

pub mod batches;
pub mod changes;
pub mod commits;
pub mod in_place;
pub mod rewinding;
