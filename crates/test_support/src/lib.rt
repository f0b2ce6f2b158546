//! Comparisons of bitmaps that the test crates share.
//!
//! Each function returns a `bool`, which the tests assert. The assertions, and the calls that assert their conditions, are in each test
//! crate's own test modules: they may end the process, and the gate accepts that in tests only.
#![tactic(auto)]

pub mod compare;
