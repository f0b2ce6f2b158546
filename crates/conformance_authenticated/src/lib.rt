//! Tests of authenticated bitmaps with SHA-256, through the public calls of `authenticated_bitmap`, and a caller that the guide shows.
#![tactic(auto)]

#[cfg(test)]
mod allocation_failures;
#[cfg(test)]
mod bitmaps;
#[cfg(test)]
mod checks;
#[cfg(test)]
mod encodings;
#[cfg(test)]
mod known;
#[cfg(test)]
mod light_client;
#[cfg(test)]
mod range_encodings;
#[cfg(test)]
mod ranges;
pub mod sha;
#[cfg(test)]
mod stored;
#[cfg(test)]
mod stored_edits;
#[cfg(test)]
mod trees;
