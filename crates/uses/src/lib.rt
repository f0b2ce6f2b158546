//! Callers of the bitmaps: every example of the documents and doc comments, and other short uses. All are proved and tested.
//!
//! `tools/check_docs.py` fails if an example and its document differ.
//! All modules are test modules: a crate with code and tests is proved twice.
#![tactic(auto)]

#[cfg(test)]
mod all_versions;
#[cfg(test)]
mod any_bitmap;
#[cfg(test)]
mod appended_version;
#[cfg(test)]
mod bit_then;
#[cfg(test)]
mod both_commits;
#[cfg(test)]
mod byte_forms;
#[cfg(test)]
mod changed_chunks;
#[cfg(test)]
mod checks;
#[cfg(test)]
mod chunk_digests;
#[cfg(test)]
mod chunks_to_send;
#[cfg(test)]
mod deltas;
#[cfg(test)]
mod epochs;
#[cfg(test)]
mod exchange;
#[cfg(test)]
mod first_frame;
#[cfg(test)]
mod free_slots;
#[cfg(test)]
mod joint_bits;
#[cfg(test)]
mod kept_bits;
#[cfg(test)]
mod latest_events;
#[cfg(test)]
mod logged_event;
#[cfg(test)]
mod loops;
#[cfg(test)]
mod next_around;
#[cfg(test)]
mod old_version;
#[cfg(test)]
mod one_byte;
#[cfg(test)]
mod one_chunk;
#[cfg(test)]
mod out_of_memory;
#[cfg(test)]
mod peer;
#[cfg(test)]
mod pending_search;
#[cfg(test)]
mod quick_start;
#[cfg(test)]
mod recent_log;
#[cfg(test)]
mod reopened_log;
#[cfg(test)]
mod replica;
#[cfg(test)]
mod restored;
#[cfg(test)]
mod saved_version;
#[cfg(test)]
mod session;
#[cfg(test)]
mod session_calls;
#[cfg(test)]
mod strangers;
#[cfg(test)]
mod taken_slots;
#[cfg(test)]
mod tried_push;
#[cfg(test)]
mod two_bits;
#[cfg(test)]
mod version_store;
#[cfg(test)]
mod versions;
#[cfg(test)]
mod whole_version;
