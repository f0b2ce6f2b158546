//! A replica: it has a copy of one version of a bitmap, receives a message with the chunks that a newer version changed, and makes that version.

ghost use Rattle.std.specs.Prelude.{◌≡◌, ◌/◌, ◌≤◌, IfSome};
ghost use Rattle.bitmap_core.specs.PrunedBits.{pruned_bits};
ghost use Rattle.historical_bitmap.specs.Record.{bit_or_else};
ghost use Rattle.uses.specs.Replicas.{IsNewer};

use bitmap_core::bitmap::Prunable;
use std::alloc::Global;

/// The chunks of a message, by absolute index. Implement it for the type that the program decodes its messages to.
pub trait Chunks {
    ghost use Rattle.std.specs.Prelude.{ℕ, List, Option};

    /// The bytes of the chunk at an index, if the message has them.
    ghost of: { Self → ℕ → Option (List ℕ) };

    /// Returns the bytes of the chunk at an index, or `None` if the message does not have them.
    fn bytes(&self, chunk: u64) -> Option<[u8; 8]>
        ensures { result ≡ of self.now chunk };
}

// Returns the bit at a position: from the chunk of the message if it has it, else from the older version. Past the older version it is false.
fn newer_bit<C: Chunks>(older: &Prunable<8>, chunks: &C, position: u64) -> bool
    requires { pruned_bits 8 older.now ≤ position }
    ensures { result ≡ bit_or_else 8 (C.of chunks.now (position / 64)) older.now position }
{
    match chunks.bytes(position / 64) {
        Some(bytes) => Prunable::<8>::get_bit_from_chunk(&bytes, position),
        None => position < older.len() && older.get_bit(position),
    }
}

/// Makes the newer version of the older one and of a message: the newer length in bits, the newer number of pruned chunks, and the bytes
/// of the chunks that changed.
///
/// The message need not have a chunk that the newer version does not retain. Returns `None` if an allocation fails, or if the number of
/// pruned bits does not fit `u64`. Linear in the retained bits of the newer version.
pub fn updated<C: Chunks>(
    alloc: Global,
    older: &Prunable<8>,
    len: u64,
    pruned_chunks: usize,
    chunks: &C,
) -> Option<Prunable<8>>
    requires { older.now.pruned ≤ pruned_chunks }
    ensures newer { IfSome result (IsNewer 8 older.now len pruned_chunks (C.of chunks.now)) }
{
    let Ok(mut made) = Prunable::new_with_pruned_chunks(alloc, pruned_chunks) else {
        return None;
    };
    for position in made.len()..len {
        let Ok(()) = made.push(newer_bit(older, chunks, position)) else {
            return None;
        };
    }
    Some(made)
}

#[cfg(test)]
mod tests {
    use super::*;
    use crate::checks::{equal, ok};
    use bitmap_core::bitmap::Readable;

    // A message with one chunk.
    #[derive(Drop)]
    struct OneChunk {
        index: u64,
        bytes: [u8; 8],
    }

    impl Chunks for OneChunk {
        ghost use Rattle.std.specs.Prelude.{◌==◌, if◌then◌else◌, None, Some};

        ghost of = { λ m i. if i == m.index then Some m.bytes else None };

        fn bytes(&self, chunk: u64) -> Option<[u8; 8]> {
            if chunk == self.index {
                Some(self.bytes)
            } else {
                None
            }
        }
    }

    // The newer version has three bits more, and another chunk 2. Its first chunk is pruned.
    #[test]
    fn makes_the_newer_version(rt: HostRuntime) {
        let mut older = Prunable::<8>::new(rt.alloc());
        ok(&rt, older.push_chunk(&[0; 8]));
        assert!(rt; older.is_chunk_aligned() && older.len() < 1000);
        ok(&rt, older.push_chunk(&[1; 8]));
        assert!(rt; older.pruned_chunks() <= 1 && older.len() < 1000);
        ok(&rt, older.push(true));
        let message = OneChunk {
            index: 2,
            bytes: [6, 0, 0, 0, 0, 0, 0, 0],
        };
        let Some(newer) = updated(rt.alloc(), &older, 132, 1, &message) else {
            panic!(rt; "out of memory");
        };
        equal(&rt, (newer.len(), newer.pruned_chunks()), (132, 1));
        equal(&rt, newer.count_ones(), 10);
        equal(
            &rt,
            (newer.next_one(0), newer.next_one(121)),
            (Some(64), Some(129)),
        );
    }
}
