//! What a session does in the same way in a batch and outside.

ghost use Rattle.std.specs.Prelude.{◌≡◌, ◌<◌, ◌≤◌, [], ◌∷◌, OnOk, nat_le, nat_lt};
ghost use Rattle.std.specs.Option.{option_map};
ghost use Rattle.std.specs.Result.{result_err};
ghost use Rattle.bitmap_bytes.specs.Chunk.{IsWidth};
ghost use Rattle.bitmap_core.specs.Decoding.{admits};
ghost use Rattle.bitmap_session.specs.Replies as replies;
ghost use Rattle.bitmap_session.specs.Machine.{first, IsDecoded, when};
ghost use Rattle.bitmap_session.specs.Abstraction.{reason, value_of};

use crate::reply::{Refusal, Reply};
use bitmap_core::bitmap::Prunable;
use bitmap_core::bitmap::codec::{CodecError, RangeCfg, Read};
use std::alloc::Global;

/// Checks that an absolute position is retained in a bitmap of `len` bits, of which the first `pruned_bits` are pruned.
///
/// Does not allocate; constant time.
///
/// # Errors
///
/// Returns `OutOfBounds` if the position is not below `len`, and else `Pruned` if it is below `pruned_bits`.
#[inline(always)]
pub fn check_position(len: u64, pruned_bits: u64, position: u64) -> Result<(), Refusal>
    ensures why { option_map reason (result_err result)
        ≡ first (when (nat_le len position) replies.Refusal.OutOfBounds
        ∷ when (nat_lt position pruned_bits) replies.Refusal.Pruned ∷ []) }
    ensures retained { OnOk result ((pruned_bits ≤ position) × (position < len)) }
{
    if position >= len {
        return Err(Refusal::OutOfBounds);
    }
    if position < pruned_bits {
        return Err(Refusal::Pruned);
    }
    Ok(())
}

/// Decodes a bitmap from a prefix of `input`, and returns the reply. The range limits its number of retained bits.
///
/// # Memory
///
/// Allocates the chunks of the bitmap.
///
/// # Complexity
///
/// Linear in the bytes of the encoding.
pub fn decode<const N: usize>(alloc: Global, input: &[u8], range: &RangeCfg) -> Reply<N>
    requires width { IsWidth N }
    ensures { IsDecoded N (admits range.now) input.now (value_of result) }
{
    let mut left = input;
    match Prunable::read_cfg(alloc, &mut left, range) {
        Ok(bitmap) => Reply::Read(bitmap, left.len()),
        Err(CodecError::OutOfMemory) => Reply::Refused(Refusal::NoMemory),
        Err(error) => Reply::Refused(Refusal::Codec(error)),
    }
}
