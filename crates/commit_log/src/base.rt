//! The base of a log: the bitmap that it begins with, and what is known of the commits before it.

ghost use Rattle.std.specs.Prelude.{◌≡◌, ℕ, ◌+◌, ◌-◌, ◌^◌, ◌<◌, ◌≤◌, ◌++◌, ◌∷◌, [], Bool, List, None, Some, IfOk, IfErr, alloc_error, drop, length, true};
ghost use Rattle.bitmap_bytes.specs.Chunk.{IsWidth};
ghost use Rattle.bitmap_core.specs.Decoding.{admits, chunk_bytes, decode_error, pruned_error};
ghost use Rattle.bitmap_core.specs.declared.bitmap.codec.error.CodecError.TheVariants.{OutOfMemory};
ghost use Rattle.bitmap_core.specs.Encoding.{pruned_encoding};
ghost use Rattle.bitmap_core.specs.PrunedBits.{bit_len};
ghost use Rattle.historical_bitmap.specs.View.{history_of};
ghost use Rattle.commit_log.specs.Base.{Base, FitsBase, IsBaseError, IsBaseErrorWithin, IsPast, Names, Reason, base_kept, decode_numbers, encode_base};
ghost use Rattle.commit_log.specs.Base.{first_reason, flag as flag_of, has_more, is_wrong_number as wrong_number, past_count, past_number, past_tests, state_tests};
ghost use Rattle.commit_log.specs.Entries.{Gives};
ghost use Rattle.commit_log.specs.Kept.{kept_of};
ghost use Rattle.commit_log.specs.declared.base.BaseError.TheVariants.{Memory};

use crate::entry::{DecodeError, read_number};
use bitmap_core::bitmap::Prunable;
use bitmap_core::bitmap::codec::{CodecError, RangeCfg, Read, Write};
use bitmap_core::chunk::chunk_count;
use historical_bitmap::bitmap::historical::CleanBitMap;
use std::alloc::{AllocError, Global};
use thiserror::Error as ErrorDerive;

// The first byte of a base. It differs from that of each kind of entry.
const BASE: u8 = 4;

/// What is known of the commits before a log.
#[derive(Clone, Copy, Debug, PartialEq, Eq)]
pub enum Past {
    /// There was no commit.
    NoCommit,

    /// This is the last number, and no commit is kept.
    Dropped(u64),

    /// The bitmap is kept under the last number.
    KeptUnder {
        /// The last number.
        number: u64,

        /// How many of the commits after the base belong to the history that is written with it. A log may have other entries.
        count: u64,
    },
}

/// Why bytes were not read as a base. `read_base` says in which order the reasons are tested.
#[derive(Debug, Drop, ErrorDerive)]
pub enum BaseError {
    /// The first byte is not the tag of a base.
    #[error("the first byte is not that of a base")]
    Tag,

    /// The bytes end within a field before the state.
    #[error("the bytes end within a field of the base")]
    Short,

    /// The flag is none of 0, 1 and 2.
    #[error("the flag of the base is above 2")]
    Flag,

    /// The last number is one that the flag does not allow: not 0 under flag 0, or `u64::MAX` under another flag.
    #[error("the last number of the base is not one that its flag allows")]
    Number,

    /// The count is not 0, and the flag says that no state is kept.
    #[error("the base has a count, and keeps no state")]
    Count,

    /// The bytes of the state encode no bitmap. The error is not `OutOfMemory`.
    #[error("the state of the base: {0}")]
    State(CodecError),

    /// Bytes are left after the state.
    #[error("bytes are left after the base")]
    Long,

    /// The bytes encode a base, and an allocation failed.
    #[error("out of memory")]
    Memory(AllocError),
}

// Returns the byte that says what is known.
fn flag(past: Past) -> u8
    ensures { result ≡ flag_of past }
{
    match past {
        Past::NoCommit => 0,
        Past::Dropped(_) => 1,
        Past::KeptUnder { .. } => 2,
    }
}

// Returns the number that is known, or zero.
fn number(past: Past) -> u64
    ensures { result ≡ past_number past }
{
    match past {
        Past::NoCommit => 0,
        Past::Dropped(number) => number,
        Past::KeptUnder { number, .. } => number,
    }
}

// Returns the count that is known, or zero.
pub(crate) fn count(past: Past) -> u64
    ensures { result ≡ past_count past }
{
    match past {
        Past::NoCommit => 0,
        Past::Dropped(_) => 0,
        Past::KeptUnder { count, .. } => count,
    }
}

/// Returns the encoding of a base.
///
/// The number of `past` should not be `u64::MAX`, which is reserved. A base with this number is encoded like any other, but `read_base`
/// returns the error `Number` for it.
///
/// # Errors
/// Returns `AllocError` if an allocation fails.
///
/// # Memory
/// Allocates the encoding.
#[tactic(auto, unfolding(crate::specs::Base::encode_base))]
pub fn base_bytes<const N: usize>(
    alloc: Global,
    bits: &Prunable<N>,
    past: Past,
) -> Result<Vec<u8>, AllocError>
    ensures { IfOk result (λ bytes. bytes.items
        ≡ encode_base N (record { bits = bits.now; past = past })) }
{
    let mut out = Vec::new(alloc);
    out.push(BASE)?;
    out.push(flag(past))?;
    out.extend_from_slice(&number(past).to_be_bytes())?;
    out.extend_from_slice(&count(past).to_be_bytes())?;
    bits.write(&mut out)?;
    Ok(out)
}

// Returns whether a last number is one that a flag does not allow.
fn is_wrong_number(flag: u8, number: u64) -> bool
    ensures { result ≡ wrong_number flag number }
{
    if flag == 0 {
        return number != 0;
    }
    number == u64::MAX
}

// Returns what a flag, a number and a count say.
fn past_of(flag: u8, number: u64, count: u64) -> Result<Past, BaseError>
    requires { flag ≤ 2 }
    ensures found { IfOk result (IsPast flag number count) }
    ensures fits { IfOk result (λ past. past_number past < 2 ^ 64 - 1) }
    ensures error { (more : List (Bool × Reason)) → IfErr result (λ e. Names e
        (first_reason (past_tests flag number count ++ more))) }
{
    if is_wrong_number(flag, number) {
        return Err(BaseError::Number);
    }
    if flag < 2 && count != 0 {
        return Err(BaseError::Count);
    }
    match flag {
        0 => Ok(Past::NoCommit),
        1 => Ok(Past::Dropped(number)),
        _ => Ok(Past::KeptUnder { number, count }),
    }
}

// Returns whether bytes are left after a bitmap, whose chunks are whole.
fn is_followed<const N: usize>(bytes: &[u8]) -> bool
    requires width { IsWidth N }
    requires whole { 16 + chunk_bytes N (drop 8 bytes.now) ≤ length bytes.now }
    ensures { result ≡ has_more N bytes.now }
{
    let (_, retained) = bytes.split_at(8);
    let (len, _) = retained.split_first_chunk::<8>().unwrap();
    let chunks = chunk_count::<N>(u64::from_be_bytes(*len));
    16 + N * chunks < bytes.len()
}

// Returns the error of bytes that encode a bitmap, if its allocation failed: bytes after it are an error that comes before this one.
fn unallocated<const N: usize>(bytes: &[u8]) -> BaseError
    requires width { IsWidth N }
    requires whole { 16 + chunk_bytes N (drop 8 bytes.now) ≤ length bytes.now }
    ensures { (range : ℕ → Bool) → pruned_error N range bytes.now ≡ None
        → Names result (first_reason (state_tests N range bytes.now)) }
{
    if is_followed::<N>(bytes) {
        return BaseError::Long;
    }
    BaseError::Memory(AllocError)
}

// Returns the error of bytes that were not read as a bitmap with this error.
fn unread<const N: usize>(bytes: &[u8], error: CodecError) -> BaseError
    requires width { IsWidth N }
    requires whole { error ≡ OutOfMemory
        → 16 + chunk_bytes N (drop 8 bytes.now) ≤ length bytes.now }
    ensures { (range : ℕ → Bool) → pruned_error N range bytes.now ≡ decode_error error
        → Names result (first_reason (state_tests N range bytes.now)) }
{
    match error {
        CodecError::OutOfMemory => unallocated::<N>(bytes),
        error => BaseError::State(error),
    }
}

// Reads a bitmap, which is all of the bytes, and whose number of retained bits the range admits.
fn read_bits<const N: usize>(
    alloc: Global,
    bytes: &[u8],
    range: &RangeCfg,
) -> Result<Prunable<N>, BaseError>
    requires { IsWidth N }
    ensures found { IfOk result (λ b. bytes.now ≡ pruned_encoding N b) }
    ensures fits { IfOk result (λ b. (bit_len N b < 2 ^ 64) × (b.pruned < 2 ^ 64)) }
    ensures admitted { IfOk result (λ b. admits range.now (length b.bits) ≡ true) }
    ensures error { IfErr result (λ e. Names e
        (first_reason (state_tests N (admits range.now) bytes.now))) }
{
    let mut from = bytes;
    match Prunable::<N>::read_cfg(alloc, &mut from, range) {
        Ok(bits) => {
            if !from.is_empty() {
                return Err(BaseError::Long);
            }
            Ok(bits)
        }
        Err(error) => Err(unread::<N>(bytes, error)),
    }
}

// Reads the tag and the flag, and returns the flag with the bytes after it.
fn read_flag(bytes: &[u8]) -> Result<(u8, &[u8]), BaseError>
    ensures found { IfOk result (λ x. bytes.now ≡ 4 ∷ x.0 ∷ x.1.now) }
    ensures fits { IfOk result (λ x. x.0 ≤ 2) }
    ensures error { (n : ℕ) (range : ℕ → Bool)
        → IfErr result (IsBaseErrorWithin n range bytes.now) }
{
    let [tag, rest @ ..] = bytes else {
        return Err(BaseError::Short);
    };
    if *tag != BASE {
        return Err(BaseError::Tag);
    }
    let [flag, rest @ ..] = rest else {
        return Err(BaseError::Short);
    };
    if *flag > 2 {
        return Err(BaseError::Flag);
    }
    Ok((*flag, rest))
}

// Reads two numbers, and returns them with the bytes after them.
#[tactic(auto, unfolding(crate::specs::Base::decode_numbers))]
fn read_numbers(bytes: &[u8]) -> Result<(u64, u64, &[u8]), DecodeError>
    ensures { Gives (λ x. (x.0, x.1, x.2.now)) result (decode_numbers bytes.now) }
{
    let (first, rest) = read_number(bytes)?;
    let (second, rest) = read_number(rest)?;
    Ok((first, second, rest))
}

// Reads a base, which is all of the bytes, and whose number of retained bits the range admits.
pub(crate) fn read_base_within<const N: usize>(
    alloc: Global,
    bytes: &[u8],
    range: &RangeCfg,
) -> Result<(Prunable<N>, Past), BaseError>
    requires { IsWidth N }
    ensures found { IfOk result (λ b. bytes.now
        ≡ encode_base N (record { bits = b.0; past = b.1 })) }
    ensures fits { IfOk result (λ b. FitsBase N (record { bits = b.0; past = b.1 })) }
    ensures admitted { IfOk result (λ b. admits range.now (length b.0.bits) ≡ true) }
    ensures error { IfErr result (IsBaseErrorWithin N (admits range.now) bytes.now) }
{
    let (flag, rest) = read_flag(bytes)?;
    let Ok((number, count, rest)) = read_numbers(rest) else {
        return Err(BaseError::Short);
    };
    let past = past_of(flag, number, count)?;
    let bits = read_bits(alloc, rest, range)?;
    Ok((bits, past))
}

/// Reads a base, which is all of the bytes. `N` is at least 1, and `8N` fits `u64`.
///
/// # Errors
/// Returns the first of these errors that applies:
///
/// 1. `Tag`: there is a first byte, and it is not 4.
/// 2. `Short`: there are fewer than two bytes.
/// 3. `Flag`: the second byte is above 2.
/// 4. `Short`: there are fewer than 18 bytes.
/// 5. `Number`: the last number is not 0 under flag 0, or is `u64::MAX` under another flag.
/// 6. `Count`: the count is not 0 under flag 0 or 1.
/// 7. `State`: the bytes from the 19th on have this error, if they are read as a `Prunable` of any length.
/// 8. `Long`: bytes are left after the state.
/// 9. `Memory`: an allocation fails.
///
/// # Memory
/// Allocates the chunks of the bitmap, which are no more bytes than were read, and only if none of the first eight errors applies.
pub fn read_base<const N: usize>(
    alloc: Global,
    bytes: &[u8],
) -> Result<(Prunable<N>, Past), BaseError>
    requires { IsWidth N }
    // The bytes are the encoding of what is read.
    ensures found { IfOk result (λ b. bytes.now
        ≡ encode_base N (record { bits = b.0; past = b.1 })) }
    ensures fits { IfOk result (λ b. FitsBase N (record { bits = b.0; past = b.1 })) }
    // The error is that of the first test that holds, or an allocation failed.
    ensures error { IfErr result (IsBaseError N bytes.now) }
    // A base is read from its encoding, unless an allocation fails.
    ensures again { (b : Base) → FitsBase N b → bytes.now ≡ encode_base N b
        → IfErr result (λ e. e ≡ Memory alloc_error) }
{
    read_base_within(alloc, bytes, &RangeCfg::any())
}

// Commits the current bitmap of one that has no last number.
fn keep<const N: usize>(bitmap: CleanBitMap<N>, number: u64) -> Result<CleanBitMap<N>, AllocError>
    requires first { bitmap.last ≡ None }
    requires below { number < 2 ^ 64 - 1 }
    ensures current { IfOk result (λ b. b.current ≡ bitmap.entry.current) }
    ensures history { IfOk result (λ b. history_of N b
        ≡ history_of N bitmap.entry ++ (number, bitmap.entry.current) ∷ []) }
    ensures last { IfOk result (λ b. b.last ≡ Some number) }
{
    match bitmap.into_dirty().commit(number) {
        Ok(bitmap) => Ok(bitmap),
        Err(_) => Err(AllocError),
    }
}

/// Returns the bitmap that a base is. The number of `past` is not `u64::MAX`.
///
/// # Errors
/// Returns `AllocError` if an allocation fails.
///
/// # Memory
/// Allocates a kept commit if there is a last number.
pub fn from_base<const N: usize>(
    alloc: Global,
    bits: Prunable<N>,
    past: Past,
) -> Result<CleanBitMap<N>, AllocError>
    requires { past_number past < 2 ^ 64 - 1 }
    ensures { IfOk result (λ b. kept_of N b
        ≡ base_kept (record { bits = bits.entry; past = past })) }
{
    let bitmap = CleanBitMap::from_bitmap(alloc, bits);
    match past {
        Past::NoCommit => Ok(bitmap),
        Past::Dropped(number) => {
            let mut bitmap = keep(bitmap, number)?;
            bitmap.clear_history();
            Ok(bitmap)
        }
        Past::KeptUnder { number, .. } => keep(bitmap, number),
    }
}
