//! Queries: reads of a bitmap whose value is a number.

ghost use Rattle.std.specs.Prelude.{◌≡◌};
ghost use Rattle.bitmap_c.specs.Reads.{found, queried};

use bitmap_core::bitmap::Readable;

/// What is read of a bitmap. Positions, lengths and counts are in bits, and absolute.
#[derive(Clone, Copy)]
pub enum Query {
    /// The length. Pruned bits count.
    Len,
    /// The number of pruned chunks.
    PrunedChunks,
    /// The least retained position from this one on whose bit is 1.
    NextOne(u64),
    /// The least retained position from this one on whose bit is 0.
    NextZero(u64),
    /// The greatest retained position below this one whose bit is 1.
    PrevOne(u64),
    /// The greatest retained position below this one whose bit is 0.
    PrevZero(u64),
    /// The number of retained positions whose bit is 1, from the first position up to the second, which is excluded.
    CountOnes(u64, u64),
    /// The retained position whose bit is 1 and that has this many such positions below it.
    SelectOne(u64),
}

/// Returns how many bits a query reads, as far as the query says: 0 for a search, which ends at the first bit that it finds.
pub fn bits_read(query: Query) -> u64 {
    match query {
        Query::CountOnes(from, to) => to.saturating_sub(from),
        Query::SelectOne(k) => k,
        _ => 0,
    }
}

/// Returns the number that a query reads, or `None` if a search finds nothing.
///
/// # Memory
///
/// Does not allocate.
///
/// # Complexity
///
/// Constant for a length and a number of chunks. Linear in the chunks that a search or a count reads.
pub fn number_read<B: Readable<N>, const N: usize>(bitmap: &B, query: Query) -> Option<u64>
    ensures { found result ≡ queried query N (B.meaning bitmap.now) }
{
    match query {
        Query::Len => Some(bitmap.len()),
        Query::PrunedChunks => Some(bitmap.pruned_chunks() as u64),
        Query::NextOne(from) => bitmap.next_one(from),
        Query::NextZero(from) => bitmap.next_zero(from),
        Query::PrevOne(end) => bitmap.prev_one(end),
        Query::PrevZero(end) => bitmap.prev_zero(end),
        Query::CountOnes(from, to) => Some(bitmap.count_ones_range(from..to)),
        Query::SelectOne(k) => bitmap.select_one(k),
    }
}
