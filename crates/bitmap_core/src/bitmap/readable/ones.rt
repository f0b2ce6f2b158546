//! The iterator over the positions of a range whose bit is set, or is not set, by words of 64 bits.
//!
//! Whole chunks that a bitmap has in a slice are read in place. Any other chunk is copied once.

ghost use Rattle.std.specs.Prelude.{◌≡◌, ◌≢◌, ℕ, ◌+◌, ◌-◌, ◌*◌, ◌/◌, ◌%◌, ◌^◌, ◌<◌, ◌≤◌, ◌==◌, true, false, [], length, min};
ghost use Rattle.std.specs.Int.{bit_at};
ghost use Rattle.std.specs.Iterator.{item_count};
ghost use Rattle.std.specs.Iterator.Runs.{YieldsInOrder};
ghost use Rattle.bitmap_bytes.specs.Chunk.{chunk_bit, is_wanted, IsWidth};
ghost use Rattle.bitmap_bytes.specs.Words.{starts_word, next_word, IsCut};
ghost use Rattle.bitmap_core.specs.Meaning.{left_from, IsScan, ones, ones_between, seen_as, words, IsLawful, IsRetained, IsScanStep, ShowsChunk};

use crate::bitmap::readable::Readable;
use crate::bitmap::readable::in_place::{first_wanted, run_from};
use crate::bitmap::readable::loads::load_word;
use crate::chunk::load::{following_word, high_bits, take_lowest, word_base};
use crate::chunk::{chunk_index, chunk_width};
use std::marker::Model;
use std::ops::Range;

/// An iterator over the positions of a range whose bit is set, in ascending order.
///
/// The iterators that `zeros_iter_range` and `zeros_iter_from` return are over the positions whose bit is not set.
/// Each word of the range is loaded at most once, and `get_chunk` is called at most once per chunk.
/// After the last position, `next` always returns `None`. No call of `next` allocates.
///
/// The head of the module `readable` has an example.
#[derive(Drop)]
pub struct OnesIter<'a, B: Readable<N>, const N: usize> {
    readable: &'a B,
    // The end of the range, at most the length.
    end: u64,
    // Whether the positions whose bit is set are wanted. If false, those whose bit is not set are.
    wanted: bool,
    // Words in place, from position `next` of the cursor on.
    run: &'a [[u8; 8]],
    cursor: Cursor<N>,
}

#[derive(Drop)]
struct Cursor<const N: usize> {
    // For contracts only: where the range begins.
    first: u64,
    // Where the current word begins, or the end of the range if the range is empty.
    base: u64,
    // The wanted bits of that word whose position has not been returned.
    word: u64,
    // The position after the bits of that word, at most the end of the range.
    next: u64,
    // The chunk that was copied last.
    chunk: [u8; N],
    // For contracts only: the number of words loaded.
    loads: u64,
}

impl<'a, B: Readable<N>, const N: usize> Model for OnesIter<'a, B, N> {
    ghost use Rattle.bitmap_core.specs.Meaning.{IsIterating, Scan, left_from, seen_as, words_between};

    ghost Value = { Scan };

    ghost view = { λ s. record {
      left = left_from (seen_as s.wanted (B.meaning s.readable.now)) s.cursor.base s.cursor.word s.cursor.next s.end;
      loads = s.cursor.loads;
      words = words_between N s.cursor.first s.end;
      ahead = words_between N s.cursor.next s.end;
    } };

    ghost invariant = { λ s. IsIterating N
        (B.meaning s.readable.now) s.cursor.base s.cursor.word s.cursor.next s.end s.run.now
        s.cursor.chunk s.cursor.loads s.cursor.first };
}

// The position at which the next word begins after the word at `base`, or `end` if that is less.
fn next_below<const N: usize>(base: u64, end: u64) -> u64
    requires width { IsWidth N }
    ensures { result ≡ min (next_word N base) end }
{
    match following_word::<N>(base) {
        Some(next) => next.min(end),
        None => end,
    }
}

// Moves to the next word with a bit whose position has not been returned, if there is one. Returns the words in place after it.
fn advance<'a, B: Readable<N>, const N: usize>(
    readable: &'a B,
    end: u64,
    wanted: bool,
    run: &'a [[u8; 8]],
    cursor: &mut Cursor<N>,
) -> &'a [[u8; 8]]
    requires scan { IsScan N
        (B.meaning readable.now) cursor.old.next end run.now cursor.old.chunk cursor.old.loads
        cursor.old.first }
    requires cut { IsCut cursor.old.base cursor.old.word end }
    ensures scan { IsScan N (B.meaning readable.now) cursor.new.next end result.now cursor.new.chunk
        cursor.new.loads cursor.new.first }
    ensures cut { IsCut cursor.new.base cursor.new.word end }
    ensures first { cursor.new.first ≡ cursor.old.first }
    ensures counted { cursor.old.loads ≤ cursor.new.loads }
    ensures left { left_from
        (seen_as wanted (B.meaning readable.now)) cursor.new.base cursor.new.word cursor.new.next
        end ≡ left_from (seen_as wanted (B.meaning readable.now)) cursor.old.base cursor.old.word
        cursor.old.next end }
    ensures ended { cursor.new.word ≡ 0
        → left_from (seen_as wanted (B.meaning readable.now)) cursor.new.base cursor.new.word
        cursor.new.next end ≡ [] }
{
    let mut rest = run;
    while cursor.word == 0 {
        if cursor.next >= end {
            return rest;
        }
        rest = load_more(readable, end, wanted, rest, cursor);
    }
    rest
}

// Moves to the next word in place with a wanted bit, or past all of them. If there are none, calls `refill`.
//
// Returns the words in place that are left.
fn load_more<'a, B: Readable<N>, const N: usize>(
    readable: &'a B,
    end: u64,
    wanted: bool,
    run: &'a [[u8; 8]],
    cursor: &mut Cursor<N>,
) -> &'a [[u8; 8]]
    requires scan { IsScan N
        (B.meaning readable.now) cursor.old.next end run.now cursor.old.chunk cursor.old.loads
        cursor.old.first }
    requires used { cursor.old.word ≡ 0 }
    requires below { cursor.old.next < end }
    ensures scan { IsScan N (B.meaning readable.now) cursor.new.next end result.now cursor.new.chunk
        cursor.new.loads cursor.new.first }
    ensures cut { IsCut cursor.new.base cursor.new.word end }
    ensures first { cursor.new.first ≡ cursor.old.first }
    ensures counted { cursor.old.loads ≤ cursor.new.loads }
    ensures left { left_from
        (seen_as wanted (B.meaning readable.now)) cursor.new.base cursor.new.word cursor.new.next
        end ≡ ones_between (seen_as wanted (B.meaning readable.now)).bit cursor.old.next end }
    ensures moves { 2 * (end - cursor.new.next) + (1 - length result.now)
        < 2 * (end - cursor.old.next) + (1 - length run.now) }
{
    if run.is_empty() {
        return refill(readable, end, wanted, cursor);
    }
    let (passed, word) = first_wanted(run, wanted, &mut cursor.loads);
    cursor.base = cursor.next + 64 * passed as u64;
    cursor.next = cursor.base;
    if passed == run.len() {
        return &[];
    }
    cursor.word = word;
    cursor.next += 64;
    &run[passed + 1..]
}

// Returns the words in place from position `next` of the cursor on. If there are none, loads the word there from a copy of its chunk.
#[inline(never)]
fn refill<'a, B: Readable<N>, const N: usize>(
    readable: &'a B,
    end: u64,
    wanted: bool,
    cursor: &mut Cursor<N>,
) -> &'a [[u8; 8]]
    requires scan { IsScan N
        (B.meaning readable.now) cursor.old.next end [] cursor.old.chunk cursor.old.loads
        cursor.old.first }
    requires used { cursor.old.word ≡ 0 }
    requires below { cursor.old.next < end }
    ensures scan { IsScan N (B.meaning readable.now) cursor.new.next end result.now cursor.new.chunk
        cursor.new.loads cursor.new.first }
    ensures cut { IsCut cursor.new.base cursor.new.word end }
    ensures first { cursor.new.first ≡ cursor.old.first }
    ensures counted { cursor.old.loads ≤ cursor.new.loads }
    ensures left { left_from
        (seen_as wanted (B.meaning readable.now)) cursor.new.base cursor.new.word cursor.new.next
        end ≡ ones_between (seen_as wanted (B.meaning readable.now)).bit cursor.old.next end }
    ensures moves { 2 * (end - cursor.new.next) + (1 - length result.now)
        < 2 * (end - cursor.old.next) + 1 }
{
    let run = run_from(readable, cursor.next, end);
    if !run.is_empty() {
        return run;
    }
    load_copied(readable, end, wanted, cursor);
    &[]
}

// Loads the word at position `next` of the cursor from a copy of its chunk.
fn load_copied<B: Readable<N>, const N: usize>(
    readable: &B,
    end: u64,
    wanted: bool,
    cursor: &mut Cursor<N>,
)
    requires scan { IsScan N
        (B.meaning readable.now) cursor.old.next end [] cursor.old.chunk cursor.old.loads
        cursor.old.first }
    requires below { cursor.old.next < end }
    ensures scan { IsScan N (B.meaning readable.now) cursor.new.next end [] cursor.new.chunk
        cursor.new.loads cursor.new.first }
    ensures cut { IsCut cursor.new.base cursor.new.word end }
    ensures first { cursor.new.first ≡ cursor.old.first }
    ensures counted { cursor.new.loads ≡ cursor.old.loads + 1 }
    ensures left { left_from
        (seen_as wanted (B.meaning readable.now)) cursor.new.base cursor.new.word cursor.new.next
        end ≡ ones_between (seen_as wanted (B.meaning readable.now)).bit cursor.old.next end }
    ensures moves { cursor.old.next < cursor.new.next }
    ensures within { cursor.new.next ≤ end }
{
    let base = cursor.next;
    turn_chunk(readable, base, &mut cursor.chunk);
    cursor.base = base;
    cursor.word = load_word(&cursor.chunk, base, end, wanted, &mut cursor.loads);
    cursor.next = next_below::<N>(base, end);
}

// Gets the chunk of `base` if a chunk begins there.
fn turn_chunk<B: Readable<N>, const N: usize>(readable: &B, base: u64, chunk: &mut [u8; N])
    requires lawful { IsLawful N (B.meaning readable.now) }
    requires retained { IsRetained N (B.meaning readable.now) base }
    requires shown { base % (8 * N) ≢ 0
        → ShowsChunk N (B.meaning readable.now) (base / (8 * N)) chunk.old }
    ensures shown { ShowsChunk N (B.meaning readable.now) (base / (8 * N)) chunk.new }
    ensures len { length chunk.new ≡ N }
{
    if base % chunk_width::<N>() == 0 {
        *chunk = readable.get_chunk(chunk_index::<N>(base));
    }
}

impl<'a, B: Readable<N>, const N: usize> OnesIter<'a, B, N> {
    // The wanted positions in a range of a bitmap of length `len`. Gets the first chunk of the range.
    pub(crate) fn over(readable: &'a B, len: u64, range: Range<u64>, wanted: bool) -> Self
        requires lawful { IsLawful N (B.meaning readable.now) }
        requires len { len ≡ (B.meaning readable.now).len }
        ensures positions { result.left
            ≡ ones N (seen_as wanted (B.meaning readable.now)) range.start range.end }
        ensures words { result.words ≡ words N (B.meaning readable.now) range.start range.end }
        ensures loads { result.loads ≤ result.words }
        ensures bound { length result.left < 2 ^ 64 }
        ensures runs { YieldsInOrder IsScanStep (λ s. s.left) }
    {
        let end = range.end.min(len);
        let position = range.start.max(readable.pruned_bits());
        if position >= end {
            return OnesIter {
                readable,
                end,
                wanted,
                run: &[],
                cursor: Cursor {
                    first: position,
                    base: end,
                    word: 0,
                    next: end,
                    chunk: [0; N],
                    loads: 0,
                },
            };
        }
        let base = word_base::<N>(position);
        let chunk = readable.get_chunk(chunk_index::<N>(position));
        let mut loads = 0;
        let word = load_word(&chunk, base, end, wanted, &mut loads);
        OnesIter {
            readable,
            end,
            wanted,
            run: &[],
            cursor: Cursor {
                first: position,
                base,
                word: high_bits(word, position - base),
                next: next_below::<N>(base, end),
                chunk,
                loads,
            },
        }
    }

    // States the bound on the number of loads, which holds for every value.
    pub(crate) fn loads_within_words(&self)
        ensures { self.now.loads ≤ self.now.words }
    {
        let _ = &self.end;
    }
}

impl<'a, B: Readable<N>, const N: usize> Iterator for OnesIter<'a, B, N> {
    type Item = u64;

    ghost next_gives = { IsScanStep };

    ghost remaining = { item_count (λ s. s.left) };

    fn next(&mut self) -> Option<u64> {
        // Within a word nothing else changes, so the compiler need not store it.
        if self.cursor.word == 0 {
            self.run = advance(
                self.readable,
                self.end,
                self.wanted,
                self.run,
                &mut self.cursor,
            );
            if self.cursor.word == 0 {
                return None;
            }
        }
        let place = take_lowest(&mut self.cursor.word);
        Some(self.cursor.base + place)
    }
}
