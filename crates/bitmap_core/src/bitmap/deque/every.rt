//! Operations on every chunk of a deque.

ghost use Rattle.std.specs.Prelude.{◌≡◌, ℕ, ◌+◌, ◌*◌, ◌/◌, ◌<◌, ◌≤◌, [], ◌++◌, length, not, slice_index_or};
ghost use Rattle.std.specs.Bool.{Decides};
ghost use Rattle.std.specs.List.{fold};
ghost use Rattle.bitmap_bytes.specs.Bits.{chunks_bit, AreChunks};
ghost use Rattle.bitmap_bytes.specs.Chunk.{chunk_bit};
ghost use Rattle.bitmap_bytes.specs.Combined.{IsCombined};

use crate::bitmap::deque::equality::bytes_equal;
use crate::bitmap::deque::runs::slices;
use crate::chunk::facts::all_known;
use crate::chunk::whole::{self, Bitwise};
use std::collections::VecDeque;
use std::hash::Hasher;

// The least width, in bytes, of chunks that are inverted and combined one by one: sixteen of them are not copied to the stack.
const WIDE: usize = 32;

// Inverts every bit.
pub fn flip<const N: usize>(chunks: &mut VecDeque<[u8; N]>)
    requires { 0 < N }
    ensures count { length chunks.new.items ≡ length chunks.old.items }
    ensures bits { (k : ℕ) → k / (8 * N) < length chunks.old.items
        → chunks_bit N chunks.new.items k ≡ not (chunks_bit N chunks.old.items k) }
{
    flip_slice(chunks.make_contiguous());
}

// Sixteen chunks per step, in a copy: the compiler knows the number, and that all indices are within it, so it inverts the bytes of small chunks
// together.
fn flip_slice<const N: usize>(chunks: &mut [[u8; N]])
    requires { 0 < N }
    ensures count { length chunks.new ≡ length chunks.old }
    ensures bits { (k : ℕ) → k < length chunks.old → (t : ℕ)
        → chunk_bit N (slice_index_or chunks.new k []) t
        ≡ not (chunk_bit N (slice_index_or chunks.old k []) t) }
{
    if N >= WIDE {
        let count = chunks.len();
        flip_some(chunks, 0, count);
        return;
    }
    let groups = chunks.len() / 16;
    for i in 0..groups {
        let mut group: [[u8; N]; 16] = chunks[16 * i..16 * i + 16].try_into().unwrap();
        flip_some(&mut group, 0, 16);
        chunks[16 * i..16 * i + 16].copy_from_slice(&group);
    }
    flip_some(chunks, 16 * groups, chunks.len() - 16 * groups);
}

// Inverts every bit of `count` chunks from the index `from` on.
fn flip_some<const N: usize>(chunks: &mut [[u8; N]], from: usize, count: usize)
    requires positive { 0 < N }
    requires within { from + count ≤ length chunks.old }
    ensures count { length chunks.new ≡ length chunks.old }
    ensures bits { (k : ℕ) → from ≤ k → k < from + count → (t : ℕ)
        → chunk_bit N (slice_index_or chunks.new k []) t
        ≡ not (chunk_bit N (slice_index_or chunks.old k []) t) }
    ensures below { (k : ℕ) → k < from
        → slice_index_or chunks.new k [] ≡ slice_index_or chunks.old k [] }
    ensures above { (k : ℕ) → from + count ≤ k
        → slice_index_or chunks.new k [] ≡ slice_index_or chunks.old k [] }
{
    for i in from..from + count {
        whole::flip(&mut chunks[i]);
    }
}

// Sets every bit to `value`.
pub fn fill<const N: usize>(chunks: &mut VecDeque<[u8; N]>, value: bool)
    requires { 0 < N }
    ensures count { length chunks.new.items ≡ length chunks.old.items }
    ensures bits { (k : ℕ) → k / (8 * N) < length chunks.old.items
        → chunks_bit N chunks.new.items k ≡ value }
{
    for chunk in chunks.make_contiguous().iter_mut() {
        whole::fill(chunk, value);
    }
}

// Combines each bit with the bit of `others` at the same position.
pub fn combine<B: Bitwise, const N: usize>(
    chunks: &mut VecDeque<[u8; N]>,
    others: &VecDeque<[u8; N]>,
)
    requires positive { 0 < N }
    requires same { length chunks.old.items ≡ length others.now.items }
    ensures { IsCombined N B.gives chunks.old.items others.now.items chunks.new.items }
{
    let (front, back) = others.as_slices();
    let (head, tail) = chunks.make_contiguous().split_at_mut(front.len());
    combine_slices::<B, N>(head, front);
    combine_slices::<B, N>(tail, back);
}

// Sixteen chunks per step, as in `flip_slice`. The copy of so many wide chunks takes time, so these are combined one by one.
fn combine_slices<B: Bitwise, const N: usize>(chunks: &mut [[u8; N]], others: &[[u8; N]])
    requires positive { 0 < N }
    requires same { length chunks.old ≡ length others.now }
    ensures { IsCombined N B.gives chunks.old others.now chunks.new }
{
    if N >= WIDE {
        combine_some::<B, N>(chunks, others, 0);
        return;
    }
    let groups = chunks.len() / 16;
    for i in 0..groups {
        // Copies, so that the compiler knows that no write changes `others`: it combines all sixteen at once.
        let theirs: [[u8; N]; 16] = others[16 * i..16 * i + 16].try_into().unwrap();
        let mut ours: [[u8; N]; 16] = chunks[16 * i..16 * i + 16].try_into().unwrap();
        combine_some::<B, N>(&mut ours, &theirs, 0);
        chunks[16 * i..16 * i + 16].copy_from_slice(&ours);
    }
    combine_some::<B, N>(chunks, &others[16 * groups..], 16 * groups);
}

// Combines the chunks from the index `from` on with `others`, as many as these are.
fn combine_some<B: Bitwise, const N: usize>(chunks: &mut [[u8; N]], others: &[[u8; N]], from: usize)
    requires positive { 0 < N }
    requires within { from + length others.now ≤ length chunks.old }
    ensures count { length chunks.new ≡ length chunks.old }
    ensures bits { (k : ℕ) → k < length others.now → (t : ℕ)
        → chunk_bit N (slice_index_or chunks.new (from + k) []) t
        ≡ B.gives (chunk_bit N (slice_index_or chunks.old (from + k) []) t)
        (chunk_bit N (slice_index_or others.now k []) t) }
    ensures below { (k : ℕ) → k < from
        → slice_index_or chunks.new k [] ≡ slice_index_or chunks.old k [] }
    ensures above { (k : ℕ) → from + length others.now ≤ k
        → slice_index_or chunks.new k [] ≡ slice_index_or chunks.old k [] }
{
    for i in 0..others.len() {
        let theirs = others[i];
        whole::combine::<B, N>(&mut chunks[from + i], &theirs);
    }
}

// Whether two deques of the same length have the same bits.
pub fn are_equal<const N: usize>(a: &VecDeque<[u8; N]>, b: &VecDeque<[u8; N]>) -> bool
    requires positive { 0 < N }
    requires same { length a.now.items ≡ length b.now.items }
    ensures { Decides result ((k : ℕ) → chunks_bit N a.now.items k ≡ chunks_bit N b.now.items k) }
{
    let (a_front, a_back) = slices(a);
    let (b_front, b_back) = slices(b);
    if a_front.len() <= b_front.len() {
        runs_equal(a_front, a_back, b_front, b_back)
    } else {
        runs_equal(b_front, b_back, a_front, a_back)
    }
}

// Whether `front` followed by `back` equals `longer` followed by `rest`. `front` is no longer than `longer`.
fn runs_equal<const N: usize>(
    front: &[[u8; N]],
    back: &[[u8; N]],
    longer: &[[u8; N]],
    rest: &[[u8; N]],
) -> bool
    requires order { length front.now ≤ length longer.now }
    requires same { length front.now + length back.now ≡ length longer.now + length rest.now }
    ensures { Decides result (front.now ++ back.now ≡ longer.now ++ rest.now) }
{
    let (low, high) = longer.split_at(front.len());
    let (near, far) = back.split_at(high.len());
    slices_equal(front, low) && slices_equal(near, high) && slices_equal(far, rest)
}

// Compares bytes and not chunks, so that many are compared at once.
fn slices_equal<const N: usize>(a: &[[u8; N]], b: &[[u8; N]]) -> bool
    requires { length a.now ≡ length b.now }
    ensures { Decides result (a.now ≡ b.now) }
{
    all_known(a);
    all_known(b);
    bytes_equal(a.as_flattened(), b.as_flattened())
}

// Feeds each chunk to a hasher, in order.
pub fn feed<const N: usize, H: Hasher>(chunks: &VecDeque<[u8; N]>, state: &mut H)
    ensures fed { state.new ≡ fold H.write state.old chunks.now.items }
    ensures known { AreChunks N chunks.now.items }
{
    let (front, back) = slices(chunks);
    feed_slice(front, state);
    feed_slice(back, state);
}

fn feed_slice<const N: usize, H: Hasher>(chunks: &[[u8; N]], state: &mut H)
    ensures { state.new ≡ fold H.write state.old chunks.now }
{
    for chunk in chunks {
        state.write(chunk);
    }
}
