//! The functions on the bytes of one chunk, compared with results worked out by hand.

use crate::checks::{equal, expect, ok};
use bitmap_core::chunk;
use bitmap_core::chunk::whole::{And, Or, Xor};
use bitmap_core::chunk::{facts, join, load, whole, words};
use std::alloc::Global;
use std::process::Abort;

// Chunk index, byte index and mask of a position, in chunks of three bytes.
#[test]
fn byte_and_mask_of_positions(rt: HostRuntime) {
    equal(&rt, chunk::chunk_width::<3>(), 24);
    equal(&rt, chunk::chunk_index::<3>(23), 0);
    equal(&rt, chunk::chunk_index::<3>(24), 1);
    equal(&rt, chunk::chunk_count::<3>(24), 1);
    equal(&rt, chunk::chunk_count::<3>(25), 2);
    equal(&rt, chunk::byte_index::<3>(41), 2);
    equal(&rt, chunk::bit_mask(11), 8);
}

// Writes change only their bit or byte.
#[test]
fn one_bit_or_byte_written(rt: HostRuntime) {
    let mut bytes = [1, 2, 3];
    chunk::set_bit(&mut bytes, 23, true);
    equal(&rt, bytes, [1, 2, 0x83]);
    // Position 24 of a bitmap is bit 0 of its second chunk.
    chunk::set_bit(&mut bytes, 24, false);
    equal(&rt, bytes, [0, 2, 0x83]);
    chunk::flip_bit(&mut bytes, 9);
    equal(&rt, bytes, [0, 0, 0x83]);
    chunk::set_byte(&mut bytes, 12, 0xf0);
    equal(&rt, bytes, [0, 0xf0, 0x83]);
    expect(
        &rt,
        chunk::get_bit(&bytes, 12) && !chunk::get_bit(&bytes, 11),
    );
}

// Clears and tests the bits from a position to the end of the chunk.
#[test]
fn bits_from_a_position_on(rt: HostRuntime) {
    let mut bytes = [0xff; 3];
    chunk::clear_from(&mut bytes, 11);
    equal(&rt, bytes, [0xff, 7, 0]);
    expect(&rt, chunk::is_set_from(&bytes, 10));
    expect(&rt, !chunk::is_set_from(&bytes, 11));
    expect(&rt, !chunk::is_set_from(&bytes, u64::MAX));
}

// The lowest three bits of 5 are 1, 0 and 1.
fn check_bools(rt: &impl Abort, alloc: Global) {
    equal(rt, chunk::from_bools::<2>(&[true, false, true]), [5, 0]);
    let mut bools = ok(rt, Vec::with_capacity(alloc, 3));
    chunk::append_bools(&[5, 0], 3, &mut bools);
    expect(rt, bools.as_slice() == &[true, false, true][..]);
}

// A chunk is made from booleans, and gives the same booleans.
#[test]
fn booleans_of_a_chunk(rt: HostRuntime) {
    check_bools(&rt, rt.alloc());
}

// Chunks cut from a run of bytes at any bit, and joined to bits before them.
#[test]
fn chunks_of_a_run(rt: HostRuntime) {
    equal(
        &rt,
        join::chunk_from::<2>(&[0xf0], &[0x81, 1], 4),
        [0x1f, 0x18],
    );
    equal(
        &rt,
        join::chunk_from::<2>(&[0xf0], &[0x81, 1], 12),
        [0x18, 0],
    );
    let mut bytes = [0x0f, 0xff];
    join::join(&mut bytes, 4, &[0xa5], &[0x3c]);
    equal(&rt, bytes, [0x5f, 0xca]);
    let mut bytes = [0x0f, 0xf0];
    join::join_byte(&mut bytes, 4, 0xa5);
    equal(&rt, bytes, [0x5f, 0xfa]);
}

// Words of eight bytes, also where a chunk ends within a word.
#[test]
fn words_of_a_chunk(rt: HostRuntime) {
    equal(&rt, load::high_bits(0xff, 4), 0xf0);
    let mut word = 12;
    equal(&rt, load::take_lowest(&mut word), 2);
    equal(&rt, word, 8);
    equal(&rt, load::word_base::<9>(71), 64);
    equal(&rt, load::following_word::<9>(64), Some(72));
    equal(&rt, load::following_word::<64>(u64::MAX - 63), None);
    equal(&rt, load::word_below(&[0xff; 9], 64, 70), 0x3f);
}

// Flips, sets and clears all bits of a chunk.
#[test]
fn every_bit_at_once(rt: HostRuntime) {
    let mut bytes = [0x0f, 0];
    whole::flip(&mut bytes);
    equal(&rt, bytes, [0xf0, 0xff]);
    whole::fill(&mut bytes, true);
    equal(&rt, bytes, [0xff, 0xff]);
    whole::fill(&mut bytes, false);
    equal(&rt, bytes, [0, 0]);
}

// Combines two chunks by and, or and xor.
#[test]
fn two_chunks_combined(rt: HostRuntime) {
    let mut bytes = [0x0c, 0xff];
    whole::combine::<And, 2>(&mut bytes, &[0x0a, 0x0f]);
    equal(&rt, bytes, [8, 0x0f]);
    whole::combine::<Or, 2>(&mut bytes, &[3, 0xf0]);
    equal(&rt, bytes, [11, 0xff]);
    whole::combine::<Xor, 2>(&mut bytes, &[1, 0x0f]);
    equal(&rt, bytes, [10, 0xf0]);
}

// Counts set bits, and tests ranges of bits.
#[test]
fn bits_of_some_bytes(rt: HostRuntime) {
    equal(&rt, words::count_ones(&[0xff, 1, 0x80]), 10);
    expect(&rt, words::is_unset(&[1, 0, 0x80], 1, 23));
    expect(&rt, !words::is_unset(&[1, 0, 0x80], 0, 23));
    expect(&rt, !words::is_unset(&[1, 0, 0x80], 1, 24));
    expect(&rt, words::is_unset(&[0xff], 5, 5));
}

// Inputs long enough that the functions work by words, and by blocks of words.
#[test]
fn many_bytes(rt: HostRuntime) {
    let run = [0xf0, 0x81, 1, 0, 0, 0, 0, 0, 0x5a, 0x0c];
    let joined = [0x1f, 0x18, 0, 0, 0, 0, 0, 0xa0, 0xc5];
    equal(&rt, join::chunk_from::<9>(&run, &[], 4), joined);
    equal(&rt, join::chunk_from::<9>(&[], &run, 4), joined);
    let mut bytes = [0x0c; 9];
    whole::combine::<Xor, 9>(&mut bytes, &[0x0a; 9]);
    equal(&rt, bytes, [6; 9]);
    equal(&rt, words::count_ones(&[0x11; 75]), 150);
    expect(&rt, words::is_unset(&[0x10; 75], 589, 596));
    expect(&rt, !words::is_unset(&[0x10; 75], 5, 13));
    equal(&rt, load::following_word::<9>(0), Some(64));
}

// The functions that only give facts to the prover leave their arguments unchanged.
#[test]
fn facts_change_nothing(rt: HostRuntime) {
    facts::all_known(&[[1, 2], [3, 4]]);
    equal(&rt, *facts::from_own_bits(&[1, 2]), [1, 2]);
}
