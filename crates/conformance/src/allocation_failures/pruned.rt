//! A bitmap with a pruned prefix.

use crate::checked_calls::{
    pop, prune_to_bit, set_bit, truncate, try_extend_from_bitmap, try_push, try_push_byte,
    try_push_chunk, try_unprune,
};
use crate::checks::expect;
use bitmap_core::bitmap::BitMap;
use bitmap_core::bitmap::prunable::Prunable;
use std::alloc::Global;
use std::process::Abort;
use test_support::compare::has_bits;

// The bits after two pruned chunks of one byte before a call, as digits.
const DIGITS: &[u8] = b"1011001001110101";

// The same bits, as booleans.
const BOOLS: [bool; 16] = [
    true, false, true, true, false, false, true, false, false, true, true, true, false, true,
    false, true,
];

// The bitmap before a call, or `None` if an allocation fails. Its two chunks fill the deque, which has wrapped.
fn set_up(rt: &impl Abort, alloc: Global) -> Option<Prunable<1>> {
    let mut has_capacity = Prunable::<1>::new_with_pruned_chunks(alloc, 1).ok()?;
    try_push_chunk(rt, &mut has_capacity, &[0xff]).ok()?;
    try_push_chunk(rt, &mut has_capacity, &[0x4d]).ok()?;
    let mut map = has_capacity.clone().ok()?;
    prune_to_bit(rt, &mut map, 16);
    try_push_chunk(rt, &mut map, &[0xae]).ok()?;
    Some(map)
}

// Uses a bitmap that begins with those bits, by calls that do not allocate.
fn use_further(rt: &impl Abort, map: &mut Prunable<1>) {
    truncate(rt, map, 20);
    set_bit(rt, map, 17, true);
    expect(rt, pop(rt, map));
    expect(rt, try_push(rt, map, false).is_ok());
    expect(rt, has_bits(map, map.pruned_chunks(), b"1110"));
}

#[test]
fn clone(rt: HostRuntime) {
    let Some(mut map) = set_up(&rt, rt.alloc()) else {
        return;
    };
    if let Ok(mut copy) = map.clone() {
        expect(&rt, has_bits(&copy, 2, DIGITS));
        use_further(&rt, &mut copy);
    }
    expect(&rt, has_bits(&map, 2, DIGITS));
    use_further(&rt, &mut map);
}

#[test]
fn bit_pushed(rt: HostRuntime) {
    let Some(mut map) = set_up(&rt, rt.alloc()) else {
        return;
    };
    let failed = try_push(&rt, &mut map, true).is_err()
        && {
            expect(&rt, has_bits(&map, 2, DIGITS));
            try_push(&rt, &mut map, true).is_err()
        };
    let after: &[u8] = if failed { DIGITS } else { b"10110010011101011" };
    expect(&rt, has_bits(&map, 2, after));
    use_further(&rt, &mut map);
}

#[test]
fn byte_pushed(rt: HostRuntime) {
    let Some(mut map) = set_up(&rt, rt.alloc()) else {
        return;
    };
    let failed = try_push_byte(&rt, &mut map, 0x4d).is_err()
        && {
            expect(&rt, has_bits(&map, 2, DIGITS));
            try_push_byte(&rt, &mut map, 0x4d).is_err()
        };
    let after: &[u8] = if failed {
        DIGITS
    } else {
        b"101100100111010110110010"
    };
    expect(&rt, has_bits(&map, 2, after));
    use_further(&rt, &mut map);
}

#[test]
fn chunk_pushed(rt: HostRuntime) {
    let Some(mut map) = set_up(&rt, rt.alloc()) else {
        return;
    };
    let failed = try_push_chunk(&rt, &mut map, &[0x4d]).is_err()
        && {
            expect(&rt, has_bits(&map, 2, DIGITS));
            try_push_chunk(&rt, &mut map, &[0x4d]).is_err()
        };
    let after: &[u8] = if failed {
        DIGITS
    } else {
        b"101100100111010110110010"
    };
    expect(&rt, has_bits(&map, 2, after));
    use_further(&rt, &mut map);
}

#[test]
fn zeros_appended(rt: HostRuntime) {
    let Some(mut map) = set_up(&rt, rt.alloc()) else {
        return;
    };
    let failed = map.extend_to(55).is_err()
        && {
            expect(&rt, has_bits(&map, 2, DIGITS));
            map.extend_to(55).is_err()
        };
    let after: &[u8] = if failed {
        DIGITS
    } else {
        b"101100100111010100000000000000000000000"
    };
    expect(&rt, has_bits(&map, 2, after));
    use_further(&rt, &mut map);
}

#[test]
fn bitmap_appended(rt: HostRuntime) {
    let Some(mut map) = set_up(&rt, rt.alloc()) else {
        return;
    };
    let Ok(other) = BitMap::<3>::from_bools(rt.alloc(), &BOOLS) else {
        return;
    };
    let failed = try_extend_from_bitmap(&rt, &mut map, &other).is_err()
        && {
            expect(&rt, has_bits(&map, 2, DIGITS));
            try_extend_from_bitmap(&rt, &mut map, &other).is_err()
        };
    let after: &[u8] = if failed {
        DIGITS
    } else {
        b"10110010011101011011001001110101"
    };
    expect(&rt, has_bits(&map, 2, after));
    use_further(&rt, &mut map);
}

#[test]
fn chunks_put_back(rt: HostRuntime) {
    let Some(mut map) = set_up(&rt, rt.alloc()) else {
        return;
    };
    let chunks = [[0x0f], [0x33]];
    let failed = try_unprune(&rt, &mut map, &chunks).is_err()
        && {
            expect(&rt, has_bits(&map, 2, DIGITS));
            try_unprune(&rt, &mut map, &chunks).is_err()
        };
    if !failed {
        expect(&rt, has_bits(&map, 0, b"11110000110011001011001001110101"));
        prune_to_bit(&rt, &mut map, 16);
    }
    expect(&rt, has_bits(&map, 2, DIGITS));
    use_further(&rt, &mut map);
}
