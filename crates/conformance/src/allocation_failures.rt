//! Scenarios for runs in which allocations fail.
//!
//! A tool runs each test many times, and makes another allocation fail in each run. A test ends early if its set-up fails.
//! After a failed call the test shows that the value is unchanged and can be used. As a plain test, no allocation fails.

mod codec;
mod no_allocation;
mod pruned;

use crate::checks::{equal_at, expect, expect_at};
use crate::dense_helpers::holds;
use bitmap_core::bitmap::BitMap;
use std::process::Abort;

// The bits of a bitmap before a call. They fill two chunks of one byte, so one more bit needs an allocation.
const BITS: [bool; 16] = [
    true, false, true, true, false, false, true, false, false, true, true, true, false, true,
    false, true,
];

// As many bits. With `BITS` they make all four pairs.
const OTHERS: [bool; 16] = [
    true, true, false, true, true, false, false, false, true, true, false, true, false, false,
    true, false,
];

// Uses a bitmap that begins with `BITS`, by calls that do not allocate.
fn use_further<const N: usize>(rt: &impl Abort, map: &mut BitMap<N>) {
    expect(rt, map.len() >= 16);
    map.truncate(4);
    map.flip(0);
    map.set(1, true);
    expect(rt, map.pop());
    expect(rt, map.push(false).is_ok());
    expect(rt, holds(map, &[false, true, true, false], &[]));
}

#[test]
fn with_capacity(rt: HostRuntime) {
    if let Ok(map) = BitMap::<3>::with_capacity(rt.alloc(), 1000) {
        expect(&rt, map.is_empty());
    }
}

#[test]
fn zeroes(rt: HostRuntime) {
    if let Ok(map) = BitMap::<3>::zeroes(rt.alloc(), 1000) {
        expect(&rt, holds(&map, &[false; 1000], &[]));
    }
}

#[test]
fn ones(rt: HostRuntime) {
    if let Ok(map) = BitMap::<3>::ones(rt.alloc(), 1000) {
        expect(&rt, holds(&map, &[true; 1000], &[]));
    }
}

#[test]
fn from_bools(rt: HostRuntime) {
    if let Ok(map) = BitMap::<1>::from_bools(rt.alloc(), &BITS) {
        expect(&rt, holds(&map, &BITS, &[]));
    }
}

#[test]
fn to_bools(rt: HostRuntime) {
    let Ok(mut map) = BitMap::<1>::from_bools(rt.alloc(), &BITS) else {
        return;
    };
    if let Ok(bools) = map.to_bools() {
        expect(&rt, bools.as_slice() == BITS.as_slice());
    }
    expect(&rt, holds(&map, &BITS, &[]));
    use_further(&rt, &mut map);
}

#[test]
fn clone(rt: HostRuntime) {
    let Ok(mut map) = BitMap::<1>::from_bools(rt.alloc(), &BITS) else {
        return;
    };
    if let Ok(mut copy) = map.clone() {
        expect(&rt, holds(&copy, &BITS, &[]));
        use_further(&rt, &mut copy);
    }
    expect(&rt, holds(&map, &BITS, &[]));
    use_further(&rt, &mut map);
}

#[test]
fn bitand(rt: HostRuntime) {
    let Ok(mut map) = BitMap::<1>::from_bools(rt.alloc(), &BITS) else {
        return;
    };
    let Ok(other) = BitMap::<1>::from_bools(rt.alloc(), &OTHERS) else {
        return;
    };
    if let Ok(both) = &map & &other {
        for i in 0..16 {
            equal_at(&rt, i, both.get(i as u64), BITS[i] && OTHERS[i]);
        }
    }
    expect(&rt, holds(&other, &OTHERS, &[]));
    expect(&rt, holds(&map, &BITS, &[]));
    use_further(&rt, &mut map);
}

#[test]
fn bitor(rt: HostRuntime) {
    let Ok(mut map) = BitMap::<1>::from_bools(rt.alloc(), &BITS) else {
        return;
    };
    let Ok(other) = BitMap::<1>::from_bools(rt.alloc(), &OTHERS) else {
        return;
    };
    if let Ok(either) = &map | &other {
        for i in 0..16 {
            equal_at(&rt, i, either.get(i as u64), BITS[i] || OTHERS[i]);
        }
    }
    expect(&rt, holds(&other, &OTHERS, &[]));
    expect(&rt, holds(&map, &BITS, &[]));
    use_further(&rt, &mut map);
}

#[test]
fn bitxor(rt: HostRuntime) {
    let Ok(mut map) = BitMap::<1>::from_bools(rt.alloc(), &BITS) else {
        return;
    };
    let Ok(other) = BitMap::<1>::from_bools(rt.alloc(), &OTHERS) else {
        return;
    };
    if let Ok(difference) = &map ^ &other {
        for i in 0..16 {
            equal_at(&rt, i, difference.get(i as u64), BITS[i] != OTHERS[i]);
        }
    }
    expect(&rt, holds(&other, &OTHERS, &[]));
    expect(&rt, holds(&map, &BITS, &[]));
    use_further(&rt, &mut map);
}

#[test]
fn sub(rt: HostRuntime) {
    let Ok(mut map) = BitMap::<1>::from_bools(rt.alloc(), &BITS) else {
        return;
    };
    let Ok(other) = BitMap::<1>::from_bools(rt.alloc(), &OTHERS) else {
        return;
    };
    if let Ok(rest) = &map - &other {
        for i in 0..16 {
            equal_at(&rt, i, rest.get(i as u64), BITS[i] && !OTHERS[i]);
        }
    }
    expect(&rt, holds(&other, &OTHERS, &[]));
    expect(&rt, holds(&map, &BITS, &[]));
    use_further(&rt, &mut map);
}

#[test]
fn push(rt: HostRuntime) {
    let Ok(mut map) = BitMap::<1>::from_bools(rt.alloc(), &BITS) else {
        return;
    };
    let failed = map.push(true).is_err()
        && {
            expect(&rt, holds(&map, &BITS, &[]));
            map.push(true).is_err()
        };
    let added: &[bool] = if failed { &[] } else { &[true] };
    expect(&rt, holds(&map, &BITS, added));
    use_further(&rt, &mut map);
}

#[test]
fn extend_to(rt: HostRuntime) {
    let Ok(mut map) = BitMap::<1>::from_bools(rt.alloc(), &BITS) else {
        return;
    };
    let failed = map.extend_to(39).is_err()
        && {
            expect(&rt, holds(&map, &BITS, &[]));
            map.extend_to(39).is_err()
        };
    let added: &[bool] = if failed { &[] } else { &[false; 23] };
    expect(&rt, holds(&map, &BITS, added));
    use_further(&rt, &mut map);
}

#[test]
fn push_chunk(rt: HostRuntime) {
    let Ok(mut map) = BitMap::<1>::from_bools(rt.alloc(), &BITS) else {
        return;
    };
    let chunk = [0b0100_1101];
    let failed = map.push_chunk(&chunk).is_err()
        && {
            expect(&rt, holds(&map, &BITS, &[]));
            map.push_chunk(&chunk).is_err()
        };
    let added: &[bool] = if failed {
        &[]
    } else {
        &[true, false, true, true, false, false, true, false]
    };
    expect(&rt, holds(&map, &BITS, added));
    use_further(&rt, &mut map);
}

#[test]
fn extend_from_bitmap(rt: HostRuntime) {
    let Ok(mut map) = BitMap::<3>::from_bools(rt.alloc(), &BITS) else {
        return;
    };
    let Ok(other) = BitMap::<8>::from_bools(rt.alloc(), &OTHERS) else {
        return;
    };
    let failed = map.extend_from_bitmap(&other).is_err()
        && {
            expect(&rt, holds(&map, &BITS, &[]));
            map.extend_from_bitmap(&other).is_err()
        };
    let added: &[bool] = if failed { &[] } else { &OTHERS };
    expect(&rt, holds(&map, &BITS, added));
    expect(&rt, holds(&other, &OTHERS, &[]));
    use_further(&rt, &mut map);
}

// Pushes up to the requested capacity do not fail.
#[test]
fn pushes_within_the_capacity(rt: HostRuntime) {
    let Ok(mut map) = BitMap::<1>::with_capacity(rt.alloc(), 20) else {
        return;
    };
    for i in 0..20 {
        expect(&rt, map.len() == i);
        expect_at(&rt, i, map.push(i % 3 == 0).is_ok());
    }
    for i in (0..20).rev() {
        expect(&rt, map.len() == i + 1);
        equal_at(&rt, i, map.pop(), i % 3 == 0);
    }
}
