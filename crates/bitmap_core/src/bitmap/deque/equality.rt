//! Equality of two slices of bytes.

ghost use Rattle.std.specs.Prelude.{◌≡◌, ◌*◌, length};
ghost use Rattle.std.specs.Bool.{Decides};

// Slices of at least this many bytes are long. Two shorter ones fit the first cache of most processors.
const LONG_SLICE: usize = 1 << 14;

// Whether two slices of bytes are equal.
pub fn bytes_equal(a: &[u8], b: &[u8]) -> bool
    requires { length a.now ≡ length b.now }
    ensures { Decides result (a.now ≡ b.now) }
{
    if a.len() < LONG_SLICE {
        a == b
    } else {
        long_slices_equal(a, b)
    }
}

// Compares the quarters side by side: a processor that reads at several places fetches more bytes ahead.
// It is never inlined, so that the function above stays small enough to be.
#[inline(never)]
fn long_slices_equal(a: &[u8], b: &[u8]) -> bool
    requires { length a.now ≡ length b.now }
    ensures { Decides result (a.now ≡ b.now) }
{
    let count = a.len() / 256;
    let (a_quarters, a_rest) = a.split_at(256 * count);
    let (b_quarters, b_rest) = b.split_at(256 * count);
    let (a_blocks, _) = a_quarters.as_chunks::<64>();
    let (b_blocks, _) = b_quarters.as_chunks::<64>();
    quarters_equal(a_blocks, b_blocks, count) && a_rest == b_rest
}

// Compares a block of each quarter per step. A quarter has `count` blocks.
fn quarters_equal(a: &[[u8; 64]], b: &[[u8; 64]], count: usize) -> bool
    requires four { length a.now ≡ 4 * count }
    requires same { length a.now ≡ length b.now }
    ensures { Decides result (a.now ≡ b.now) }
{
    for i in 0..count {
        if !(blocks_equal(&a[i], &b[i])
            && blocks_equal(&a[count + i], &b[count + i])
            && blocks_equal(&a[2 * count + i], &b[2 * count + i])
            && blocks_equal(&a[3 * count + i], &b[3 * count + i]))
        {
            return false;
        }
    }
    true
}

// Whether two blocks are equal. The compiler knows the length of a block, so it combines the bytes in wide words and tests once.
fn blocks_equal(a: &[u8; 64], b: &[u8; 64]) -> bool
    ensures { Decides result (a.now ≡ b.now) }
{
    let mut differing = 0;
    for i in 0..64 {
        differing |= a[i] ^ b[i];
    }
    differing == 0
}
