//! Tests of the bits of two deques of chunks, position by position.

ghost use Rattle.std.specs.Prelude.{◌≡◌, ℕ, ◌+◌, ◌<◌, ◌++◌, false, length};
ghost use Rattle.std.specs.Bool.{Decides};
ghost use Rattle.bitmap_bytes.specs.Bits.{chunks_bit};
ghost use Rattle.bitmap_bytes.specs.Chunk.{bytes_bit};

use crate::bitmap::deque::runs::bytes;
use crate::chunk::pairs;
use crate::chunk::whole::Bitwise;
use std::collections::VecDeque;

// Whether no bit of `a` gives true if it is combined with the bit of `b` at the same position. Both have as many chunks.
pub fn gives_none<B: Bitwise, const N: usize>(a: &VecDeque<[u8; N]>, b: &VecDeque<[u8; N]>) -> bool
    requires positive { 0 < N }
    requires same { length a.now.items ≡ length b.now.items }
    ensures { Decides result
        ((i : ℕ) → B.gives (chunks_bit N a.now.items i) (chunks_bit N b.now.items i) ≡ false) }
{
    let (a_front, a_back) = bytes(a);
    let (b_front, b_back) = bytes(b);
    // `b` is cut into four parts: two are beside the first slice of `a`, and two beside its second slice. One of the four is empty.
    let cut = a_front.len().min(b_front.len());
    let (low, high) = b_front.split_at(cut);
    let (near, far) = b_back.split_at(a_front.len() - cut);
    run_gives_none::<B>(a_front, low, near) && run_gives_none::<B>(a_back, high, far)
}

// The same for a run of bytes beside `front` followed by `back`, which have as many bytes together.
fn run_gives_none<B: Bitwise>(run: &[u8], front: &[u8], back: &[u8]) -> bool
    requires { length run.now ≡ length front.now + length back.now }
    ensures { Decides result
        ((i : ℕ) → B.gives (bytes_bit run.now i) (bytes_bit (front.now ++ back.now) i) ≡ false) }
{
    let (low, high) = run.split_at(front.len());
    pairs::gives_none::<B>(low, front) && pairs::gives_none::<B>(high, back)
}
