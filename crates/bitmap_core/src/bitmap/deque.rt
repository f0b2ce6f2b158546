//! Operations on the deque of chunks of a bitmap.
//!
//! Loops over chunks are here and not in the methods of `BitMap`: there the proof of a loop would carry the whole value.
//! The contracts describe the deque by its bits (`chunks_bit`) or by its chunks.

mod append;
mod bits;
mod bools;
mod counts;
mod equality;
mod every;
mod growth;
mod pairs;
mod ranges;
mod runs;
mod whole_chunks;

pub use crate::bitmap::deque::append::append_run;
pub use crate::bitmap::deque::bits::{clear_tail, flip_bit, get_bit, get_byte, set_bit, set_byte};
pub use crate::bitmap::deque::bools::{append_bools, from_bools};
pub use crate::bitmap::deque::counts::{count_ones, is_unset};
pub use crate::bitmap::deque::every::{are_equal, combine, feed, fill, flip};
pub use crate::bitmap::deque::growth::{
    append_copies, drop_space, extend_zeros, make_space, shorten,
};
pub use crate::bitmap::deque::pairs::gives_none;
pub use crate::bitmap::deque::ranges::set_range;
pub use crate::bitmap::deque::runs::{bytes, slice_around, slices};
pub use crate::bitmap::deque::whole_chunks::{chunk_at, drop_front, put_front, set_chunk};
