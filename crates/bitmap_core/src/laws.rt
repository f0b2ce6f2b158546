//! Properties of bitmaps that follow from the contracts of the calls. Each law is the contract of a function.
//!
//! The body of a law makes the calls that the law is about. A law without calls is about the definitions that the contracts use.
//! To use a law, call its function in place of the calls. If it makes none, call it in addition to them.
//! A law allocates only in the calls of its body, and has their complexity.
//!
//! ```
//! ghost use Rattle.std.specs.Prelude.{◌≡◌, ◌+◌, ◌^◌, ◌<◌, length};
//!
//! use bitmap_core::bitmap::BitMap;
//! use bitmap_core::laws::whole::push_then_pop;
//! use std::alloc::AllocError;
//!
//! /// Leaves the bitmap as it was, by the law `push_then_pop`.
//! pub fn tried<const N: usize>(bitmap: &mut BitMap<N>) -> Result<bool, AllocError>
//!     requires { length bitmap.old + 1 < 2 ^ 64 }
//!     ensures { bitmap.new ≡ bitmap.old }
//! {
//!     push_then_pop(bitmap, true)
//! }
//! ```

pub mod bitwise;
pub mod codec;
pub mod iteration;
pub mod loads;
pub mod positions;
pub mod prunable;
pub mod searches;
pub mod whole;
