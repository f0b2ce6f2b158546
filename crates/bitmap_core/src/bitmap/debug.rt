//! `Debug` output of a dense bitmap.

ghost use Rattle.std.specs.Prelude.{◌≤◌, drop, take, length, Some};
ghost use Rattle.std.specs.List.{flat_map};
ghost use Rattle.std.specs.Fmt.{DisplaysOnOk, WritesStyledOnOk};
ghost use Rattle.bitmap_core.specs.Text.{digit};

use crate::bitmap::BitMap;
use std::fmt;

// The greatest length at which all bits are shown.
const SHOWN_WHOLE: u64 = 64;

// The number of bits that are shown at each end of a longer bitmap.
const SHOWN_END: u64 = 32;

// Writes the bits at positions from `start` up to `end`, as `1` and `0`.
fn write_bits<const N: usize, W: fmt::Write>(
    bitmap: &BitMap<N>,
    start: u64,
    end: u64,
    f: &mut fmt::Formatter<W>,
) -> fmt::Result
    requires order { start ≤ end }
    requires within { end ≤ length bitmap.now }
    ensures plain { DisplaysOnOk W.write_str_gives f.old result
        (Some (flat_map digit (drop start (take end bitmap.now)))) f.new }
    ensures styled { WritesStyledOnOk W.write_str_gives f.old result
        (flat_map digit (drop start (take end bitmap.now))) f.new }
{
    for i in start..end {
        let digit = if bitmap.get(i) { "1" } else { "0" };
        f.write_str(digit)?;
    }
    Ok(())
}

impl<const N: usize> fmt::Debug for BitMap<N> {
    ghost use Rattle.bitmap_core.specs.Text.{debug_text};

    ghost debug_output = { λ b. Some (debug_text b) };

    /// Writes `BitMap[`, the bits in order as `1` and `0`, and `]`. The options of the formatter have no effect.
    ///
    /// Of more than 64 bits it writes the first 32, `...` and the last 32. Does not allocate itself; at most 67 calls of the writer.
    fn fmt<W: fmt::Write>(&self, f: &mut fmt::Formatter<W>) -> fmt::Result
        ensures writes { DisplaysOnOk W.write_str_gives f.old result
            (Some (debug_text self.now)) f.new }
        ensures styled { WritesStyledOnOk W.write_str_gives f.old result
            (debug_text self.now) f.new }
    {
        let len = self.len();
        f.write_str("BitMap[")?;
        if len <= SHOWN_WHOLE {
            write_bits(self, 0, len, f)?;
        } else {
            write_bits(self, 0, SHOWN_END, f)?;
            f.write_str("...")?;
            write_bits(self, len - SHOWN_END, len, f)?;
        }
        f.write_str("]")
    }
}
