//! The bits of one chunk.

use bitmap_bytes::chunk;

/// Returns the chunk `[8, 0, 0, 0]`, and whether its bit 3 is set: true.
pub fn marked() -> ([u8; 4], bool) {
    let mut marks = [0; 4];
    chunk::set_bit(&mut marks, 3, true);
    let is_set = chunk::get_bit(&marks, 3);
    (marks, is_set)
}

#[cfg(test)]
mod tests {
    use super::*;
    use crate::checks::equal;

    #[test]
    fn marks_its_bit(rt: HostRuntime) {
        equal(&rt, marked(), ([8, 0, 0, 0], true));
    }
}
