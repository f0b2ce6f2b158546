//! Output that is held in memory until all of it is printed.

ghost use Rattle.std.specs.Prelude.{◌≤◌, IfOk, length};

use std::alloc::{AllocError, Global};
use std::io;
use std::io::Write;

// The bytes of a block.
const BLOCK_SIZE: usize = 65536;

/// A writer that holds the bytes written to it.
///
/// The bytes are in blocks of 64 KiB, which do not move in memory as more bytes are written.
#[derive(Drop)]
pub struct Output {
    alloc: Global,
    // All blocks but the last are full.
    blocks: Vec<Vec<u8>>,
}

// Appends bytes to a block until it is full. Returns how many.
fn fill(block: &mut Vec<u8>, bytes: &[u8]) -> Result<usize, AllocError>
    ensures { IfOk result (λ count. count ≤ length bytes.now) }
{
    let count = bytes.len().min(BLOCK_SIZE.saturating_sub(block.len()));
    block.extend_from_slice(&bytes[..count])?;
    Ok(count)
}

impl Output {
    /// Creates an output without bytes.
    ///
    /// Does not allocate; constant time.
    pub fn new(alloc: Global) -> Self {
        Output {
            alloc,
            blocks: Vec::new(alloc),
        }
    }

    /// Writes all bytes to `out` and flushes it.
    ///
    /// # Errors
    ///
    /// Returns the errors of `out` as they are.
    ///
    /// # Memory
    ///
    /// Does not allocate.
    ///
    /// # Complexity
    ///
    /// Linear in the bytes.
    pub fn print<W: Write>(&self, out: &mut W) -> io::Result<()> {
        for block in &self.blocks {
            out.write_all(block.as_slice())?;
        }
        out.flush()
    }
}

impl Write for Output {
    /// Appends bytes up to the end of the last block, or to a new block if the last one is full. Returns how many.
    ///
    /// # Errors
    ///
    /// Returns an error of the kind `OutOfMemory` if a new block cannot be allocated. The output is unchanged then.
    ///
    /// # Memory
    ///
    /// Allocates a new block if the last one is full.
    ///
    /// # Complexity
    ///
    /// Linear in the bytes.
    fn write(&mut self, bytes: &[u8]) -> io::Result<usize> {
        if let Some(block) = self.blocks.last_mut()
            && block.len() < BLOCK_SIZE
        {
            return Ok(fill(block, bytes)?);
        }
        let mut block = Vec::with_capacity(self.alloc, BLOCK_SIZE)?;
        let count = fill(&mut block, bytes)?;
        self.blocks.push(block)?;
        Ok(count)
    }

    fn flush(&mut self) -> io::Result<()> {
        Ok(())
    }
}
