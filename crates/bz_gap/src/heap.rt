//! A gap in the heap, for a list that is reserved next.
//!
//! The C library has a long list from the system, and gives it back there, so what comes after touches new pages. Only where a
//! gap in its heap is large enough does the list lie there, and others where it was. Blocks that are short come from the heap:
//! given back one beside the other they are such a gap. Nothing is written to them, so of each block one page at most is touched.

use std::alloc::{AllocError, Global};

/// How many bytes a block has. The C library has 128 KB and more from the system.
const BLOCK: usize = 65_536;

/// Makes a gap of so many bytes, and answers the block behind it, without which the gap would go back to the system. For less
/// than a block there is none, nor where memory is refused.
pub fn gap(alloc: Global, bytes: usize) -> Option<Vec<u8>> {
    if bytes < BLOCK {
        return None;
    }
    match blocks(alloc, bytes / BLOCK + 2) {
        Ok(mut blocks) => blocks.pop(),
        Err(_) => None,
    }
}

// So many blocks. Their list is longer than the blocks that the C library keeps when they are given back: it joins the gap too.
fn blocks(alloc: Global, count: usize) -> Result<Vec<Vec<u8>>, AllocError> {
    let mut blocks = Vec::with_capacity(alloc, count.max(64))?;
    for _ in 0..count {
        let block = Vec::with_capacity(alloc, BLOCK)?;
        blocks.push(block)?;
    }
    Ok(blocks)
}
