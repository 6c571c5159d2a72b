// The inspection of a memory: does its size fit, and does every block have its check?
ghost use Rattle.std.specs.Prelude.{◌≡◌, ℕ, length, Ok};
ghost use Rattle.stores.specs.Model.{Contents};
ghost use Rattle.layout.specs.Blocks.{fit};
ghost use Rattle.blocks.specs.Inspection.{fit_answer, Inspected, IsImage, FirstUnchecked};

use crate::fault::BlockFault;
use crate::reading::BLOCK_CELLS;
use crate::words::{BLOCK_BYTES, Block, has_check};
use stores::MAX_CELLS;

pub(crate) fn is_fit(size: usize, n: usize) -> bool
    ensures { result ≡ fit size n }
{
    (1..=MAX_CELLS).contains(&n) && size == BLOCK_BYTES * (1 + n.div_ceil(BLOCK_CELLS))
}

// Whether a memory of `size` bytes is that of `n` cells.
pub fn fits(size: usize, n: usize) -> Result<(), BlockFault>
    ensures { result ≡ fit_answer size n }
{
    if is_fit(size, n) {
        Ok(())
    } else {
        Err(BlockFault::Unfit)
    }
}

// Whether the memory fits `n` cells and every block has its check; else the first that fails.
pub fn inspect(mem: &[u8], n: usize) -> Result<(), BlockFault>
    ensures verdict { Inspected mem.now n result }
    ensures image { (s : Contents ℕ) → IsImage mem.now n s → result ≡ Ok tt }
{
    check_blocks(mem, n)
}

fn check_blocks(mem: &[u8], n: usize) -> Result<(), BlockFault>
    ensures verdict { Inspected mem.now n result }
    ensures image { (s : Contents ℕ) → IsImage mem.now n s → result ≡ Ok tt }
{
    fits(mem.len(), n)?;
    let (blocks, _) = mem.as_chunks();
    match first_unchecked(blocks) {
        Some(b) => Err(BlockFault::BadCheck(b)),
        None => Ok(()),
    }
}

// The first block without its check.
fn first_unchecked(blocks: &[Block]) -> Option<usize>
    ensures { FirstUnchecked blocks.now result }
{
    blocks
        .iter()
        .enumerate()
        .position(|(b, block)| !has_check(block, b))
}
