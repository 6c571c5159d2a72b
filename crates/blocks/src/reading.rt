// What the bytes of a memory hold, read where they lie; the checks are not looked at.
ghost use Rattle.std.specs.Prelude.{◌≡◌, ◌+◌, ◌*◌, ◌/◌, ◌%◌, ◌<◌, ◌≤◌, length};
ghost use Rattle.std.specs.Int.{w64};
ghost use Rattle.std.proofs.Common.{to_z};
ghost use Rattle.layout.specs.Words.{word};
ghost use Rattle.layout.specs.Decoding.{part_in, cell_in};
ghost use Rattle.blocks.specs.Readings.{header_answer, cell_answer};

use crate::words::{BLOCK_BYTES, word_at};
use items::ItemKind;
use stores::Cell;

// Cells in a block.
pub(crate) const BLOCK_CELLS: usize = 21;

// Words 0, 1 and 2 of block 0, as they are stored.
#[derive(Clone, Copy, PartialEq, Eq, Debug)]
pub struct Header {
    pub cells: u64,
    pub head: u64,
    pub end: i64,
}

// The header, if the memory has a whole block 0.
pub fn stored_header(mem: &[u8]) -> Option<Header>
    ensures { result ≡ header_answer mem.now }
{
    (BLOCK_BYTES <= mem.len()).then(|| Header {
        cells: word_at(mem, 0),
        head: word_at(mem, 8),
        end: word_at(mem, 16).cast_signed(),
    })
}

// Word `part` of cell `i`.
fn part_at(mem: &[u8], i: usize, part: usize) -> u64
    requires block { 512 * (i / 21) + 1024 ≤ length mem.now }
    requires part { part < 3 }
    ensures { result ≡ part_in mem.now i part }
{
    word_at(
        mem,
        BLOCK_BYTES * (1 + i / BLOCK_CELLS) + 8 * (3 * (i % BLOCK_CELLS) + part),
    )
}

// Cell `i`.
pub(crate) fn cell_at<I: ItemKind>(mem: &[u8], i: usize) -> Cell<I>
    requires { 512 * (i / 21) + 1024 ≤ length mem.now }
    ensures { result ≡ cell_in I.ItemKind.item mem.now i }
{
    Cell {
        item: I::decode(part_at(mem, i, 0)),
        rank: part_at(mem, i, 1).cast_signed(),
        gap: part_at(mem, i, 2).cast_signed(),
    }
}

// Cell `i`, if its block lies whole in the memory.
pub fn stored_cell<I: ItemKind>(mem: &[u8], i: usize) -> Option<Cell<I>>
    ensures { result ≡ cell_answer I.ItemKind.item mem.now i }
{
    (1 + i / BLOCK_CELLS < mem.len() / BLOCK_BYTES).then(|| cell_at(mem, i))
}
