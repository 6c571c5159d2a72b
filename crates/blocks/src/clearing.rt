// A memory cleared at a start, word by word from its first. Blocks and words go by number: std says
// nothing of a memory that is written through an iterator of its chunks.
ghost use Rattle.std.specs.Prelude.{◌≡◌, ℕ, ◌+◌, ◌*◌, ◌^◌, ◌<◌, ◌≤◌, true, length};
ghost use Rattle.stores.specs.Model.{cleared};
ghost use Rattle.layout.specs.Blocks.{fit};
ghost use Rattle.layout.specs.Image.{plain, image, Written};

use crate::reading::BLOCK_CELLS;
use crate::words::{BLOCK_BYTES, CHECK_WORD, put_word};

// What is cleared: so many cells, at this start; `blank` is the word of the blank item.
#[derive(Clone, Copy)]
pub(crate) struct Clearing {
    pub(crate) cells: usize,
    pub(crate) start: u64,
    pub(crate) blank: u64,
}

impl Clearing {
    // Word `j` of block `b`, but for the check: a cell has the blank item, rank -1 and gap -1, and
    // zeros stand past the last.
    fn word(self, b: usize, j: usize) -> u64
        requires block { b < 2 ^ 20 }
        requires plain { j < 63 }
        ensures { result ≡ plain (cleared self.blank self.cells self.start) b j }
    {
        if b == 0 {
            self.counter(j)
        } else if BLOCK_CELLS * (b - 1) + j / 3 >= self.cells {
            0
        } else if j % 3 == 0 {
            self.blank
        } else {
            u64::MAX
        }
    }

    // Word `j` of block 0.
    fn counter(self, j: usize) -> u64
        ensures { result ≡ plain (cleared self.blank self.cells self.start) 0 j }
    {
        match j {
            0 => self.cells as u64,
            1 => self.start,
            2 => u64::MAX,
            _ => 0,
        }
    }

    // Block `b`, where the blocks before it are written.
    fn write_block(self, mem: &mut [u8], b: usize)
        requires few { b < 2 ^ 20 }
        requires room { 512 * b + 512 ≤ length mem.old }
        requires before { Written (plain (cleared self.blank self.cells self.start)) mem.old (512 * b) }
        ensures { Written (plain (cleared self.blank self.cells self.start)) mem.new (512 * (b + 1)) }
    {
        let mut check = b as u64 + 1;
        for j in 0..CHECK_WORD {
            let w = self.word(b, j);
            put_word(mem, BLOCK_BYTES * b + 8 * j, w);
            check = check.wrapping_add(w);
        }
        put_word(mem, BLOCK_BYTES * b + 8 * CHECK_WORD, check);
    }

    // The whole memory.
    pub(crate) fn write(self, mem: &mut [u8])
        requires { fit (length mem.old) self.cells ≡ true }
        ensures { mem.new ≡ image (cleared self.blank self.cells self.start) }
    {
        for b in 0..mem.len() / BLOCK_BYTES {
            self.write_block(mem, b);
        }
    }
}
