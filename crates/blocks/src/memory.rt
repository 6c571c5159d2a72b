// Block memory: a store over lent bytes.
ghost use Rattle.std.specs.Prelude.{◌≡◌, ◌^◌, ◌≤◌, false, length};
ghost use Rattle.layout.specs.Blocks.{fit};
ghost use Rattle.layout.specs.Decoding.{Imaged, Imaged-prop};
ghost use Rattle.blocks.specs.Models.{made_model};

use crate::slices::{self, Part};
use items::ItemKind;
use std::marker::PhantomData;
use stores::{MAX_HEAD, Store, StoreFault, check_cell, check_some, check_start};

#[derive(Drop)]
pub struct BlockMemory<'a, I: ItemKind> {
    mem: &'a mut [u8],
    // The number of cells, if the memory's size fits it; else there are none. Memories of several numbers have one size.
    n: usize,
    kind: PhantomData<I>,
    // The bytes are the image of what they mean.
    ghost image: { Imaged I.ItemKind.word I.ItemKind.item n mem.now } by { Imaged-prop _ _ _ _ },
}

impl<'a, I: ItemKind> BlockMemory<'a, I> {
    ghost use Rattle.blocks.specs.Memory.{memory_model, memory};

    // A store of `n` cells over these bytes, cleared at 0. Bytes that do not fit are left alone.
    pub fn new(mem: &'a mut [u8], n: usize) -> BlockMemory<'a, I>
        ensures model { memory_model result ≡ made_model I.ItemKind.blank (length mem.old) n }
        ensures alone { fit (length mem.old) n ≡ false → memory result ≡ mem.old }
        ensures lent { result.mem.ghost_name ≡ mem.entry.ghost_name }
    {
        slices::make_in::<I>(mem, n);
        BlockMemory {
            mem,
            n,
            kind: PhantomData,
        }
    }

    fn bounded_head(&self) -> u64
        ensures value { result ≡ (memory_model self.now).head }
        ensures bound { result ≤ 2 ^ 40 }
    {
        slices::head_in::<I>(self.mem, self.n)
    }
}

impl<'a, I: ItemKind> Store for BlockMemory<'a, I> {
    ghost use Rattle.blocks.specs.Memory.{memory_model, memory_bound, memory_imaged};

    type Item = I;

    type Fault = StoreFault;

    ghost model = { memory_model };

    ghost bound = { memory_bound };

    ghost imaged = { memory_imaged };

    ghost image = { λ s. s.image };

    ghost lender = { λ s. s.mem.ghost_name };

    fn cells(&self) -> usize {
        slices::cells_in::<I>(self.mem, self.n)
    }

    fn head(&self) -> u64 {
        self.bounded_head()
    }

    fn end_mark(&self) -> i64 {
        slices::end_in::<I>(self.mem, self.n)
    }

    fn item(&self, i: usize) -> Result<I, StoreFault> {
        check_cell(self.cells(), i)?;
        Ok(slices::cell_in::<I>(self.mem, self.n, i).item)
    }

    fn rank(&self, i: usize) -> Result<i64, StoreFault> {
        check_cell(self.cells(), i)?;
        Ok(slices::cell_in::<I>(self.mem, self.n, i).rank)
    }

    fn gap(&self, i: usize) -> Result<i64, StoreFault> {
        check_cell(self.cells(), i)?;
        Ok(slices::cell_in::<I>(self.mem, self.n, i).gap)
    }

    fn put_item(&mut self, i: usize, item: I) -> Result<(), StoreFault> {
        check_cell(self.cells(), i)?;
        slices::put_in(self.mem, self.n, i, Part::Item(item));
        Ok(())
    }

    fn put_rank(&mut self, i: usize, rank: i64) -> Result<(), StoreFault> {
        check_cell(self.cells(), i)?;
        slices::put_in::<I>(self.mem, self.n, i, Part::Rank(rank));
        Ok(())
    }

    fn put_gap(&mut self, i: usize, gap: i64) -> Result<(), StoreFault> {
        check_cell(self.cells(), i)?;
        slices::put_in::<I>(self.mem, self.n, i, Part::Gap(gap));
        Ok(())
    }

    fn set_end(&mut self, mark: i64) -> Result<(), StoreFault> {
        check_some(self.cells())?;
        slices::set_end_in::<I>(self.mem, self.n, mark);
        Ok(())
    }

    fn next_rank(&mut self) -> Result<u64, StoreFault> {
        check_some(self.cells())?;
        let rank = self.bounded_head();
        if rank == MAX_HEAD {
            return Err(StoreFault::RanksUsedUp);
        }
        slices::set_head_in::<I>(self.mem, self.n, rank + 1);
        Ok(rank)
    }

    fn clear(&mut self, start: u64) -> Result<(), StoreFault> {
        check_start(self.cells(), start)?;
        slices::clear_in::<I>(self.mem, self.n, start);
        Ok(())
    }
}
