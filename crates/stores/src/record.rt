// Record memory: a store over lent cell records.
ghost use Rattle.std.specs.Prelude.{◌≡◌, false, length, replicate};
ghost use Rattle.stores.specs.Records.{record_model, record_bound, records_fit, records, made_model};

use crate::cell::Cell;
use crate::checks::{check_cell, check_some, check_start};
use crate::limits::{MAX_CELLS, MAX_HEAD};
use crate::refusal::StoreFault;
use crate::store::Store;
use items::ItemKind;

#[derive(Drop)]
pub struct RecordMemory<'a, I> {
    cells: &'a mut [Cell<I>],
    // The next rank to hand out; anything above 2^40 counts as 2^40.
    head: u64,
    // -1 while the queue is open, else the first rank that is cut off. Any mark that is set is kept.
    end: i64,
}

impl<'a, I: ItemKind> RecordMemory<'a, I> {
    // A store over these records, cleared at 0. Records that make no store are left alone.
    pub fn new(cells: &'a mut [Cell<I>]) -> RecordMemory<'a, I>
        ensures model { record_model result ≡ made_model I.ItemKind.blank cells.old }
        ensures alone { records_fit (length cells.old) ≡ false → records result ≡ cells.old }
        ensures lent { result.cells.ghost_name ≡ cells.entry.ghost_name }
    {
        if fits(cells.len()) {
            fill(cells, Cell::fresh());
        }
        RecordMemory {
            cells,
            head: 0,
            end: -1,
        }
    }
}

// The library's `fill` clones, which can't be known to succeed for every kind of item, and `fill_with` tells of its
// closure's calls alone.
fn fill<I: Copy>(cells: &mut [Cell<I>], cell: Cell<I>)
    ensures { cells.new ≡ replicate (length cells.old) cell }
{
    for c in cells.iter_mut() {
        *c = cell;
    }
}

fn fits(n: usize) -> bool
    ensures { result ≡ records_fit n }
{
    (1..=MAX_CELLS).contains(&n)
}

impl<'a, I: ItemKind> Store for RecordMemory<'a, I> {
    type Item = I;

    type Fault = StoreFault;

    ghost model = { record_model };

    ghost bound = { record_bound };

    // The records are the cells themselves.
    ghost imaged = { λ _. Unit {0} };

    ghost image = { λ _. tt };

    ghost lender = { λ s. s.cells.ghost_name };

    fn cells(&self) -> usize {
        if fits(self.cells.len()) {
            self.cells.len()
        } else {
            0
        }
    }

    fn head(&self) -> u64 {
        if fits(self.cells.len()) {
            self.head.min(MAX_HEAD)
        } else {
            0
        }
    }

    fn end_mark(&self) -> i64 {
        if fits(self.cells.len()) { self.end } else { -1 }
    }

    fn item(&self, i: usize) -> Result<I, StoreFault> {
        check_cell(self.cells(), i)?;
        Ok(self.cells[i].item)
    }

    fn rank(&self, i: usize) -> Result<i64, StoreFault> {
        check_cell(self.cells(), i)?;
        Ok(self.cells[i].rank)
    }

    fn gap(&self, i: usize) -> Result<i64, StoreFault> {
        check_cell(self.cells(), i)?;
        Ok(self.cells[i].gap)
    }

    fn put_item(&mut self, i: usize, item: I) -> Result<(), StoreFault> {
        check_cell(self.cells(), i)?;
        self.cells[i].item = item;
        Ok(())
    }

    fn put_rank(&mut self, i: usize, rank: i64) -> Result<(), StoreFault> {
        check_cell(self.cells(), i)?;
        self.cells[i].rank = rank;
        Ok(())
    }

    fn put_gap(&mut self, i: usize, gap: i64) -> Result<(), StoreFault> {
        check_cell(self.cells(), i)?;
        self.cells[i].gap = gap;
        Ok(())
    }

    fn set_end(&mut self, mark: i64) -> Result<(), StoreFault> {
        check_some(self.cells())?;
        self.end = mark;
        Ok(())
    }

    fn next_rank(&mut self) -> Result<u64, StoreFault> {
        check_some(self.cells())?;
        let rank = self.head;
        if rank >= MAX_HEAD {
            return Err(StoreFault::RanksUsedUp);
        }
        self.head = rank + 1;
        Ok(rank)
    }

    fn clear(&mut self, start: u64) -> Result<(), StoreFault> {
        check_start(self.cells(), start)?;
        fill(self.cells, Cell::fresh());
        self.head = start;
        self.end = -1;
        Ok(())
    }
}
