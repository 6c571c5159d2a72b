// The calls of a block memory, over its bytes: what each makes of the model. As methods, those that
// write would each have to say again that the bytes stay those that were lent; those that read stand
// beside them.
ghost use Rattle.std.specs.Prelude.{◌≡◌, ℕ, ◌+◌, ◌*◌, ◌/◌, ◌^◌, ◌<◌, ◌≤◌, true, false, length};
ghost use Rattle.stores.specs.Model.{size, cell_of, with_head, with_end, cleared};
ghost use Rattle.layout.specs.Blocks.{fit, stored};
ghost use Rattle.blocks.specs.Models.{made_model, with_part};
ghost use Rattle.layout.specs.Decoding.{cell_block, cell_word, block_model, Imaged};

use crate::clearing::Clearing;
use crate::inspection::is_fit;
use crate::reading::{BLOCK_CELLS, cell_at};
use crate::words::{store_word, word_at};
use items::ItemKind;
use stores::{Cell, MAX_HEAD};

pub(crate) fn cells_in<I: ItemKind>(mem: &[u8], n: usize) -> usize
    ensures { result ≡ size (block_model I.ItemKind.item n mem.now) }
{
    if is_fit(mem.len(), n) { n } else { 0 }
}

pub(crate) fn head_in<I: ItemKind>(mem: &[u8], n: usize) -> u64
    ensures value { result ≡ (block_model I.ItemKind.item n mem.now).head }
    ensures bound { result ≤ 2 ^ 40 }
{
    if is_fit(mem.len(), n) {
        word_at(mem, 8).min(MAX_HEAD)
    } else {
        0
    }
}

pub(crate) fn end_in<I: ItemKind>(mem: &[u8], n: usize) -> i64
    ensures { result ≡ (block_model I.ItemKind.item n mem.now).end }
{
    if is_fit(mem.len(), n) {
        word_at(mem, 16).cast_signed()
    } else {
        -1
    }
}

pub(crate) fn cell_in<I: ItemKind>(mem: &[u8], n: usize, i: usize) -> Cell<I>
    requires { i < size (block_model I.ItemKind.item n mem.now) }
    ensures { result ≡ cell_of I.ItemKind.blank (block_model I.ItemKind.item n mem.now) i }
{
    cell_at(mem, i)
}

// A part of a cell, and what it becomes.
#[derive(Clone, Copy)]
pub(crate) enum Part<I> {
    Item(I),
    Rank(i64),
    Gap(i64),
}

// Word `part` of cell `i` becomes `w`.
fn put_part(mem: &mut [u8], i: usize, part: usize, w: u64)
    requires block { 512 * (i / 21) + 1024 ≤ length mem.old }
    requires part { part < 3 }
    ensures { mem.new ≡ stored mem.old (cell_block i) (cell_word i + part) w }
{
    store_word(mem, 1 + i / BLOCK_CELLS, 3 * (i % BLOCK_CELLS) + part, w);
}

pub(crate) fn put_in<I: ItemKind>(mem: &mut [u8], n: usize, i: usize, part: Part<I>)
    requires { i < size (block_model I.ItemKind.item n mem.old) }
    ensures model { block_model I.ItemKind.item n mem.new ≡ with_part I.ItemKind.blank (block_model I.ItemKind.item n mem.old) i part }
    ensures image { Imaged I.ItemKind.word I.ItemKind.item n mem.old → Imaged I.ItemKind.word I.ItemKind.item n mem.new }
{
    match part {
        Part::Item(item) => put_part(mem, i, 0, item.encode()),
        Part::Rank(rank) => put_part(mem, i, 1, rank.cast_unsigned()),
        Part::Gap(gap) => put_part(mem, i, 2, gap.cast_unsigned()),
    }
}

pub(crate) fn set_head_in<I: ItemKind>(mem: &mut [u8], n: usize, head: u64)
    requires some { 0 < size (block_model I.ItemKind.item n mem.old) }
    requires low { head ≤ 2 ^ 40 }
    ensures model { block_model I.ItemKind.item n mem.new ≡ with_head (block_model I.ItemKind.item n mem.old) head }
    ensures image { Imaged I.ItemKind.word I.ItemKind.item n mem.old → Imaged I.ItemKind.word I.ItemKind.item n mem.new }
{
    store_word(mem, 0, 1, head);
}

pub(crate) fn set_end_in<I: ItemKind>(mem: &mut [u8], n: usize, mark: i64)
    requires { 0 < size (block_model I.ItemKind.item n mem.old) }
    ensures model { block_model I.ItemKind.item n mem.new ≡ with_end (block_model I.ItemKind.item n mem.old) mark }
    ensures image { Imaged I.ItemKind.word I.ItemKind.item n mem.old → Imaged I.ItemKind.word I.ItemKind.item n mem.new }
{
    store_word(mem, 0, 2, mark.cast_unsigned());
}

// The memory of `n` cells, cleared at `start`.
fn write_cleared<I: ItemKind>(mem: &mut [u8], n: usize, start: u64)
    requires fit { fit (length mem.old) n ≡ true }
    requires low { start < 2 ^ 40 }
    ensures model { block_model I.ItemKind.item n mem.new ≡ cleared I.ItemKind.blank n start }
    ensures image { Imaged I.ItemKind.word I.ItemKind.item n mem.new }
{
    Clearing {
        cells: n,
        start,
        blank: I::blank().encode(),
    }
    .write(mem);
}

pub(crate) fn clear_in<I: ItemKind>(mem: &mut [u8], n: usize, start: u64)
    requires some { 0 < size (block_model I.ItemKind.item n mem.old) }
    requires low { start < 2 ^ 40 }
    ensures model { block_model I.ItemKind.item n mem.new ≡ cleared I.ItemKind.blank (size (block_model I.ItemKind.item n mem.old)) start }
    ensures image { Imaged I.ItemKind.word I.ItemKind.item n mem.new }
{
    write_cleared::<I>(mem, n, start);
}

// Clears a memory that fits at 0, and leaves any other alone.
pub(crate) fn make_in<I: ItemKind>(mem: &mut [u8], n: usize)
    ensures model { block_model I.ItemKind.item n mem.new ≡ made_model I.ItemKind.blank (length mem.old) n }
    ensures image { Imaged I.ItemKind.word I.ItemKind.item n mem.new }
    ensures alone { fit (length mem.old) n ≡ false → mem.new ≡ mem.old }
{
    if is_fit(mem.len(), n) {
        write_cleared::<I>(mem, n, 0);
    }
}
