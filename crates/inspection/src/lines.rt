// The lines that are printed.
ghost use Rattle.std.specs.Prelude.{◌≡◌, true, length, ◌++◌, IfOk, OnOk, string_bytes};
ghost use Rattle.layout.specs.Blocks.{fit};
ghost use Rattle.inspection.specs.Lines.{usage_line, refused_line, header_lines, reading_part, cell_line, used_line, cell_lines};

use blocks::{BlockFault, Header, stored_cell};
use items::Reading;
use reports::refused_line;
use std::alloc::{AllocError, Global};
use std::fmt::Write;
use stores::{Cell, Refusal};

pub(crate) const USAGE: &str =
    "usage: inspect CELLS < IMAGE (CELLS is a decimal number without leading zeros, below 2^64)\n";

pub(crate) fn usage(heap: Global) -> Result<String, AllocError>
    ensures { IfOk result (λ s. string_bytes s ≡ usage_line) }
{
    String::from_str(heap, USAGE)
}

pub(crate) fn refused(heap: Global, fault: BlockFault) -> Result<String, AllocError>
    ensures { IfOk result (λ s. string_bytes s ≡ refused_line fault) }
{
    refused_line(heap, fault.number(), fault.place())
}

// Without the last line feed.
pub(crate) fn header_text(heap: Global, n: usize, header: Header) -> Result<String, AllocError>
    ensures { IfOk result (λ s. string_bytes s ≡ header_lines n header) }
{
    let Header { head, end, .. } = header;
    format!(in heap; "cells {n}\nhead {head}\nend {end}")
}

// The lines are written into the text: as `Display` of so many pieces they did not prove.
fn push_reading(text: &mut String, reading: Reading) -> Result<(), AllocError>
    ensures { OnOk result (string_bytes text.new ≡ string_bytes text.old ++ reading_part reading) }
{
    let Reading {
        probe,
        sequence,
        level,
    } = reading;
    write!(text, "probe {probe} sequence {sequence} level {level}")
}

fn push_cell(text: &mut String, number: usize, cell: Cell<Reading>) -> Result<(), AllocError>
    ensures { OnOk result (string_bytes text.new ≡ string_bytes text.old ++ cell_line number cell) }
{
    let Cell { item, rank, gap } = cell;
    write!(text, "cell {number} rank {rank} gap {gap} ")?;
    push_reading(text, item)?;
    writeln!(text)
}

// The line of a cell in use, and nothing for a free one.
fn push_used(text: &mut String, number: usize, cell: Cell<Reading>) -> Result<(), AllocError>
    ensures { OnOk result (string_bytes text.new ≡ string_bytes text.old ++ used_line number cell) }
{
    if cell.rank >= 0 {
        push_cell(text, number, cell)
    } else {
        Ok(())
    }
}

pub(crate) fn cells_text(heap: Global, memory: &[u8], n: usize) -> Result<String, AllocError>
    requires { fit (length memory.now) n ≡ true }
    ensures { IfOk result (λ s. string_bytes s ≡ cell_lines memory.now n) }
{
    let mut text = String::new(heap);
    // By number, since a memory is bytes and has no slice of cells.
    for i in 0..n {
        let cell = stored_cell::<Reading>(memory, i).unwrap();
        push_used(&mut text, i, cell)?;
    }
    Ok(text)
}
