// All that is printed of a rehearsal, in one text.
ghost use Rattle.std.specs.Prelude.{◌≡◌, ◌++◌, IfOk, OnOk, string_bytes};
ghost use Rattle.std.specs.List.{flat_map};
ghost use Rattle.reports.specs.Lines.{entry_line};
ghost use Rattle.reports.specs.Reports.{stop_text, report_text};

use crate::lines::Stopped;
use items::Reading;
use protocol::Entry;
use std::alloc::{AllocError, Global};
use std::fmt::Write;

fn push_entry(text: &mut String, entry: Entry<Reading>) -> Result<(), AllocError>
    ensures { OnOk result (string_bytes text.new ≡ string_bytes text.old ++ entry_line entry) }
{
    let Entry { rank, worker, item } = entry;
    let Reading {
        probe,
        sequence,
        level,
    } = item;
    writeln!(text, "{rank} {worker} {probe} {sequence} {level}")
}

fn entry_lines(heap: Global, entries: &[Entry<Reading>]) -> Result<String, AllocError>
    ensures { IfOk result (λ s. string_bytes s ≡ flat_map entry_line entries.now) }
{
    let mut text = String::new(heap);
    for entry in entries {
        push_entry(&mut text, *entry)?;
    }
    Ok(text)
}

fn stop_text(heap: Global, stopped: Option<Stopped>) -> Result<String, AllocError>
    ensures { IfOk result (λ s. string_bytes s ≡ stop_text stopped) }
{
    // A `match`: `map_or_else` with its two closures reads no plainer.
    match stopped {
        Some(Stopped { number, turn }) => format!(in heap; "stopped {number} {turn}\n"),
        None => Ok(String::new(heap)),
    }
}

// The log, the refused turn if there is one, and the end mark.
pub fn report(
    heap: Global,
    entries: &[Entry<Reading>],
    stopped: Option<Stopped>,
    end: i64,
) -> Result<String, AllocError>
    ensures { IfOk result (λ s. string_bytes s ≡ report_text entries.now stopped end) }
{
    let log = entry_lines(heap, entries)?;
    let stop = stop_text(heap, stopped)?;
    format!(in heap; "{log}{stop}end {end}\n")
}
