// All that is printed, in one text.
ghost use Rattle.std.specs.Prelude.{◌≡◌, ℕ, ◌^◌, ◌<◌, ◌≤◌, List, length, replicate, IfOk, string_bytes};
ghost use Rattle.grammar.specs.Plans.{HeaderFits};
ghost use Rattle.texts.specs.Parsing.{plan_model};
ghost use Rattle.rehearsals.specs.Outputs.{idle_worker, no_entry, staged, plan_rehearsal, ended_text, Printed};

use crate::staging::text_in;
use grammar::Header;
use items::{ItemKind, Reading};
use protocol::{Entry, Worker};
use reports::refused_line;
use std::alloc::{AllocError, Global};
use stores::{Cell, Refusal};
use texts::{ParseFault, Plan, parse};

// The memory of the largest plan, on the stack: the heap is asked for the plan, its items, its turns and the text alone.
const PLAN_CELLS: usize = 64;

const PLAN_WORKERS: usize = 8;

const LOG_ROOM: usize = 64;

// The text of a rehearsal in memory of its own.
fn rehearsed_text(
    heap: Global,
    header: Header,
    items: &[Reading],
    turns: &[usize],
) -> Result<String, AllocError>
    requires { HeaderFits header }
    ensures { IfOk result (λ s. string_bytes s ≡ ended_text (staged header.cells (replicate header.workers idle_worker) (replicate 64 no_entry) header.start items.now turns.now)) }
{
    let mut cells = [Cell::fresh(); PLAN_CELLS];
    let mut workers = [Worker::idle(); PLAN_WORKERS];
    let mut entries = [Entry::blank(); LOG_ROOM];
    text_in(
        heap,
        &mut cells[..header.cells as usize],
        &mut workers[..header.workers as usize],
        &mut entries,
        header.start,
        items,
        turns,
    )
}

fn plan_text(heap: Global, plan: &Plan) -> Result<String, AllocError>
    requires { HeaderFits plan.now.header }
    ensures { IfOk result (λ s. string_bytes s ≡ ended_text (plan_rehearsal (plan_model plan.now))) }
{
    let items = plan.items(heap)?;
    let turns = plan.turns(heap)?;
    rehearsed_text(heap, plan.header, items.as_slice(), turns.as_slice())
}

fn answer(heap: Global, text: &[u8]) -> Result<String, AllocError>
    ensures text { IfOk result (λ s. Printed text.now (string_bytes s)) }
    ensures only { (out other : List ℕ) → Printed text.now out → Printed text.now other → out ≡ other }
{
    match parse(heap, text) {
        Ok(plan) => plan_text(heap, &plan),
        Err(ParseFault::Text(fault)) => refused_line(heap, fault.number(), fault.place()),
        Err(ParseFault::NoMemory) => Err(AllocError),
    }
}

// What is printed of an input, which may be any bytes. There is only one such text; want of memory is an error.
pub fn rehearsal_text(heap: Global, text: &[u8]) -> Result<String, AllocError>
    ensures text { IfOk result (λ s. Printed text.now (string_bytes s)) }
    ensures only { (out other : List ℕ) → Printed text.now out → Printed text.now other → out ≡ other }
{
    answer(heap, text)
}
