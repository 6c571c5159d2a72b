// A rehearsal of readings in lent memory: a straight record memory, a worker table and a log.
ghost use Rattle.std.specs.Prelude.{◌≡◌, ◌^◌, ◌<◌, ◌≤◌, length, IfOk, string_bytes};
ghost use Rattle.std.specs.Option.{option_map};
ghost use Rattle.rehearsals.specs.Outputs.{staged, ended_text};

use arrangements::{ArrangedStore, Straight};
use items::Reading;
use protocol::{Entry, Worker};
use queue::Log;
use reports::{Stopped, report};
use runs::{Stop, rehearse};
use std::alloc::{AllocError, Global};
use stores::{Cell, RecordMemory, Refusal};

fn stopped<F: Refusal>(stop: Option<Stop<F>>) -> Option<Stopped>
    ensures { result ≡ option_map (λ s. record { number = (F.Refusal.reason s.fault).number; turn = s.turn }) stop }
{
    stop.map(|Stop { turn, fault }| Stopped {
        number: fault.number(),
        turn: turn as u64,
    })
}

// The text of a rehearsal in lent memory. A struct of the parameters would be taken apart again at once.
pub(crate) fn text_in(
    heap: Global,
    cells: &mut [Cell<Reading>],
    workers: &mut [Worker<Reading>],
    entries: &mut [Entry<Reading>],
    start: u64,
    items: &[Reading],
    turns: &[usize],
) -> Result<String, AllocError>
    requires cells { (0 < length cells.old) × (length cells.old ≤ 65536) }
    requires workers { (0 < length workers.old) × (length workers.old ≤ 64) }
    requires start { start < 2 ^ 40 }
    ensures { IfOk result (λ s. string_bytes s ≡ ended_text (staged (length cells.old) workers.old entries.old start items.now turns.now)) }
{
    let mut store = ArrangedStore::new(RecordMemory::new(cells), Straight);
    let mut log = Log::new(entries);
    let done = rehearse(&mut store, workers, &mut log, start, items, turns).unwrap();
    report(heap, log.kept(), stopped(done.stop), done.end)
}
