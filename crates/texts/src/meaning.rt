// What a plan stands for: its items and its turns.
ghost use Rattle.std.specs.Prelude.{◌≡◌, IfOk};
ghost use Rattle.grammar.specs.Meanings.{item_of, items_of, turns_of};

use crate::plan::Plan;
use items::Reading;
use std::alloc::{AllocError, Global};

// Item `j`. Its sequence wraps at 2^16; a plan in form has at most 64 items.
fn item(j: usize, probe: u16) -> Reading
    ensures { result ≡ item_of j probe }
{
    Reading {
        probe,
        sequence: (j & 0xffff) as u16,
        level: 0,
    }
}

impl Plan {
    // The items that are handed over, in order.
    pub fn items(&self, heap: Global) -> Result<Vec<Reading>, AllocError>
        ensures { IfOk result (λ v. v.items ≡ items_of self.now.probes.items) }
    {
        self.probes
            .iter()
            .enumerate()
            .map(|(j, probe)| item(j, *probe))
            .collect(heap)
    }

    // The party of each turn, in order.
    pub fn turns(&self, heap: Global) -> Result<Vec<usize>, AllocError>
        ensures { IfOk result (λ v. v.items ≡ turns_of self.now.stretches.items) }
    {
        // A loop into room for all: a chain took longer, and up to twice the memory.
        let room = self.stretches.iter().fold(
            0usize,
            |sum, stretch| sum.saturating_add(stretch.count as usize),
        );
        let mut turns = Vec::with_capacity(heap, room)?;
        for stretch in &self.stretches {
            let count = turns.len().checked_add(stretch.count as usize);
            turns.resize(count.ok_or(AllocError)?, stretch.party as usize)?;
        }
        Ok(turns)
    }
}
