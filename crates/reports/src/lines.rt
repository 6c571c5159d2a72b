// A refused turn, and the line of a refusal.
ghost use Rattle.std.specs.Prelude.{◌≡◌, IfOk, string_bytes};
ghost use Rattle.reports.specs.Lines.{refused_line};

use std::alloc::{AllocError, Global};

// A refused turn: the number of the refusal, and the turn. As numbers: a type of faults would stand in four functions to
// print one number.
#[derive(Clone, Copy, PartialEq, Eq, Debug)]
pub struct Stopped {
    pub number: u64,
    pub turn: u64,
}

// The one line that is printed of a refusal before the first turn.
pub fn refused_line(heap: Global, number: u64, place: u64) -> Result<String, AllocError>
    ensures { IfOk result (λ s. string_bytes s ≡ refused_line number place) }
{
    format!(in heap; "refused {number} {place}\n")
}
